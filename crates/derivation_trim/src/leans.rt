//! What of a state a part of a derivation leans on.

use geo_conditions::{Cond, Form, ObjId};

/// A set of objects, one bit for each number below 256, which is more than there can be.
#[derive(Clone, Copy)]
struct ObjectSet {
    words: [u64; 4],
}

impl ObjectSet {
    fn has(&self, o: ObjId) -> bool {
        match self.words.get((o.0 / 64) as usize) {
            Some(word) => (*word >> (o.0 % 64) as u32) & 1 == 1,
            None => false,
        }
    }

    fn insert(&mut self, o: ObjId) {
        let word = (o.0 / 64) as usize;
        if word < 4 {
            self.words[word] |= 1 << (o.0 % 64) as u32;
        }
    }

    fn remove(&mut self, o: ObjId) {
        let word = (o.0 / 64) as usize;
        if word < 4 {
            self.words[word] &= !(1 << (o.0 % 64) as u32);
        }
    }

    fn join(&mut self, other: &ObjectSet) {
        for word in 0..4 {
            self.words[word] |= other.words[word];
        }
    }
}

/// What is known of an object: its places, and in a dimension the low end or the high end.
#[derive(Clone, Copy)]
pub enum Aspect {
    Places,
    Low(usize),
    High(usize),
}

/// Aspects of objects: for each aspect a set of objects. No object has an aspect of a dimension
/// that is not there.
#[derive(Clone, Copy)]
pub struct Leans<const K: usize> {
    places: ObjectSet,
    lows: [ObjectSet; K],
    highs: [ObjectSet; K],
}

impl<const K: usize> Leans<K> {
    /// Nothing.
    pub fn new() -> Leans<K> {
        let none = ObjectSet { words: [0; 4] };
        Leans {
            places: none,
            lows: [none; K],
            highs: [none; K],
        }
    }

    /// Whether this aspect of the object is there.
    pub fn has(&self, o: ObjId, aspect: Aspect) -> bool {
        match aspect {
            Aspect::Places => self.places.has(o),
            Aspect::Low(d) => d < K && self.lows[d].has(o),
            Aspect::High(d) => d < K && self.highs[d].has(o),
        }
    }

    /// Puts an aspect of the object in.
    pub fn insert(&mut self, o: ObjId, aspect: Aspect) {
        match aspect {
            Aspect::Places => self.places.insert(o),
            Aspect::Low(d) if d < K => self.lows[d].insert(o),
            Aspect::High(d) if d < K => self.highs[d].insert(o),
            _ => {}
        }
    }

    /// Takes an aspect of the object out.
    pub fn remove(&mut self, o: ObjId, aspect: Aspect) {
        match aspect {
            Aspect::Places => self.places.remove(o),
            Aspect::Low(d) if d < K => self.lows[d].remove(o),
            Aspect::High(d) if d < K => self.highs[d].remove(o),
            _ => {}
        }
    }

    /// Takes the places of the object out, and leaves all its ends in.
    pub fn lean_on_ends(&mut self, o: ObjId) {
        self.places.remove(o);
        for d in 0..K {
            self.lows[d].insert(o);
            self.highs[d].insert(o);
        }
    }

    /// Puts in what another set has.
    pub fn join(&mut self, other: &Leans<K>) {
        self.places.join(&other.places);
        for d in 0..K {
            self.lows[d].join(&other.lows[d]);
            self.highs[d].join(&other.highs[d]);
        }
    }

    // The least value of a form lies at the low ends of coordinates with a positive factor, and at
    // the high ends of the others.
    fn insert_form(&mut self, f: &Form) {
        for term in f.terms() {
            if term.factor < 0 {
                self.insert(term.object, Aspect::High(term.dimension));
            } else {
                self.insert(term.object, Aspect::Low(term.dimension));
            }
        }
    }

    /// Puts in what it takes to refute the condition.
    pub fn insert_refuted(&mut self, c: &Cond) {
        match c {
            Cond::Lin(f) => self.insert_form(f),
            Cond::Shape(o, _) => self.insert(*o, Aspect::Places),
            Cond::NotShape(o, _) => self.insert(*o, Aspect::Places),
            Cond::AtLeast(_, children) => {
                for child in children.as_slice() {
                    self.insert_refuted(child);
                }
            }
        }
    }
}
