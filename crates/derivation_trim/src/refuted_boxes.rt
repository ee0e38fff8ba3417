//! On which boxes of an object a condition is refuted.
//!
//! A condition that is refuted only if all its parts are, and whose forms name one coordinate of the
//! object at most, is refuted on the boxes that lie within one box. That box is found once, and each
//! question on it is a comparison then.

ghost use Rattle.std.specs.Prelude.{◌≤◌};

use crate::reach::near;
use derivation::Side;
use geo_base::{KBox, MAX_DIMS, Point};
use geo_conditions::{Cond, Conds, Form, ObjId, State, Term};

/// The boxes of an object at a place on which a condition is refuted.
#[derive(Clone, Copy)]
pub enum RefutedBoxes<const K: usize> {
    /// None.
    Never,
    /// Those that lie within this one.
    Within(KBox<K>),
    /// It takes a question for each box.
    Asked,
}

// What is known of a part of a condition: that it is refuted on no box, that it is refuted within
// the box that is being narrowed, or nothing.
#[derive(Clone, Copy)]
enum Part {
    Never,
    Within,
    Asked,
}

/// The objects, beside the one at a place, that were asked for.
#[derive(Clone, Copy)]
pub enum Others {
    None,
    One(ObjId),
    Many,
}

impl Others {
    fn and(self, o: ObjId) -> Others {
        match self {
            Others::None => Others::One(o),
            Others::One(other) if other.0 == o.0 => self,
            _ => Others::Many,
        }
    }
}

/// An object at a place, and a box that is being narrowed to where a condition is refuted.
#[derive(Drop)]
struct Narrowing<'a, const K: usize> {
    state: &'a State<K>,
    object: ObjId,
    place: u8,
    within: KBox<K>,
    others: Others,
}

// A part that says the same of each box.
fn literal(is_possible: Option<bool>) -> Part {
    match is_possible {
        Some(true) => Part::Never,
        Some(false) => Part::Within,
        None => Part::Asked,
    }
}

impl<'a, const K: usize> Narrowing<'a, K> {
    // Whether the shape is open to an object, where there is such an object.
    fn has(&mut self, o: ObjId, place: u8) -> Option<bool>
        requires { K ≤ MAX_DIMS }
    {
        if o.0 == self.object.0 {
            Some(place != 0 && place == self.place)
        } else if (o.0 as usize) < self.state.objects() {
            self.others = self.others.and(o);
            Some(self.state.has_shape(o, place))
        } else {
            None
        }
    }

    // Whether another shape is open to it.
    fn has_other(&mut self, o: ObjId, place: u8) -> Option<bool>
        requires { K ≤ MAX_DIMS }
    {
        if o.0 == self.object.0 {
            Some(place == 0 || place != self.place)
        } else if (o.0 as usize) < self.state.objects() {
            self.others = self.others.and(o);
            Some(!self.state.is_only_shape(o, place))
        } else {
            None
        }
    }

    // The least value of a term of another object, where there is such a coordinate.
    fn least_term(&mut self, term: &Term) -> Option<i64>
        requires { K ≤ MAX_DIMS }
    {
        if (term.object.0 as usize) >= self.state.objects() || term.dimension >= K {
            return None;
        }
        self.others = self.others.and(term.object);
        let open = self.state.interval(term.object, term.dimension);
        let end = if term.factor < 0 { open.hi } else { open.lo };
        term.factor.checked_mul(end)
    }

    // Narrows the box to where this term of the object and the least value of the others are more
    // than 0.
    fn narrow(&mut self, term: &Term, least: i64) -> Option<Part> {
        let d = term.dimension;
        if d >= K {
            return None;
        }
        let end = least.checked_sub(1)?;
        let (lo, hi) = (self.within.lo.get(d), self.within.hi.get(d));
        match term.factor {
            1 => self.within.lo.set(d, lo.max(end.checked_neg()?)),
            -1 => self.within.hi.set(d, hi.min(end)),
            _ => return None,
        }
        Some(Part::Within)
    }

    // A form is refuted where its least value is more than 0.
    fn take_form(&mut self, f: &Form) -> Option<Part>
        requires { K ≤ MAX_DIMS }
    {
        let mut least = f.constant();
        let mut own: Option<Term> = None;
        for term in f.terms() {
            if term.object.0 != self.object.0 {
                least = least.checked_add(self.least_term(term)?)?;
            } else if own.is_none() {
                own = Some(*term);
            } else {
                return None;
            }
        }
        match own {
            Some(term) => self.narrow(&term, least),
            None => Some(literal(Some(least <= 0))),
        }
    }

    // Narrows the box to where all of the conditions are refuted.
    #[cycle(take)]
    fn take_all(&mut self, conditions: &Conds) -> Part
        requires { K ≤ MAX_DIMS }
    {
        let mut all = Part::Within;
        for c in conditions.as_slice() {
            match self.take(c) {
                Part::Never => return Part::Never,
                Part::Within => {}
                Part::Asked => all = Part::Asked,
            }
        }
        all
    }

    // Narrows the box to where the condition is refuted. It is inlined where parts are narrowed to,
    // so that a part takes no call.
    #[cycle(take)]
    #[inline(always)]
    fn take(&mut self, c: &Cond) -> Part
        requires { K ≤ MAX_DIMS }
    {
        match c {
            Cond::Lin(f) => self.take_form(f).unwrap_or(Part::Asked),
            Cond::Shape(o, place) => literal(self.has(*o, *place)),
            Cond::NotShape(o, place) => literal(self.has_other(*o, *place)),
            Cond::AtLeast(1, conditions) => self.take_all(conditions),
            Cond::AtLeast(_, _) => Part::Asked,
        }
    }
}

impl<const K: usize> RefutedBoxes<K> {
    /// The boxes of the object at the place on which the condition is refuted, with what is left to
    /// the other objects, and which of these it takes to tell.
    pub fn of(c: &Cond, state: &State<K>, object: ObjId, place: u8) -> (RefutedBoxes<K>, Others)
        requires { K ≤ MAX_DIMS }
    {
        let mut narrowing = Narrowing {
            state,
            object,
            place,
            within: KBox::new(Point::filled(i64::MIN), Point::filled(i64::MAX)),
            others: Others::None,
        };
        let boxes = match narrowing.take(c) {
            Part::Never => RefutedBoxes::Never,
            Part::Within => RefutedBoxes::Within(narrowing.within),
            Part::Asked => RefutedBoxes::Asked,
        };
        (boxes, narrowing.others)
    }
}

/// Whether the first box lies within the second, by its ends.
pub fn lies_within<const K: usize>(b: &KBox<K>, outer: &KBox<K>) -> bool {
    for d in 0..K {
        if b.lo.get(d) < outer.lo.get(d) || outer.hi.get(d) < b.hi.get(d) {
            return false;
        }
    }
    true
}

/// The farthest side at which the part of `b` on it still lies within the other box, and is not the
/// whole of `b`; the side itself, where the part on that does not.
pub fn widest_within<const K: usize>(outer: &KBox<K>, b: &KBox<K>, side: Side) -> Side {
    if !lies_within(&near(b, side), outer) {
        return side;
    }
    match side {
        Side::Upto(d, v) if (d as usize) < K => {
            let last = b.hi.get(d as usize).saturating_sub(1);
            Side::Upto(d, v.max(outer.hi.get(d as usize).min(last)))
        }
        Side::From(d, v) if (d as usize) < K => {
            let first = b.lo.get(d as usize).saturating_add(1);
            Side::From(d, v.min(outer.lo.get(d as usize).max(first)))
        }
        _ => side,
    }
}
