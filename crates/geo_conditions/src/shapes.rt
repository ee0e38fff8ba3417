//! Sets of places as bits of a word, beside the one place that is left alone.

ghost use Rattle.std.specs.Prelude.{◌≡◌, ◌≢◌, ◌↔◌, ℕ, ◌-◌, ◌≤◌, IsTrue, slice_set, true, length};
ghost use Rattle.geo_conditions.specs.Reach.{place_in, is_only, first_places, count, how_many, sole_place};

use crate::object::MAX_SHAPES;
use std::marker::Model;

/// A set of places of an object's list of shapes, which count from 1.
#[derive(Clone, Copy)]
pub struct ShapeSet {
    there: [bool; MAX_SHAPES],
    // how many are there
    count: u8,
    // the place that is there alone, 0 where there is none or there are several
    sole: u8,
}

impl Model for ShapeSet {
    ghost use Rattle.std.specs.Prelude.{List, Bool, ◌≡◌, length};
    ghost use Rattle.geo_conditions.specs.declared.object.TheConstants.{MAX_SHAPES};
    ghost use Rattle.geo_conditions.specs.Reach.{how_many, sole_place};

    ghost Value = { List Bool };

    ghost view = { λ s. s.there };

    ghost invariant = { λ s. (length s.there ≡ MAX_SHAPES) × (s.count ≡ how_many s.there)
        × (s.sole ≡ sole_place s.there) };

    ghost inverse = { λ l. record {
      there = l;
      count = how_many l;
      sole = sole_place l;
    } };
}

// One for a place that is there.
fn counted(there: bool) -> u8
    ensures { result ≡ count there }
{
    if there { 1 } else { 0 }
}

// The place that is there alone, of so many that are there.
fn sole_of(there: &[bool; MAX_SHAPES], count: u8) -> u8
    requires { count ≡ how_many there.now }
    ensures { result ≡ sole_place there.now }
{
    if count != 1 {
        return 0;
    }
    for i in 0..MAX_SHAPES {
        if there[i] {
            return i as u8 + 1;
        }
    }
    0
}

impl ShapeSet {
    /// The places from 1 to `n`.
    pub fn up_to(n: u8) -> ShapeSet
        requires { n ≤ MAX_SHAPES }
        ensures { result ≡ first_places n }
    {
        let mut there = [false; MAX_SHAPES];
        for i in 0..n as usize {
            there[i] = true;
        }
        let sole = sole_of(&there, n);
        ShapeSet {
            there,
            count: n,
            sole,
        }
    }

    /// Whether the place is there.
    pub fn has(&self, place: u8) -> bool
        ensures { result ≡ place_in self.now place }
    {
        if place == 0 {
            false
        } else {
            match self.there.get((place - 1) as usize) {
                Some(there) => *there,
                None => false,
            }
        }
    }

    /// Whether that place is there, and no other.
    pub fn is_only(&self, place: u8) -> bool
        ensures { result ≡ is_only self.now place }
    {
        self.count == 1 && self.has(place)
    }

    /// The place that is left alone; 0 where none is left, or several are.
    pub fn sole(&self) -> u8
        ensures alone { result ≢ 0 → is_only self.now result ≡ true }
        ensures only { (place : ℕ) → is_only self.now place ≡ true → place ≡ result }
    {
        self.sole
    }

    /// Whether both sets have the same places.
    pub fn is_same(&self, other: &ShapeSet) -> bool
        ensures { IsTrue result ↔ (self.now ≡ other.now) }
    {
        if self.count == 1 && other.count == 1 {
            return self.sole == other.sole;
        }
        self.there == other.there
    }

    /// Puts the place in, or takes it out.
    pub fn set(&mut self, place: u8, there: bool)
        requires { (1 ≤ place) × (place ≤ MAX_SHAPES) }
        ensures { self.new ≡ slice_set self.old (place - 1) there }
    {
        let i = (place - 1) as usize;
        self.count = self.count + counted(there) - counted(self.there[i]);
        self.there[i] = there;
        self.sole = sole_of(&self.there, self.count);
    }
}
