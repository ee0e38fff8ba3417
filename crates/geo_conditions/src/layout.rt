//! Tuples: where each object is put, in one list with small origins inline.

ghost use Rattle.std.specs.Prelude.{◌≡◌, ◌<◌, ◌≤◌, pos, length, replicate, slice_set, [], ◌∷◌, ◌++◌, IfOk, OnOk, OnErr};
ghost use Rattle.geo_base.specs.Boxes.{coordinate};
ghost use Rattle.geo_conditions.specs.Reach.{spot};

use crate::object::ObjId;
use geo_base::MAX_DIMS;
use smallvec::SmallVec;
use std::alloc::{AllocError, Global};
use std::marker::Model;

/// Where one object is put: the place of its shape, from 1, and its origin.
struct Placed {
    place: u8,
    origin: SmallVec<i64, MAX_DIMS>,
}

impl Drop for Placed {
    fn drop(self) {
        let Placed {
            place: _,
            origin: _origin,
        } = self;
    }
}

impl Model for Placed {
    ghost use Rattle.geo_conditions.specs.Reach.{Spot};

    ghost Value = { Spot };

    ghost view = { λ p. record { place = p.place; origin = p.origin.items } };
}

/// A tuple: a shape and an origin for each object, in the order of the objects.
pub struct Layout {
    alloc: Global,
    spots: Vec<Placed>,
}

/// Written out, since a derived one is made and proved anew wherever a layout is dropped.
impl Drop for Layout {
    fn drop(self) {
        let Layout {
            alloc: _,
            spots: _spots,
        } = self;
    }
}

impl Model for Layout {
    ghost use Rattle.std.specs.Prelude.{List};
    ghost use Rattle.geo_conditions.specs.Reach.{Spot};

    ghost Value = { List Spot };

    ghost view = { λ l. l.spots.items };
}

impl Layout {
    /// The tuple of no object. It takes no memory.
    pub fn new(alloc: Global) -> Layout
        ensures { result ≡ [] }
    {
        Layout {
            alloc,
            spots: Vec::new(alloc),
        }
    }

    /// The tuple that puts each object at its first place, with the origin at zero.
    pub fn with_room(alloc: Global, objects: usize, dims: usize) -> Result<Layout, AllocError>
        requires { dims ≤ MAX_DIMS }
        ensures { IfOk result (λ t. t
            ≡ replicate objects (record { place = 1; origin = replicate dims (pos 0) })) }
    {
        let zeros = [0; MAX_DIMS];
        let mut layout = Layout::new(alloc);
        'objects: for _done in 0..objects {
            layout.push(1, &zeros[..dims])?;
        }
        Ok(layout)
    }

    /// Appends an object. After an error the tuple is as before.
    pub fn push(&mut self, place: u8, origin: &[i64]) -> Result<(), AllocError>
        ensures ok { OnOk result
            (self.new ≡ self.old ++ record { place = place; origin = origin.now } ∷ []) }
        ensures err { OnErr result (self.new ≡ self.old) }
    {
        let origin = SmallVec::from_slice(self.alloc, origin)?;
        self.spots.push(Placed { place, origin })?;
        Ok(())
    }

    /// How many objects there are.
    pub fn len(&self) -> usize
        ensures { result ≡ length self.now }
    {
        self.spots.len()
    }

    /// The place of the object's shape.
    pub fn place(&self, o: ObjId) -> u8
        requires { o.0 < length self.now }
        ensures { result ≡ (spot self.now o.0).place }
    {
        let placed = &self.spots[o.0 as usize];
        placed.place
    }

    /// The object's coordinate in the dimension `d`.
    pub fn origin(&self, o: ObjId, d: usize) -> i64
        requires object { o.0 < length self.now }
        requires dimension { d < length (spot self.now o.0).origin }
        ensures { result ≡ coordinate (spot self.now o.0).origin d }
    {
        let placed = &self.spots[o.0 as usize];
        placed.origin.as_slice()[d]
    }

    /// Puts the object at another place, and leaves all else.
    pub fn set_place(&mut self, o: ObjId, place: u8)
        requires { o.0 < length self.old }
        ensures { self.new ≡ slice_set self.old o.0
            (record { place = place; origin = (spot self.old o.0).origin }) }
    {
        let placed = &mut self.spots[o.0 as usize];
        placed.place = place;
    }

    /// Gives the object another coordinate in the dimension `d`, and leaves all else.
    pub fn set_value(&mut self, o: ObjId, d: usize, v: i64)
        requires object { o.0 < length self.old }
        requires dimension { d < length (spot self.old o.0).origin }
        ensures { self.new ≡ slice_set self.old o.0
            (record {
              place = (spot self.old o.0).place;
              origin = slice_set (spot self.old o.0).origin d v;
            }) }
    {
        let placed = &mut self.spots[o.0 as usize];
        placed.origin.as_mut_slice()[d] = v;
    }
}
