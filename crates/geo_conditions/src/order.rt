//! In which order a search tries values.

ghost use Rattle.std.specs.Prelude.{◌≡◌, IfOk, map};
ghost use Rattle.geo_conditions.specs.Order.{numbers_of};

use crate::object::ObjId;
use std::alloc::{AllocError, Global};
use std::marker::Model;

/// In which order a search tries values: the objects one after another, and each dimension upwards
/// or downwards.
pub struct SearchOrder {
    objects: Vec<ObjId>,
    down: Vec<bool>,
}

impl Drop for SearchOrder {
    fn drop(self) {
        let SearchOrder {
            objects: _objects,
            down: _down,
        } = self;
    }
}

impl Model for SearchOrder {
    ghost use Rattle.geo_conditions.specs.Walk.{Order};

    ghost Value = { Order };

    ghost use Rattle.geo_conditions.specs.Order.{numbers_of};

    ghost view = { λ s. record { objects = numbers_of s.objects.items; down = s.down.items } };
}

impl SearchOrder {
    /// The order of those objects, with the dimensions downwards where `down` says so.
    pub fn new(alloc: Global, objects: &[ObjId], down: &[bool]) -> Result<SearchOrder, AllocError>
        ensures { IfOk result (λ order.
            order ≡ record { objects = numbers_of objects.now; down = down.now }) }
    {
        let objects = Vec::from_slice(alloc, objects)?;
        let down = Vec::from_slice(alloc, down)?;
        Ok(SearchOrder { objects, down })
    }

    /// The objects in search order.
    pub fn objects(&self) -> &[ObjId]
        ensures { numbers_of result.now ≡ self.now.objects }
    {
        self.objects.as_slice()
    }

    /// For each dimension whether it runs downwards.
    pub fn down(&self) -> &[bool]
        ensures { result.now ≡ self.now.down }
    {
        self.down.as_slice()
    }
}
