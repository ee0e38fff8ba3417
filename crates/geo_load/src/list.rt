//! A list of objects.
ghost use Rattle.std.specs.Prelude.{◌≡◌, ◌<◌, length, slice_index_or};

use geo_conditions::ObjId;
use std::marker::Model;

/// Objects one after another.
#[derive(Drop)]
pub struct ObjList {
    numbers: Vec<u16>,
}

impl Model for ObjList {
    ghost use Rattle.std.specs.Prelude.{ℕ, List};

    ghost Value = { List ℕ };

    ghost view = { λ list. list.numbers.items };
}

impl ObjList {
    /// The objects of these numbers, from 0.
    pub fn new(numbers: Vec<u16>) -> ObjList
        ensures { result ≡ numbers.items }
    {
        ObjList { numbers }
    }

    /// How many objects there are.
    pub fn len(&self) -> usize
        ensures { result ≡ length self.now }
    {
        self.numbers.len()
    }

    /// The object at a position, from 0.
    pub fn at(&self, k: usize) -> ObjId
        requires { k < length self.now }
        ensures { result.0 ≡ slice_index_or self.now k 0 }
    {
        ObjId(self.numbers[k])
    }
}
