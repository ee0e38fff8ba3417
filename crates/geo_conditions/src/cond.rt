//! Conditions on tuples: sums of coordinates that are at most zero, the shape of an object, and
//! how many of some conditions have to be true. All rules are grounded to these.

ghost use Rattle.std.specs.Prelude.{◌≡◌, ◌==◌, [], ◌∷◌, ◌++◌, length, IfOk, OnOk, OnErr};

use crate::form::Form;
use crate::object::ObjId;
use std::alloc::{AllocError, Global};

/// A condition on a tuple. A shape is named by its place, from 1, in the object's list of shapes.
#[cycle(cond)]
pub enum Cond {
    /// The form is at most 0.
    Lin(Form),
    /// The object has that shape.
    Shape(ObjId, u8),
    /// The object has another shape.
    NotShape(ObjId, u8),
    /// At least so many of the conditions are true.
    AtLeast(i64, Conds),
}

/// Written out, since a derived one is made and proved anew in each crate that drops a condition.
impl Drop for Cond {
    #[cycle(cond_drop)]
    fn drop(self) {
        match self {
            Cond::Lin(_form) => {}
            Cond::Shape(_object, _place) => {}
            Cond::NotShape(_object, _place) => {}
            Cond::AtLeast(_least, _conditions) => {}
        }
    }
}

/// A list of conditions.
#[cycle(cond)]
#[derive(Drop)]
pub struct Conds {
    items: Vec<Cond>,
}

impl Conds {
    /// No condition. It takes no memory.
    pub fn new(alloc: Global) -> Conds
        ensures { result.items.items ≡ [] }
    {
        Conds {
            items: Vec::new(alloc),
        }
    }

    /// No condition, with room for that many. The answer is an error where memory is short.
    pub fn with_capacity(alloc: Global, capacity: usize) -> Result<Conds, AllocError>
        ensures { IfOk result (λ list. list.items.items ≡ []) }
    {
        Ok(Conds {
            items: Vec::with_capacity(alloc, capacity)?,
        })
    }

    /// Appends a condition. After an error the list is as before.
    pub fn push(&mut self, c: Cond) -> Result<(), AllocError>
        ensures ok { OnOk result (self.new.items.items ≡ self.old.items.items ++ c ∷ []) }
        ensures err { OnErr result (self.new.items.items ≡ self.old.items.items) }
    {
        self.items.push(c)?;
        Ok(())
    }

    /// The conditions in their order.
    pub fn as_slice(&self) -> &[Cond]
        ensures { result.now ≡ self.now.items.items }
    {
        self.items.as_slice()
    }

    /// How many conditions there are.
    pub fn len(&self) -> usize
        ensures { result ≡ length self.now.items.items }
    {
        self.items.len()
    }

    /// Whether there is none.
    pub fn is_empty(&self) -> bool
        ensures { result ≡ (length self.now.items.items == 0) }
    {
        self.items.is_empty()
    }
}
