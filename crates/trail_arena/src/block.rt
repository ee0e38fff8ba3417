//! A block of items, which never moves.
ghost use Rattle.std.specs.Prelude.{◌≡◌, ◌+◌, ◌-◌, ◌<◌, ◌↔◌, [], ◌∷◌, ◌++◌, length, replicate, None, IfOk, IsTrue};
ghost use Rattle.trail_arena.specs.Places.{IsRow};
ghost use Rattle.trail_arena.specs.Stack.{pile};

use crate::cells::{Base, Cells, Deed, allocate, deallocate};
use std::alloc::{AllocError, Global};
use std::marker::Model;
use std_alloc::room::may_hold;

/// The first `len` of its places hold the items.
pub struct Block<T: Copy> {
    base: Base<T>,
    capacity: usize,
    len: usize,
    cells: Cells<T>,
    deed: Deed<T, Global>,
    alloc: Global,
}

impl<T: Copy> Model for Block<T> {
    ghost use Rattle.trail_arena.specs.Stack.{Pile, pile, pile_code};

    ghost Value = { Pile T };

    ghost coded = { pile_code T.code };

    ghost use Rattle.std.specs.Prelude.{◌≡◌, ◌-◌};
    ghost use Rattle.trail_arena.specs.Places.{somes, IsRow};

    ghost view = { λ b. pile (somes b.cells.slots) (b.capacity - b.len) };

    ghost invariant = { λ b. (b.cells.at ≡ b.base.ptr) × (b.deed.at ≡ b.base.ptr)
        × (b.deed.len ≡ b.capacity) × (b.deed.alloc ≡ b.alloc)
        × IsRow b.cells.slots b.len b.capacity };
}

impl<T: Copy> Block<T> {
    /// A block without items, with room for that many.
    pub(crate) fn new(alloc: Global, capacity: usize) -> Result<Block<T>, AllocError>
        ensures { IfOk result (λ b. b ≡ pile [] capacity) }
    {
        if !may_hold::<T>(capacity) {
            return Err(AllocError);
        }
        let (base, cells, deed) = allocate(&alloc, capacity)?;
        Ok(Block {
            base,
            capacity,
            len: 0,
            cells,
            deed,
            alloc,
        })
    }

    /// Whether it has no room left.
    pub(crate) fn is_full(&self) -> bool
        ensures { IsTrue result ↔ self.now.spare ≡ 0 }
    {
        self.len >= self.capacity
    }

    /// Whether it has no item.
    pub(crate) fn is_empty(&self) -> bool
        ensures { IsTrue result ↔ self.now.items ≡ [] }
    {
        self.len == 0
    }

    /// Puts an item on top.
    pub(crate) fn push(&mut self, item: T)
        requires { 0 < self.old.spare }
        ensures { self.new ≡ pile (self.old.items ++ item ∷ []) (self.old.spare - 1) }
    {
        self.cells.write(self.base, self.len, item);
        self.len += 1;
    }

    /// Takes the top item.
    pub(crate) fn pop(&mut self) -> T
        requires { 0 < length self.old.items }
        ensures items { self.old.items ≡ self.new.items ++ result ∷ [] }
        ensures spare { self.new.spare ≡ self.old.spare + 1 }
    {
        self.len -= 1;
        self.cells.read(self.base, self.len)
    }
}

impl<T: Copy> Drop for Block<T> {
    fn drop(self) {
        let Block {
            base,
            capacity,
            len,
            mut cells,
            deed,
            alloc,
        } = self;
        clear(&mut cells, base, len);
        deallocate(&alloc, base, capacity, cells, deed);
    }
}

/// Takes the items out of their places.
fn clear<T: Copy>(cells: &mut Cells<T>, base: Base<T>, len: usize)
    requires base { base.ptr ≡ cells.old.at }
    requires row { IsRow cells.old.slots len (length cells.old.slots) }
    ensures at { cells.new.at ≡ cells.old.at }
    ensures slots { cells.new.slots ≡ replicate (length cells.old.slots) None }
{
    let mut left = len;
    while left > 0 {
        left -= 1;
        let _item = cells.read(base, left);
    }
}
