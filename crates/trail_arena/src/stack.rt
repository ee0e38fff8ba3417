//! The stack.
ghost use Rattle.std.specs.Prelude.{◌≡◌, ◌+◌, ◌-◌, ◌<◌, ◌≤◌, ◌↔◌, [], ◌∷◌, ◌++◌, length, IsTrue, OnOk, MatchOption, ◌^◌};
ghost use Rattle.trail_arena.specs.Chains.{blocks};
ghost use Rattle.trail_arena.specs.Stack.{pile, stacked, room, HasRoom, HasItem, OnTop, ArePiles, Holds};

use crate::block::Block;
use crate::chain::Chain;
use std::alloc::{AllocError, Global};
use std::marker::Model;

/// A stack that takes memory only where that is asked for. It lies in linked blocks, each of which
/// stays where it is until the stack is dropped.
pub struct TrailStack<T: Copy> {
    used: Chain<Block<T>>,
    free: Chain<Block<T>>,
    len: usize,
    spare: usize,
    alloc: Global,
}

impl<T: Copy> Model for TrailStack<T> {
    ghost use Rattle.trail_arena.specs.Stack.{Pile, pile, pile_code};

    ghost Value = { Pile T };

    ghost coded = { pile_code T.code };

    ghost use Rattle.trail_arena.specs.Chains.{blocks};
    ghost use Rattle.trail_arena.specs.Stack.{stacked, IsStack};

    ghost view = { λ s. pile (stacked (blocks s.used)) s.spare };

    ghost invariant = { λ s. IsStack (blocks s.used) (blocks s.free) s.len s.spare };
}

impl<T: Copy> TrailStack<T> {
    /// The empty stack, without room. It takes no memory.
    pub fn new(alloc: Global) -> TrailStack<T>
        ensures { result ≡ pile [] 0 }
    {
        TrailStack {
            used: Chain::End,
            free: Chain::End,
            len: 0,
            spare: 0,
            alloc,
        }
    }

    /// Makes room for `n` items at least. After an error the items are as before, and so is the
    /// room.
    pub fn reserve(&mut self, n: usize) -> Result<(), AllocError>
        ensures items { self.new.items ≡ self.old.items }
        ensures kept { self.old.spare ≤ self.new.spare }
        ensures ok { OnOk result (n ≤ self.new.spare) }
    {
        if n <= self.spare {
            return Ok(());
        }
        if n > usize::MAX - self.len {
            return Err(AllocError);
        }
        let block = Block::new(self.alloc, n - self.spare)?;
        self.free.link(self.alloc, block)?;
        self.spare = n;
        Ok(())
    }

    /// Puts an item on top. It takes no memory.
    pub fn push(&mut self, item: T)
        requires room { 0 < self.old.spare }
        ensures { self.new ≡ pile (self.old.items ++ item ∷ []) (self.old.spare - 1) }
    {
        make_room(&mut self.used, &mut self.free);
        put(&mut self.used, item);
        self.len += 1;
        self.spare -= 1;
    }

    /// Takes the top item, if there is one. Its place is room again.
    pub fn pop(&mut self) -> Option<T>
        ensures { MatchOption result ((self.old.items ≡ []) × (self.new ≡ self.old))
            (λ v. (self.old.items ≡ self.new.items ++ v ∷ [])
            × (self.new.spare ≡ self.old.spare + 1)) }
    {
        if self.len == 0 {
            return None;
        }
        uncover(&mut self.used, &mut self.free);
        let item = take(&mut self.used);
        self.len -= 1;
        self.spare += 1;
        Some(item)
    }

    /// How many items there are.
    pub fn len(&self) -> usize
        ensures { result ≡ length self.now.items }
    {
        self.len
    }

    /// How many more there is room for.
    pub fn spare(&self) -> usize
        ensures value { result ≡ self.now.spare }
        ensures fits { length self.now.items + self.now.spare < 2 ^ 64 }
    {
        self.spare
    }
}

impl<T: Copy> Drop for TrailStack<T> {
    fn drop(self) {
        let TrailStack {
            used,
            free,
            len: _,
            spare: _,
            alloc: _,
        } = self;
        used.unlink();
        free.unlink();
    }
}

/// Whether the top block has room.
fn has_room<T: Copy>(used: &Chain<Block<T>>) -> bool
    ensures { IsTrue result ↔ HasRoom (blocks used.now) }
{
    match used {
        Chain::End => false,
        Chain::Linked(block, _) => !block.is_full(),
    }
}

/// Whether the top block holds an item.
fn has_item<T: Copy>(used: &Chain<Block<T>>) -> bool
    ensures { IsTrue result ↔ HasItem (blocks used.now) }
{
    match used {
        Chain::End => false,
        Chain::Linked(block, _) => !block.is_empty(),
    }
}

/// Puts a free block on top where the top one is full.
fn make_room<T: Copy>(used: &mut Chain<Block<T>>, free: &mut Chain<Block<T>>)
    requires piles { ArePiles (blocks used.old) (blocks free.old) }
    requires room { 0 < room (blocks used.old) + room (blocks free.old) }
    ensures holds { Holds (blocks used.new) (blocks free.new) (stacked (blocks used.old))
        (room (blocks used.old) + room (blocks free.old)) }
    ensures room { HasRoom (blocks used.new) }
{
    if !has_room(used) {
        free.move_top(used);
    }
}

/// Frees the top block where it is empty.
fn uncover<T: Copy>(used: &mut Chain<Block<T>>, free: &mut Chain<Block<T>>)
    requires piles { ArePiles (blocks used.old) (blocks free.old) }
    requires items { 0 < length (stacked (blocks used.old)) }
    ensures holds { Holds (blocks used.new) (blocks free.new) (stacked (blocks used.old))
        (room (blocks used.old) + room (blocks free.old)) }
    ensures item { HasItem (blocks used.new) }
{
    if !has_item(used) {
        used.move_top(free);
    }
}

/// Puts an item on the top block.
fn put<T: Copy>(used: &mut Chain<Block<T>>, item: T)
    requires { HasRoom (blocks used.old) }
    ensures { OnTop (blocks used.old) (λ p ps. blocks used.new
        ≡ pile (p.items ++ item ∷ []) (p.spare - 1) ∷ ps) }
{
    if let Chain::Linked(block, _) = used {
        block.push(item);
    }
}

/// Takes an item from the top block.
fn take<T: Copy>(used: &mut Chain<Block<T>>) -> T
    requires { HasItem (blocks used.old) }
    ensures { OnTop (blocks used.old) (λ p ps. OnTop (blocks used.new)
        (λ q qs. (p.items ≡ q.items ++ result ∷ []) × (q.spare ≡ p.spare + 1) × (qs ≡ ps))) }
{
    match used {
        Chain::Linked(block, _) => block.pop(),
        Chain::End => unreachable!(),
    }
}
