//! A chain of blocks, the first one on top.
ghost use Rattle.std.specs.Prelude.{◌≡◌, ◌∷◌, OnOk, OnErr};
ghost use Rattle.trail_arena.specs.Chains.{blocks};
ghost use Rattle.trail_arena.specs.Stack.{OnTop};

use std::alloc::{AllocError, Global};
use std::mem;

/// A block linked to those below it.
#[derive(Drop)]
pub enum Chain<B> {
    /// No block.
    End,
    /// A block, and those below it.
    Linked(B, Box<Chain<B>>),
}

impl<B: Drop> Chain<B> {
    /// Puts a block on top. Where memory is wanted the chain stays, and the block is given up.
    pub(crate) fn link(&mut self, alloc: Global, block: B) -> Result<(), AllocError>
        ensures ok { OnOk result (blocks self.new ≡ block ∷ blocks self.old) }
        ensures err { OnErr result (blocks self.new ≡ blocks self.old) }
    {
        let mut rest = Box::new(alloc, Chain::End)?;
        mem::swap(self, &mut rest);
        *self = Chain::Linked(block, rest);
        Ok(())
    }

    /// Moves the top block on top of another chain. It takes no memory.
    pub(crate) fn move_top(&mut self, to: &mut Chain<B>)
        requires { OnTop (blocks self.old) (λ b bs. Unit {0}) }
        ensures { OnTop (blocks self.old) (λ b bs. (blocks self.new ≡ bs)
            × (blocks to.new ≡ b ∷ blocks to.old)) }
    {
        if let Chain::Linked(block, mut rest) = mem::replace(self, Chain::End) {
            mem::swap(self, &mut rest);
            mem::swap(to, &mut rest);
            *to = Chain::Linked(block, rest);
        }
    }

    /// Drops one block after the other, so that a long chain needs no deep stack.
    pub(crate) fn unlink(self) {
        let mut rest = self;
        while let Chain::Linked(_block, below) = rest {
            rest = Box::into_inner(below);
        }
    }
}
