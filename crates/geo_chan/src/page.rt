//! A page that bytes are gathered on before they are put.

ghost use Rattle.std.specs.Prelude.{◌≡◌, [], length};

use crate::{PutFault, Sink};
use std::marker::Model;

/// How many bytes a page has room for.
const PAGE: usize = 4096;

/// Bytes that are held on the stack, 4,096 at most. It is a sink without faults; where it has no room left, it answers want of memory.
#[derive(Drop)]
pub struct Page {
    bytes: [u8; PAGE],
    len: usize,
}

impl Model for Page {
    ghost use Rattle.std.specs.Prelude.{ℕ, List, take, ◌≤◌};

    ghost Value = { List ℕ };

    ghost view = { λ p. take p.len p.bytes };

    ghost invariant = { λ p. p.len ≤ 4096 };
}

impl Page {
    /// A page that holds nothing.
    pub fn new() -> Page
        ensures { result ≡ [] }
    {
        Page {
            bytes: [0; PAGE],
            len: 0,
        }
    }

    /// What it holds.
    pub fn bytes(&self) -> &[u8]
        ensures { result.now ≡ self.now }
    {
        &self.bytes[..self.len]
    }

    /// Lets go of what it holds.
    pub fn clear(&mut self)
        ensures { self.new ≡ [] }
    {
        self.len = 0;
    }
}

impl Sink for Page {
    ghost use Rattle.std.specs.Prelude.{Some, false};

    ghost written = { λ p. Some p };

    ghost faults = { λ _. 0 };

    ghost quiet = { λ _. false };

    fn put(&mut self, piece: &[u8]) -> Result<usize, PutFault> {
        let count = piece.len().min(PAGE - self.len);
        if count == 0 && !piece.is_empty() {
            return Err(PutFault::Memory);
        }
        let end = self.len + count;
        self.bytes[self.len..end].copy_from_slice(&piece[..count]);
        self.len = end;
        Ok(count)
    }
}
