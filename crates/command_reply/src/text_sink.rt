//! A text in memory that is written on.

ghost use Rattle.std.specs.Prelude.{◌≡◌, [], Some};

use geo_chan::{PutFault, Sink};
use std::alloc::Global;

/// A text in memory, which grows as it is written on. It has no faults; where no memory is left it
/// wants some.
#[derive(Drop)]
pub struct TextSink {
    bytes: Vec<u8>,
}

impl TextSink {
    /// An empty text.
    pub fn new(alloc: Global) -> TextSink
        ensures { ⟦<TextSink as Sink>⟧.written result ≡ Some [] }
    {
        TextSink {
            bytes: Vec::new(alloc),
        }
    }

    /// What was written.
    pub fn into_bytes(self) -> Vec<u8>
        ensures { ⟦<TextSink as Sink>⟧.written self ≡ Some result.items }
    {
        self.bytes
    }
}

impl Sink for TextSink {
    ghost use Rattle.std.specs.Prelude.{false};

    ghost written = { λ s. Some s.bytes.items };

    ghost faults = { λ _. 0 };

    ghost quiet = { λ _. false };

    fn put(&mut self, piece: &[u8]) -> Result<usize, PutFault> {
        self.bytes.extend_from_slice(piece)?;
        Ok(piece.len())
    }
}
