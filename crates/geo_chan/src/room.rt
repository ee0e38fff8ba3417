//! A sink in memory that takes all its memory at once.
ghost use Rattle.std.specs.Prelude.{◌≡◌, ◌≤◌, Option, Some, List, [], ℕ, length, take, min, IfOk, true};

use crate::{PutFault, Sink};
use std::alloc::{AllocError, Global};

/// A sink that has room for so many bytes from the start. It never wants memory, and fails where it is full.
#[derive(Drop)]
pub struct RoomSink {
    bytes: Vec<u8>,
    len: usize,
    faults: u64,
    ghost within: { len ≤ length bytes.items },
}

impl RoomSink {
    ghost use Rattle.geo_chan.specs.Calls.{room_left};

    /// An empty sink with room for `room` bytes, whose memory is taken at once.
    pub fn start(alloc: Global, room: usize) -> Result<Self, AllocError>
        ensures written { IfOk result (λ s. ⟦<RoomSink as Sink>⟧.written s ≡ Some []) }
        ensures faults { IfOk result (λ s. ⟦<RoomSink as Sink>⟧.faults s ≡ 0) }
        ensures quiet { IfOk result (λ s. ⟦<RoomSink as Sink>⟧.quiet s ≡ true) }
        ensures room { IfOk result (λ s. room_left s ≡ room) }
    {
        Ok(RoomSink {
            bytes: vec![in alloc; 0; room]?,
            len: 0,
            faults: 0,
        })
    }

    /// What was written.
    pub fn bytes(&self) -> &[u8]
        ensures { ⟦<RoomSink as Sink>⟧.written self.now ≡ Some result.now }
    {
        &self.bytes[..self.len]
    }
}

impl Sink for RoomSink {
    ghost use Rattle.std.specs.Prelude.{IsErrOf, ◌↔◌, ◌<◌, ◌-◌};
    ghost use Rattle.std.specs.Io.{WritesAtMost};
    ghost use Rattle.std.specs.Io.KnownBytes.{WriteAppends};
    ghost use Rattle.geo_chan.specs.Causes.{PutCause, StaysQuiet};
    ghost use Rattle.geo_chan.specs.Calls.{room_left};

    ghost written = { λ s. Some (take s.len s.bytes.items) };

    ghost faults = { λ s. s.faults };

    ghost quiet = { λ _. true };

    fn put(&mut self, piece: &[u8]) -> Result<usize, PutFault>
        ensures bound { WritesAtMost result piece.now }
        ensures progress { IfOk result (λ n. 0 < length piece.now → 0 < n) }
        ensures bytes { WriteAppends (⟦<RoomSink as Sink>⟧.written self.old)
            (⟦<RoomSink as Sink>⟧.written self.new) result piece.now }
        ensures cause { PutCause (⟦<RoomSink as Sink>⟧.faults self.old)
            (⟦<RoomSink as Sink>⟧.faults self.new) result }
        ensures quiet { StaysQuiet (⟦<RoomSink as Sink>⟧.quiet self.old)
            (⟦<RoomSink as Sink>⟧.quiet self.new) result }

        // It fails exactly where a nonempty piece meets a full sink; else it takes as much of the piece as fits.
        ensures fails { IsErrOf result PutFault.Failed
            ↔ ((0 < length piece.now) × (room_left self.old ≡ 0)) }
        ensures amount { IfOk result (λ n. n ≡ min (length piece.now) (room_left self.old)) }
        ensures room { IfOk result (λ n. room_left self.new ≡ room_left self.old - n) }
    {
        let count = piece.len().min(self.bytes.len() - self.len);
        if count == 0 && !piece.is_empty() {
            self.faults = self.faults.saturating_add(1);
            return Err(PutFault::Failed);
        }
        let end = self.len + count;
        self.bytes[self.len..end].copy_from_slice(&piece[..count]);
        self.len = end;
        Ok(count)
    }
}
