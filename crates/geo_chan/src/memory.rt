//! A source and a sink in memory, which move at most so many bytes in a call and fail at chosen calls.
ghost use Rattle.std.specs.Prelude.{◌≡◌, ◌≤◌, Option, Some, List, [], ℕ, length, drop, take, min, IfOk, false};

use crate::{Failed, PutFault, Sink, Source};
use std::alloc::Global;

/// A source that holds its bytes.
#[derive(Drop)]
pub struct MemSource {
    bytes: Vec<u8>,
    at: usize,
    piece: usize,
    fails: Vec<u64>,
    calls: u64,
    faults: u64,
    ghost within: { at ≤ length bytes.items },
    ghost moves: { 1 ≤ piece },
}

impl MemSource {
    ghost use Rattle.geo_chan.specs.Calls.{source_plan};

    /// A source of these bytes that gives at most `piece` in a call and fails at the calls of these numbers, from 1.
    pub fn new(bytes: Vec<u8>, piece: usize, fails: Vec<u64>) -> Self
        requires { 1 ≤ piece }
        ensures left { ⟦<MemSource as Source>⟧.left result ≡ Some bytes.items }
        ensures faults { ⟦<MemSource as Source>⟧.faults result ≡ 0 }
        ensures plan { source_plan result
            ≡ record { piece = piece; fails = fails.items; calls = 0; faults = 0 } }
    {
        MemSource {
            bytes,
            at: 0,
            piece,
            fails,
            calls: 0,
            faults: 0,
        }
    }
}

// Copies as much as fits, at most `piece` bytes.
fn fill(from: &[u8], into: &mut [u8], piece: usize) -> usize
    ensures count { result ≡ min (min (length into.old) (length from.now)) piece }
    ensures copied { take result into.new ≡ take result from.now }
    ensures length { length into.new ≡ length into.old }
{
    let count = into.len().min(from.len()).min(piece);
    into[..count].copy_from_slice(&from[..count]);
    count
}

impl Source for MemSource {
    ghost use Rattle.std.specs.Prelude.{IsErr, is_err, ◌↔◌, ◌-◌};
    ghost use Rattle.std.specs.Io.{ReadsAtMost};
    ghost use Rattle.std.specs.Io.KnownBytes.{ReadConsumes};
    ghost use Rattle.geo_chan.specs.Causes.{CountsTaken, TakeCause};
    ghost use Rattle.geo_chan.specs.Calls.{source_plan, FailsNext, after_call};

    ghost left = { λ s. Some (drop s.at s.bytes.items) };

    ghost faults = { λ s. s.faults };

    ghost taken = { λ s. s.at };

    fn take(&mut self, into: &mut [u8]) -> Result<usize, Failed>
        ensures bound { ReadsAtMost result into.new }
        ensures bytes { ReadConsumes (⟦<MemSource as Source>⟧.left self.old)
            (⟦<MemSource as Source>⟧.left self.new) result into.new }
        ensures cause { TakeCause (⟦<MemSource as Source>⟧.faults self.old)
            (⟦<MemSource as Source>⟧.faults self.new) result }
        ensures counts { CountsTaken (⟦<MemSource as Source>⟧.taken self.old)
            (⟦<MemSource as Source>⟧.taken self.new) result }

        // Exactly the chosen calls fail; any other gives as many bytes as the piece, the buffer and the rest allow.
        ensures fails { IsErr result ↔ FailsNext (source_plan self.old) }
        ensures amount { IfOk result (λ n. n ≡ min
            (min (length into.old) (length self.old.bytes.items - self.old.at))
            (source_plan self.old).piece) }
        ensures plan { source_plan self.new ≡ after_call (is_err result) (source_plan self.old) }
    {
        if self.calls < u64::MAX {
            self.calls += 1;
            if self.fails.contains(&self.calls) {
                self.faults = self.faults.saturating_add(1);
                return Err(Failed);
            }
        }
        let count = fill(&self.bytes[self.at..], into, self.piece);
        self.at += count;
        Ok(count)
    }
}

/// A sink that holds what was written.
#[derive(Drop)]
pub struct MemSink {
    bytes: Vec<u8>,
    piece: usize,
    fails: Vec<u64>,
    calls: u64,
    faults: u64,
    ghost moves: { 1 ≤ piece },
}

impl MemSink {
    ghost use Rattle.geo_chan.specs.Calls.{sink_plan};

    /// An empty sink that takes at most `piece` bytes in a call and fails at the calls of these numbers, from 1.
    pub fn new(alloc: Global, piece: usize, fails: Vec<u64>) -> Self
        requires { 1 ≤ piece }
        ensures written { ⟦<MemSink as Sink>⟧.written result ≡ Some [] }
        ensures faults { ⟦<MemSink as Sink>⟧.faults result ≡ 0 }
        ensures plan { sink_plan result
            ≡ record { piece = piece; fails = fails.items; calls = 0; faults = 0 } }
    {
        MemSink {
            bytes: Vec::new(alloc),
            piece,
            fails,
            calls: 0,
            faults: 0,
        }
    }

    /// What was written.
    pub fn bytes(&self) -> &[u8]
        ensures { ⟦<MemSink as Sink>⟧.written self.now ≡ Some result.now }
    {
        &self.bytes
    }
}

impl Sink for MemSink {
    ghost use Rattle.std.specs.Prelude.{IsErrOf, ◌↔◌, ◌<◌};
    ghost use Rattle.std.specs.Io.{WritesAtMost};
    ghost use Rattle.std.specs.Io.KnownBytes.{WriteAppends};
    ghost use Rattle.geo_chan.specs.Causes.{PutCause, StaysQuiet};
    ghost use Rattle.geo_chan.specs.Calls.{sink_plan, FailsNext, IsPlanAfter};

    ghost written = { λ s. Some s.bytes.items };

    ghost faults = { λ s. s.faults };

    ghost quiet = { λ _. false };

    fn put(&mut self, piece: &[u8]) -> Result<usize, PutFault>
        ensures bound { WritesAtMost result piece.now }
        ensures progress { IfOk result (λ n. 0 < length piece.now → 0 < n) }
        ensures bytes { WriteAppends (⟦<MemSink as Sink>⟧.written self.old)
            (⟦<MemSink as Sink>⟧.written self.new) result piece.now }
        ensures cause { PutCause (⟦<MemSink as Sink>⟧.faults self.old)
            (⟦<MemSink as Sink>⟧.faults self.new) result }
        ensures quiet { StaysQuiet (⟦<MemSink as Sink>⟧.quiet self.old)
            (⟦<MemSink as Sink>⟧.quiet self.new) result }

        // Exactly the chosen calls fail; any other takes as many bytes as the piece allows, or wants memory.
        ensures fails { IsErrOf result PutFault.Failed ↔ FailsNext (sink_plan self.old) }
        ensures amount { IfOk result (λ n. n ≡ min (length piece.now) (sink_plan self.old).piece) }
        ensures plan { IsPlanAfter result (sink_plan self.old) (sink_plan self.new) }
    {
        if self.calls < u64::MAX {
            self.calls += 1;
            if self.fails.contains(&self.calls) {
                self.faults = self.faults.saturating_add(1);
                return Err(PutFault::Failed);
            }
        }
        let count = piece.len().min(self.piece);
        self.bytes.extend_from_slice(&piece[..count])?;
        Ok(count)
    }
}
