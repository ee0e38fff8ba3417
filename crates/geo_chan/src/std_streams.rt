//! A source over any reader of std and a sink over any writer: the edge to the outside.
ghost use Rattle.std.specs.Prelude.{◌≡◌, ◌+◌, ◌<◌, ◌≤◌, Option, Some, List, [], ℕ, length, drop, IfOk, true};
ghost use Rattle.geo_chan.specs.Answers.{IsTaken, IsPut};
ghost use Rattle.geo_chan.specs.Causes.{CountsTaken, TakeCause, PutCause, StaysQuiet};

use crate::{Failed, PutFault, Sink, Source};
use std::io::{self, Read, Write};

/// What a reader's answer says: a count, also that of the end of the input, or a fault. Bytes and
/// faults are counted.
fn taken(answer: io::Result<usize>, handed: &mut u64, faults: &mut u64) -> Result<usize, Failed>
    ensures answer { IsTaken answer faults.old faults.new result }
    ensures cause { TakeCause faults.old faults.new result }
    ensures counts { CountsTaken handed.old handed.new result }
{
    match answer {
        Ok(count) => {
            *handed = handed.saturating_add(count as u64);
            Ok(count)
        }
        Err(_) => {
            *faults = faults.saturating_add(1);
            Err(Failed)
        }
    }
}

/// What a writer's answer to a nonempty piece says: a count, or a fault, which is counted. To take nothing is one.
fn put(answer: io::Result<usize>, faults: &mut u64) -> Result<usize, PutFault>
    ensures answer { IsPut answer faults.old faults.new result }
    ensures cause { PutCause faults.old faults.new result }
    ensures quiet { StaysQuiet true true result }
    ensures progress { IfOk result (λ n. 0 < n) }
{
    match answer {
        Ok(count) if count > 0 => Ok(count),
        _ => {
            *faults = faults.saturating_add(1);
            Err(PutFault::Failed)
        }
    }
}

#[derive(Drop)]
pub struct StdSource<R: Read> {
    inner: R,
    handed: u64,
    faults: u64,
}

impl<R: Read> StdSource<R> {
    /// A source over a reader, which has handed on nothing and has had no fault so far.
    pub fn new(inner: R) -> Self
        ensures left { ⟦<StdSource<R> as Source>⟧.left result ≡ R.remaining inner }
        ensures faults { ⟦<StdSource<R> as Source>⟧.faults result ≡ 0 }
        ensures taken { ⟦<StdSource<R> as Source>⟧.taken result ≡ 0 }
    {
        StdSource {
            inner,
            handed: 0,
            faults: 0,
        }
    }
}

impl<R: Read> Source for StdSource<R> {
    ghost left = { λ s. R.remaining s.inner };

    ghost faults = { λ s. s.faults };

    ghost taken = { λ s. s.handed };

    fn take(&mut self, into: &mut [u8]) -> Result<usize, Failed> {
        let answer = self.inner.read(into);
        taken(answer, &mut self.handed, &mut self.faults)
    }
}

#[derive(Drop)]
pub struct StdSink<T: Write> {
    inner: T,
    faults: u64,
}

impl<T: Write> StdSink<T> {
    /// A sink over a writer, with no fault so far.
    pub fn new(inner: T) -> Self
        ensures written { ⟦<StdSink<T> as Sink>⟧.written result ≡ T.contents inner }
        ensures faults { ⟦<StdSink<T> as Sink>⟧.faults result ≡ 0 }
        ensures quiet { ⟦<StdSink<T> as Sink>⟧.quiet result ≡ true }
    {
        StdSink { inner, faults: 0 }
    }
}

impl<T: Write> Sink for StdSink<T> {
    ghost written = { λ s. T.contents s.inner };

    ghost faults = { λ s. s.faults };

    ghost quiet = { λ _. true };

    fn put(&mut self, piece: &[u8]) -> Result<usize, PutFault> {
        if piece.is_empty() {
            return Ok(0);
        }
        let answer = self.inner.write(piece);
        put(answer, &mut self.faults)
    }
}
