//! What the words are answered with, also where they could not be read.

ghost use Rattle.std.specs.Prelude.{◌≡◌, true, map, string_bytes};
ghost use Rattle.command_reply.specs.Ends.{EndsUnread};
ghost use Rattle.geost_run.specs.Runs.{RunsWell};

use crate::run;
use crate::top::refuse_words;
use command_input::Status;
use geo_chan::{Sink, Source};
use std::alloc::Global;

/// Why the words could not be read.
#[derive(Clone, Copy)]
pub enum Unread {
    /// There was no memory for them.
    Memory,
    /// One of them is no text.
    NoText,
}

/// What the words are answered with. Where there was no memory for them, that is the status, and
/// nothing is read or written. Words that are no text have no form.
pub fn answer_words<S: Source, W: Sink>(
    alloc: Global,
    words: Result<Vec<String>, Unread>,
    source: &mut S,
    sink: &mut W,
) -> Status
    ensures read { (given : _) → words ≡ Ok given → RunsWell (map string_bytes given.items)
        (S.left source.old) (S.left source.new) (S.taken source.old) (S.taken source.new)
        (S.faults source.old) (S.faults source.new)
        (W.written sink.old) (W.written sink.new) (W.faults sink.old) (W.faults sink.new)
        (W.quiet sink.old) (source.new ≡ source.old) (sink.new ≡ sink.old) result }
    ensures memory { words ≡ Err Unread.Memory
        → (result ≡ Status.Memory) × (source.new ≡ source.old) × (sink.new ≡ sink.old) }
    ensures no_text { words ≡ Err Unread.NoText → (source.new ≡ source.old)
        × EndsUnread (W.written sink.old) (W.written sink.new)
        (W.faults sink.old) (W.faults sink.new) result }
    ensures quiet { words ≡ Err Unread.NoText → W.quiet sink.old ≡ true
        → result ≡ Status.Memory → ⊥ }
{
    match words {
        Ok(words) => run(alloc, &words, source, sink),
        Err(Unread::Memory) => Status::Memory,
        Err(Unread::NoText) => refuse_words(sink),
    }
}
