//! The bounded reading of texts.
ghost use Rattle.std.specs.Prelude.{◌≡◌, ◌≤◌, ◌+◌, ◌-◌, ℕ, Ok, Err, IfOk, OnErr, IsErr, length};
ghost use Rattle.command_input.specs.declared.read.ReadFault.TheVariants.{Memory, Failed as ReadFailed};
ghost use Rattle.command_input.specs.Reading.{AreReadFrom, IsReadFrom, ReadsOn, ReadsUpTo, TakesAtMost, ReadCause};

use geo_chan::{Failed, Source};
use geo_tokens::first_end::first_text_end;
use std::alloc::{AllocError, Global};

/// One byte more than the longest text.
pub const MOST: usize = 1_048_577;

/// Why no text was read.
#[derive(Clone, Copy, Debug, PartialEq, Eq)]
pub enum ReadFault {
    Failed,
    Memory,
}

impl From<AllocError> for ReadFault {
    ghost from_gives = { λ _ e. e ≡ Memory };

    fn from(_: AllocError) -> Self {
        ReadFault::Memory
    }
}

impl From<Failed> for ReadFault {
    ghost from_gives = { λ _ e. e ≡ ReadFailed };

    fn from(_: Failed) -> Self {
        ReadFault::Failed
    }
}

/// The input, or its first bytes where it is longer than a text may be.
pub fn read_first_text<S: Source>(alloc: Global, source: &mut S) -> Result<Vec<u8>, ReadFault>
    ensures text { IfOk result (λ text. IsReadFrom (S.left source.old) text.items) }
    ensures short { IfOk result (λ text. length text.items ≤ 1048577) }
    ensures most { TakesAtMost 1048577 (S.left source.old) (S.left source.new) }
    ensures counted { S.taken source.new ≤ S.taken source.old + 1048577 }
    ensures cause { ReadCause (S.faults source.old) (S.faults source.new) result }
{
    let mut text = Vec::new(alloc);
    read_up_to(source, &mut text, MOST)?;
    Ok(text)
}

/// The input of a command that reads two texts, or its first bytes where one of the texts is longer than a text may be.
pub fn read_two_texts<S: Source>(alloc: Global, source: &mut S) -> Result<Vec<u8>, ReadFault>
    ensures texts { IfOk result (λ text. AreReadFrom (S.left source.old) text.items) }
    ensures short { IfOk result (λ text. length text.items ≤ 2097153) }
    ensures most { TakesAtMost 2097153 (S.left source.old) (S.left source.new) }
    ensures counted { S.taken source.new ≤ S.taken source.old + 2097153 }
    ensures cause { ReadCause (S.faults source.old) (S.faults source.new) result }
{
    let mut text = Vec::new(alloc);
    read_up_to(source, &mut text, MOST)?;
    read_second_text(source, text)
}

// Reads on behind the first text, where it ends within as many bytes as a text may have and the input may go on.
fn read_second_text<S: Source>(source: &mut S, mut text: Vec<u8>) -> Result<Vec<u8>, ReadFault>
    requires { length text.items ≤ 1048577 }
    ensures texts { IfOk result (λ t.
        ReadsOn (S.left source.old) (S.left source.new) text.items t.items) }
    ensures short { IfOk result (λ t. length t.items ≤ 2097153) }
    ensures most { TakesAtMost (2097153 - length text.items)
        (S.left source.old) (S.left source.new) }
    ensures counted { S.taken source.new ≤ S.taken source.old + (2097153 - length text.items) }
    ensures cause { ReadCause (S.faults source.old) (S.faults source.new) result }
{
    match first_text_end(&text) {
        Some(end) if end < MOST && text.len() == MOST => {
            read_up_to(source, &mut text, end + MOST)?;
            Ok(text)
        }
        _ => Ok(text),
    }
}

// Takes bytes behind those that are there, until there are `most` of them or the input ends.
pub fn read_up_to<S: Source>(
    source: &mut S,
    text: &mut Vec<u8>,
    most: usize,
) -> Result<(), ReadFault>
    requires { most ≤ 2097153 }
    ensures text { IfOk result (λ _. ReadsUpTo most (S.left source.old) (S.left source.new)
        text.old.items text.new.items) }
    ensures most { TakesAtMost (most - length text.old.items)
        (S.left source.old) (S.left source.new) }
    ensures counted { S.taken source.new ≤ S.taken source.old + (most - length text.old.items) }
    ensures behind { IfOk result (λ _. S.taken source.new + length text.old.items
        ≤ S.taken source.old + length text.new.items) }
    ensures cause { ReadCause (S.faults source.old) (S.faults source.new) result }
{
    let mut piece = [0; 4096];
    'reading: while text.len() < most {
        let room = piece.len().min(most - text.len());
        let count = taken(source.take(&mut piece[..room]))?;
        if count == 0 {
            break;
        }
        text.extend_from_slice(&piece[..count])?;
    }
    Ok(())
}

// A fault of the source is a fault of the reading.
pub fn taken(count: Result<usize, Failed>) -> Result<usize, ReadFault>
    ensures count { IfOk result (λ n. count ≡ Ok n) }
    ensures fault { OnErr result (IsErr count × (result ≡ Err ReadFault.Failed)) }
{
    match count {
        Ok(n) => Ok(n),
        Err(Failed) => Err(ReadFault::Failed),
    }
}
