//! The problem that an input begins with, and what was read with it.

ghost use Rattle.std.specs.Prelude.{◌≡◌, ◌≤◌, ◌+◌, IfOk, drop, length};
ghost use Rattle.command_input.specs.Reading.{ReadCause, TakesAtMost};
ghost use Rattle.check_commands.specs.Checks.{AnswersFront, bytes_behind};

use command_input::{MOST, ReadFault, read_up_to};
use command_reply::{Accepted, read_accepted};
use geo_chan::Source;
use geo_tokens::fault::TextFault;
use geo_tokens::first_end::first_text_end;
use std::alloc::Global;

/// The text behind a problem.
#[derive(Drop)]
pub struct SecondText {
    /// What was read of the input.
    pub read: Vec<u8>,
    /// Where the text begins in the input.
    pub place: usize,
    /// Whether the input ends where that does.
    pub is_whole: bool,
}

impl SecondText {
    /// Its first bytes.
    pub fn bytes(&self) -> &[u8]
        requires { self.now.place ≤ length self.now.read.items }
        ensures { result.now ≡ bytes_behind self.now }
    {
        &self.read[self.place..]
    }
}

/// An accepted problem, and the text behind it.
#[derive(Drop)]
pub struct Front {
    pub accepted: Accepted,
    pub second: SecondText,
}

/// The problem that the input begins with and the first bytes behind it, or the fault of the
/// problem.
pub fn take_front<S: Source>(
    alloc: Global,
    source: &mut S,
) -> Result<Result<Front, TextFault>, ReadFault>
    ensures answer { IfOk result (AnswersFront (S.left source.old) (S.left source.new)) }
    ensures most { TakesAtMost 1048577 (S.left source.old) (S.left source.new) }
    ensures counted { S.taken source.new ≤ S.taken source.old + 1048577 }
    ensures cause { ReadCause (S.faults source.old) (S.faults source.new) result }
{
    let mut read = Vec::new(alloc);
    read_up_to(source, &mut read, MOST)?;
    let place = first_text_end(&read).unwrap_or(read.len());
    let accepted = match read_accepted(alloc, &read[..place]) {
        Ok(accepted) => accepted,
        Err(fault) => return Ok(Err(fault)),
    };
    let is_whole = read.len() < MOST;
    let second = SecondText {
        read,
        place,
        is_whole,
    };
    Ok(Ok(Front { accepted, second }))
}
