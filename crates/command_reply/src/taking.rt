//! What is taken of an input: a problem, or a problem and a layout of it.

ghost use Rattle.std.specs.Prelude.{◌≤◌, ◌+◌, IfOk, ℕ, List};
ghost use Rattle.command_input.specs.Reading.{ReadCause, TakesAtMost, Tells};
ghost use Rattle.command_reply.specs.Accepted.{AnswersAccepted};
ghost use Rattle.command_reply.specs.Dimension.{AnswersGivenIn};
ghost use Rattle.command_reply.specs.Given.{AnswersGiven};

use crate::accepted::{Accepted, read_accepted};
use crate::given::{Given, read_given, read_given_in};
use command_input::{ReadFault, read_first_text, read_two_texts};
use geo_chan::Source;
use geo_tokens::fault::TextFault;
use std::alloc::Global;

/// The problem that the input spells, or the first fault of the input.
pub fn take_problem<S: Source>(
    alloc: Global,
    source: &mut S,
) -> Result<Result<Accepted, TextFault>, ReadFault>
    ensures answer { IfOk result (λ read. (input : List ℕ) × Tells (S.left source.old) input
        × AnswersAccepted read input) }
    ensures most { TakesAtMost 1048577 (S.left source.old) (S.left source.new) }
    ensures counted { S.taken source.new ≤ S.taken source.old + 1048577 }
    ensures cause { ReadCause (S.faults source.old) (S.faults source.new) result }
{
    let text = read_first_text(alloc, source)?;
    Ok(read_accepted(alloc, &text))
}

/// The problem of the input and the layout behind it, or the first fault of the two.
pub fn take_given<S: Source>(
    alloc: Global,
    source: &mut S,
) -> Result<Result<Given, TextFault>, ReadFault>
    ensures answer { IfOk result (λ read. (input : List ℕ) × Tells (S.left source.old) input
        × AnswersGiven read input) }
    ensures most { TakesAtMost 2097153 (S.left source.old) (S.left source.new) }
    ensures counted { S.taken source.new ≤ S.taken source.old + 2097153 }
    ensures cause { ReadCause (S.faults source.old) (S.faults source.new) result }
{
    let text = read_two_texts(alloc, source)?;
    Ok(read_given(alloc, &text))
}

/// The problem of the input and the layout behind it, or the first fault of the two. None, where
/// the problem has fewer than `d` dimensions: that comes before the faults of the layout.
pub fn take_given_in<S: Source>(
    alloc: Global,
    source: &mut S,
    d: u8,
) -> Result<Result<Option<Given>, TextFault>, ReadFault>
    ensures answer { IfOk result (λ read. (input : List ℕ) × Tells (S.left source.old) input
        × AnswersGivenIn d read input) }
    ensures most { TakesAtMost 2097153 (S.left source.old) (S.left source.new) }
    ensures counted { S.taken source.new ≤ S.taken source.old + 2097153 }
    ensures cause { ReadCause (S.faults source.old) (S.faults source.new) result }
{
    let text = read_two_texts(alloc, source)?;
    Ok(read_given_in(alloc, &text, d))
}
