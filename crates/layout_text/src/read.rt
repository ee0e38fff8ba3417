//! From a text to the tuple that it spells, or to its first fault.

ghost use Rattle.std.specs.Prelude.{◌≡◌, ◌≤◌, ◌^◌, IfOk, length};
ghost use Rattle.problem_data.specs.Tuple.{Tuple};
ghost use Rattle.problem_data.specs.Cells.{IsTuple};
ghost use Rattle.layout_text.specs.FirstFault.{most_bytes, AnswersLayout, IsOnlyLayout, IsAnswered};
ghost use Rattle.layout_text.specs.Block.{block_of};

use crate::build::build;
use crate::faults::first_fault;
use crate::syntax::read_lines;
use geo_conditions::Layout;
use geo_tokens::fault::{FaultWord, TextFault};
use geo_tokens::lexer::tokens;
use problem_data::problem::Problem;
use problem_text::read::MOST_BYTES;
use std::alloc::Global;

// The tuple that a text spells, or its first fault, with its place in the text.
fn read_alone(alloc: Global, problem: &Problem, text: &[u8]) -> Result<Layout, TextFault>
    ensures answer { AnswersLayout result problem.now text.now 0 }
    ensures only { IsOnlyLayout result problem.now text.now 0 }
{
    if text.len() > MOST_BYTES {
        return Err(TextFault::At(MOST_BYTES as u64, FaultWord::Long));
    }
    let list = tokens(alloc, text)?;
    let said = read_lines(alloc, text, list.as_slice())?;
    match first_fault(problem, text.len() as u64, &said) {
        Some(fault) => Err(TextFault::At(fault.place, fault.word)),
        None => Ok(build(alloc, problem, said.lines.as_slice())?),
    }
}

/// The tuple that a layout text spells for a problem, or its first fault: `long` where the text has
/// more than 1,048,576 bytes; else its first token fault; else the first fault of its grammar; else
/// the first fault of its lines. The text begins at the place `from` of an input, and the fault has
/// its place in that input. A printed layout block is read as its tuple.
pub fn read_layout(
    alloc: Global,
    problem: &Problem,
    text: &[u8],
    from: u64,
) -> Result<Layout, TextFault>
    requires { from ≤ 2 ^ 62 }
    ensures answer { AnswersLayout result problem.now text.now from }
    ensures only { IsOnlyLayout result problem.now text.now from }
    ensures tuple { IfOk result (IsTuple problem.now) }
    ensures printed { (t : Tuple) → IsTuple problem.now t → text.now ≡ block_of problem.now t
        → length text.now ≤ most_bytes → IsAnswered result t }
{
    problem.is_said();
    match read_alone(alloc, problem, text) {
        Ok(layout) => Ok(layout),
        Err(TextFault::At(place, word)) => Err(TextFault::At(from + place, word)),
        Err(TextFault::Memory) => Err(TextFault::Memory),
    }
}
