//! From a text to the problem that it spells, or to its first fault.

ghost use Rattle.std.specs.Prelude.{◌≡◌, ◌≤◌, ℕ, List, length};
ghost use Rattle.geo_tokens.specs.declared.token.Token.{Token as TokenOf};
ghost use Rattle.geo_tokens.specs.declared.fault.FaultWord.{FaultWord as FaultWordOf};
ghost use Rattle.geo_tokens.specs.Cut.{IsTokens, IsTokenFault};
ghost use Rattle.problem_data.specs.Parts.{parts_view};
ghost use Rattle.problem_data.specs.Accepted.{most_bytes, AreSaid};
ghost use Rattle.problem_text.specs.FirstFault.{AnswersProblem, AnswersParts, IsOnlyProblem};

use crate::build::build;
use geo_tokens::fault::{FaultWord, TextFault};
use geo_tokens::lexer::tokens;
use geo_tokens::token::Token;
use problem_data::parts::{Parts, by_kind};
use problem_data::problem::Problem;
use problem_syntax::syntax::read_statements;
use statement_faults::first::first_fault;
use std::alloc::Global;

/// How many bytes a text may have.
pub const MOST_BYTES: usize = 1_048_576;

/// The problem that a text spells, or its first fault: `long` at 1,048,576 where the text has more
/// bytes; else its first token fault; else the first fault of its grammar; else the first fault of
/// its statements.
pub fn read_problem(alloc: Global, text: &[u8]) -> Result<Problem, TextFault>
    ensures answer { AnswersProblem result text.now }
    ensures only { IsOnlyProblem result text.now }
{
    if text.len() > MOST_BYTES {
        return Err(TextFault::At(MOST_BYTES as u64, FaultWord::Long));
    }
    read_short(alloc, text)
}

/// The same of a text that is not too long.
fn read_short(alloc: Global, text: &[u8]) -> Result<Problem, TextFault>
    requires short { length text.now ≤ most_bytes }
    ensures answer { AnswersProblem result text.now }
    ensures only { IsOnlyProblem result text.now }
{
    let list = tokens(alloc, text)?;
    read_listed(alloc, text, list.as_slice())
}

/// The same of a text with these tokens.
fn read_listed(alloc: Global, text: &[u8], list: &[Token]) -> Result<Problem, TextFault>
    requires short { length text.now ≤ most_bytes }
    requires tokens { IsTokens text.now list.now }
    requires one { (other : List TokenOf) → IsTokens text.now other → other ≡ list.now }
    requires right { (place : ℕ) (word : FaultWordOf) → IsTokenFault text.now place word → ⊥ }
    ensures answer { AnswersProblem result text.now }
    ensures only { IsOnlyProblem result text.now }
{
    let said = read_statements(alloc, text, list)?;
    let parts = by_kind(alloc, said)?;
    read_parts(alloc, parts)
}

/// The problem that statements spell, or their first fault.
fn read_parts(alloc: Global, parts: Parts) -> Result<Problem, TextFault>
    requires { AreSaid (parts_view parts) }
    ensures { AnswersParts result (parts_view parts) }
{
    match first_fault(alloc, &parts)? {
        Some(fault) => Err(TextFault::At(fault.place, fault.word)),
        None => Ok(build(alloc, parts)?),
    }
}
