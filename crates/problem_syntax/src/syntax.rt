//! From the tokens of a text to what they spell, or to their first fault.

ghost use Rattle.std.specs.Prelude.{length};
ghost use Rattle.problem_data.specs.Grammar.{ProblemWords};
ghost use Rattle.problem_data.specs.View.{problem_view};
ghost use Rattle.problem_syntax.specs.WholeText.{AnswersText, IsOnlyAnswer};

use crate::statements::problem;
use geo_tokens::fault::TextFault;
use geo_tokens::stop::Stop;
use geo_tokens::token::Token;
use problem_data::tree::ProblemText;
use rule_reading::read::{LEVELS, fault_of};
use std::alloc::Global;

/// What all the tokens of a text spell, with at most 64 levels open at a time. They are refused with `syntax` at the first
/// token with which they begin no text, or at the end where they are the front of one alone, and with `deep` at the first
/// token that opens a 65th level where no wrong token stands before it.
pub fn read_statements(alloc: Global, text: &[u8], list: &[Token]) -> Result<ProblemText, TextFault>
    ensures answer { AnswersText problem_view result (ProblemWords text.now) 64
        (length text.now) list.now }
    ensures only { IsOnlyAnswer problem_view result (ProblemWords text.now) 64
        (length text.now) list.now }
{
    match problem(alloc, text, LEVELS, list) {
        Ok((said, rest)) => {
            if rest.is_empty() {
                Ok(said)
            } else {
                Err(fault_of(text, list, Stop::Wrong(rest)))
            }
        }
        Err(stop) => Err(fault_of(text, list, stop)),
    }
}
