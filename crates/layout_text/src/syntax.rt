//! From the tokens of a layout text to what they spell, or to their first fault.

ghost use Rattle.std.specs.Prelude.{length};
ghost use Rattle.geo_tokens.specs.Gives.{Gives};
ghost use Rattle.problem_syntax.specs.WholeText.{AnswersText, IsOnlyAnswer};
ghost use Rattle.layout_text.specs.Grammar.{LayoutWords};
ghost use Rattle.layout_text.specs.Reading.{layout_at};
ghost use Rattle.layout_text.specs.View.{layout_view};

use crate::groups::end_line;
use crate::lines::lines;
use crate::tree::LayoutText;
use geo_tokens::fault::TextFault;
use geo_tokens::stop::{Stop, behind};
use geo_tokens::token::{Keyword, Kind, Token};
use rule_reading::read::fault_of;
use std::alloc::Global;

/// What a layout text says, and the tokens behind it.
#[tactic(auto, unfolding(crate::specs::Reading::layout_at))]
fn layout<'a>(
    alloc: Global,
    text: &[u8],
    tokens: &'a [Token],
) -> Result<(LayoutText, &'a [Token]), Stop<'a>>
    ensures { Gives layout_view result (layout_at text.now 0 tokens.now) }
{
    let Some(rest) = behind(tokens, Kind::Word(Keyword::Layout)) else {
        return Err(Stop::Wrong(tokens));
    };
    let (lines, rest) = lines(alloc, text, rest)?;
    let (token, rest) = end_line(alloc, rest)?;
    Ok((LayoutText { lines, token }, rest))
}

/// What all the tokens of a text spell. They are refused with `syntax` at the first token with
/// which they begin no layout text, or at the end where they are the front of one alone.
pub fn read_lines(alloc: Global, text: &[u8], list: &[Token]) -> Result<LayoutText, TextFault>
    ensures answer { AnswersText layout_view result (LayoutWords text.now) 0
        (length text.now) list.now }
    ensures only { IsOnlyAnswer layout_view result (LayoutWords text.now) 0
        (length text.now) list.now }
{
    match layout(alloc, text, list) {
        Ok((said, rest)) => {
            if rest.is_empty() {
                Ok(said)
            } else {
                Err(fault_of(text, list, Stop::Wrong(rest)))
            }
        }
        Err(stop) => Err(fault_of(text, list, stop)),
    }
}
