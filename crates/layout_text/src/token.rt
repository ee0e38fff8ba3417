//! From a word to the tuple of which it is the token.
//!
//! The tokens of the word are read as groups, and those give a tuple. It is taken where its own
//! token is the word: so no second spelling of a number is let through, and neither are white space
//! and comments.

ghost use Rattle.std.specs.Prelude.{◌≡◌, ◌↔◌, IsTrue, IfOk};
ghost use Rattle.problem_data.specs.Cells.{IsShaped};
ghost use Rattle.problem_data.specs.Tuple.{Tuple};
ghost use Rattle.layout_text.specs.Block.{token_of};
ghost use Rattle.layout_text.specs.Token.{AnswersGroups, AnswersToken, IsReadAs, IsTokenOf};
ghost use Rattle.layout_text.specs.Token.{unless_memory, unless_stopped};
ghost use Rattle.layout_text.specs.declared.token.TokenFault.TheVariants.{Memory};

use crate::block::print_token;
use crate::groups::groups;
use crate::spots::{give_tuple, tuple_in};
use crate::tree::GroupText;
use geo_chan::CleanSink;
use geo_conditions::Layout;
use geo_tokens::fault::TextFault;
use geo_tokens::lexer::tokens;
use geo_tokens::stop::Stop;
use problem_data::problem::Problem;
use std::alloc::{AllocError, Global};

/// Why a word was not read as a tuple.
#[derive(Clone, Copy, Debug, PartialEq, Eq)]
pub enum TokenFault {
    /// The word is the token of no tuple of the problem.
    BadToken,
    /// Memory ran out.
    Memory,
}

impl From<AllocError> for TokenFault {
    ghost from_gives = { λ _ e. e ≡ Memory };

    fn from(_e: AllocError) -> Self {
        TokenFault::Memory
    }
}

impl From<TextFault> for TokenFault {
    ghost from_gives = { λ f e. e ≡ unless_memory f };

    fn from(fault: TextFault) -> Self {
        match fault {
            TextFault::At(_, _) => TokenFault::BadToken,
            TextFault::Memory => TokenFault::Memory,
        }
    }
}

impl From<Stop<'_>> for TokenFault {
    ghost from_gives = { λ s e. e ≡ unless_stopped s };

    fn from(stop: Stop<'_>) -> Self {
        match stop {
            Stop::Wrong(_) | Stop::Deep(_) => TokenFault::BadToken,
            Stop::Memory => TokenFault::Memory,
        }
    }
}

/// The tuple of the problem of which the word is the token, as `print_token` writes it. No other
/// spelling of a tuple is taken.
pub fn read_token(alloc: Global, problem: &Problem, word: &[u8]) -> Result<Layout, TokenFault>
    ensures answer { AnswersToken result problem.now word.now }
    // The tuple of which the word is the token is the one that is read, so there is no other one.
    ensures printed { (t : Tuple) → IsTokenOf problem.now t word.now → IsReadAs result t }
{
    problem.is_said();
    let groups = groups_of(alloc, word)?;
    if !give_tuple(problem, groups.as_slice()) {
        return Err(TokenFault::BadToken);
    }
    let layout = tuple_in(alloc, problem, groups.as_slice())?;
    if !is_token(alloc, problem, &layout, word)? {
        return Err(TokenFault::BadToken);
    }
    Ok(layout)
}

// The groups that the tokens of the word spell.
fn groups_of(alloc: Global, word: &[u8]) -> Result<Vec<GroupText>, TokenFault>
    ensures { AnswersGroups result word.now }
{
    let list = tokens(alloc, word)?;
    let (groups, rest) = groups(alloc, list.as_slice())?;
    if !rest.is_empty() {
        return Err(TokenFault::BadToken);
    }
    Ok(groups)
}

// Whether the word is the token of the tuple.
fn is_token(
    alloc: Global,
    problem: &Problem,
    layout: &Layout,
    word: &[u8],
) -> Result<bool, AllocError>
    requires { IsShaped problem.now layout.now }
    ensures { IfOk result (λ b. IsTrue b ↔ (word.now ≡ token_of layout.now)) }
{
    let mut sink = CleanSink::new(alloc);
    match print_token(problem, layout, &mut sink) {
        Ok(()) => Ok(sink.bytes() == word),
        // (a sink in memory only ever wants memory)
        Err(_) => Err(AllocError),
    }
}
