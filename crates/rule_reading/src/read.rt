//! Reading a formula or an expression from one of a text's tokens on.

ghost use Rattle.std.specs.Prelude.{◌≡◌, ◌≤◌, length, drop};
ghost use Rattle.rule_syntax.specs.Grammar.{ExprWords, FormulaWords};
ghost use Rattle.rule_reading.specs.Outcome.{ReadsFrom, IsInside, place_of, fault_of};
ghost use Rattle.rule_syntax.specs.View.{expr_view, formula_view};

use crate::formula::formula;
use geo_tokens::fault::{FaultWord, TextFault};
use geo_tokens::stop::{Stop, start_of};
use geo_tokens::token::Token;
use rule_syntax::expression::expression;
use rule_syntax::tree::{Expr, Formula};
use std::alloc::Global;

/// How many levels may be open at a time.
pub const LEVELS: u32 = 64;

/// The place of the first of these tokens, or the end of the text where none is left.
pub fn place_of(text: &[u8], rest: &[Token]) -> u64
    ensures { result ≡ place_of (length text.now) rest.now }
{
    match rest {
        [first, ..] => first.start,
        [] => text.len() as u64,
    }
}

/// What was wrong where reading some tokens of this list stopped, and at which place of the text.
pub fn fault_of(text: &[u8], list: &[Token], stop: Stop<'_>) -> TextFault
    requires { IsInside list.now stop }
    ensures { result ≡ fault_of (length text.now) list.now stop.entry }
{
    match stop {
        Stop::Memory => TextFault::Memory,
        Stop::Wrong(rest) => TextFault::At(place_of(text, rest), FaultWord::Syntax),
        Stop::Deep(rest) => {
            let token = list.len() - rest.len() - 1;
            TextFault::At(start_of(&list[token..]), FaultWord::Deep)
        }
    }
}

/// The tokens of a list from the one with number `from` on.
fn left_from(list: &[Token], from: usize) -> &[Token]
    requires { from ≤ length list.now }
    ensures { result.now ≡ drop from list.now }
{
    &list[from..]
}

/// Reads a formula from the tokens of a text, from the one with number `from` on, and says which one stands behind it.
/// What is read is the longest run of tokens that begins a formula. It is refused with `deep` at the first of its
/// tokens that opens a 65th level, and with `syntax` behind it where it is no formula.
pub fn read_formula(
    alloc: Global,
    text: &[u8],
    list: &[Token],
    from: usize,
) -> Result<(Formula, usize), TextFault>
    requires { from ≤ length list.now }
    ensures { ReadsFrom formula_view result (FormulaWords text.now) 64
        (length text.now) list.now from }
{
    match formula(alloc, text, LEVELS, left_from(list, from)) {
        Ok((tree, rest)) => Ok((tree, list.len() - rest.len())),
        Err(stop) => Err(fault_of(text, list, stop)),
    }
}

/// Reads an expression, as `read_formula` does a formula.
pub fn read_expr(
    alloc: Global,
    text: &[u8],
    list: &[Token],
    from: usize,
) -> Result<(Expr, usize), TextFault>
    requires { from ≤ length list.now }
    ensures { ReadsFrom expr_view result (ExprWords text.now) 64 (length text.now) list.now from }
{
    match expression(alloc, text, LEVELS, left_from(list, from)) {
        Ok((tree, rest)) => Ok((tree, list.len() - rest.len())),
        Err(stop) => Err(fault_of(text, list, stop)),
    }
}
