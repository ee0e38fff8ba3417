//! The canonical texts of formulas and expressions.
//!
//! A tree is spelled as a list of lexemes, with brackets exactly where the grammar needs them, and the list is shown with
//! one space between two lexemes, but for the pairs that stand close.
#![tactic(auto)]

ghost use Rattle.std.specs.Prelude.{◌≡◌, ◌++◌, IfOk, OnErr};
ghost use Rattle.rule_syntax.specs.View.{expr_view, formula_view};
ghost use Rattle.rule_syntax.specs.Grammar.{ExprWords, FormulaWords};
ghost use Rattle.rule_print.specs.Spelled.{expr_text, formula_text, bare_expr, bare_formula, IsRead, ReadsBack};

pub mod expression;
pub mod formula;
pub mod lexeme;
pub mod rank;
pub mod show;

use expression::spell_expression;
use formula::spell_formula;
use rank::{ExprRank, FormulaRank};
use rule_syntax::tree::{Expr, Formula};
use show::shown;
use std::alloc::{AllocError, Global};

/// Appends the canonical spelling of a formula. Where memory runs out nothing is appended. What is appended for a formula
/// that `read_formula` gives for some text is read back as the same formula, places aside, and nothing is left of it.
pub fn print_formula(alloc: Global, f: &Formula, out: &mut Vec<u8>) -> Result<(), AllocError>
    ensures text { IfOk result (λ _. out.new.items ≡ out.old.items
        ++ formula_text (formula_view f.now)) }
    ensures kept { OnErr result (out.new.items ≡ out.old.items) }
    ensures read_back { IsRead FormulaWords (formula_view f.now)
        → ReadsBack FormulaWords bare_formula (formula_text (formula_view f.now))
        (formula_view f.now) }
{
    let mut lexemes = Vec::new(alloc);
    spell_formula(f, FormulaRank::Equivalence, &mut lexemes)?;
    let text = shown(alloc, lexemes.as_slice())?;
    out.extend_from_slice(text.as_slice())
}

/// Appends the canonical spelling of an expression, as `print_formula` does that of a formula.
pub fn print_expr(alloc: Global, e: &Expr, out: &mut Vec<u8>) -> Result<(), AllocError>
    ensures text { IfOk result (λ _. out.new.items ≡ out.old.items ++ expr_text (expr_view e.now)) }
    ensures kept { OnErr result (out.new.items ≡ out.old.items) }
    ensures read_back { IsRead ExprWords (expr_view e.now)
        → ReadsBack ExprWords bare_expr (expr_text (expr_view e.now)) (expr_view e.now) }
{
    let mut lexemes = Vec::new(alloc);
    spell_expression(e, ExprRank::Sum, &mut lexemes)?;
    let text = shown(alloc, lexemes.as_slice())?;
    out.extend_from_slice(text.as_slice())
}
