//! How an expression is spelled.

ghost use Rattle.std.specs.Prelude.{◌≡◌, ◌++◌, ◌∷◌, [], IfOk, map, nat_lt, if◌then◌else◌};
ghost use Rattle.rule_syntax.specs.Tree.{sums, products, arguments};
ghost use Rattle.rule_syntax.specs.View.{expr_view, sum_view, product_view, argument_view};
ghost use Rattle.rule_print.specs.Canonical.{name, symbol, word, written};
ghost use Rattle.rule_print.specs.Spelled.{expr_level, expr_spelling, sum_spelling, sum_step_spelling, product_spelling, product_step_spelling, in_list, arguments_spelling};

use crate::lexeme::{
    Lexeme, name_lexeme, number_lexeme, push, push_all, push_if, push_name, push_symbol,
};
use crate::rank::ExprRank;
use geo_tokens::token::{Keyword, Sym};
use rule_syntax::tree::{Argument, Expr, PlacedName, ProdStep, SumStep};
use std::alloc::AllocError;

/// Spells an expression where one of this rank may stand.
#[cycle(spell)]
pub fn spell_expression<'a>(
    e: &'a Expr,
    rank: ExprRank,
    into: &mut Vec<Lexeme<'a>>,
) -> Result<(), AllocError>
    ensures { IfOk result (λ _. map written into.new.items ≡ map written into.old.items
        ++ expr_spelling rank (expr_view e.now)) }
{
    match e {
        Expr::Num(_, n) => push(number_lexeme(*n), into),
        Expr::Field(object, _, field) => spell_field(object, field, into),
        Expr::Param(name) => push_name(name, into),
        Expr::ShapeNum(_, name) => push_all(
            &[Lexeme::Word(Keyword::Shape), name_lexeme(name)],
            into,
        ),
        Expr::Neg(_, inner) => spell_behind(Sym::Minus, inner, ExprRank::Factor, into),
        Expr::Sum(_, first, steps) => {
            spell_opened(first, ExprRank::Sum, ExprRank::Product, rank, into)?;
            spell_sum_steps(steps.as_slice(), into)?;
            close(ExprRank::Sum, rank, into)
        }
        Expr::Prod(_, first, steps) => {
            spell_opened(first, ExprRank::Product, ExprRank::Factor, rank, into)?;
            spell_product_steps(steps.as_slice(), into)?;
            close(ExprRank::Product, rank, into)
        }
        Expr::Min(_, first, second) => {
            spell_first(Keyword::Min, first, into)?;
            spell_second(second, into)
        }
        Expr::Max(_, first, second) => {
            spell_first(Keyword::Max, first, into)?;
            spell_second(second, into)
        }
        Expr::CallValue(_, name, arguments) => spell_call(
            Sym::Dollar,
            name,
            arguments.as_slice(),
            into,
        ),
    }
}

/// Spells a field of an object.
fn spell_field<'a>(
    object: &'a PlacedName,
    field: &'a PlacedName,
    into: &mut Vec<Lexeme<'a>>,
) -> Result<(), AllocError>
    ensures { IfOk result (λ _. map written into.new.items ≡ map written into.old.items
        ++ name object.now.name ∷ symbol Sym.Dot ∷ name field.now.name ∷ []) }
{
    push_all(
        &[
            name_lexeme(object),
            Lexeme::Symbol(Sym::Dot),
            name_lexeme(field),
        ],
        into,
    )
}

/// Spells a symbol, and behind it an expression where one of this rank may stand.
#[cycle(spell)]
fn spell_behind<'a>(
    mark: Sym,
    e: &'a Expr,
    rank: ExprRank,
    into: &mut Vec<Lexeme<'a>>,
) -> Result<(), AllocError>
    ensures { IfOk result (λ _. map written into.new.items ≡ map written into.old.items
        ++ symbol mark ∷ expr_spelling rank (expr_view e.now)) }
{
    push_symbol(mark, into)?;
    spell_expression(e, rank, into)
}

/// Spells a bracket, where an expression of the rank `own` needs one, and behind it its first part.
#[cycle(spell)]
fn spell_opened<'a>(
    first: &'a Expr,
    own: ExprRank,
    inner: ExprRank,
    rank: ExprRank,
    into: &mut Vec<Lexeme<'a>>,
) -> Result<(), AllocError>
    ensures { IfOk result (λ _. map written into.new.items ≡ map written into.old.items
        ++ (if nat_lt (expr_level own) (expr_level rank) then symbol Sym.ParenOpen ∷ [] else [])
        ++ expr_spelling inner (expr_view first.now)) }
{
    push_if(own.is_looser(rank), Sym::ParenOpen, into)?;
    spell_expression(first, inner, into)
}

/// Spells the bracket that closes, where an expression of the rank `own` needs one.
fn close<'a>(own: ExprRank, rank: ExprRank, into: &mut Vec<Lexeme<'a>>) -> Result<(), AllocError>
    ensures { IfOk result (λ _. map written into.new.items ≡ map written into.old.items
        ++ (if nat_lt (expr_level own) (expr_level rank) then symbol Sym.ParenClose ∷ [] else [])) }
{
    push_if(own.is_looser(rank), Sym::ParenClose, into)
}

/// Spells a word and the first of two expressions behind it.
#[cycle(spell)]
fn spell_first<'a>(
    mark: Keyword,
    first: &'a Expr,
    into: &mut Vec<Lexeme<'a>>,
) -> Result<(), AllocError>
    ensures { IfOk result (λ _. map written into.new.items ≡ map written into.old.items
        ++ word mark ∷ symbol Sym.ParenOpen
        ∷ expr_spelling ExprRank.Sum (expr_view first.now)) }
{
    push_all(&[Lexeme::Word(mark), Lexeme::Symbol(Sym::ParenOpen)], into)?;
    spell_expression(first, ExprRank::Sum, into)
}

/// Spells the second of two expressions.
#[cycle(spell)]
fn spell_second<'a>(second: &'a Expr, into: &mut Vec<Lexeme<'a>>) -> Result<(), AllocError>
    ensures { IfOk result (λ _. map written into.new.items ≡ map written into.old.items
        ++ symbol Sym.Comma ∷ (expr_spelling ExprRank.Sum (expr_view second.now)
        ++ symbol Sym.ParenClose ∷ [])) }
{
    push_symbol(Sym::Comma, into)?;
    spell_expression(second, ExprRank::Sum, into)?;
    push_symbol(Sym::ParenClose, into)
}

/// Spells a call of a macro behind this symbol.
#[cycle(spell)]
pub fn spell_call<'a>(
    mark: Sym,
    called: &'a PlacedName,
    given: &'a [Argument],
    into: &mut Vec<Lexeme<'a>>,
) -> Result<(), AllocError>
    ensures { IfOk result (λ _. map written into.new.items ≡ map written into.old.items
        ++ symbol mark ∷ name called.now.name
        ∷ in_list (arguments_spelling (arguments (map argument_view given.now)))) }
{
    push_all(&[Lexeme::Symbol(mark), name_lexeme(called)], into)?;
    spell_arguments(given, into)
}

/// Spells the steps of a sum behind its first term.
#[cycle(spell)]
fn spell_sum_steps<'a>(steps: &'a [SumStep], into: &mut Vec<Lexeme<'a>>) -> Result<(), AllocError>
    ensures { IfOk result (λ _. map written into.new.items ≡ map written into.old.items
        ++ sum_spelling (sums (map sum_view steps.now))) }
{
    'steps: for step in steps {
        spell_sum_step(step, into)?;
    }
    Ok(())
}

#[cycle(spell)]
fn spell_sum_step<'a>(step: &'a SumStep, into: &mut Vec<Lexeme<'a>>) -> Result<(), AllocError>
    ensures { IfOk result (λ _. map written into.new.items ≡ map written into.old.items
        ++ sum_step_spelling (sum_view step.now)) }
{
    match step {
        SumStep::Plus(term) => spell_behind(Sym::Plus, term, ExprRank::Product, into),
        SumStep::Minus(term) => spell_behind(Sym::Minus, term, ExprRank::Product, into),
    }
}

/// Spells the steps of a product behind its first factor.
#[cycle(spell)]
fn spell_product_steps<'a>(
    steps: &'a [ProdStep],
    into: &mut Vec<Lexeme<'a>>,
) -> Result<(), AllocError>
    ensures { IfOk result (λ _. map written into.new.items ≡ map written into.old.items
        ++ product_spelling (products (map product_view steps.now))) }
{
    'steps: for step in steps {
        spell_product_step(step, into)?;
    }
    Ok(())
}

#[cycle(spell)]
fn spell_product_step<'a>(step: &'a ProdStep, into: &mut Vec<Lexeme<'a>>) -> Result<(), AllocError>
    ensures { IfOk result (λ _. map written into.new.items ≡ map written into.old.items
        ++ product_step_spelling (product_view step.now)) }
{
    match step {
        ProdStep::Times(factor) => spell_behind(Sym::Star, factor, ExprRank::Factor, into),
        ProdStep::Div(_, n) => push_all(&[Lexeme::Word(Keyword::Div), number_lexeme(*n)], into),
        ProdStep::Mod(_, n) => push_all(&[Lexeme::Word(Keyword::Mod), number_lexeme(*n)], into),
    }
}

/// Spells arguments in their brackets.
#[cycle(spell)]
fn spell_arguments<'a>(given: &'a [Argument], into: &mut Vec<Lexeme<'a>>) -> Result<(), AllocError>
    ensures { IfOk result (λ _. map written into.new.items ≡ map written into.old.items
        ++ in_list (arguments_spelling (arguments (map argument_view given.now)))) }
{
    push_symbol(Sym::ParenOpen, into)?;
    let mut is_first = true;
    'arguments: for argument in given {
        push_if(!is_first, Sym::Comma, into)?;
        spell_expression(&argument.value, ExprRank::Sum, into)?;
        is_first = false;
    }
    push_symbol(Sym::ParenClose, into)
}
