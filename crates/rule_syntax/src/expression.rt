//! Reading expressions, by one function for each production of the grammar.

ghost use Rattle.std.specs.Prelude.{◌≡◌, ◌∷◌, [], IfOk, ◌<◌, ◌-◌};
ghost use Rattle.geo_tokens.specs.Words.{symbol};
ghost use Rattle.geo_tokens.specs.Reading.{many_at};
ghost use Rattle.geo_tokens.specs.Gives.{Gives};
ghost use Rattle.geo_tokens.specs.declared.token.Sym.TheVariants as syms;
ghost use Rattle.rule_syntax.specs.Marks.{symbols, product_marks};
ghost use Rattle.rule_syntax.specs.Grammar.{sum_of, product_of, sum_step_in};
ghost use Rattle.rule_syntax.specs.Reading.{negative_at, parens_at, next_argument_at, argument_list_at, args_over_at, pair_at, value_call_at, extreme_at, factor_over_at, factor_at, product_step_at, term_at, sum_step_at, expr_at};
ghost use Rattle.rule_syntax.specs.View.{expr_view, sum_view, sum_views, product_view, product_views, argument_view, argument_views, pair_view};

use crate::tree::{Argument, Expr, ProdStep, SumStep};
use crate::words::{
    begins_expression, division, extreme_of, extreme_word, flat_factor, number, placed_name,
    product_goes_on, shape_number, sum_goes_on, sum_mark, variable,
};
use geo_tokens::stop::{Stop, add, behind, followed_by, next_is, start_of, token};
use geo_tokens::token::{Keyword, Kind, Sym, Token};
use std::alloc::{AllocError, Global};

/// A minus in front of a factor, in which up to `below` levels may be opened.
#[cycle(expression)]
fn negative<'a>(
    alloc: Global,
    text: &[u8],
    below: u32,
    tokens: &'a [Token],
) -> Result<(Expr, &'a [Token]), Stop<'a>>
    ensures { Gives expr_view result (negative_at (factor_at text.now below) tokens.now) }
{
    let (first, rest) = token(tokens, Kind::Symbol(Sym::Minus))?;
    let (inner, rest) = factor(alloc, text, below, rest)?;
    Ok((Expr::Neg(first.start, Box::new(alloc, inner)?), rest))
}

/// An expression in brackets.
#[cycle(expression)]
fn parens<'a>(
    alloc: Global,
    text: &[u8],
    below: u32,
    tokens: &'a [Token],
) -> Result<(Expr, &'a [Token]), Stop<'a>>
    ensures { Gives expr_view result (parens_at (expr_at text.now below) tokens.now) }
{
    let Some(rest) = behind(tokens, Kind::Symbol(Sym::ParenOpen)) else {
        return Err(Stop::Wrong(tokens));
    };
    let inner = expression(alloc, text, below, rest);
    followed_by(inner, Kind::Symbol(Sym::ParenClose))
}

/// A comma and an argument.
#[cycle(expression)]
fn next_argument<'a>(
    alloc: Global,
    text: &[u8],
    below: u32,
    tokens: &'a [Token],
) -> Result<(Argument, &'a [Token]), Stop<'a>>
    ensures { Gives argument_view result (next_argument_at (expr_at text.now below) tokens.now) }
{
    let Some(list) = behind(tokens, Kind::Symbol(Sym::Comma)) else {
        return Err(Stop::Wrong(tokens));
    };
    let (value, rest) = expression(alloc, text, below, list)?;
    Ok((
        Argument {
            place: start_of(list),
            value,
        },
        rest,
    ))
}

/// The arguments behind the first one.
#[cycle(expression)]
fn more_arguments<'a>(
    alloc: Global,
    text: &[u8],
    below: u32,
    tokens: &'a [Token],
) -> Result<(Vec<Argument>, &'a [Token]), Stop<'a>>
    ensures { Gives argument_views result
        (many_at (symbol syms.Comma) (next_argument_at (expr_at text.now below)) tokens.now) }
{
    let mut arguments = Vec::new(alloc);
    let mut rest = tokens;
    'items: while next_is(rest, Kind::Symbol(Sym::Comma)) {
        let argument = next_argument(alloc, text, below, rest);
        rest = add(&mut arguments, argument)?;
    }
    Ok((arguments, rest))
}

/// One argument, or more with commas between them, or none.
#[cycle(expression)]
fn argument_list<'a>(
    alloc: Global,
    text: &[u8],
    below: u32,
    tokens: &'a [Token],
) -> Result<(Vec<Argument>, &'a [Token]), Stop<'a>>
    ensures { Gives argument_views result (argument_list_at (expr_at text.now below) tokens.now) }
{
    if !begins_expression(tokens) {
        return Ok((Vec::new(alloc), tokens));
    }
    let (value, rest) = expression(alloc, text, below, tokens)?;
    let (mut arguments, rest) = more_arguments(alloc, text, below, rest)?;
    let place = start_of(tokens);
    arguments.insert(0, Argument { place, value })?;
    Ok((arguments, rest))
}

/// The arguments of a call, with their brackets.
#[cycle(expression)]
pub fn arguments<'a>(
    alloc: Global,
    text: &[u8],
    below: u32,
    tokens: &'a [Token],
) -> Result<(Vec<Argument>, &'a [Token]), Stop<'a>>
    ensures { Gives argument_views result (args_over_at (expr_at text.now below) tokens.now) }
{
    let Some(rest) = behind(tokens, Kind::Symbol(Sym::ParenOpen)) else {
        return Err(Stop::Wrong(tokens));
    };
    let arguments = argument_list(alloc, text, below, rest);
    followed_by(arguments, Kind::Symbol(Sym::ParenClose))
}

/// A call that gives a number.
#[cycle(expression)]
fn value_call<'a>(
    alloc: Global,
    text: &[u8],
    below: u32,
    tokens: &'a [Token],
) -> Result<(Expr, &'a [Token]), Stop<'a>>
    ensures { Gives expr_view result
        (value_call_at text.now (args_over_at (expr_at text.now below)) tokens.now) }
{
    let (first, rest) = token(tokens, Kind::Symbol(Sym::Dollar))?;
    let (name, rest) = placed_name(alloc, text, rest)?;
    let (arguments, rest) = arguments(alloc, text, below, rest)?;
    Ok((Expr::CallValue(first.start, name, arguments), rest))
}

/// Two expressions in brackets.
#[cycle(expression)]
fn pair<'a>(
    alloc: Global,
    text: &[u8],
    below: u32,
    tokens: &'a [Token],
) -> Result<((Expr, Expr), &'a [Token]), Stop<'a>>
    ensures { Gives pair_view result (pair_at (expr_at text.now below) tokens.now) }
{
    let Some(rest) = behind(tokens, Kind::Symbol(Sym::ParenOpen)) else {
        return Err(Stop::Wrong(tokens));
    };
    let first = expression(alloc, text, below, rest);
    let (first, rest) = followed_by(first, Kind::Symbol(Sym::Comma))?;
    let second = expression(alloc, text, below, rest);
    let (second, rest) = followed_by(second, Kind::Symbol(Sym::ParenClose))?;
    Ok(((first, second), rest))
}

/// The least or the greatest of two.
#[cycle(expression)]
fn extreme<'a>(
    alloc: Global,
    text: &[u8],
    below: u32,
    tokens: &'a [Token],
) -> Result<(Expr, &'a [Token]), Stop<'a>>
    ensures { Gives expr_view result (extreme_at (pair_at (expr_at text.now below)) tokens.now) }
{
    let (word, rest) = extreme_word(tokens)?;
    let ((first, second), rest) = pair(alloc, text, below, rest)?;
    Ok((extreme_of(alloc, word, first, second)?, rest))
}

/// A factor where a level may be opened.
#[cycle(expression)]
fn nested_factor<'a>(
    alloc: Global,
    text: &[u8],
    levels: u32,
    tokens: &'a [Token],
) -> Result<(Expr, &'a [Token]), Stop<'a>>
    requires { 0 < levels }
    ensures { Gives expr_view result
        (factor_over_at text.now (negative_at (factor_at text.now (levels - 1)))
        (parens_at (expr_at text.now (levels - 1))) (args_over_at (expr_at text.now (levels - 1)))
        (pair_at (expr_at text.now (levels - 1))) tokens.now) }
{
    if next_is(tokens, Kind::Number(0)) {
        number(tokens)
    } else if next_is(tokens, Kind::Name) {
        variable(alloc, text, tokens)
    } else if next_is(tokens, Kind::Word(Keyword::Shape)) {
        shape_number(alloc, text, tokens)
    } else if next_is(tokens, Kind::Symbol(Sym::Minus)) {
        negative(alloc, text, levels - 1, tokens)
    } else if next_is(tokens, Kind::Symbol(Sym::ParenOpen)) {
        parens(alloc, text, levels - 1, tokens)
    } else if next_is(tokens, Kind::Symbol(Sym::Dollar)) {
        value_call(alloc, text, levels - 1, tokens)
    } else {
        extreme(alloc, text, levels - 1, tokens)
    }
}

/// A factor, in which up to `levels` levels may be opened.
#[cycle(expression)]
fn factor<'a>(
    alloc: Global,
    text: &[u8],
    levels: u32,
    tokens: &'a [Token],
) -> Result<(Expr, &'a [Token]), Stop<'a>>
    ensures { Gives expr_view result (factor_at text.now levels tokens.now) }
{
    if levels == 0 {
        flat_factor(alloc, text, tokens)
    } else {
        nested_factor(alloc, text, levels, tokens)
    }
}

/// A mark of a product and what stands behind it.
#[cycle(expression)]
fn product_step<'a>(
    alloc: Global,
    text: &[u8],
    levels: u32,
    tokens: &'a [Token],
) -> Result<(ProdStep, &'a [Token]), Stop<'a>>
    ensures { Gives product_view result (product_step_at (factor_at text.now levels) tokens.now) }
{
    if let Some(rest) = behind(tokens, Kind::Symbol(Sym::Star)) {
        let (factor, rest) = factor(alloc, text, levels, rest)?;
        Ok((ProdStep::Times(factor), rest))
    } else {
        division(tokens)
    }
}

/// The steps of a product behind its first factor.
#[cycle(expression)]
fn more_factors<'a>(
    alloc: Global,
    text: &[u8],
    levels: u32,
    tokens: &'a [Token],
) -> Result<(Vec<ProdStep>, &'a [Token]), Stop<'a>>
    ensures { Gives product_views result
        (many_at product_marks (product_step_at (factor_at text.now levels)) tokens.now) }
{
    let mut steps = Vec::new(alloc);
    let mut rest = tokens;
    'items: while product_goes_on(rest) {
        let step = product_step(alloc, text, levels, rest);
        rest = add(&mut steps, step)?;
    }
    Ok((steps, rest))
}

/// A product of one factor is that factor.
fn product_of(
    alloc: Global,
    place: u64,
    first: Expr,
    others: Vec<ProdStep>,
) -> Result<Expr, AllocError>
    ensures { IfOk result (λ e. expr_view e
        ≡ product_of place (expr_view first, product_views others)) }
{
    if others.is_empty() {
        return Ok(first);
    }
    Ok(Expr::Prod(place, Box::new(alloc, first)?, others))
}

/// A term, in which up to `levels` levels may be opened.
#[cycle(expression)]
#[tactic(auto, unfolding(crate::specs::Reading::term_at))]
fn term<'a>(
    alloc: Global,
    text: &[u8],
    levels: u32,
    tokens: &'a [Token],
) -> Result<(Expr, &'a [Token]), Stop<'a>>
    ensures { Gives expr_view result (term_at text.now levels tokens.now) }
{
    let (first, rest) = factor(alloc, text, levels, tokens)?;
    let (others, rest) = more_factors(alloc, text, levels, rest)?;
    Ok((product_of(alloc, start_of(tokens), first, others)?, rest))
}

/// What a mark of a sum does with the term behind it.
fn sum_step_of(mark: Kind, term: Expr) -> SumStep
    ensures { sum_view result ≡ sum_step_in mark (expr_view term) }
{
    match mark {
        Kind::Symbol(Sym::Plus) => SumStep::Plus(term),
        _ => SumStep::Minus(term),
    }
}

/// A plus or a minus and a term.
#[cycle(expression)]
fn sum_step<'a>(
    alloc: Global,
    text: &[u8],
    levels: u32,
    tokens: &'a [Token],
) -> Result<(SumStep, &'a [Token]), Stop<'a>>
    ensures { Gives sum_view result (sum_step_at (term_at text.now levels) tokens.now) }
{
    let (mark, rest) = sum_mark(tokens)?;
    let (term, rest) = term(alloc, text, levels, rest)?;
    Ok((sum_step_of(mark.kind, term), rest))
}

/// The steps of a sum behind its first term.
#[cycle(expression)]
fn more_terms<'a>(
    alloc: Global,
    text: &[u8],
    levels: u32,
    tokens: &'a [Token],
) -> Result<(Vec<SumStep>, &'a [Token]), Stop<'a>>
    ensures { Gives sum_views result
        (many_at (symbols syms.Plus syms.Minus) (sum_step_at (term_at text.now levels))
        tokens.now) }
{
    let mut steps = Vec::new(alloc);
    let mut rest = tokens;
    'items: while sum_goes_on(rest) {
        let step = sum_step(alloc, text, levels, rest);
        rest = add(&mut steps, step)?;
    }
    Ok((steps, rest))
}

/// A sum of one term is that term.
fn sum_of(alloc: Global, place: u64, first: Expr, others: Vec<SumStep>) -> Result<Expr, AllocError>
    ensures { IfOk result (λ e. expr_view e ≡ sum_of place (expr_view first, sum_views others)) }
{
    if others.is_empty() {
        return Ok(first);
    }
    Ok(Expr::Sum(place, Box::new(alloc, first)?, others))
}

/// An expression, in which up to `levels` levels may be opened.
#[cycle(expression)]
#[tactic(auto, unfolding(crate::specs::Reading::expr_at))]
pub fn expression<'a>(
    alloc: Global,
    text: &[u8],
    levels: u32,
    tokens: &'a [Token],
) -> Result<(Expr, &'a [Token]), Stop<'a>>
    ensures { Gives expr_view result (expr_at text.now levels tokens.now) }
{
    let (first, rest) = term(alloc, text, levels, tokens)?;
    let (others, rest) = more_terms(alloc, text, levels, rest)?;
    Ok((sum_of(alloc, start_of(tokens), first, others)?, rest))
}
