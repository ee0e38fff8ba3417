//! Reading what a few tokens spell: names, numbers, fields, and what would open a level too many.

ghost use Rattle.std.specs.Prelude.{◌≡◌, ◌∷◌, [], IfOk};
ghost use Rattle.geo_tokens.specs.Class.{class_of};
ghost use Rattle.geo_tokens.specs.Words.{symbol};
ghost use Rattle.geo_tokens.specs.Reading.{next_is, token_at, cut_at};
ghost use Rattle.geo_tokens.specs.Gives.{Gives};
ghost use Rattle.geo_tokens.specs.declared.token.Keyword.TheVariants as keywords;
ghost use Rattle.geo_tokens.specs.declared.token.Sym.TheVariants as syms;
ghost use Rattle.rule_syntax.specs.Marks.{words, symbols, product_marks, factor_firsts};
ghost use Rattle.rule_syntax.specs.Grammar.{division_in, extreme_in};
ghost use Rattle.rule_syntax.specs.Reading.{named_at, number_at, field_at, variable_at, shape_number_at, value_call_at, extreme_at, division_at, factor_over_at};
ghost use Rattle.rule_syntax.specs.View.{expr_view, product_view, argument_views};

use crate::tree::{Argument, Expr, PlacedName, ProdStep};
use geo_tokens::name::Name;
use geo_tokens::stop::{Stop, behind, next_in, next_is, one_of, refusal, token};
use geo_tokens::token::{Keyword, Kind, Sym, Token, number_in};
use std::alloc::{AllocError, Global};

/// A name, with its place.
pub fn placed_name<'a>(
    alloc: Global,
    text: &[u8],
    tokens: &'a [Token],
) -> Result<(PlacedName, &'a [Token]), Stop<'a>>
    ensures { Gives (λ n. n) result (named_at text.now tokens.now) }
{
    let (first, rest) = token(tokens, Kind::Name)?;
    let name = Name::of_token(alloc, text, first)?;
    Ok((
        PlacedName {
            place: first.start,
            name,
        },
        rest,
    ))
}

/// A number.
pub fn number(tokens: &[Token]) -> Result<(Expr, &[Token]), Stop<'_>>
    ensures { Gives expr_view result (number_at tokens.now) }
{
    let (first, rest) = token(tokens, Kind::Number(0))?;
    Ok((Expr::Num(first.start, number_in(first.kind)), rest))
}

/// The dot and the name of a field of this object.
fn field<'a>(
    alloc: Global,
    text: &[u8],
    object: PlacedName,
    tokens: &'a [Token],
) -> Result<(Expr, &'a [Token]), Stop<'a>>
    ensures { Gives expr_view result (field_at text.now object tokens.now) }
{
    let (dot, rest) = token(tokens, Kind::Symbol(Sym::Dot))?;
    let (name, rest) = placed_name(alloc, text, rest)?;
    Ok((Expr::Field(object, dot.start, name), rest))
}

/// A name alone, or with a field.
pub fn variable<'a>(
    alloc: Global,
    text: &[u8],
    tokens: &'a [Token],
) -> Result<(Expr, &'a [Token]), Stop<'a>>
    ensures { Gives expr_view result (variable_at text.now tokens.now) }
{
    let (name, rest) = placed_name(alloc, text, tokens)?;
    if next_is(rest, Kind::Symbol(Sym::Dot)) {
        field(alloc, text, name, rest)
    } else {
        Ok((Expr::Param(name), rest))
    }
}

/// The word `shape` and a shape's name.
pub fn shape_number<'a>(
    alloc: Global,
    text: &[u8],
    tokens: &'a [Token],
) -> Result<(Expr, &'a [Token]), Stop<'a>>
    ensures { Gives expr_view result (shape_number_at text.now tokens.now) }
{
    let (first, rest) = token(tokens, Kind::Word(Keyword::Shape))?;
    let (name, rest) = placed_name(alloc, text, rest)?;
    Ok((Expr::ShapeNum(first.start, name), rest))
}

/// An expression that would open a level too many.
#[tactic(auto, using(geo_tokens::proofs::Refused::refused_fails))]
fn refused_expression(tokens: &[Token], kind: Kind) -> Result<(Expr, &[Token]), Stop<'_>>
    ensures { Gives expr_view result (cut_at (class_of kind ∷ []) tokens.now) }
{
    Err(refusal(tokens, &[kind]))
}

/// Arguments that would open a level too many.
#[tactic(auto, using(geo_tokens::proofs::Refused::refused_fails))]
pub fn refused_arguments(tokens: &[Token]) -> Result<(Vec<Argument>, &[Token]), Stop<'_>>
    ensures { Gives argument_views result (cut_at (symbol syms.ParenOpen) tokens.now) }
{
    Err(refusal(tokens, &[Kind::Symbol(Sym::ParenOpen)]))
}

/// The least or the greatest of two, by its word.
pub fn extreme_of(alloc: Global, word: Token, first: Expr, second: Expr) -> Result<Expr, AllocError>
    ensures { IfOk result (λ e. expr_view e
        ≡ extreme_in word.kind word.start (expr_view first) (expr_view second)) }
{
    let first = Box::new(alloc, first)?;
    let second = Box::new(alloc, second)?;
    Ok(match word.kind {
        Kind::Word(Keyword::Min) => Expr::Min(word.start, first, second),
        _ => Expr::Max(word.start, first, second),
    })
}

/// The word `min` or `max`.
pub fn extreme_word(tokens: &[Token]) -> Result<(Token, &[Token]), Stop<'_>>
    ensures { Gives (λ t. t) result (token_at (words keywords.Min keywords.Max) tokens.now) }
{
    one_of(
        tokens,
        &[Kind::Word(Keyword::Min), Kind::Word(Keyword::Max)],
    )
}

/// A call that gives a number, where no level may be opened: its brackets are refused.
fn flat_call<'a>(
    alloc: Global,
    text: &[u8],
    tokens: &'a [Token],
) -> Result<(Expr, &'a [Token]), Stop<'a>>
    ensures { Gives expr_view result
        (value_call_at text.now (cut_at (symbol syms.ParenOpen)) tokens.now) }
{
    let Some(rest) = behind(tokens, Kind::Symbol(Sym::Dollar)) else {
        return Err(Stop::Wrong(tokens));
    };
    let (_, rest) = placed_name(alloc, text, rest)?;
    refused_expression(rest, Kind::Symbol(Sym::ParenOpen))
}

/// The least or the greatest of two, where no level may be opened: its brackets are refused.
fn flat_extreme(tokens: &[Token]) -> Result<(Expr, &[Token]), Stop<'_>>
    ensures { Gives expr_view result (extreme_at (cut_at (symbol syms.ParenOpen)) tokens.now) }
{
    let (_, rest) = extreme_word(tokens)?;
    refused_expression(rest, Kind::Symbol(Sym::ParenOpen))
}

/// A factor where no level may be opened.
pub fn flat_factor<'a>(
    alloc: Global,
    text: &[u8],
    tokens: &'a [Token],
) -> Result<(Expr, &'a [Token]), Stop<'a>>
    ensures { Gives expr_view result
        (factor_over_at text.now (cut_at (symbol syms.Minus)) (cut_at (symbol syms.ParenOpen))
        (cut_at (symbol syms.ParenOpen)) (cut_at (symbol syms.ParenOpen)) tokens.now) }
{
    if next_is(tokens, Kind::Number(0)) {
        number(tokens)
    } else if next_is(tokens, Kind::Name) {
        variable(alloc, text, tokens)
    } else if next_is(tokens, Kind::Word(Keyword::Shape)) {
        shape_number(alloc, text, tokens)
    } else if next_is(tokens, Kind::Symbol(Sym::Minus)) {
        refused_expression(tokens, Kind::Symbol(Sym::Minus))
    } else if next_is(tokens, Kind::Symbol(Sym::ParenOpen)) {
        refused_expression(tokens, Kind::Symbol(Sym::ParenOpen))
    } else if next_is(tokens, Kind::Symbol(Sym::Dollar)) {
        flat_call(alloc, text, tokens)
    } else {
        flat_extreme(tokens)
    }
}

/// A division by a number, or what is left behind it.
fn division_of(mark: Kind, place: u64, by: u32) -> ProdStep
    ensures { product_view result ≡ division_in mark place by }
{
    match mark {
        Kind::Word(Keyword::Div) => ProdStep::Div(place, by),
        _ => ProdStep::Mod(place, by),
    }
}

/// The word `div` or `mod` and a number.
pub fn division(tokens: &[Token]) -> Result<(ProdStep, &[Token]), Stop<'_>>
    ensures { Gives product_view result (division_at tokens.now) }
{
    let (word, rest) = one_of(
        tokens,
        &[Kind::Word(Keyword::Div), Kind::Word(Keyword::Mod)],
    )?;
    let (number, rest) = token(rest, Kind::Number(0))?;
    let by = number_in(number.kind);
    Ok((division_of(word.kind, number.start, by), rest))
}

/// A product goes on here.
pub fn product_goes_on(tokens: &[Token]) -> bool
    ensures { result ≡ next_is product_marks tokens.now }
{
    next_in(
        tokens,
        &[
            Kind::Symbol(Sym::Star),
            Kind::Word(Keyword::Div),
            Kind::Word(Keyword::Mod),
        ],
    )
}

/// A sum goes on here.
pub fn sum_goes_on(tokens: &[Token]) -> bool
    ensures { result ≡ next_is (symbols syms.Plus syms.Minus) tokens.now }
{
    next_in(tokens, &[Kind::Symbol(Sym::Plus), Kind::Symbol(Sym::Minus)])
}

/// A plus or a minus.
pub fn sum_mark(tokens: &[Token]) -> Result<(Token, &[Token]), Stop<'_>>
    ensures { Gives (λ t. t) result (token_at (symbols syms.Plus syms.Minus) tokens.now) }
{
    one_of(tokens, &[Kind::Symbol(Sym::Plus), Kind::Symbol(Sym::Minus)])
}

/// An expression begins here.
pub fn begins_expression(tokens: &[Token]) -> bool
    ensures { result ≡ next_is factor_firsts tokens.now }
{
    next_in(
        tokens,
        &[
            Kind::Number(0),
            Kind::Name,
            Kind::Word(Keyword::Shape),
            Kind::Symbol(Sym::Minus),
            Kind::Symbol(Sym::ParenOpen),
            Kind::Symbol(Sym::Dollar),
            Kind::Word(Keyword::Min),
            Kind::Word(Keyword::Max),
        ],
    )
}
