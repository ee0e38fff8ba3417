//! Reading a quantifier's words and what its variable ranges over.

ghost use Rattle.std.specs.Prelude.{◌≡◌, ◌∷◌, []};
ghost use Rattle.geo_tokens.specs.Words.{symbol};
ghost use Rattle.geo_tokens.specs.Reading.{next_is, many_at, cut_at};
ghost use Rattle.geo_tokens.specs.Gives.{Gives};
ghost use Rattle.geo_tokens.specs.declared.token.Keyword.TheVariants as keywords;
ghost use Rattle.geo_tokens.specs.declared.token.Sym.TheVariants as syms;
ghost use Rattle.rule_syntax.specs.Marks.{words, quantifiers};
ghost use Rattle.rule_syntax.specs.Reading.{each_at, count_at, quantifier_at, next_name_at, name_list_at, objects_at, boxes_at, collection_at};
ghost use Rattle.rule_syntax.specs.View.{coll_view, names_view};
ghost use Rattle.rule_reading.specs.Bound.{range_at, bound_at, bound_view};

use geo_tokens::stop::{Stop, add, behind, followed_by, next_in, next_is, one_of, token};
use geo_tokens::token::{Keyword, Kind, Sym, Token, number_in};
use rule_syntax::tree::{Coll, PlacedName, QuantKind};
use rule_syntax::words::placed_name;
use std::alloc::Global;

/// One of the words `forall` and `exists`, with its place.
fn each(tokens: &[Token]) -> Result<((u64, QuantKind), &[Token]), Stop<'_>>
    ensures { Gives (λ q. q) result (each_at tokens.now) }
{
    let (word, rest) = one_of(
        tokens,
        &[Kind::Word(Keyword::ForAll), Kind::Word(Keyword::Exists)],
    )?;
    let kind = match word.kind {
        Kind::Word(Keyword::ForAll) => QuantKind::ForAll,
        _ => QuantKind::Exists,
    };
    Ok(((word.start, kind), rest))
}

/// One of the words `atleast` and `atmost`, with its place and the number behind it.
fn count(tokens: &[Token]) -> Result<((u64, QuantKind), &[Token]), Stop<'_>>
    ensures { Gives (λ q. q) result (count_at tokens.now) }
{
    let (word, rest) = one_of(
        tokens,
        &[Kind::Word(Keyword::AtLeast), Kind::Word(Keyword::AtMost)],
    )?;
    let (number, rest) = token(rest, Kind::Number(0))?;
    let number = number_in(number.kind);
    let kind = match word.kind {
        Kind::Word(Keyword::AtLeast) => QuantKind::AtLeast(number),
        _ => QuantKind::AtMost(number),
    };
    Ok(((word.start, kind), rest))
}

/// The words that begin a quantifier.
pub const QUANTIFIERS: [Kind; 4] = [
    Kind::Word(Keyword::ForAll),
    Kind::Word(Keyword::Exists),
    Kind::Word(Keyword::AtLeast),
    Kind::Word(Keyword::AtMost),
];

/// A quantifier begins here.
pub fn begins_quantifier(tokens: &[Token]) -> bool
    ensures { result ≡ next_is quantifiers tokens.now }
{
    next_in(tokens, &QUANTIFIERS)
}

fn begins_each(tokens: &[Token]) -> bool
    ensures { result ≡ next_is (words keywords.ForAll keywords.Exists) tokens.now }
{
    next_in(
        tokens,
        &[Kind::Word(Keyword::ForAll), Kind::Word(Keyword::Exists)],
    )
}

/// The first words of a quantifier, with their place.
fn quantifier(tokens: &[Token]) -> Result<((u64, QuantKind), &[Token]), Stop<'_>>
    ensures { Gives (λ q. q) result (quantifier_at tokens.now) }
{
    if begins_each(tokens) {
        each(tokens)
    } else {
        count(tokens)
    }
}

/// A comma and a name.
fn next_name<'a>(
    alloc: Global,
    text: &[u8],
    tokens: &'a [Token],
) -> Result<(PlacedName, &'a [Token]), Stop<'a>>
    ensures { Gives (λ n. n) result (next_name_at text.now tokens.now) }
{
    let Some(rest) = behind(tokens, Kind::Symbol(Sym::Comma)) else {
        return Err(Stop::Wrong(tokens));
    };
    placed_name(alloc, text, rest)
}

/// The names behind the first one.
fn more_names<'a>(
    alloc: Global,
    text: &[u8],
    tokens: &'a [Token],
) -> Result<(Vec<PlacedName>, &'a [Token]), Stop<'a>>
    ensures { Gives names_view result
        (many_at (symbol syms.Comma) (next_name_at text.now) tokens.now) }
{
    let mut names = Vec::new(alloc);
    let mut rest = tokens;
    'items: while next_is(rest, Kind::Symbol(Sym::Comma)) {
        let name = next_name(alloc, text, rest);
        rest = add(&mut names, name)?;
    }
    Ok((names, rest))
}

/// The listed objects, with their brackets.
fn name_list<'a>(
    alloc: Global,
    text: &[u8],
    tokens: &'a [Token],
) -> Result<(Coll, &'a [Token]), Stop<'a>>
    ensures { Gives coll_view result (name_list_at text.now tokens.now) }
{
    let Some(rest) = behind(tokens, Kind::Symbol(Sym::ParenOpen)) else {
        return Err(Stop::Wrong(tokens));
    };
    let (first, rest) = placed_name(alloc, text, rest)?;
    let names = more_names(alloc, text, rest);
    let (mut names, rest) = followed_by(names, Kind::Symbol(Sym::ParenClose))?;
    names.insert(0, first)?;
    Ok((Coll::Listed(names), rest))
}

/// The word `objects`, and which ones if they are listed.
fn objects<'a>(
    alloc: Global,
    text: &[u8],
    tokens: &'a [Token],
) -> Result<(Coll, &'a [Token]), Stop<'a>>
    ensures { Gives coll_view result (objects_at text.now tokens.now) }
{
    let Some(rest) = behind(tokens, Kind::Word(Keyword::Objects)) else {
        return Err(Stop::Wrong(tokens));
    };
    if next_is(rest, Kind::Symbol(Sym::ParenOpen)) {
        name_list(alloc, text, rest)
    } else {
        Ok((Coll::Objects, rest))
    }
}

/// The words `boxes of` and a name.
fn boxes<'a>(
    alloc: Global,
    text: &[u8],
    tokens: &'a [Token],
) -> Result<(Coll, &'a [Token]), Stop<'a>>
    ensures { Gives coll_view result (boxes_at text.now tokens.now) }
{
    let word = token(tokens, Kind::Word(Keyword::Boxes));
    let (_, rest) = followed_by(word, Kind::Word(Keyword::Of))?;
    let (name, rest) = placed_name(alloc, text, rest)?;
    Ok((Coll::BoxesOf(name), rest))
}

/// What a quantifier's variable ranges over.
fn collection<'a>(
    alloc: Global,
    text: &[u8],
    tokens: &'a [Token],
) -> Result<(Coll, &'a [Token]), Stop<'a>>
    ensures { Gives coll_view result (collection_at text.now tokens.now) }
{
    if next_is(tokens, Kind::Word(Keyword::Objects)) {
        objects(alloc, text, tokens)
    } else {
        boxes(alloc, text, tokens)
    }
}

/// What a variable ranges over, between the word `in` and the colon.
fn range<'a>(
    alloc: Global,
    text: &[u8],
    tokens: &'a [Token],
) -> Result<(Coll, &'a [Token]), Stop<'a>>
    ensures { Gives coll_view result (range_at text.now tokens.now) }
{
    let Some(rest) = behind(tokens, Kind::Word(Keyword::In)) else {
        return Err(Stop::Wrong(tokens));
    };
    let collection = collection(alloc, text, rest);
    followed_by(collection, Kind::Symbol(Sym::Colon))
}

/// A quantifier with its place, its variable and what that ranges over.
pub fn bound<'a>(
    alloc: Global,
    text: &[u8],
    tokens: &'a [Token],
) -> Result<((u64, QuantKind, PlacedName, Coll), &'a [Token]), Stop<'a>>
    ensures { Gives bound_view result (bound_at text.now tokens.now) }
{
    let ((place, kind), rest) = quantifier(tokens)?;
    let (variable, rest) = placed_name(alloc, text, rest)?;
    let (collection, rest) = range(alloc, text, rest)?;
    Ok(((place, kind, variable, collection), rest))
}
