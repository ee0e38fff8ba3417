//! Reading the statements of shapes and objects.

ghost use Rattle.std.specs.Prelude.{◌≡◌};
ghost use Rattle.geo_tokens.specs.Gives.{Gives};
ghost use Rattle.rule_syntax.specs.Reading.{named_at};
ghost use Rattle.problem_syntax.specs.Reading.{next_at, box_at, boxes_at, shape_at, names_at, attribute_at, attribute_list_at, attributes_at, object_rest_at, object_at};
ghost use Rattle.problem_data.specs.View.{box_view, box_views, statement_view};
ghost use Rattle.problem_syntax.specs.ShapeNames.{shape_list};

use crate::end::ended;
use crate::numbers::{int, ints};
use crate::pieces::each_pieces;
use crate::shapes::{ShapeNames, shapes};
use geo_tokens::stop::{Stop, add, behind, followed_by, next_is, token};
use geo_tokens::token::{Keyword, Kind, Sym, Token};
use problem_data::tree::{AttributeText, BoxText, ObjectText, ShapeText, Statement};
use rule_syntax::tree::PlacedName;
use rule_syntax::words::placed_name;
use std::alloc::Global;

/// A box of a shape.
#[tactic(auto, unfolding(crate::specs::Reading::box_at))]
fn shape_box(alloc: Global, tokens: &[Token]) -> Result<(BoxText, &[Token]), Stop<'_>>
    ensures { Gives box_view result (box_at tokens.now) }
{
    let (word, rest) = token(tokens, Kind::Word(Keyword::Box))?;
    let (offsets, rest) = followed_by(ints(alloc, rest), Kind::Word(Keyword::Size))?;
    let (sizes, rest) = ints(alloc, rest)?;
    Ok((
        BoxText {
            place: word.start,
            offsets,
            sizes,
        },
        rest,
    ))
}

/// The boxes of a shape, one at least.
#[tactic(auto, unfolding(crate::specs::Reading::boxes_at))]
fn boxes(alloc: Global, tokens: &[Token]) -> Result<(Vec<BoxText>, &[Token]), Stop<'_>>
    ensures { Gives box_views result (boxes_at tokens.now) }
{
    let mut read = Vec::new(alloc);
    let mut rest = add(&mut read, shape_box(alloc, tokens))?;
    'items: while next_is(rest, Kind::Word(Keyword::Box)) {
        rest = add(&mut read, shape_box(alloc, rest))?;
    }
    Ok((read, rest))
}

/// The statement of a shape.
#[tactic(auto, unfolding(crate::specs::Reading::shape_at))]
pub fn shape<'a>(
    alloc: Global,
    text: &[u8],
    tokens: &'a [Token],
) -> Result<(Statement, &'a [Token]), Stop<'a>>
    ensures { Gives statement_view result (shape_at text.now tokens.now) }
{
    let Some(rest) = behind(tokens, Kind::Word(Keyword::Shape)) else {
        return Err(Stop::Wrong(tokens));
    };
    let (name, rest) = placed_name(alloc, text, rest)?;
    let (boxes, rest) = boxes(alloc, rest)?;
    ended(Statement::Shape(ShapeText { name, boxes }), rest)
}

/// A comma and a name.
pub fn next_name<'a>(
    alloc: Global,
    text: &[u8],
    tokens: &'a [Token],
) -> Result<(PlacedName, &'a [Token]), Stop<'a>>
    ensures { Gives (λ n. n) result (next_at (named_at text.now) tokens.now) }
{
    let Some(rest) = behind(tokens, Kind::Symbol(Sym::Comma)) else {
        return Err(Stop::Wrong(tokens));
    };
    placed_name(alloc, text, rest)
}

/// Names with commas between them, one at least.
#[tactic(auto, unfolding(crate::specs::Reading::names_at))]
pub fn names<'a>(
    alloc: Global,
    text: &[u8],
    tokens: &'a [Token],
) -> Result<(Vec<PlacedName>, &'a [Token]), Stop<'a>>
    ensures { Gives (λ v. v.items) result (names_at text.now tokens.now) }
{
    let mut read = Vec::new(alloc);
    let mut rest = add(&mut read, placed_name(alloc, text, tokens))?;
    'items: while next_is(rest, Kind::Symbol(Sym::Comma)) {
        rest = add(&mut read, next_name(alloc, text, rest))?;
    }
    Ok((read, rest))
}

/// An attribute of an object.
#[tactic(auto, unfolding(crate::specs::Reading::attribute_at))]
fn attribute<'a>(
    alloc: Global,
    text: &[u8],
    tokens: &'a [Token],
) -> Result<(AttributeText, &'a [Token]), Stop<'a>>
    ensures { Gives (λ a. a) result (attribute_at text.now tokens.now) }
{
    let name = placed_name(alloc, text, tokens);
    let (name, rest) = followed_by(name, Kind::Symbol(Sym::Equal))?;
    let (value, rest) = int(rest)?;
    Ok((AttributeText { name, value }, rest))
}

/// A comma and an attribute.
fn next_attribute<'a>(
    alloc: Global,
    text: &[u8],
    tokens: &'a [Token],
) -> Result<(AttributeText, &'a [Token]), Stop<'a>>
    ensures { Gives (λ a. a) result (next_at (attribute_at text.now) tokens.now) }
{
    let Some(rest) = behind(tokens, Kind::Symbol(Sym::Comma)) else {
        return Err(Stop::Wrong(tokens));
    };
    attribute(alloc, text, rest)
}

/// Attributes with commas between them, one at least.
#[tactic(auto, unfolding(crate::specs::Reading::attribute_list_at))]
fn attribute_list<'a>(
    alloc: Global,
    text: &[u8],
    tokens: &'a [Token],
) -> Result<(Vec<AttributeText>, &'a [Token]), Stop<'a>>
    ensures { Gives (λ v. v.items) result (attribute_list_at text.now tokens.now) }
{
    let mut read = Vec::new(alloc);
    let mut rest = add(&mut read, attribute(alloc, text, tokens))?;
    'items: while next_is(rest, Kind::Symbol(Sym::Comma)) {
        rest = add(&mut read, next_attribute(alloc, text, rest))?;
    }
    Ok((read, rest))
}

/// The attributes of an object, if it has any.
#[tactic(auto, unfolding(crate::specs::Reading::attributes_at))]
fn attributes<'a>(
    alloc: Global,
    text: &[u8],
    tokens: &'a [Token],
) -> Result<(Vec<AttributeText>, &'a [Token]), Stop<'a>>
    ensures { Gives (λ v. v.items) result (attributes_at text.now tokens.now) }
{
    let Some(rest) = behind(tokens, Kind::Word(Keyword::With)) else {
        return Ok((Vec::new(alloc), tokens));
    };
    attribute_list(alloc, text, rest)
}

/// What stands behind the shapes of an object, in a text of version 2 or of version 1.
fn object_rest<'a>(
    alloc: Global,
    text: &[u8],
    second: bool,
    name: PlacedName,
    shapes: ShapeNames,
    tokens: &'a [Token],
) -> Result<(Statement, &'a [Token]), Stop<'a>>
    ensures { Gives statement_view result
        (object_rest_at text.now second name (shape_list shapes) tokens.now) }
{
    let Some(rest) = behind(tokens, Kind::Word(Keyword::At)) else {
        return Err(Stop::Wrong(tokens));
    };
    let (pieces, rest) = each_pieces(alloc, second, rest)?;
    let (attributes, rest) = attributes(alloc, text, rest)?;
    let ShapeNames { names, absent } = shapes;
    let object = ObjectText {
        name,
        shapes: names,
        absent,
        pieces,
        attributes,
    };
    ended(Statement::Object(object), rest)
}

/// The statement of an object, in a text of version 2 or of version 1.
#[tactic(auto, unfolding(crate::specs::Reading::object_at))]
pub fn object<'a>(
    alloc: Global,
    text: &[u8],
    second: bool,
    tokens: &'a [Token],
) -> Result<(Statement, &'a [Token]), Stop<'a>>
    ensures { Gives statement_view result (object_at text.now second tokens.now) }
{
    let Some(rest) = behind(tokens, Kind::Word(Keyword::Object)) else {
        return Err(Stop::Wrong(tokens));
    };
    let name = placed_name(alloc, text, rest);
    let (name, rest) = followed_by(name, Kind::Word(Keyword::As))?;
    let (shapes, rest) = shapes(alloc, text, second, rest)?;
    object_rest(alloc, text, second, name, shapes, rest)
}
