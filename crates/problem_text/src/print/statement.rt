//! How statements are spelled.

ghost use Rattle.std.specs.Prelude.{◌≡◌, ◌++◌, ◌∷◌, [], IfOk, map, slice_index_or};
ghost use Rattle.geo_tokens.specs.declared.token.Sym.TheVariants as syms;
ghost use Rattle.rule_print.specs.Canonical.{written, symbol};
ghost use Rattle.problem_text.specs.Canonical.{listed, name_spelling, name_at, absent_spelling, shapes_spelling, shape_spelling, object_spelling, macro_spelling, rule_spelling, order_spelling, sides_spelling, line_text};

use crate::print::line::push_closed_line;
use crate::print::part::{
    spell_attributes, spell_body, spell_boxes, spell_demand, spell_each_pieces, spell_params,
    spell_sides,
};
use geo_tokens::token::{Keyword, Sym};
use problem_data::problem::{MacroDef, ObjectDef, RuleDef, ShapeDef};
use problem_data::tree::Side;
use rule_print::lexeme::{Lexeme, push, push_all, push_if, push_symbol, push_word};
use std::alloc::{AllocError, Global};

/// Appends the line of a shape.
pub fn push_shape(alloc: Global, shape: &ShapeDef, text: &mut Vec<u8>) -> Result<(), AllocError>
    ensures { IfOk result (λ _. text.new.items ≡ text.old.items
        ++ line_text (shape_spelling shape.now)) }
{
    let mut lexemes = Vec::new(alloc);
    push_all(
        &[
            Lexeme::Word(Keyword::Shape),
            Lexeme::Name(shape.name().as_bytes()),
        ],
        &mut lexemes,
    )?;
    spell_boxes(shape.boxes(), &mut lexemes)?;
    push_closed_line(alloc, lexemes, text)
}

/// The name of the shape at this position.
fn shape_name(shapes: &[ShapeDef], position: u16) -> &[u8]
    ensures { result.now ≡ name_at (map (λ s. s.name) shapes.now) position }
{
    match shapes.get(position as usize) {
        Some(shape) => shape.name().as_bytes(),
        None => b"",
    }
}

/// The names of the shapes at these positions, with commas between them.
fn spell_shape_names<'a>(
    shapes: &'a [ShapeDef],
    positions: &[u16],
    into: &mut Vec<Lexeme<'a>>,
) -> Result<(), AllocError>
    ensures { IfOk result (λ _. map written into.new.items ≡ map written into.old.items
        ++ listed (λ i. name_spelling (name_at (map (λ s. s.name) shapes.now) i)) positions.now) }
{
    let mut is_first = true;
    'positions: for position in positions {
        push_if(!is_first, Sym::Comma, into)?;
        push(Lexeme::Name(shape_name(shapes, *position)), into)?;
        is_first = false;
    }
    Ok(())
}

/// The word behind the shapes of an object that may be absent.
fn spell_absent<'a>(may_be_absent: bool, into: &mut Vec<Lexeme<'a>>) -> Result<(), AllocError>
    ensures { IfOk result (λ _. map written into.new.items ≡ map written into.old.items
        ++ absent_spelling may_be_absent) }
{
    if may_be_absent {
        push_symbol(Sym::Comma, into)?;
        push_word(Keyword::Absent, into)?;
    }
    Ok(())
}

/// The shapes of an object, where these are the shapes of the problem.
fn spell_shapes<'a>(
    shapes: &'a [ShapeDef],
    object: &ObjectDef,
    into: &mut Vec<Lexeme<'a>>,
) -> Result<(), AllocError>
    ensures { IfOk result (λ _. map written into.new.items ≡ map written into.old.items
        ++ shapes_spelling (map (λ s. s.name) shapes.now) object.now) }
{
    spell_shape_names(shapes, object.shapes(), into)?;
    spell_absent(object.may_be_absent(), into)
}

/// Appends the line of an object, where these are the shapes.
pub fn push_object(
    alloc: Global,
    shapes: &[ShapeDef],
    object: &ObjectDef,
    text: &mut Vec<u8>,
) -> Result<(), AllocError>
    ensures { IfOk result (λ _. text.new.items ≡ text.old.items
        ++ line_text (object_spelling (map (λ s. s.name) shapes.now) object.now)) }
{
    let mut lexemes = Vec::new(alloc);
    push_all(
        &[
            Lexeme::Word(Keyword::Object),
            Lexeme::Name(object.name().as_bytes()),
            Lexeme::Word(Keyword::As),
        ],
        &mut lexemes,
    )?;
    spell_shapes(shapes, object, &mut lexemes)?;
    push_word(Keyword::At, &mut lexemes)?;
    spell_each_pieces(object.pieces(), &mut lexemes)?;
    spell_attributes(object.attributes(), &mut lexemes)?;
    push_closed_line(alloc, lexemes, text)
}

/// Appends the line of a macro.
pub fn push_macro(alloc: Global, own: &MacroDef, text: &mut Vec<u8>) -> Result<(), AllocError>
    ensures { IfOk result (λ _. text.new.items ≡ text.old.items
        ++ line_text (macro_spelling own.now)) }
{
    let mut lexemes = Vec::new(alloc);
    push_all(
        &[
            Lexeme::Word(Keyword::Macro),
            Lexeme::Name(own.name().as_bytes()),
            Lexeme::Symbol(Sym::ParenOpen),
        ],
        &mut lexemes,
    )?;
    spell_params(own.params(), &mut lexemes)?;
    push_symbol(Sym::ParenClose, &mut lexemes)?;
    spell_body(own.body(), &mut lexemes)?;
    push_closed_line(alloc, lexemes, text)
}

/// Appends the line of a rule.
pub fn push_rule(alloc: Global, rule: &RuleDef, text: &mut Vec<u8>) -> Result<(), AllocError>
    ensures { IfOk result (λ _. text.new.items ≡ text.old.items
        ++ line_text (rule_spelling rule.now)) }
{
    let mut lexemes = Vec::new(alloc);
    push_all(
        &[
            Lexeme::Word(Keyword::Rule),
            Lexeme::Name(rule.name().as_bytes()),
            Lexeme::Symbol(Sym::Colon),
        ],
        &mut lexemes,
    )?;
    spell_demand(rule.demand(), &mut lexemes)?;
    push_closed_line(alloc, lexemes, text)
}

/// The name of the object at this position.
fn object_name(objects: &[ObjectDef], position: u16) -> &[u8]
    ensures { result.now ≡ name_at (map (λ o. o.name) objects.now) position }
{
    match objects.get(position as usize) {
        Some(object) => object.name().as_bytes(),
        None => b"",
    }
}

/// The names of the objects at these positions, with commas between them.
fn spell_object_names<'a>(
    objects: &'a [ObjectDef],
    positions: &[u16],
    into: &mut Vec<Lexeme<'a>>,
) -> Result<(), AllocError>
    ensures { IfOk result (λ _. map written into.new.items ≡ map written into.old.items
        ++ listed (λ i. name_spelling (name_at (map (λ o. o.name) objects.now) i)) positions.now) }
{
    let mut is_first = true;
    'positions: for position in positions {
        push_if(!is_first, Sym::Comma, into)?;
        push(Lexeme::Name(object_name(objects, *position)), into)?;
        is_first = false;
    }
    Ok(())
}

/// Appends the line of the search order, where these are the objects.
pub fn push_order(
    alloc: Global,
    objects: &[ObjectDef],
    order: &[u16],
    text: &mut Vec<u8>,
) -> Result<(), AllocError>
    ensures { IfOk result (λ _. text.new.items ≡ text.old.items
        ++ line_text (order_spelling (map (λ o. o.name) objects.now) order.now)) }
{
    let mut lexemes = Vec::new(alloc);
    push_word(Keyword::Order, &mut lexemes)?;
    spell_object_names(objects, order, &mut lexemes)?;
    push_closed_line(alloc, lexemes, text)
}

/// Appends the line of the sides.
pub fn push_sides(alloc: Global, sides: &[Side], text: &mut Vec<u8>) -> Result<(), AllocError>
    ensures { IfOk result (λ _. text.new.items ≡ text.old.items
        ++ line_text (sides_spelling sides.now)) }
{
    let mut lexemes = Vec::new(alloc);
    push_word(Keyword::Sides, &mut lexemes)?;
    spell_sides(sides, &mut lexemes)?;
    push_closed_line(alloc, lexemes, text)
}
