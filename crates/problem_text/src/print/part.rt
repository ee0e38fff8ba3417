//! How the parts of statements are spelled.

ghost use Rattle.std.specs.Prelude.{◌≡◌, ◌++◌, IfOk, map, flat_map};
ghost use Rattle.rule_print.specs.Canonical.{written};
ghost use Rattle.problem_data.specs.View.{body_view};
ghost use Rattle.problem_data.specs.ProblemView.{range_data, attribute_data, param_data, demand_data};
ghost use Rattle.problem_text.specs.Canonical.{listed, int_spelling, ints_spelling, range_spelling, ranges_spelling, pieces_spelling, box_spelling, attribute_spelling, attributes_spelling, kind_word, param_spelling, body_spelling, demand_spelling, side_spelling};

use crate::print::line::push_name;
use geo_tokens::token::{Keyword, Sym};
use problem_data::problem::{AttributeDef, BoxDef, Demand, ParamDef, PiecesDef, RangeDef};
use problem_data::tree::{MacroBody, ParamKind, Side};
use rule_print::expression::spell_expression;
use rule_print::formula::spell_formula;
use rule_print::lexeme::{Lexeme, push, push_all, push_if, push_symbol, push_word};
use rule_print::rank::{ExprRank, FormulaRank};
use std::alloc::AllocError;

fn spell_int<'a>(value: i64, into: &mut Vec<Lexeme<'a>>) -> Result<(), AllocError>
    ensures { IfOk result (λ _. map written into.new.items ≡ map written into.old.items
        ++ int_spelling value) }
{
    if value < 0 {
        push(Lexeme::Sign, into)?;
    }
    push(Lexeme::Number(value.unsigned_abs()), into)
}

fn spell_ints<'a>(values: &[i64], into: &mut Vec<Lexeme<'a>>) -> Result<(), AllocError>
    ensures { IfOk result (λ _. map written into.new.items ≡ map written into.old.items
        ++ ints_spelling values.now) }
{
    'values: for value in values {
        spell_int(*value, into)?;
    }
    Ok(())
}

fn spell_range<'a>(range: RangeDef, into: &mut Vec<Lexeme<'a>>) -> Result<(), AllocError>
    ensures { IfOk result (λ _. map written into.new.items ≡ map written into.old.items
        ++ range_spelling (range_data range)) }
{
    spell_int(range.low, into)?;
    push_symbol(Sym::DotDot, into)?;
    spell_int(range.high, into)
}

fn spell_ranges<'a>(ranges: &[RangeDef], into: &mut Vec<Lexeme<'a>>) -> Result<(), AllocError>
    ensures { IfOk result (λ _. map written into.new.items ≡ map written into.old.items
        ++ ranges_spelling (map range_data ranges.now)) }
{
    'each: for range in ranges {
        spell_range(*range, into)?;
    }
    Ok(())
}

fn spell_pieces<'a>(pieces: &[RangeDef], into: &mut Vec<Lexeme<'a>>) -> Result<(), AllocError>
    ensures { IfOk result (λ _. map written into.new.items ≡ map written into.old.items
        ++ pieces_spelling (map range_data pieces.now)) }
{
    let mut is_first = true;
    'pieces: for piece in pieces {
        push_if(!is_first, Sym::Comma, into)?;
        spell_range(*piece, into)?;
        is_first = false;
    }
    Ok(())
}

/// The range of each coordinate of an object, by its pieces.
pub fn spell_each_pieces<'a>(
    ranges: &[PiecesDef],
    into: &mut Vec<Lexeme<'a>>,
) -> Result<(), AllocError>
    ensures { IfOk result (λ _. map written into.new.items ≡ map written into.old.items
        ++ flat_map pieces_spelling ranges.now) }
{
    'each: for pieces in ranges {
        spell_pieces(pieces.ranges(), into)?;
    }
    Ok(())
}

fn spell_box<'a>(own: &BoxDef, into: &mut Vec<Lexeme<'a>>) -> Result<(), AllocError>
    ensures { IfOk result (λ _. map written into.new.items ≡ map written into.old.items
        ++ box_spelling own.now) }
{
    push_word(Keyword::Box, into)?;
    spell_ints(own.offsets(), into)?;
    push_word(Keyword::Size, into)?;
    spell_ints(own.sizes(), into)
}

pub fn spell_boxes<'a>(boxes: &[BoxDef], into: &mut Vec<Lexeme<'a>>) -> Result<(), AllocError>
    ensures { IfOk result (λ _. map written into.new.items ≡ map written into.old.items
        ++ flat_map box_spelling boxes.now) }
{
    'boxes: for own in boxes {
        spell_box(own, into)?;
    }
    Ok(())
}

fn spell_attribute<'a>(
    attribute: &'a AttributeDef,
    into: &mut Vec<Lexeme<'a>>,
) -> Result<(), AllocError>
    ensures { IfOk result (λ _. map written into.new.items ≡ map written into.old.items
        ++ attribute_spelling (attribute_data attribute.now)) }
{
    push_name(&attribute.name, into)?;
    push_symbol(Sym::Equal, into)?;
    spell_int(attribute.value, into)
}

fn spell_attribute_list<'a>(
    attributes: &'a [AttributeDef],
    into: &mut Vec<Lexeme<'a>>,
) -> Result<(), AllocError>
    ensures { IfOk result (λ _. map written into.new.items ≡ map written into.old.items
        ++ listed attribute_spelling (map attribute_data attributes.now)) }
{
    let mut is_first = true;
    'attributes: for attribute in attributes {
        push_if(!is_first, Sym::Comma, into)?;
        spell_attribute(attribute, into)?;
        is_first = false;
    }
    Ok(())
}

/// The attributes with their word, if there are any.
pub fn spell_attributes<'a>(
    attributes: &'a [AttributeDef],
    into: &mut Vec<Lexeme<'a>>,
) -> Result<(), AllocError>
    ensures { IfOk result (λ _. map written into.new.items ≡ map written into.old.items
        ++ attributes_spelling (map attribute_data attributes.now)) }
{
    match attributes {
        [] => Ok(()),
        _ => {
            push_word(Keyword::With, into)?;
            spell_attribute_list(attributes, into)
        }
    }
}

fn kind_word(kind: ParamKind) -> Keyword
    ensures { result ≡ kind_word kind }
{
    match kind {
        ParamKind::Int => Keyword::Int,
        ParamKind::Object => Keyword::Object,
        ParamKind::Box => Keyword::Box,
    }
}

fn spell_param<'a>(param: &'a ParamDef, into: &mut Vec<Lexeme<'a>>) -> Result<(), AllocError>
    ensures { IfOk result (λ _. map written into.new.items ≡ map written into.old.items
        ++ param_spelling (param_data param.now)) }
{
    push_all(
        &[
            Lexeme::Name(param.name.as_bytes()),
            Lexeme::Symbol(Sym::Colon),
            Lexeme::Word(kind_word(param.kind)),
        ],
        into,
    )
}

/// The parameters of a macro, with commas between them.
pub fn spell_params<'a>(
    params: &'a [ParamDef],
    into: &mut Vec<Lexeme<'a>>,
) -> Result<(), AllocError>
    ensures { IfOk result (λ _. map written into.new.items ≡ map written into.old.items
        ++ listed param_spelling (map param_data params.now)) }
{
    let mut is_first = true;
    'params: for param in params {
        push_if(!is_first, Sym::Comma, into)?;
        spell_param(param, into)?;
        is_first = false;
    }
    Ok(())
}

/// What a macro stands for, with its word.
pub fn spell_body<'a>(body: &'a MacroBody, into: &mut Vec<Lexeme<'a>>) -> Result<(), AllocError>
    ensures { IfOk result (λ _. map written into.new.items ≡ map written into.old.items
        ++ body_spelling (body_view body.now)) }
{
    match body {
        MacroBody::Means(formula) => {
            push_word(Keyword::Means, into)?;
            spell_formula(formula, FormulaRank::Equivalence, into)
        }
        MacroBody::Is(expression) => {
            push_word(Keyword::Is, into)?;
            spell_expression(expression, ExprRank::Sum, into)
        }
    }
}

/// What a rule asks for.
pub fn spell_demand<'a>(demand: &'a Demand, into: &mut Vec<Lexeme<'a>>) -> Result<(), AllocError>
    ensures { IfOk result (λ _. map written into.new.items ≡ map written into.old.items
        ++ demand_spelling (demand_data demand.now)) }
{
    match demand {
        Demand::Apart => push_word(Keyword::Apart, into),
        Demand::Within(ranges) => {
            push_word(Keyword::Within, into)?;
            spell_ranges(ranges.as_slice(), into)
        }
        Demand::Plain(formula) => spell_formula(formula, FormulaRank::Equivalence, into),
    }
}

pub fn spell_sides<'a>(sides: &[Side], into: &mut Vec<Lexeme<'a>>) -> Result<(), AllocError>
    ensures { IfOk result (λ _. map written into.new.items ≡ map written into.old.items
        ++ flat_map side_spelling sides.now) }
{
    'sides: for side in sides {
        spell_side(*side, into)?;
    }
    Ok(())
}

fn spell_side<'a>(side: Side, into: &mut Vec<Lexeme<'a>>) -> Result<(), AllocError>
    ensures { IfOk result (λ _. map written into.new.items ≡ map written into.old.items
        ++ side_spelling side) }
{
    match side {
        Side::Low => push_word(Keyword::Low, into),
        Side::High => push_word(Keyword::High, into),
    }
}
