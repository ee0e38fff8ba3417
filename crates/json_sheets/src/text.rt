//! The whole text of a sheet.

ghost use Rattle.std.specs.Prelude.{◌≡◌, ◌++◌, ◌∷◌, [], IfOk, map, flat_map};
ghost use Rattle.geo_tokens.specs.declared.token.Keyword.TheVariants as keywords;
ghost use Rattle.rule_print.specs.Canonical.{word};
ghost use Rattle.problem_text.specs.Canonical.{shape_spelling, sides_spelling, line_text};
ghost use Rattle.json_sheets.specs.Sheet.{object_sheet, rule_sheet, sheet_data};
ghost use Rattle.json_sheets.specs.SheetText.{head_line, object_line, macro_line, rule_line, order_line, lines, line_where_some, sheet_text};

use crate::statements::{push_macro, push_object, push_order, push_rule};
use crate::{ObjectSheet, RuleSheet, Sheet};
use geo_tokens::token::Keyword;
use json_parts::FreeText;
use problem_data::problem::ShapeDef;
use problem_text::print::line::push_line;
use problem_text::print::statement::{push_shape, push_sides};
use rule_print::lexeme::Lexeme;
use std::alloc::{AllocError, Global};

fn push_head(alloc: Global, sheet: &Sheet, text: &mut Vec<u8>) -> Result<(), AllocError>
    ensures { IfOk result (λ _. text.new.items ≡ text.old.items
        ++ line_text (head_line (sheet_data sheet.now))) }
{
    push_line(
        alloc,
        &[
            Lexeme::Word(Keyword::Geost),
            Lexeme::Number(sheet.version),
            Lexeme::Word(Keyword::Dims),
            Lexeme::Number(sheet.dims),
        ],
        text,
    )
}

fn push_shapes(alloc: Global, shapes: &[ShapeDef], text: &mut Vec<u8>) -> Result<(), AllocError>
    ensures { IfOk result (λ _. text.new.items ≡ text.old.items ++ lines shape_spelling shapes.now) }
{
    'shapes: for shape in shapes {
        push_shape(alloc, shape, text)?;
    }
    Ok(())
}

fn push_objects(
    alloc: Global,
    objects: &[ObjectSheet],
    text: &mut Vec<u8>,
) -> Result<(), AllocError>
    ensures { IfOk result (λ _. text.new.items ≡ text.old.items
        ++ lines object_line (map object_sheet objects.now)) }
{
    'objects: for object in objects {
        push_object(alloc, object, text)?;
    }
    Ok(())
}

fn push_macros(alloc: Global, macros: &[FreeText], text: &mut Vec<u8>) -> Result<(), AllocError>
    ensures { IfOk result (λ _. text.new.items ≡ text.old.items ++ lines macro_line macros.now) }
{
    'macros: for own in macros {
        push_macro(alloc, own, text)?;
    }
    Ok(())
}

fn push_rules(alloc: Global, rules: &[RuleSheet], text: &mut Vec<u8>) -> Result<(), AllocError>
    ensures { IfOk result (λ _. text.new.items ≡ text.old.items
        ++ lines rule_line (map rule_sheet rules.now)) }
{
    'rules: for rule in rules {
        push_rule(alloc, rule, text)?;
    }
    Ok(())
}

/// Appends the lines of the search order and of the sides, where their lists are not empty.
fn push_ways(alloc: Global, sheet: &Sheet, text: &mut Vec<u8>) -> Result<(), AllocError>
    ensures { IfOk result (λ _. text.new.items ≡ text.old.items
        ++ (line_where_some order_line sheet.now.order.items
        ++ line_where_some sides_spelling sheet.now.sides.items)) }
{
    if !sheet.order.is_empty() {
        push_order(alloc, sheet.order.as_slice(), text)?;
    }
    if !sheet.sides.is_empty() {
        push_sides(alloc, sheet.sides.as_slice(), text)?;
    }
    Ok(())
}

fn push_end(alloc: Global, text: &mut Vec<u8>) -> Result<(), AllocError>
    ensures { IfOk result (λ _. text.new.items ≡ text.old.items
        ++ line_text (word keywords.End ∷ [])) }
{
    push_line(alloc, &[Lexeme::Word(Keyword::End)], text)
}

/// The text of statements that the sheet spells, a statement on a line.
pub fn sheet_text(alloc: Global, sheet: &Sheet) -> Result<Vec<u8>, AllocError>
    ensures { IfOk result (λ text. text.items ≡ sheet_text (sheet_data sheet.now)) }
{
    let mut text = Vec::new(alloc);
    push_head(alloc, sheet, &mut text)?;
    push_shapes(alloc, sheet.shapes.as_slice(), &mut text)?;
    push_objects(alloc, sheet.objects.as_slice(), &mut text)?;
    push_macros(alloc, sheet.macros.as_slice(), &mut text)?;
    push_ways(alloc, sheet, &mut text)?;
    push_rules(alloc, sheet.rules.as_slice(), &mut text)?;
    push_end(alloc, &mut text)?;
    Ok(text)
}
