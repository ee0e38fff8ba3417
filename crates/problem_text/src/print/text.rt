//! The whole canonical text.

ghost use Rattle.std.specs.Prelude.{◌≡◌, ◌++◌, ◌∷◌, [], IfOk, map, flat_map, not};
ghost use Rattle.std.specs.List.{list_any};
ghost use Rattle.geo_tokens.specs.declared.token.Keyword.TheVariants as keywords;
ghost use Rattle.rule_print.specs.Canonical.{word};
ghost use Rattle.problem_data.specs.Problem.{runs_down};
ghost use Rattle.problem_text.specs.Canonical.{order_spelling, sides_spelling, object_names, line_if, shape_spelling, object_spelling, macro_spelling, rule_spelling, line_text, counts_from, head_spelling, problem_text};

use crate::print::line::push_line;
use crate::print::statement::{
    push_macro, push_object, push_order, push_rule, push_shape, push_sides,
};
use geo_tokens::token::Keyword;
use problem_data::problem::{MacroDef, ObjectDef, Problem, RuleDef, ShapeDef};
use problem_data::tree::Side;
use rule_print::lexeme::Lexeme;
use std::alloc::{AllocError, Global};

fn push_head(alloc: Global, problem: &Problem, text: &mut Vec<u8>) -> Result<(), AllocError>
    ensures { IfOk result (λ _. text.new.items ≡ text.old.items
        ++ line_text (head_spelling problem.now)) }
{
    push_line(
        alloc,
        &[
            Lexeme::Word(Keyword::Geost),
            Lexeme::Number(problem.version() as u64),
            Lexeme::Word(Keyword::Dims),
            Lexeme::Number(problem.dims() as u64),
        ],
        text,
    )
}

fn push_shapes(alloc: Global, shapes: &[ShapeDef], text: &mut Vec<u8>) -> Result<(), AllocError>
    ensures { IfOk result (λ _. text.new.items ≡ text.old.items
        ++ flat_map (λ s. line_text (shape_spelling s)) shapes.now) }
{
    'shapes: for shape in shapes {
        push_shape(alloc, shape, text)?;
    }
    Ok(())
}

fn push_objects(
    alloc: Global,
    shapes: &[ShapeDef],
    objects: &[ObjectDef],
    text: &mut Vec<u8>,
) -> Result<(), AllocError>
    ensures { IfOk result (λ _. text.new.items ≡ text.old.items
        ++ flat_map (λ o. line_text (object_spelling (map (λ s. s.name) shapes.now) o))
        objects.now) }
{
    'objects: for object in objects {
        push_object(alloc, shapes, object, text)?;
    }
    Ok(())
}

fn push_macros(alloc: Global, macros: &[MacroDef], text: &mut Vec<u8>) -> Result<(), AllocError>
    ensures { IfOk result (λ _. text.new.items ≡ text.old.items
        ++ flat_map (λ m. line_text (macro_spelling m)) macros.now) }
{
    'macros: for own in macros {
        push_macro(alloc, own, text)?;
    }
    Ok(())
}

fn push_rules(alloc: Global, rules: &[RuleDef], text: &mut Vec<u8>) -> Result<(), AllocError>
    ensures { IfOk result (λ _. text.new.items ≡ text.old.items
        ++ flat_map (λ r. line_text (rule_spelling r)) rules.now) }
{
    'rules: for rule in rules {
        push_rule(alloc, rule, text)?;
    }
    Ok(())
}

/// These positions are 0, 1, 2 and so on.
fn is_file_order(order: &[u16]) -> bool
    ensures { result ≡ counts_from 0 order.now }
{
    'positions: for (place, position) in order.iter().enumerate() {
        if *position as usize != place {
            return false;
        }
    }
    true
}

fn some_high(sides: &[Side]) -> bool
    ensures { result ≡ list_any runs_down sides.now }
{
    sides.iter().any(|side| side.runs_down())
}

fn push_end(alloc: Global, text: &mut Vec<u8>) -> Result<(), AllocError>
    ensures { IfOk result (λ _. text.new.items ≡ text.old.items
        ++ line_text (word keywords.End ∷ [])) }
{
    push_line(alloc, &[Lexeme::Word(Keyword::End)], text)
}

/// Appends the lines of the search order and of the sides, where they are needed.
fn push_ways(alloc: Global, problem: &Problem, text: &mut Vec<u8>) -> Result<(), AllocError>
    ensures { IfOk result (λ _. text.new.items ≡ text.old.items
        ++ (line_if (not (counts_from 0 problem.now.order))
        (order_spelling (object_names problem.now) problem.now.order)
        ++ line_if (list_any runs_down problem.now.sides) (sides_spelling problem.now.sides))) }
{
    if !is_file_order(problem.search_order()) {
        push_order(alloc, problem.objects(), problem.search_order(), text)?;
    }
    if some_high(problem.sides()) {
        push_sides(alloc, problem.sides(), text)?;
    }
    Ok(())
}

/// The canonical text of a problem.
pub fn canonical_text(alloc: Global, problem: &Problem) -> Result<Vec<u8>, AllocError>
    ensures { IfOk result (λ v. v.items ≡ problem_text problem.now) }
{
    let mut text = Vec::new(alloc);
    push_head(alloc, problem, &mut text)?;
    push_shapes(alloc, problem.shapes(), &mut text)?;
    push_objects(alloc, problem.shapes(), problem.objects(), &mut text)?;
    push_macros(alloc, problem.macros(), &mut text)?;
    push_ways(alloc, problem, &mut text)?;
    push_rules(alloc, problem.rules(), &mut text)?;
    push_end(alloc, &mut text)?;
    Ok(text)
}
