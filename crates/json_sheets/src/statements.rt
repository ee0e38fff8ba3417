//! The lines of statements.

ghost use Rattle.std.specs.Prelude.{◌≡◌, ◌++◌, IfOk, map};
ghost use Rattle.rule_print.specs.Canonical.{written};
ghost use Rattle.problem_text.specs.Canonical.{listed, name_spelling, line_text};
ghost use Rattle.json_sheets.specs.Sheet.{object_sheet, rule_sheet};
ghost use Rattle.json_sheets.specs.SheetText.{object_line, macro_line, order_line, rule_line};

use crate::{ObjectSheet, RuleSheet};
use geo_tokens::name::Name;
use geo_tokens::token::{Keyword, Sym};
use json_parts::FreeText;
use problem_text::print::line::{push_closed_line, push_name};
use problem_text::print::part::{spell_attributes, spell_each_pieces};
use rule_print::lexeme::{Lexeme, push_all, push_if, push_word};
use std::alloc::{AllocError, Global};

// Names with commas between them.
fn spell_names<'a>(names: &'a [Name], into: &mut Vec<Lexeme<'a>>) -> Result<(), AllocError>
    ensures { IfOk result (λ _. map written into.new.items ≡ map written into.old.items
        ++ listed name_spelling names.now) }
{
    let mut is_first = true;
    'names: for name in names {
        push_if(!is_first, Sym::Comma, into)?;
        push_name(name, into)?;
        is_first = false;
    }
    Ok(())
}

/// Appends the line of an object.
pub fn push_object(
    alloc: Global,
    object: &ObjectSheet,
    text: &mut Vec<u8>,
) -> Result<(), AllocError>
    ensures { IfOk result (λ _. text.new.items ≡ text.old.items
        ++ line_text (object_line (object_sheet object.now))) }
{
    let mut lexemes = Vec::new(alloc);
    push_all(
        &[
            Lexeme::Word(Keyword::Object),
            Lexeme::Name(object.name.as_bytes()),
            Lexeme::Word(Keyword::As),
        ],
        &mut lexemes,
    )?;
    spell_names(object.shapes.as_slice(), &mut lexemes)?;
    push_word(Keyword::At, &mut lexemes)?;
    spell_each_pieces(object.ranges.as_slice(), &mut lexemes)?;
    spell_attributes(object.attributes.as_slice(), &mut lexemes)?;
    push_closed_line(alloc, lexemes, text)
}

/// Appends the line of a macro.
pub fn push_macro(alloc: Global, own: &FreeText, text: &mut Vec<u8>) -> Result<(), AllocError>
    ensures { IfOk result (λ _. text.new.items ≡ text.old.items ++ line_text (macro_line own.now)) }
{
    let mut lexemes = Vec::new(alloc);
    push_all(
        &[Lexeme::Word(Keyword::Macro), Lexeme::Name(own.as_bytes())],
        &mut lexemes,
    )?;
    push_closed_line(alloc, lexemes, text)
}

/// Appends the line of a rule.
pub fn push_rule(alloc: Global, rule: &RuleSheet, text: &mut Vec<u8>) -> Result<(), AllocError>
    ensures { IfOk result (λ _. text.new.items ≡ text.old.items
        ++ line_text (rule_line (rule_sheet rule.now))) }
{
    let mut lexemes = Vec::new(alloc);
    push_all(
        &[
            Lexeme::Word(Keyword::Rule),
            Lexeme::Name(rule.name.as_bytes()),
            Lexeme::Symbol(Sym::Colon),
            Lexeme::Name(rule.body.as_bytes()),
        ],
        &mut lexemes,
    )?;
    push_closed_line(alloc, lexemes, text)
}

/// Appends the line of the search order.
pub fn push_order(alloc: Global, names: &[Name], text: &mut Vec<u8>) -> Result<(), AllocError>
    ensures { IfOk result (λ _. text.new.items ≡ text.old.items
        ++ line_text (order_line names.now)) }
{
    let mut lexemes = Vec::new(alloc);
    push_word(Keyword::Order, &mut lexemes)?;
    spell_names(names, &mut lexemes)?;
    push_closed_line(alloc, lexemes, text)
}
