//! Macros and rules, with their canonical texts.

ghost use Rattle.std.specs.Prelude.{◌≡◌, IfOk, map, All};
ghost use Rattle.std.specs.Str.{IsAscii};
ghost use Rattle.serde_json.specs.View.{view};
ghost use Rattle.json_parts.specs.Form.{text_json, list_json};
ghost use Rattle.json_sheets.specs.Sheet.{rule_json};
ghost use Rattle.geo_json.specs.SheetOf.{macro_text, body_text, rule_sheet_of};
ghost use Rattle.geo_json.specs.Ascii.{IsAsciiMacro, IsAsciiRule};

use geo_tokens::token::Sym;
use json_parts::{ToJson, text_to_json};
use problem_data::problem::{MacroDef, RuleDef};
use problem_text::print::line::push_name;
use problem_text::print::part::{spell_body, spell_demand, spell_params};
use rule_print::lexeme::push_symbol;
use rule_print::show::shown;
use serde_json::{Value, json};
use std::alloc::{AllocError, Global};

// The canonical statement of a macro, without its first word and what ends it.
fn macro_text(alloc: Global, own: &MacroDef) -> Result<Vec<u8>, AllocError>
    ensures { IfOk result (λ text. text.items ≡ macro_text own.now) }
{
    let mut lexemes = Vec::new(alloc);
    push_name(own.name(), &mut lexemes)?;
    push_symbol(Sym::ParenOpen, &mut lexemes)?;
    spell_params(own.params(), &mut lexemes)?;
    push_symbol(Sym::ParenClose, &mut lexemes)?;
    spell_body(own.body(), &mut lexemes)?;
    shown(alloc, lexemes.as_slice())
}

// The canonical text of what a rule asks for.
fn body_text(alloc: Global, rule: &RuleDef) -> Result<Vec<u8>, AllocError>
    ensures { IfOk result (λ text. text.items ≡ body_text rule.now.demand) }
{
    let mut lexemes = Vec::new(alloc);
    spell_demand(rule.demand(), &mut lexemes)?;
    shown(alloc, lexemes.as_slice())
}

fn macro_to_json(alloc: Global, own: &MacroDef) -> Result<Value, AllocError>
    requires { IsAsciiMacro own.now }
    ensures { IfOk result (λ v. view v ≡ text_json (macro_text own.now)) }
{
    let text = macro_text(alloc, own)?;
    text_to_json(alloc, text.as_slice())
}

fn rule_to_json(alloc: Global, rule: &RuleDef) -> Result<Value, AllocError>
    requires { IsAsciiRule rule.now }
    ensures { IfOk result (λ v. view v ≡ rule_json (rule_sheet_of rule.now)) }
{
    let text = body_text(alloc, rule)?;
    let body = text_to_json(alloc, text.as_slice())?;
    let name = rule.name().to_json(alloc)?;
    json!(in alloc; {"body": body, "name": name})
}

fn macro_values(alloc: Global, macros: &[MacroDef]) -> Result<Vec<Value>, AllocError>
    requires { All IsAsciiMacro macros.now }
    ensures { IfOk result (λ v. map view v.items ≡ map text_json (map macro_text macros.now)) }
{
    let mut values = Vec::new(alloc);
    for own in macros {
        values.push(macro_to_json(alloc, own)?)?;
    }
    Ok(values)
}

fn rule_values(alloc: Global, rules: &[RuleDef]) -> Result<Vec<Value>, AllocError>
    requires { All IsAsciiRule rules.now }
    ensures { IfOk result (λ v. map view v.items ≡ map rule_json (map rule_sheet_of rules.now)) }
{
    let mut values = Vec::new(alloc);
    for rule in rules {
        values.push(rule_to_json(alloc, rule)?)?;
    }
    Ok(values)
}

/// The macros, each as a text.
pub fn macros_to_json(alloc: Global, macros: &[MacroDef]) -> Result<Value, AllocError>
    requires { All IsAsciiMacro macros.now }
    ensures { IfOk result (λ v. view v ≡ list_json text_json (map macro_text macros.now)) }
{
    Ok(Value::Array(macro_values(alloc, macros)?))
}

/// The rules.
pub fn rules_to_json(alloc: Global, rules: &[RuleDef]) -> Result<Value, AllocError>
    requires { All IsAsciiRule rules.now }
    ensures { IfOk result (λ v. view v ≡ list_json rule_json (map rule_sheet_of rules.now)) }
{
    Ok(Value::Array(rule_values(alloc, rules)?))
}
