//! The text that a text of JSON spells.

ghost use Rattle.std.specs.Prelude.{◌≡◌, IfOk, Err, Some, IsUtf8};
ghost use Rattle.serde_json.specs.Data.{Data};
ghost use Rattle.serde_json.specs.Read.{read};
ghost use Rattle.json_sheets.specs.SheetText.{Spells, TextSpells, SpellsNothing};

use crate::built;
use json_parts::JsonFault;
use serde_json::Value;
use serde_json::error::Category;
use std::alloc::Global;

/// The text of statements that the value of a text of JSON spells. The fault is `Form` exactly
/// where the text has no value, or one that has not the form of a problem.
pub fn built_of_text(alloc: Global, text: &[u8]) -> Result<Vec<u8>, JsonFault>
    ensures spells { IfOk result (λ built. TextSpells text.now built.items) }
    ensures form { result ≡ Err JsonFault.Form → SpellsNothing text.now }
{
    match Value::from_slice(alloc, text) {
        Ok(value) => built(alloc, &value),
        Err(error) => {
            if error.classify() == Category::Memory {
                Err(JsonFault::Memory)
            } else {
                Err(JsonFault::Form)
            }
        }
    }
}
