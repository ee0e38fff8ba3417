//! The text that a value spells.

ghost use Rattle.std.specs.Prelude.{◌≡◌, IfOk, Err};
ghost use Rattle.serde_json.specs.View.{view};
ghost use Rattle.json_sheets.specs.Sheet.{HasNoSheet};
ghost use Rattle.json_sheets.specs.SheetText.{Spells};

use crate::{Sheet, sheet_text};
use json_parts::{FromJson, JsonFault};
use serde_json::Value;
use std::alloc::Global;

/// The text of statements that the value spells, a statement on a line. The fault is `Form` exactly
/// where the value has not the form of a problem.
pub fn built(alloc: Global, value: &Value) -> Result<Vec<u8>, JsonFault>
    ensures spells { IfOk result (λ text. Spells (view value.now) text.items) }
    ensures form { result ≡ Err JsonFault.Form → HasNoSheet (view value.now) }
{
    let sheet = Sheet::from_json(alloc, value)?;
    Ok(sheet_text(alloc, &sheet)?)
}
