//! Values as lines of text.

ghost use Rattle.std.specs.Prelude.{◌≡◌, ◌≤◌, ◌++◌, ◌∷◌, [], IfOk, Some, false, IsUtf8};
ghost use Rattle.serde_json.specs.Data.{depth};
ghost use Rattle.serde_json.specs.Read.{read};
ghost use Rattle.serde_json.specs.View.{view};
ghost use Rattle.serde_json.specs.Written.{compact_text, has_float};

use serde_json::Value;
use std::alloc::{AllocError, Global};

/// The compact text of the value, and a line feed behind it. The text is read as that value again.
pub fn json_line(alloc: Global, value: &Value) -> Result<Vec<u8>, AllocError>
    ensures text { IfOk result (λ text. has_float (view value.now) ≡ false
        → text.items ≡ compact_text (view value.now) ++ 10 ∷ []) }
    ensures again { IfOk result (λ text. depth (view value.now) ≤ 127
        → read text.items ≡ Some (view value.now)) }
    ensures utf8 { IfOk result (λ text. IsUtf8 text.items) }
{
    let mut text = value.to_string(alloc)?;
    text.push_str("\n")?;
    let _line = text.as_str();
    Ok(text.into_bytes())
}
