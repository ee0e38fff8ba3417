//! Names and texts.

ghost use Rattle.std.specs.Prelude.{◌≡◌, ℕ, List, IfOk};
ghost use Rattle.std.specs.Str.{IsAscii};
ghost use Rattle.std.specs.Bool.{OnTrue, OnFalse};
ghost use Rattle.serde_json.specs.View.{view};
ghost use Rattle.json_parts.specs.Form.{IsWord, IsFree, text_json};

use crate::{FromJson, JsonFault, ToJson};
use geo_tokens::name::Name;
use serde_json::Value;
use std::alloc::{AllocError, Global};
use std::marker::Model;

// Whether the text is a word: letters, digits and `_`, one at least.
fn is_word(text: &str) -> bool
    ensures yes { OnTrue result (IsWord text.now) }
    ensures no { OnFalse result (IsWord text.now → ⊥) }
{
    for byte in text.as_bytes() {
        if !byte.is_ascii_alphanumeric() && *byte != b'_' {
            return false;
        }
    }
    !text.is_empty()
}

// Whether the text has neither `;` nor `#`.
fn is_free(text: &str) -> bool
    ensures yes { OnTrue result (IsFree text.now) }
    ensures no { OnFalse result (IsFree text.now → ⊥) }
{
    for byte in text.as_bytes() {
        if *byte == b';' || *byte == b'#' {
            return false;
        }
    }
    true
}

/// A name as it stands in JSON: letters, digits and `_`, one at least.
impl FromJson for Name {
    ghost Said = { List ℕ };

    ghost says = { λ name. name };

    ghost json = { text_json };

    ghost IsRight = { IsWord };

    fn from_json(alloc: Global, value: &Value) -> Result<Name, JsonFault> {
        match value.as_str() {
            Some(text) if is_word(text) => Ok(Name::new(alloc, text.as_bytes())?),
            _ => Err(JsonFault::Form),
        }
    }
}

/// A part of a statement as it is written: neither a `;` nor a `#` stands in it.
pub struct FreeText {
    bytes: Vec<u8>,
}

impl Drop for FreeText {
    fn drop(self) {
        let FreeText { bytes: _bytes } = self;
    }
}

impl Model for FreeText {
    ghost use Rattle.std.specs.Prelude.{List, ℕ};

    ghost Value = { List ℕ };

    ghost view = { λ t. t.bytes.items };
}

impl FreeText {
    /// The bytes.
    pub fn as_bytes(&self) -> &[u8]
        ensures { result.now ≡ self.now }
    {
        self.bytes.as_slice()
    }
}

impl FromJson for FreeText {
    ghost Said = { List ℕ };

    ghost says = { λ text. text };

    ghost json = { text_json };

    ghost IsRight = { IsFree };

    fn from_json(alloc: Global, value: &Value) -> Result<FreeText, JsonFault> {
        match value.as_str() {
            Some(text) if is_free(text) => {
                let bytes = Vec::from_slice(alloc, text.as_bytes())?;
                Ok(FreeText { bytes })
            }
            _ => Err(JsonFault::Form),
        }
    }
}

// The bytes as text.
fn ascii_text(bytes: &[u8]) -> &str
    requires { IsAscii bytes.now }
    ensures { result.now ≡ bytes.now }
{
    match str::from_utf8(bytes) {
        Ok(text) => text,
        Err(_) => "",
    }
}

/// The value of a text.
pub fn text_to_json(alloc: Global, bytes: &[u8]) -> Result<Value, AllocError>
    requires { IsAscii bytes.now }
    ensures { IfOk result (λ v. view v ≡ text_json bytes.now) }
{
    Ok(Value::String(String::from_str(alloc, ascii_text(bytes))?))
}

impl ToJson for Name {
    ghost json = { text_json };

    ghost IsText = { IsAscii };

    fn to_json(&self, alloc: Global) -> Result<Value, AllocError> {
        text_to_json(alloc, self.as_bytes())
    }
}
