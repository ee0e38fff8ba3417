//! Whole numbers.

ghost use Rattle.std.specs.Prelude.{◌≡◌, ℕ, ℤ, IfOk, IfErr, None, option_and_then};
ghost use Rattle.serde_json.specs.Find.{as_number, as_u64};
ghost use Rattle.serde_json.specs.View.{view};
ghost use Rattle.json_parts.specs.Form.{HasForm, HasNoForm, IsInt, IsCount, int_json, count_json};

use crate::{FromJson, JsonFault, ToJson};
use serde_json::Value;
use std::alloc::{AllocError, Global};

/// The greatest number that may be said.
const MOST: u64 = 1_000_000_000;

/// The least number that may be said.
const LEAST: i64 = -1_000_000_000;

impl FromJson for u64 {
    ghost Said = { ℕ };

    ghost says = { λ n. n };

    ghost json = { count_json };

    ghost IsRight = { IsCount };

    fn from_json(_: Global, value: &Value) -> Result<u64, JsonFault> {
        match value.as_u64() {
            Some(n) if n <= MOST => Ok(n),
            _ => Err(JsonFault::Form),
        }
    }
}

impl FromJson for i64 {
    ghost Said = { ℤ };

    ghost says = { λ z. z };

    ghost json = { int_json };

    ghost IsRight = { IsInt };

    fn from_json(_: Global, value: &Value) -> Result<i64, JsonFault> {
        match value.as_u64() {
            Some(n) if n <= MOST => Ok(n as i64),
            Some(_) => Err(JsonFault::Form),
            None => negative(value),
        }
    }
}

// The number below 0 that the value says.
fn negative(value: &Value) -> Result<i64, JsonFault>
    requires { option_and_then as_u64 (as_number (view value.now)) ≡ None }
    ensures ok { IfOk result (HasForm IsInt int_json (view value.now)) }
    ensures form { IfErr result (λ e. HasNoForm IsInt int_json (view value.now)) }
{
    match value.as_i64() {
        Some(z) if LEAST <= z && z < 0 => Ok(z),
        _ => Err(JsonFault::Form),
    }
}

impl ToJson for i64 {
    ghost json = { int_json };

    ghost IsText = { λ z. Unit };

    fn to_json(&self, _: Global) -> Result<Value, AllocError> {
        Ok(Value::from(*self))
    }
}
