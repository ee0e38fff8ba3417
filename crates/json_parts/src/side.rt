//! Sides.

ghost use Rattle.std.specs.Prelude.{◌≡◌};
ghost use Rattle.problem_data.specs.declared.tree.Side.{Side};
ghost use Rattle.json_parts.specs.Values.{side_json};

use crate::{FromJson, JsonFault, ToJson};
use problem_data::tree::Side;
use serde_json::{Value, json};
use std::alloc::{AllocError, Global};

impl FromJson for Side {
    ghost Said = { Side };

    ghost says = { λ side. side };

    ghost json = { side_json };

    ghost IsRight = { λ side. Unit {0} };

    fn from_json(_: Global, value: &Value) -> Result<Side, JsonFault> {
        match value.as_str() {
            Some("low") => Ok(Side::Low),
            Some("high") => Ok(Side::High),
            _ => Err(JsonFault::Form),
        }
    }
}

impl ToJson for Side {
    ghost json = { side_json };

    ghost IsText = { λ side. Unit {0} };

    fn to_json(&self, alloc: Global) -> Result<Value, AllocError> {
        match self {
            Side::Low => json!(in alloc; "low"),
            Side::High => json!(in alloc; "high"),
        }
    }
}
