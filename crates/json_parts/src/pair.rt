//! Lists of two.

ghost use Rattle.std.specs.Prelude.{◌≡◌, IfOk, IfErr};
ghost use Rattle.serde_json.specs.Data.{Data};
ghost use Rattle.serde_json.specs.View.{view};
ghost use Rattle.json_parts.specs.Form.{pair_json};

use crate::JsonFault;
use serde_json::{Value, json};
use std::alloc::{AllocError, Global};

/// The two values of a list of two. The fault is `Form` exactly where the value is no such list.
pub fn read_pair(value: &Value) -> Result<(&Value, &Value), JsonFault>
    ensures ok { IfOk result (λ p. view value.now ≡ pair_json (view p.0.now) (view p.1.now)) }
    ensures form { IfErr result (λ e. (a b : Data) → view value.now ≡ pair_json a b → ⊥) }
{
    let Some(items) = value.as_array() else {
        return Err(JsonFault::Form);
    };
    if items.len() != 2 {
        return Err(JsonFault::Form);
    }
    Ok((&items[0], &items[1]))
}

/// The list of the two.
pub fn pair_to_json(alloc: Global, first: Value, second: Value) -> Result<Value, AllocError>
    ensures { IfOk result (λ v. view v ≡ pair_json (view first) (view second)) }
{
    json!(in alloc; [first, second])
}
