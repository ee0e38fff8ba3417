//! Lists.

ghost use Rattle.std.specs.Prelude.{◌≡◌, ◌++◌, ◌∷◌, [], IfOk, OnOk, Err, List, map, All};
ghost use Rattle.serde_json.specs.Data.{Data};
ghost use Rattle.serde_json.specs.View.{view};
ghost use Rattle.json_parts.specs.Form.{list_json, HaveForm, HaveNoForm};

use crate::{FromJson, JsonFault, ToJson};
use serde_json::Value;
use std::alloc::{AllocError, Global};

impl<T: FromJson> FromJson for Vec<T> {
    ghost Said = { List T.Said };

    ghost says = { λ v. map T.says v.items };

    ghost json = { λ xs. list_json T.json xs };

    ghost IsRight = { λ xs. All T.IsRight xs };

    fn from_json(alloc: Global, value: &Value) -> Result<Vec<T>, JsonFault> {
        match value.as_array() {
            Some(items) => read_items(alloc, items.as_slice()),
            None => Err(JsonFault::Form),
        }
    }
}

// Appends a thing.
fn add<T: Drop>(list: &mut Vec<T>, thing: T) -> Result<(), AllocError>
    ensures { OnOk result (list.new.items ≡ list.old.items ++ thing ∷ []) }
{
    Ok(list.push(thing)?)
}

// What each of these values says.
fn read_items<T: FromJson>(alloc: Global, items: &[Value]) -> Result<Vec<T>, JsonFault>
    ensures ok { IfOk result (λ v. HaveForm T.IsRight T.json (map view items.now) (map T.says v.items)) }
    ensures form { result ≡ Err JsonFault.Form → HaveNoForm T.IsRight T.json (map view items.now) }
{
    let mut read = Vec::new(alloc);
    for item in items {
        add(&mut read, T::from_json(alloc, item)?)?;
    }
    Ok(read)
}

/// The list of their values.
pub fn list_to_json<T: ToJson>(alloc: Global, list: &[T]) -> Result<Value, AllocError>
    requires { All T.IsText list.now }
    ensures { IfOk result (λ v. view v ≡ list_json T.json list.now) }
{
    Ok(Value::Array(write_items(alloc, list)?))
}

// The value of each.
fn write_items<T: ToJson>(alloc: Global, list: &[T]) -> Result<Vec<Value>, AllocError>
    requires { All T.IsText list.now }
    ensures { IfOk result (λ v. map view v.items ≡ map T.json list.now) }
{
    let mut values = Vec::new(alloc);
    for part in list {
        values.push(part.to_json(alloc)?)?;
    }
    Ok(values)
}
