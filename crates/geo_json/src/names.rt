//! Lists of names.

ghost use Rattle.std.specs.Prelude.{◌≡◌, ◌++◌, IfOk, OnOk, map};
ghost use Rattle.serde_json.specs.View.{view};
ghost use Rattle.problem_text.specs.Canonical.{name_at};
ghost use Rattle.problem_text.specs.NameTable.{absent_names};
ghost use Rattle.json_parts.specs.Form.{text_json, list_json};
ghost use Rattle.geo_json.specs.Ascii.{AreAsciiNames};
ghost use Rattle.geo_json.specs.SheetOf.{shape_words};

use geo_tokens::token::{Keyword, word_text};
use json_parts::text_to_json;
use problem_data::problem::{ObjectDef, ShapeDef};
use serde_json::Value;
use std::alloc::{AllocError, Global};

/// The name of the shape at this position.
pub fn shape_name(shapes: &[ShapeDef], position: u16) -> &[u8]
    ensures { result.now ≡ name_at (map (λ s. s.name) shapes.now) position }
{
    match shapes.get(position as usize) {
        Some(shape) => shape.name().as_bytes(),
        None => b"",
    }
}

// The name of the object at this position.
fn object_name(objects: &[ObjectDef], position: u16) -> &[u8]
    ensures { result.now ≡ name_at (map (λ o. o.name) objects.now) position }
{
    match objects.get(position as usize) {
        Some(object) => object.name().as_bytes(),
        None => b"",
    }
}

// Appends the values of the names of the shapes at these positions.
fn push_shape_names(
    alloc: Global,
    shapes: &[ShapeDef],
    positions: &[u16],
    into: &mut Vec<Value>,
) -> Result<(), AllocError>
    requires { AreAsciiNames (map (λ s. s.name) shapes.now) }
    ensures { OnOk result (map view into.new.items ≡ map view into.old.items
        ++ map text_json (map (name_at (map (λ s. s.name) shapes.now)) positions.now)) }
{
    for position in positions {
        into.push(text_to_json(alloc, shape_name(shapes, *position))?)?;
    }
    Ok(())
}

// Appends the value of the word `absent`, for an object that may be absent.
fn push_absent(alloc: Global, may_be_absent: bool, into: &mut Vec<Value>) -> Result<(), AllocError>
    ensures { OnOk result (map view into.new.items ≡ map view into.old.items
        ++ map text_json (absent_names may_be_absent)) }
{
    if may_be_absent {
        into.push(text_to_json(alloc, word_text(Keyword::Absent))?)?;
    }
    Ok(())
}

/// The names of the shapes of an object, and the word `absent` behind them where it may be absent.
pub fn shapes_to_json(
    alloc: Global,
    shapes: &[ShapeDef],
    object: &ObjectDef,
) -> Result<Value, AllocError>
    requires { AreAsciiNames (map (λ s. s.name) shapes.now) }
    ensures { IfOk result (λ v. view v
        ≡ list_json text_json (shape_words (map (λ s. s.name) shapes.now) object.now)) }
{
    let mut names = Vec::new(alloc);
    push_shape_names(alloc, shapes, object.shapes(), &mut names)?;
    push_absent(alloc, object.may_be_absent(), &mut names)?;
    Ok(Value::Array(names))
}

// The values of the names of the objects at these positions.
fn object_names(
    alloc: Global,
    objects: &[ObjectDef],
    positions: &[u16],
) -> Result<Vec<Value>, AllocError>
    requires { AreAsciiNames (map (λ o. o.name) objects.now) }
    ensures { IfOk result (λ v. map view v.items
        ≡ map text_json (map (name_at (map (λ o. o.name) objects.now)) positions.now)) }
{
    let mut names = Vec::new(alloc);
    for position in positions {
        names.push(text_to_json(alloc, object_name(objects, *position))?)?;
    }
    Ok(names)
}

/// The names of the objects at these positions.
pub fn order_to_json(
    alloc: Global,
    objects: &[ObjectDef],
    positions: &[u16],
) -> Result<Value, AllocError>
    requires { AreAsciiNames (map (λ o. o.name) objects.now) }
    ensures { IfOk result (λ v. view v ≡ list_json text_json
        (map (name_at (map (λ o. o.name) objects.now)) positions.now)) }
{
    Ok(Value::Array(object_names(alloc, objects, positions)?))
}
