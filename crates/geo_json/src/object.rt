//! Objects.

ghost use Rattle.std.specs.Prelude.{◌≡◌, IfOk, map, All};
ghost use Rattle.serde_json.specs.View.{view};
ghost use Rattle.json_parts.specs.Form.{list_json};
ghost use Rattle.json_parts.specs.Values.{attribute_json};
ghost use Rattle.json_sheets.specs.Sheet.{object_json};
ghost use Rattle.geo_json.specs.SheetOf.{object_sheet_of};
ghost use Rattle.geo_json.specs.Ascii.{AreAsciiNames, IsAsciiObject};

use crate::names::shapes_to_json;
use json_parts::{ToJson, list_to_json};
use problem_data::problem::{ObjectDef, ShapeDef};
use serde_json::{Value, json};
use std::alloc::{AllocError, Global};

// The attributes of an object.
fn attributes_to_json(alloc: Global, object: &ObjectDef) -> Result<Value, AllocError>
    requires { IsAsciiObject object.now }
    ensures { IfOk result (λ v. view v ≡ list_json attribute_json object.now.attributes) }
{
    list_to_json(alloc, object.attributes())
}

// The value of an object, where these are the shapes.
fn object_to_json(
    alloc: Global,
    shapes: &[ShapeDef],
    object: &ObjectDef,
) -> Result<Value, AllocError>
    requires shapes { AreAsciiNames (map (λ s. s.name) shapes.now) }
    requires object { IsAsciiObject object.now }
    ensures { IfOk result (λ v. view v
        ≡ object_json (object_sheet_of (map (λ s. s.name) shapes.now) object.now)) }
{
    let attributes = attributes_to_json(alloc, object)?;
    let name = object.name().to_json(alloc)?;
    let ranges = list_to_json(alloc, object.pieces())?;
    let shapes = shapes_to_json(alloc, shapes, object)?;
    json!(in alloc; {"attributes": attributes, "name": name, "ranges": ranges, "shapes": shapes})
}

// The values of the objects.
fn object_values(
    alloc: Global,
    shapes: &[ShapeDef],
    objects: &[ObjectDef],
) -> Result<Vec<Value>, AllocError>
    requires shapes { AreAsciiNames (map (λ s. s.name) shapes.now) }
    requires objects { All IsAsciiObject objects.now }
    ensures { IfOk result (λ v. map view v.items
        ≡ map object_json (map (object_sheet_of (map (λ s. s.name) shapes.now)) objects.now)) }
{
    let mut values = Vec::new(alloc);
    for object in objects {
        values.push(object_to_json(alloc, shapes, object)?)?;
    }
    Ok(values)
}

/// The objects, where these are the shapes.
pub fn objects_to_json(
    alloc: Global,
    shapes: &[ShapeDef],
    objects: &[ObjectDef],
) -> Result<Value, AllocError>
    requires shapes { AreAsciiNames (map (λ s. s.name) shapes.now) }
    requires objects { All IsAsciiObject objects.now }
    ensures { IfOk result (λ v. view v ≡ list_json object_json
        (map (object_sheet_of (map (λ s. s.name) shapes.now)) objects.now)) }
{
    Ok(Value::Array(object_values(alloc, shapes, objects)?))
}
