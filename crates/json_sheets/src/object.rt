//! Objects.

ghost use Rattle.std.specs.Prelude.{◌≡◌};
ghost use Rattle.json_sheets.specs.Sheet.{ObjectSheetData, object_sheet, object_json, IsObjectSheet};

use geo_tokens::name::Name;
use json_parts::{FromJson, JsonFault, Members};
use problem_data::problem::{AttributeDef, PiecesDef};
use serde_json::Value;
use std::alloc::Global;

/// An object: its name, the names of its shapes, where `absent` may be one, the range of each
/// coordinate of its origin, and its attributes.
#[derive(Drop)]
pub struct ObjectSheet {
    pub name: Name,
    pub shapes: Vec<Name>,
    pub ranges: Vec<PiecesDef>,
    pub attributes: Vec<AttributeDef>,
}

impl FromJson for ObjectSheet {
    ghost Said = { ObjectSheetData };

    ghost says = { object_sheet };

    ghost json = { object_json };

    ghost IsRight = { IsObjectSheet };

    fn from_json(alloc: Global, value: &Value) -> Result<ObjectSheet, JsonFault> {
        let mut members = Members::of(value)?;
        let attributes = members.read(alloc, "attributes")?;
        let name = members.read(alloc, "name")?;
        let ranges = members.read(alloc, "ranges")?;
        let shapes = members.read(alloc, "shapes")?;
        members.end()?;
        Ok(ObjectSheet {
            name,
            shapes,
            ranges,
            attributes,
        })
    }
}
