//! Whole sheets.

ghost use Rattle.std.specs.Prelude.{◌≡◌};
ghost use Rattle.json_sheets.specs.Sheet.{SheetData, sheet_data, sheet_json, IsSheet};

use crate::{ObjectSheet, RuleSheet};
use geo_tokens::name::Name;
use json_parts::{FreeText, FromJson, JsonFault, Members};
use problem_data::problem::ShapeDef;
use problem_data::tree::Side;
use serde_json::Value;
use std::alloc::Global;

/// A problem as its value of JSON has it: the version of the format, the number of dimensions, the
/// statements by kind, the names in search order, and the side of each dimension. It need not be a
/// problem.
#[derive(Drop)]
pub struct Sheet {
    pub version: u64,
    pub dims: u64,
    pub shapes: Vec<ShapeDef>,
    pub objects: Vec<ObjectSheet>,
    pub macros: Vec<FreeText>,
    pub order: Vec<Name>,
    pub sides: Vec<Side>,
    pub rules: Vec<RuleSheet>,
}

impl FromJson for Sheet {
    ghost Said = { SheetData };

    ghost says = { sheet_data };

    ghost json = { sheet_json };

    ghost IsRight = { IsSheet };

    fn from_json(alloc: Global, value: &Value) -> Result<Sheet, JsonFault> {
        let mut members = Members::of(value)?;
        let dims = members.read(alloc, "dims")?;
        let version = members.read(alloc, "geost")?;
        let macros = members.read(alloc, "macros")?;
        let objects = members.read(alloc, "objects")?;
        let order = members.read(alloc, "order")?;
        let rules = members.read(alloc, "rules")?;
        let shapes = members.read(alloc, "shapes")?;
        let sides = members.read(alloc, "sides")?;
        members.end()?;
        Ok(Sheet {
            version,
            dims,
            shapes,
            objects,
            macros,
            order,
            sides,
            rules,
        })
    }
}
