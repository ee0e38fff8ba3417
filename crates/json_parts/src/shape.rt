//! Boxes and shapes.

ghost use Rattle.std.specs.Prelude.{◌≡◌};
ghost use Rattle.std.specs.Str.{IsAscii};
ghost use Rattle.problem_data.specs.Problem.{BoxData, ShapeData};
ghost use Rattle.json_parts.specs.Values.{box_json, shape_json, IsBox, IsShape};

use crate::{FromJson, JsonFault, Members, ToJson, list_to_json};
use problem_data::problem::{BoxDef, ShapeDef};
use serde_json::{Value, json};
use std::alloc::{AllocError, Global};

/// A box: an object with the keys `offset` and `size`.
impl FromJson for BoxDef {
    ghost Said = { BoxData };

    ghost says = { λ own. own };

    ghost json = { box_json };

    ghost IsRight = { IsBox };

    fn from_json(alloc: Global, value: &Value) -> Result<BoxDef, JsonFault> {
        let mut members = Members::of(value)?;
        let offsets = members.read(alloc, "offset")?;
        let sizes = members.read(alloc, "size")?;
        members.end()?;
        Ok(BoxDef::new(offsets, sizes))
    }
}

impl ToJson for BoxDef {
    ghost json = { box_json };

    ghost IsText = { λ own. Unit {0} };

    fn to_json(&self, alloc: Global) -> Result<Value, AllocError> {
        let offsets = list_to_json(alloc, self.offsets())?;
        let sizes = list_to_json(alloc, self.sizes())?;
        json!(in alloc; {"offset": offsets, "size": sizes})
    }
}

/// A shape: an object with the keys `boxes` and `name`.
impl FromJson for ShapeDef {
    ghost Said = { ShapeData };

    ghost says = { λ shape. shape };

    ghost json = { shape_json };

    ghost IsRight = { IsShape };

    fn from_json(alloc: Global, value: &Value) -> Result<ShapeDef, JsonFault> {
        let mut members = Members::of(value)?;
        let boxes = members.read(alloc, "boxes")?;
        let name = members.read(alloc, "name")?;
        members.end()?;
        Ok(ShapeDef::new(name, boxes))
    }
}

impl ToJson for ShapeDef {
    ghost json = { shape_json };

    ghost IsText = { λ shape. IsAscii shape.name };

    fn to_json(&self, alloc: Global) -> Result<Value, AllocError> {
        let boxes = list_to_json(alloc, self.boxes())?;
        let name = self.name().to_json(alloc)?;
        json!(in alloc; {"boxes": boxes, "name": name})
    }
}
