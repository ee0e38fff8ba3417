//! What is said of objects: ranges and attributes.

ghost use Rattle.std.specs.Prelude.{◌≡◌, List};
ghost use Rattle.std.specs.Str.{IsAscii};
ghost use Rattle.problem_data.specs.Problem.{RangeData, AttributeData};
ghost use Rattle.problem_data.specs.ProblemView.{range_data, attribute_data};
ghost use Rattle.json_parts.specs.Values.{range_json, pieces_json, attribute_json, IsRange, AreRanges, IsAttribute};

use crate::{FromJson, JsonFault, ToJson, list_to_json, pair_to_json, read_pair};
use geo_tokens::name::Name;
use problem_data::problem::{AttributeDef, PiecesDef, RangeDef};
use serde_json::Value;
use std::alloc::{AllocError, Global};

/// A piece of a range: a list of its two ends.
impl FromJson for RangeDef {
    ghost Said = { RangeData };

    ghost says = { range_data };

    ghost json = { range_json };

    ghost IsRight = { IsRange };

    fn from_json(alloc: Global, value: &Value) -> Result<RangeDef, JsonFault> {
        let (low, high) = read_pair(value)?;
        let low = i64::from_json(alloc, low)?;
        let high = i64::from_json(alloc, high)?;
        Ok(RangeDef { low, high })
    }
}

impl ToJson for RangeDef {
    ghost json = { λ range. range_json (range_data range) };

    ghost IsText = { λ range. Unit {0} };

    fn to_json(&self, alloc: Global) -> Result<Value, AllocError> {
        pair_to_json(alloc, self.low.to_json(alloc)?, self.high.to_json(alloc)?)
    }
}

/// The range of a coordinate: the list of its pieces.
impl FromJson for PiecesDef {
    ghost Said = { List RangeData };

    ghost says = { λ pieces. pieces };

    ghost json = { pieces_json };

    ghost IsRight = { AreRanges };

    fn from_json(alloc: Global, value: &Value) -> Result<PiecesDef, JsonFault> {
        Ok(PiecesDef::new(Vec::from_json(alloc, value)?))
    }
}

impl ToJson for PiecesDef {
    ghost json = { pieces_json };

    ghost IsText = { λ pieces. Unit {0} };

    fn to_json(&self, alloc: Global) -> Result<Value, AllocError> {
        list_to_json(alloc, self.ranges())
    }
}

/// An attribute: a list of its name and its value.
impl FromJson for AttributeDef {
    ghost Said = { AttributeData };

    ghost says = { attribute_data };

    ghost json = { attribute_json };

    ghost IsRight = { IsAttribute };

    fn from_json(alloc: Global, value: &Value) -> Result<AttributeDef, JsonFault> {
        let (name, value) = read_pair(value)?;
        let name = Name::from_json(alloc, name)?;
        let value = i64::from_json(alloc, value)?;
        Ok(AttributeDef { name, value })
    }
}

impl ToJson for AttributeDef {
    ghost json = { λ attribute. attribute_json (attribute_data attribute) };

    ghost IsText = { λ attribute. IsAscii attribute.name };

    fn to_json(&self, alloc: Global) -> Result<Value, AllocError> {
        pair_to_json(alloc, self.name.to_json(alloc)?, self.value.to_json(alloc)?)
    }
}
