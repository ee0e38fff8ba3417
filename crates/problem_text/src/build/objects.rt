//! The objects that statements spell.

ghost use Rattle.std.specs.Prelude.{◌≡◌, ◌≤◌, map, length, is_some, IfOk};
ghost use Rattle.problem_data.specs.View.{pieces_view, object_view};
ghost use Rattle.problem_data.specs.ProblemView.{range_data, attribute_data};
ghost use Rattle.problem_data.specs.Meaning.{position_of, range_of, pieces_of, attribute_of, object_of};

use problem_data::problem::{AttributeDef, ObjectDef, PiecesDef, RangeDef};
use problem_data::seen::SeenNames;
use problem_data::tree::{AttributeText, ObjectText, PiecesText, RangeText};
use rule_syntax::tree::PlacedName;
use std::alloc::{AllocError, Global};

/// The positions of these names among those that were met.
pub fn build_positions(
    alloc: Global,
    met: &SeenNames<'_>,
    names: &[PlacedName],
) -> Result<Vec<u16>, AllocError>
    requires { length met.now ≤ 256 }
    ensures { IfOk result (λ v. v.items ≡ map (position_of met.now) names.now) }
{
    let mut made = Vec::new(alloc);
    for name in names {
        let place = met.place(name.name.as_bytes());
        made.push(place as u16)?;
    }
    Ok(made)
}

fn build_range(range: &RangeText) -> RangeDef
    ensures { range_data result ≡ range_of range.now }
{
    RangeDef {
        low: range.low.value,
        high: range.high.value,
    }
}

/// The pieces of a range, or the ranges of `within`.
pub fn build_ranges(alloc: Global, ranges: &[RangeText]) -> Result<Vec<RangeDef>, AllocError>
    ensures { IfOk result (λ v. map range_data v.items ≡ map range_of ranges.now) }
{
    let mut made = Vec::new(alloc);
    for range in ranges {
        let one = build_range(range);
        made.push(one)?;
    }
    Ok(made)
}

/// The range of a coordinate, by its pieces.
fn build_pieces(alloc: Global, pieces: &PiecesText) -> Result<PiecesDef, AllocError>
    ensures { IfOk result (λ p. p ≡ pieces_of (pieces_view pieces.now)) }
{
    let ranges = build_ranges(alloc, pieces.ranges.as_slice())?;
    Ok(PiecesDef::new(ranges))
}

/// The range of each coordinate of an object.
fn build_each_pieces(alloc: Global, ranges: &[PiecesText]) -> Result<Vec<PiecesDef>, AllocError>
    ensures { IfOk result (λ v. v.items ≡ map pieces_of (map pieces_view ranges.now)) }
{
    let mut made = Vec::new(alloc);
    for pieces in ranges {
        let one = build_pieces(alloc, pieces)?;
        made.push(one)?;
    }
    Ok(made)
}

fn build_attribute(attribute: AttributeText) -> AttributeDef
    ensures { attribute_data result ≡ attribute_of attribute }
{
    let AttributeText { name, value } = attribute;
    let PlacedName { place: _, name } = name;
    AttributeDef {
        name,
        value: value.value,
    }
}

fn build_attributes(
    alloc: Global,
    attributes: Vec<AttributeText>,
) -> Result<Vec<AttributeDef>, AllocError>
    ensures { IfOk result (λ v. map attribute_data v.items ≡ map attribute_of attributes.items) }
{
    let mut made = Vec::new(alloc);
    for attribute in attributes {
        let one = build_attribute(attribute);
        made.push(one)?;
    }
    Ok(made)
}

fn build_object(
    alloc: Global,
    met: &SeenNames<'_>,
    object: ObjectText,
) -> Result<ObjectDef, AllocError>
    requires { length met.now ≤ 256 }
    ensures { IfOk result (λ o. o ≡ object_of met.now (object_view object)) }
{
    let shapes = build_positions(alloc, met, object.shapes.as_slice())?;
    let pieces = build_each_pieces(alloc, object.pieces.as_slice())?;
    end_object(alloc, shapes, pieces, object)
}

/// The object, where its shapes and its ranges are built.
fn end_object(
    alloc: Global,
    shapes: Vec<u16>,
    pieces: Vec<PiecesDef>,
    object: ObjectText,
) -> Result<ObjectDef, AllocError>
    ensures { IfOk result (λ o. o ≡ record {
      name = object.name.name;
      shapes = shapes.items;
      may_be_absent = is_some object.absent;
      pieces = pieces.items;
      attributes = map attribute_of object.attributes.items;
    }) }
{
    let ObjectText {
        name,
        shapes: _,
        absent,
        pieces: _,
        attributes,
    } = object;
    let attributes = build_attributes(alloc, attributes)?;
    let PlacedName { place: _, name } = name;
    Ok(ObjectDef::new(name, shapes, absent.is_some(), pieces, attributes))
}

/// The objects, where these are the names of the shapes.
pub fn build_objects(
    alloc: Global,
    met: &SeenNames<'_>,
    objects: Vec<ObjectText>,
) -> Result<Vec<ObjectDef>, AllocError>
    requires { length met.now ≤ 256 }
    ensures { IfOk result (λ v. v.items ≡ map (object_of met.now) (map object_view objects.items)) }
{
    let mut made = Vec::new(alloc);
    for object in objects {
        let one = build_object(alloc, met, object)?;
        made.push(one)?;
    }
    Ok(made)
}
