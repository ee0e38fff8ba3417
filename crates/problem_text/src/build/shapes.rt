//! The shapes that statements spell.

ghost use Rattle.std.specs.Prelude.{◌≡◌, map, IfOk};
ghost use Rattle.problem_data.specs.View.{box_view, shape_view};
ghost use Rattle.problem_data.specs.Meaning.{box_of, shape_of};

use problem_data::problem::{BoxDef, ShapeDef};
use problem_data::tree::{BoxText, ShapeText};
use problem_syntax::numbers::values;
use rule_syntax::tree::PlacedName;
use std::alloc::{AllocError, Global};

fn build_box(alloc: Global, part: &BoxText) -> Result<BoxDef, AllocError>
    ensures { IfOk result (λ b. b ≡ box_of (box_view part.now)) }
{
    let offsets = values(alloc, part.offsets.as_slice())?;
    let sizes = values(alloc, part.sizes.as_slice())?;
    Ok(BoxDef::new(offsets, sizes))
}

fn build_boxes(alloc: Global, parts: &[BoxText]) -> Result<Vec<BoxDef>, AllocError>
    ensures { IfOk result (λ v. v.items ≡ map box_of (map box_view parts.now)) }
{
    let mut made = Vec::new(alloc);
    for part in parts {
        let one = build_box(alloc, part)?;
        made.push(one)?;
    }
    Ok(made)
}

fn build_shape(alloc: Global, shape: ShapeText) -> Result<ShapeDef, AllocError>
    ensures { IfOk result (λ s. s ≡ shape_of (shape_view shape)) }
{
    let ShapeText { name, boxes } = shape;
    let boxes = build_boxes(alloc, boxes.as_slice())?;
    let PlacedName { place: _, name } = name;
    Ok(ShapeDef::new(name, boxes))
}

/// The shapes.
pub fn build_shapes(alloc: Global, shapes: Vec<ShapeText>) -> Result<Vec<ShapeDef>, AllocError>
    ensures { IfOk result (λ v. v.items ≡ map shape_of (map shape_view shapes.items)) }
{
    let mut made = Vec::new(alloc);
    for shape in shapes {
        let one = build_shape(alloc, shape)?;
        made.push(one)?;
    }
    Ok(made)
}
