//! Boxes of placed objects as blocks of cells.

ghost use Rattle.std.specs.Prelude.{◌≡◌, ◌<◌, ◌+ℤ◌, ◌<ℤ◌};
ghost use Rattle.std.specs.Prelude.{All, IfOk, length, pos};
ghost use Rattle.geo_base.specs.Tuple.{spot};
ghost use Rattle.problem_data.specs.Cells.{IsShaped};
ghost use Rattle.problem_data.specs.Tuple.{boxes_in};
ghost use Rattle.problem_data.specs.WellFormed.{IsBox};
ghost use Rattle.layout_drawing.specs.Blocks.{Adds, AreBlocksOf, IsBlockOf};

use crate::span::Span;
use geo_conditions::{Layout, ObjId};
use layout_text::shape_of;
use problem_data::problem::{BoxDef, Problem};
use std::alloc::{AllocError, Global};

/// The cells of one box of an object where a layout puts it: the span of their numbers in each
/// dimension.
pub struct Block {
    pub object: ObjId,
    pub spans: Vec<Span>,
}

impl Drop for Block {
    fn drop(self) {
        let Block {
            object: _,
            spans: _spans,
        } = self;
    }
}

// The first number of a box in one dimension, and the first one past it.
fn ends(origin: i64, offset: i64, size: i64) -> (i128, i128)
    ensures low { result.0 ≡ origin +ℤ offset }
    ensures high { result.1 ≡ (origin +ℤ offset) +ℤ size }
{
    let low = origin as i128 + offset as i128;
    (low, low + size as i128)
}

// The numbers that a box has in one dimension.
fn numbers_of(origin: i64, offset: i64, size: i64) -> Span
    requires { pos 0 <ℤ size }
    ensures low { result.low ≡ origin +ℤ offset }
    ensures high { result.high +ℤ pos 1 ≡ (origin +ℤ offset) +ℤ size }
{
    let (low, end) = ends(origin, offset, size);
    Span { low, high: end - 1 }
}

// The cells of the box of the object.
fn block_of(alloc: Global, layout: &Layout, o: ObjId, part: &BoxDef) -> Result<Block, AllocError>
    requires object { o.0 < length layout.now }
    requires part { IsBox (length (spot layout.now o.0).origin) part.now }
    ensures { IfOk result (IsBlockOf (length (spot layout.now o.0).origin) part.now
        (spot layout.now o.0).origin o.0) }
{
    let mut spans = Vec::new(alloc);
    for d in 0..part.sizes().len() {
        let here = numbers_of(layout.origin(o, d), part.offsets()[d], part.sizes()[d]);
        spans.push(here)?;
    }
    Ok(Block { object: o, spans })
}

// The boxes that the object has in the layout; none where it is absent.
fn boxes<'a>(problem: &'a Problem, layout: &Layout, o: ObjId) -> &'a [BoxDef]
    requires layout { IsShaped problem.now layout.now }
    requires object { o.0 < length problem.now.objects }
    ensures same { result.now ≡ boxes_in problem.now layout.now o.0 }
    ensures each { All (IsBox problem.now.dims) result.now }
{
    problem.is_said();
    match shape_of(problem, layout, o) {
        Some(number) => match problem.shapes().get(number as usize) {
            Some(shape) => shape.boxes(),
            None => &[],
        },
        None => &[],
    }
}

// Appends the blocks of the object.
fn push_blocks(
    alloc: Global,
    problem: &Problem,
    layout: &Layout,
    o: ObjId,
    into: &mut Vec<Block>,
) -> Result<(), AllocError>
    requires layout { IsShaped problem.now layout.now }
    requires object { o.0 < length problem.now.objects }
    ensures { IfOk result (λ _. Adds problem.now layout.now o.0 into.old.items into.new.items) }
{
    let parts = boxes(problem, layout, o);
    for part in parts {
        into.push(block_of(alloc, layout, o, part)?)?;
    }
    Ok(())
}

/// The blocks of all objects.
pub fn blocks_of(
    alloc: Global,
    problem: &Problem,
    layout: &Layout,
) -> Result<Vec<Block>, AllocError>
    requires layout { IsShaped problem.now layout.now }
    ensures { IfOk result (λ v. AreBlocksOf problem.now layout.now v.items) }
{
    problem.is_said();
    let mut blocks = Vec::new(alloc);
    for o in 0..layout.len() {
        push_blocks(alloc, problem, layout, ObjId(o as u16), &mut blocks)?;
    }
    Ok(blocks)
}
