//! Faults of the statements of shapes.

ghost use Rattle.std.specs.Prelude.{◌≡◌, ℕ, List, length, map};
ghost use Rattle.problem_data.specs.Tree.{BoxTree};
ghost use Rattle.problem_data.specs.View.{box_view, shape_view};
ghost use Rattle.problem_data.specs.Least.{IsLeast};
ghost use Rattle.problem_data.specs.Faults.{Among, BoxFault, ShapeFault, ShapesFault, Repeated, shape_name};

use crate::each::{FindFault, each_fault};
use crate::names::limited;
use crate::numbers::{offsets_fault, sizes_fault};
use geo_tokens::fault::FaultWord;
use problem_data::fault::{Fault, earlier, fault_if};
use problem_data::tree::{BoxText, ShapeText};

/// How many shapes a problem may have.
const MOST_SHAPES: usize = 256;

/// How many boxes a shape may have.
const MOST_BOXES: usize = 16;

/// The first fault of a box that has so many boxes before it.
fn box_fault(k: usize, index: usize, part: &BoxText) -> Option<Fault>
    ensures { (before : List BoxTree) → length before ≡ index
        → IsLeast (BoxFault k before (box_view part.now)) result }
{
    let past = fault_if(index >= MOST_BOXES, part.place, FaultWord::Limit);
    let offsets = offsets_fault(k, &part.offsets);
    let sizes = sizes_fault(k, &part.sizes);
    let numbers = earlier(offsets, sizes);
    earlier(past, numbers)
}

fn shape_fault(k: usize, shape: &ShapeText) -> Option<Fault>
    ensures { IsLeast (ShapeFault k (shape_view shape.now)) result }
{
    let mut found = None;
    for (i, part) in shape.boxes.iter().enumerate() {
        let here = box_fault(k, i, part);
        found = earlier(found, here);
    }
    found
}

// Finds the first fault of a shape, where there are so many dimensions.
#[derive(Clone, Copy)]
struct Shapes {
    k: usize,
}

impl FindFault<ShapeText> for Shapes {
    ghost IsFaultOf = { λ it s. ShapeFault it.k (shape_view s) };

    fn fault_of(&self, item: &ShapeText) -> Option<Fault> {
        shape_fault(self.k, item)
    }
}

/// The first fault of the statements of shapes, where the first name that is repeated is known.
pub fn shapes_fault(k: usize, shapes: &[ShapeText], repeated: Option<Fault>) -> Option<Fault>
    requires { IsLeast (Repeated (map (λ s. s.name) shapes.now)) repeated }
    ensures { IsLeast (ShapesFault k (map shape_view shapes.now)) result }
{
    let names = limited(MOST_SHAPES, shapes, repeated);
    let each = each_fault(&Shapes { k }, shapes);
    earlier(names, each)
}
