//! The shape that a layout gives an object.

ghost use Rattle.std.specs.Prelude.{◌≡◌, ◌<◌, ◌-◌, ◌==◌, if◌then◌else◌, None, length, slice_get};
ghost use Rattle.problem_data.specs.Cells.{IsShaped};
ghost use Rattle.problem_data.specs.Tuple.{shape_of as shape_given};

use geo_conditions::{Layout, ObjId};
use problem_data::problem::{ObjectDef, Problem};

// The shape at a place of the object's list, by its position among all shapes; none at place 0 and
// behind the list.
fn shape_at(object: &ObjectDef, place: u8) -> Option<u16>
    ensures { result
        ≡ (if place == 0 then None else slice_get object.now.shapes (place - 1)) }
{
    if place == 0 {
        return None;
    }
    match object.shapes().get(place as usize - 1) {
        Some(shape) => Some(*shape),
        None => None,
    }
}

/// The shape that the layout gives the object, by its position among all shapes; none where the
/// object is absent.
pub fn shape_of(problem: &Problem, layout: &Layout, o: ObjId) -> Option<u16>
    requires layout { IsShaped problem.now layout.now }
    requires object { o.0 < length problem.now.objects }
    ensures { result ≡ shape_given problem.now layout.now o.0 }
{
    shape_at(&problem.objects()[o.0 as usize], layout.place(o))
}
