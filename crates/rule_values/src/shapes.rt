//! Shapes of objects, by their places from 1 in the objects' own lists.

ghost use Rattle.std.specs.Prelude.{◌≡◌, All};
ghost use Rattle.problem_data.specs.WellFormed.{IsBox};
ghost use Rattle.rule_values.specs.Shapes.{boxes_at, shape_at, shape_number_at};

use problem_data::problem::{BoxDef, Problem};

/// The shape at a place of an object's list, by its position among all shapes.
fn shape_at(problem: &Problem, o: usize, place: u8) -> Option<u16>
    ensures { result ≡ shape_at problem.now o place }
{
    if place == 0 {
        return None;
    }
    match problem.objects().get(o) {
        Some(object) => match object.shapes().get(place as usize - 1) {
            Some(shape) => Some(*shape),
            None => None,
        },
        None => None,
    }
}

/// The number, from 1 in file order, of the shape at a place of an object's list; 0 where there is none.
pub fn shape_number(problem: &Problem, o: usize, place: u8) -> i64
    ensures { result ≡ shape_number_at problem.now o place }
{
    match shape_at(problem, o, place) {
        Some(shape) => i64::from(shape) + 1,
        None => 0,
    }
}

/// The boxes of the shape at a place of an object's list.
fn shape_boxes<'a>(problem: &'a Problem, o: usize, place: u8) -> &'a [BoxDef]
    ensures { result.now ≡ boxes_at problem.now o place }
{
    match shape_at(problem, o, place) {
        Some(shape) => match problem.shapes().get(shape as usize) {
            Some(shape) => shape.boxes(),
            None => &[],
        },
        None => &[],
    }
}

/// The boxes that an object has with its shape at a place of its list; none where there is no such shape.
pub fn boxes_at<'a>(problem: &'a Problem, o: usize, place: u8) -> &'a [BoxDef]
    ensures same { result.now ≡ boxes_at problem.now o place }
    ensures boxes { All (IsBox problem.now.dims) result.now }
{
    problem.is_said();
    shape_boxes(problem, o, place)
}
