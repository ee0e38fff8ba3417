//! What a tuple says of an object, by its position from 0. Of an object that is not there it says 0.

ghost use Rattle.std.specs.Prelude.{◌≡◌, pos, slice_index_or};
ghost use Rattle.problem_data.specs.Cells.{IsShaped};
ghost use Rattle.problem_data.specs.Truth.{is_there};
ghost use Rattle.problem_data.specs.Places.{is_absent_at};
ghost use Rattle.problem_data.specs.Tuple.{object_of, spot_of};
ghost use Rattle.rule_values.specs.View.{thing_view};

use crate::formed::is_formed;
use geo_conditions::{Layout, ObjId};
use problem_data::problem::Problem;
use rule_values::env::Thing;

/// The place of the object's shape in its list.
pub fn place(problem: &Problem, layout: &Layout, o: usize) -> u8
    requires layout { IsShaped problem.now layout.now }
    ensures { result ≡ (spot_of layout.now o).place }
{
    is_formed(problem);
    if o < problem.objects().len() {
        layout.place(ObjId(o as u16))
    } else {
        0
    }
}

/// The coordinate of the object's origin in a dimension, from 0; 0 in a dimension that is not there.
pub fn coordinate(problem: &Problem, layout: &Layout, o: usize, d: usize) -> i64
    requires layout { IsShaped problem.now layout.now }
    ensures { result ≡ slice_index_or (spot_of layout.now o).origin d (pos 0) }
{
    is_formed(problem);
    if o < problem.objects().len() && d < problem.dims() {
        layout.origin(ObjId(o as u16), d)
    } else {
        0
    }
}

/// Whether the object is absent.
fn is_absent(problem: &Problem, layout: &Layout, o: usize) -> bool
    requires layout { IsShaped problem.now layout.now }
    ensures { result ≡ is_absent_at (object_of problem.now o) (spot_of layout.now o).place }
{
    is_formed(problem);
    if o >= problem.objects().len() {
        return false;
    }
    problem.objects()[o].is_absent_at(place(problem, layout, o) as usize)
}

/// Whether the thing is there: an object that is absent is not.
pub fn is_there(problem: &Problem, layout: &Layout, thing: Thing) -> bool
    requires layout { IsShaped problem.now layout.now }
    ensures { result ≡ is_there problem.now layout.now (thing_view thing.entry) }
{
    match thing {
        Thing::Object(o) => !is_absent(problem, layout, o),
        Thing::Nothing | Thing::Part(_) => true,
    }
}
