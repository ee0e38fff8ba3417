//! The boxes of a placed object.
ghost use Rattle.std.specs.Prelude.{◌≡◌, ◌<◌, length, All};
ghost use Rattle.problem_data.specs.Cells.{IsShaped};
ghost use Rattle.problem_data.specs.Tuple.{boxes_in};
ghost use Rattle.problem_data.specs.WellFormed.{IsBox};

use geo_conditions::{Layout, ObjId};
use problem_data::problem::{BoxDef, Problem};
use rule_values::shapes::boxes_at;

/// The boxes of the object where the layout puts it; none, where it is absent.
pub fn boxes<'a>(problem: &'a Problem, layout: &Layout, o: ObjId) -> &'a [BoxDef]
    requires layout { IsShaped problem.now layout.now }
    requires o { o.0 < length problem.now.objects }
    ensures same { result.now ≡ boxes_in problem.now layout.now o.0 }
    ensures boxes { All (IsBox problem.now.dims) result.now }
{
    boxes_at(problem, o.0 as usize, layout.place(o))
}
