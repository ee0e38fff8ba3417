//! The objects that come in: those that are not absent.
ghost use Rattle.std.specs.Prelude.{◌≡◌, ◌<◌, IfOk, length};
ghost use Rattle.geo_base.specs.Tuple.{spot};
ghost use Rattle.problem_data.specs.Cells.{IsShaped};
ghost use Rattle.problem_data.specs.Places.{is_absent_at};
ghost use Rattle.problem_data.specs.Tuple.{object_of};
ghost use Rattle.geo_load.specs.Blocks.{present};

use geo_conditions::{Layout, ObjId};
use problem_data::problem::Problem;
use std::alloc::{AllocError, Global};

/// The numbers of the objects that are not absent, in file order.
pub fn present_objects(
    alloc: Global,
    problem: &Problem,
    layout: &Layout,
) -> Result<Vec<u16>, AllocError>
    requires { IsShaped problem.now layout.now }
    ensures { IfOk result (λ objects. objects.items ≡ present problem.now layout.now) }
{
    problem.is_said();
    let mut objects = Vec::new(alloc);
    for o in 0..problem.objects().len() {
        if !is_absent(problem, layout, ObjId(o as u16)) {
            objects.push(o as u16)?;
        }
    }
    Ok(objects)
}

// Whether the object is absent.
fn is_absent(problem: &Problem, layout: &Layout, o: ObjId) -> bool
    requires layout { IsShaped problem.now layout.now }
    requires object { o.0 < length problem.now.objects }
    ensures { result ≡ is_absent_at (object_of problem.now o.0) (spot layout.now o.0).place }
{
    problem.is_said();
    problem.objects()[o.0 as usize].is_absent_at(layout.place(o) as usize)
}
