//! Places of objects, and the boxes of the shapes that have them.

ghost use Rattle.std.specs.Prelude.{◌≡◌, ◌<◌, ◌++◌, All, OnOk, length, map};
ghost use Rattle.problem_data.specs.Tuple.{object_of};
ghost use Rattle.problem_data.specs.WellFormed.{IsBox};
ghost use Rattle.linear_conditions.specs.CondTree.{cond_view};
ghost use Rattle.problem_data.specs.Places.{place_count};
ghost use Rattle.rule_ground.specs.Shapes.{IsPlace, has_several, other_shape};
ghost use Rattle.rule_values.specs.Shapes.{boxes_at};

use geo_conditions::{Cond, Conds, ObjId};
use problem_data::problem::{BoxDef, Problem};
use rule_values::shapes::boxes_at;
use std::alloc::AllocError;

/// A place of an object, from 1: that of a shape in the object's list, or the one behind it.
#[derive(Clone, Copy)]
pub struct Placed {
    pub object: ObjId,
    pub place: u8,
}

/// The boxes that the object has at that place.
pub fn boxes<'a>(problem: &'a Problem, at: Placed) -> &'a [BoxDef]
    ensures same { result.now ≡ boxes_at problem.now at.object.0 at.place }
    ensures boxes { All (IsBox problem.now.dims) result.now }
{
    boxes_at(problem, at.object.0 as usize, at.place)
}

/// Whether the object has several places to choose from.
pub fn has_several(problem: &Problem, o: ObjId) -> bool
    requires o { o.0 < length problem.now.objects }
    ensures { result ≡ has_several problem.now o.0 }
{
    places(problem, o) > 1
}

/// How many places the object has.
pub fn places(problem: &Problem, o: ObjId) -> u8
    requires o { o.0 < length problem.now.objects }
    ensures { result ≡ place_count (object_of problem.now o.0) }
{
    problem.is_said();
    let object = &problem.objects()[o.0 as usize];
    object.places() as u8
}

/// Appends that the object has another place, where it may have one.
pub fn push_other_shape(problem: &Problem, at: Placed, parts: &mut Conds) -> Result<(), AllocError>
    requires at { IsPlace problem.now at.object.0 at.place }
    ensures { OnOk result (map cond_view parts.new.items.items
        ≡ map cond_view parts.old.items.items ++ other_shape problem.now at.object.0 at.place) }
{
    if has_several(problem, at.object) {
        parts.push(Cond::NotShape(at.object, at.place))?;
    }
    Ok(())
}
