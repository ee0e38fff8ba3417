//! Objects that may be absent, as elements of quantifiers: to the others an absent one is as one that
//! could not decide for them.

ghost use Rattle.std.specs.Prelude.{◌≡◌, MatchResult, map};
ghost use Rattle.linear_conditions.specs.CondTree.{cond_view};
ghost use Rattle.linear_conditions.specs.declared.fault.GroundFault.TheVariants.{Memory};
ghost use Rattle.problem_data.specs.Tuple.{object_of};
ghost use Rattle.rule_ground.specs.Answers.{Gives, Makes};
ghost use Rattle.rule_ground.specs.Grounding.{absent_truth, add_absence, ground_gone, optional_child};
ghost use Rattle.problem_data.specs.Places.{absent_place};

use crate::elements::shape_count;
use crate::formulas::add_cond;
use crate::quantifiers::{Manner, joined_two};
use geo_conditions::{Cond, ObjId};
use linear_conditions::counter::Counter;
use linear_conditions::fault::GroundFault;
use linear_conditions::fold::certain;
use problem_data::problem::Problem;
use std::alloc::Global;

/// What an absent object is to the others.
pub fn absent_truth(manner: Manner) -> bool
    ensures { result ≡ absent_truth manner }
{
    match manner {
        Manner::All => true,
        Manner::One => false,
        Manner::Holding => false,
        Manner::Failing => true,
    }
}

/// Whether an object may be absent; not, where it is not there.
pub fn may_be_absent(problem: &Problem, object: ObjId) -> bool
    ensures { result ≡ (object_of problem.now object.0).may_be_absent }
{
    match problem.objects().get(object.0 as usize) {
        Some(object) => object.may_be_absent(),
        None => false,
    }
}

/// The place behind those of the shapes of an object.
pub fn absent_place(problem: &Problem, object: ObjId) -> u8
    ensures { result ≡ absent_place (object_of problem.now object.0) }
{
    problem.is_said();
    shape_count(problem, object) + 1
}

/// The child of an object that is absent at that place, and whose shape is not asked for.
pub fn optional_child(
    alloc: Global,
    manner: Manner,
    object: ObjId,
    place: u8,
    body: Cond,
) -> Result<Cond, GroundFault>
    ensures { MatchResult result (λ c. cond_view c
        ≡ optional_child manner object.0 place (cond_view body)) (λ e. e ≡ Memory) }
{
    if absent_truth(manner) {
        joined_two(alloc, false, Cond::Shape(object, place), body)
    } else {
        joined_two(alloc, true, Cond::NotShape(object, place), body)
    }
}

/// The child of an object that is fixed as absent: a visit, and no body.
pub fn ground_gone(
    alloc: Global,
    manner: Manner,
    counter: &mut Counter,
) -> Result<Cond, GroundFault>
    ensures { Gives (ground_gone manner counter.old) counter.new result }
{
    match counter.visit() {
        Ok(()) => Ok(certain(alloc, absent_truth(manner))),
        Err(e) => Err(e),
    }
}

/// Appends that an object is absent to the children of its shapes, where that counts. It is a leaf.
pub fn add_absence(
    problem: &Problem,
    manner: Manner,
    object: ObjId,
    counter: &mut Counter,
    parts: &mut Vec<Cond>,
) -> Result<(), GroundFault>
    ensures { Makes
        (add_absence problem.now manner object.0 (map cond_view parts.old.items) counter.old)
        parts.new.items counter.new result }
{
    if absent_truth(manner) && may_be_absent(problem, object) {
        if let Err(e) = counter.add_leaves(1) {
            return Err(e);
        }
        let place = absent_place(problem, object);
        return add_cond(parts, Cond::Shape(object, place));
    }
    Ok(())
}
