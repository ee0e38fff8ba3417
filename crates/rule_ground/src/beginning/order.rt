//! The order in which a search tries values.

ghost use Rattle.std.specs.Prelude.{◌≡◌, IfOk};
ghost use Rattle.geo_conditions.specs.Walk.{NamesEach};
ghost use Rattle.problem_data.specs.Problem.{runs_down};
ghost use Rattle.rule_ground.specs.Order.{order_of};
ghost use Rattle.rule_ground.specs.Start.{first_state};

use geo_conditions::{ObjId, SearchOrder};
use problem_data::problem::Problem;
use std::alloc::{AllocError, Global};

/// The search order of a problem: its objects one after another, and for each dimension whether its values are tried from
/// the high end down. It names each object once.
pub fn search_order(alloc: Global, problem: &Problem) -> Result<SearchOrder, AllocError>
    ensures value { IfOk result (λ order. order ≡ order_of problem.now) }
    ensures names { IfOk result
        (λ order. NamesEach problem.now.dims (first_state problem.now) order) }
{
    problem.is_said();
    let mut objects = Vec::new(alloc);
    for o in problem.search_order() {
        objects.push(ObjId(*o))?;
    }
    let mut down = Vec::new(alloc);
    for side in problem.sides() {
        down.push(side.runs_down())?;
    }
    SearchOrder::new(alloc, objects.as_slice(), down.as_slice())
}
