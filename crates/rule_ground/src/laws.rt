//! A law of the conditions of a problem. The function has it as its contract, and does nothing.

ghost use Rattle.rule_ground.specs.Meant.{ConditionsAreMeant};

use problem_data::problem::Problem;

/// Where the rules of the problem have no fault, each list with the trees of its conditions names
/// objects and dimensions of the problem alone, has few conditions, and all of them are true on a
/// tuple of the problem's hulls exactly where it is a layout.
pub fn conditions_are_meant(problem: &Problem)
    ensures { ConditionsAreMeant problem.now }
{
    problem.is_said();
}
