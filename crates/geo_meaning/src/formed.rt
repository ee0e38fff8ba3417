//! What holds of every problem.
ghost use Rattle.std.specs.Prelude.{◌≤◌, length};
ghost use Rattle.problem_data.specs.Limits.{most_rules};
ghost use Rattle.problem_data.specs.WellFormed.{IsWellFormed};

use problem_data::problem::Problem;

// A problem is well formed, and it has few rules. It does nothing.
pub fn is_formed(problem: &Problem)
    ensures formed { IsWellFormed problem.now }
    ensures rules { length problem.now.rules ≤ most_rules }
{
    problem.is_said();
}
