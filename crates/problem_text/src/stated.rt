//! That a text of a problem may state the search order, and the sides, where it need not.

ghost use Rattle.std.specs.Prelude.{◌≤◌, Bool, length};
ghost use Rattle.problem_data.specs.Accepted.{most_bytes, Accepts};
ghost use Rattle.problem_data.specs.Problem.{ProblemData};
ghost use Rattle.problem_text.specs.Canonical.{text_stating, needs_order, needs_sides, MayState};
ghost use Rattle.problem_text.specs.ReadBack.{SpellsProblem, IsReadAs, MacrosRise, IsInOrder};

use problem_data::problem::Problem;

/// A text that states the order and the sides or leaves them out, where it may, spells statements
/// without a fault that mean the problem, places aside. So where it has at most 1,048,576 bytes it
/// is read as that problem, with the places of macros and rules in the order of their statements,
/// as those of macros are in the problem. The canonical text is one of these texts. It does
/// nothing.
pub fn stated_texts_are_read_back(problem: &Problem)
    ensures spelled { (order sides : Bool) → MayState order sides problem.now
        → SpellsProblem (text_stating order sides problem.now) problem.now }
    ensures read_back { (order sides : Bool) → MayState order sides problem.now
        → length (text_stating order sides problem.now) ≤ most_bytes
        → IsReadAs (text_stating order sides problem.now) problem.now }
    ensures in_order { (order sides : Bool) → MayState order sides problem.now
        → (again : ProblemData) → Accepts (text_stating order sides problem.now) again
        → IsInOrder again }
    ensures macros_rise { MacrosRise problem.now }
    ensures canonical { MayState (needs_order problem.now) (needs_sides problem.now) problem.now }
{
    problem.is_said();
}
