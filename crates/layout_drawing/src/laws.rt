//! What holds of the drawings of all tuples of a problem.

ghost use Rattle.std.specs.Prelude.{◌≡◌, List, ℕ};
ghost use Rattle.problem_data.specs.Tuple.{Tuple};
ghost use Rattle.layout_drawing.specs.Drawing.{IsDrawing, IsLarge};

use problem_data::problem::Problem;

/// A tuple has one drawing, and none where its box has more cells than a drawing may have. It does
/// nothing.
pub fn drawings_are_one(problem: &Problem)
    ensures one { (t : Tuple) (x y : List ℕ) → IsDrawing problem.now t x
        → IsDrawing problem.now t y → x ≡ y }
    ensures not_large { (t : Tuple) (x : List ℕ) → IsDrawing problem.now t x
        → IsLarge problem.now t → ⊥ }
{
    problem.is_said();
}
