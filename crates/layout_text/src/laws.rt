//! What holds of the texts of all layouts of a problem.

ghost use Rattle.std.specs.Prelude.{◌≡◌, ◌≤◌, length};
ghost use Rattle.problem_data.specs.Tuple.{Tuple};
ghost use Rattle.problem_data.specs.Cells.{IsTuple};
ghost use Rattle.layout_text.specs.Block.{token_of, block_of};
ghost use Rattle.layout_text.specs.FirstFault.{most_bytes, Accepts};

use problem_data::problem::Problem;

/// What holds of the texts of layouts: the block of a tuple, where it is not too long, is read as
/// this tuple, and no other tuple has the same block or the same token. It does nothing.
pub fn texts_are_read_back(problem: &Problem)
    ensures read_back { (t : Tuple) → IsTuple problem.now t
        → length (block_of problem.now t) ≤ most_bytes
        → Accepts problem.now (block_of problem.now t) t }
    ensures one_block { (t u : Tuple) → IsTuple problem.now t → IsTuple problem.now u
        → block_of problem.now t ≡ block_of problem.now u → t ≡ u }
    ensures one_token { (t u : Tuple) → IsTuple problem.now t → IsTuple problem.now u
        → token_of t ≡ token_of u → t ≡ u }
{
    problem.is_said();
}
