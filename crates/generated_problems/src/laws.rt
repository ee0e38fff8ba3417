//! What holds of the text that is made from each seed.

ghost use Rattle.std.specs.Prelude.{◌≡◌};
ghost use Rattle.problem_data.specs.Problem.{ProblemData};
ghost use Rattle.problem_data.specs.Accepted.{Accepts};
ghost use Rattle.problem_text.specs.Canonical.{problem_text};
ghost use Rattle.problem_text.specs.ReadBack.{ReadsBack};
ghost use Rattle.problem_generator.specs.Made.{made_text};
ghost use Rattle.generated_problems.specs.Problem.{made_problem};

/// What holds of the text that is made from a seed: it is the canonical text of the problem that is
/// made from it; it is read without a fault, as that problem, places aside; and what it is read as
/// is printed as the same text. It does nothing.
pub fn made_texts_are_read_back(seed: u32)
    ensures canonical { made_text seed ≡ problem_text (made_problem seed) }
    ensures read { ReadsBack (made_problem seed) }
    ensures printed { (p : ProblemData) → Accepts (made_text seed) p
        → problem_text p ≡ made_text seed }
{
    let _seed = seed;
}
