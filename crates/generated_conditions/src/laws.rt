//! What holds of the problem that is read of the text which is made from a seed.

ghost use Rattle.problem_data.specs.Problem.{ProblemData};
ghost use Rattle.problem_data.specs.Accepted.{Accepts};
ghost use Rattle.problem_generator.specs.Made.{made_text};
ghost use Rattle.generated_conditions.specs.Conditions.{HasRackConditions};

/// The text that is made from a seed is accepted, and the problem that it spells has no fault in
/// its rules either: it has forty objects and 3,600 conditions. It does nothing.
pub fn made_problems_are_accepted(seed: u32)
    ensures accepted { (p : ProblemData) × Accepts (made_text seed) p }
    ensures each { (p : ProblemData) → Accepts (made_text seed) p → HasRackConditions p }
{
    let _seed = seed;
}
