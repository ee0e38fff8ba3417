//! The laws. Each function has a law as its contract, and does nothing.

ghost use Rattle.std.specs.Prelude.{◌≡◌, ◌≤◌, ◌++◌, ◌∷◌, [], ℕ, List, length};
ghost use Rattle.serde_json.specs.Written.{compact_text};
ghost use Rattle.fewer_rules.specs.Fewer.{HasConditions};
ghost use Rattle.problem_data.specs.Accepted.{most_bytes};
ghost use Rattle.problem_data.specs.Problem.{ProblemData};
ghost use Rattle.problem_text.specs.Canonical.{problem_text};
ghost use Rattle.problem_text.specs.ReadBack.{bare_problem, IsReadAs};
ghost use Rattle.json_sheets.specs.Sheet.{IsSheet, sheet_json};
ghost use Rattle.json_sheets.specs.SheetText.{sheet_text, Spells, TextSpells};
ghost use Rattle.geo_json.specs.SheetOf.{sheet_of};
ghost use Rattle.json_round_trip.specs.Return.{IsShownAgain};
ghost use Rattle.json_round_trip.specs.Stated.{stated_text};

use problem_data::problem::Problem;

/// Problems that are the same, places aside, have one canonical text, and one sheet: so one value
/// of JSON, and it spells one text.
pub fn places_are_not_written()
    ensures text { (p q : ProblemData) → bare_problem p ≡ bare_problem q
        → problem_text p ≡ problem_text q }
    ensures sheet { (p q : ProblemData) → bare_problem p ≡ bare_problem q
        → sheet_of p ≡ sheet_of q }
{}

/// The sheet of a problem may be said: so its value has the form, and spells the text of the sheet,
/// and no other.
pub fn problems_have_the_form(problem: &Problem)
    ensures form { IsSheet (sheet_of problem.now) }
    ensures spells { Spells (sheet_json (sheet_of problem.now)) (sheet_text (sheet_of problem.now)) }
    ensures only { (text : List ℕ) → Spells (sheet_json (sheet_of problem.now)) text
        → text ≡ sheet_text (sheet_of problem.now) }
{
    problem.is_said();
}

/// The text that the sheet of a problem spells is the canonical text of the problem, with the sides
/// stated, and the search order too where there is an object.
pub fn sheets_state_all(problem: &Problem)
    ensures { sheet_text (sheet_of problem.now) ≡ stated_text problem.now }
{
    problem.is_said();
}

/// The line of a problem's value in JSON spells the text of the problem's sheet, and no other.
pub fn lines_spell(problem: &Problem)
    ensures spells { TextSpells (compact_text (sheet_json (sheet_of problem.now)) ++ 10 ∷ [])
        (sheet_text (sheet_of problem.now)) }
    ensures only { (text : List ℕ)
        → TextSpells (compact_text (sheet_json (sheet_of problem.now)) ++ 10 ∷ []) text
        → text ≡ sheet_text (sheet_of problem.now) }
{
    problem.is_said();
}

/// The text of statements that the sheet of a problem spells is read as the problem, places aside,
/// where it has at most 1,048,576 bytes.
pub fn sheets_read_back(problem: &Problem)
    ensures { length (sheet_text (sheet_of problem.now)) ≤ most_bytes
        → IsReadAs (sheet_text (sheet_of problem.now)) problem.now }
{
    problem.is_said();
}

/// Where the rules of the problem have no fault besides, nor have those of the problem that is
/// read, and the two are shown alike.
pub fn problems_return(problem: &Problem)
    ensures { length (sheet_text (sheet_of problem.now)) ≤ most_bytes
        → HasConditions problem.now
        → IsShownAgain (sheet_text (sheet_of problem.now)) (problem_text problem.now) }
{
    problem.is_said();
}
