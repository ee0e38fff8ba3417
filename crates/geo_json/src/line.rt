//! Problems and layouts as texts of JSON.

ghost use Rattle.std.specs.Prelude.{◌≡◌, ◌++◌, ◌∷◌, [], IfOk, Some, IsUtf8};
ghost use Rattle.serde_json.specs.Read.{read};
ghost use Rattle.serde_json.specs.Written.{compact_text};
ghost use Rattle.problem_data.specs.Cells.{IsTuple};
ghost use Rattle.json_sheets.specs.Sheet.{sheet_json};
ghost use Rattle.geo_json.specs.SheetOf.{sheet_of};
ghost use Rattle.geo_json.specs.LayoutJson.{layout_json};

use crate::{layout_to_json, problem_to_json};
use geo_conditions::Layout;
use json_parts::json_line;
use problem_data::problem::Problem;
use std::alloc::{AllocError, Global};

/// The compact text of the problem's value, and a line feed behind it. The text is read as that
/// value again.
pub fn problem_json_line(alloc: Global, problem: &Problem) -> Result<Vec<u8>, AllocError>
    ensures text { IfOk result (λ text. text.items
        ≡ compact_text (sheet_json (sheet_of problem.now)) ++ 10 ∷ []) }
    ensures again { IfOk result (λ text. read text.items
        ≡ Some (sheet_json (sheet_of problem.now))) }
    ensures utf8 { IfOk result (λ text. IsUtf8 text.items) }
{
    let value = problem_to_json(alloc, problem)?;
    json_line(alloc, &value)
}

/// The compact text of the layout's value, and a line feed behind it. The text is read as that
/// value again.
pub fn layout_json_line(
    alloc: Global,
    problem: &Problem,
    layout: &Layout,
) -> Result<Vec<u8>, AllocError>
    requires { IsTuple problem.now layout.now }
    ensures text { IfOk result (λ text. text.items
        ≡ compact_text (layout_json problem.now layout.now) ++ 10 ∷ []) }
    ensures again { IfOk result (λ text. read text.items
        ≡ Some (layout_json problem.now layout.now)) }
    ensures utf8 { IfOk result (λ text. IsUtf8 text.items) }
{
    let value = layout_to_json(alloc, problem, layout)?;
    json_line(alloc, &value)
}
