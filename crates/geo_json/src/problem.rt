//! Whole problems.

ghost use Rattle.std.specs.Prelude.{◌≡◌, IfOk};
ghost use Rattle.serde_json.specs.View.{view};
ghost use Rattle.json_sheets.specs.Sheet.{sheet_json};
ghost use Rattle.geo_json.specs.SheetOf.{sheet_of};
ghost use Rattle.geo_json.specs.Ascii.{IsAsciiProblem};

use crate::names::order_to_json;
use crate::object::objects_to_json;
use crate::texts::{macros_to_json, rules_to_json};
use json_parts::list_to_json;
use problem_data::problem::Problem;
use serde_json::{Value, json};
use std::alloc::{AllocError, Global};

/// The texts of a problem are ASCII. It does nothing.
pub fn is_ascii(problem: &Problem)
    ensures { IsAsciiProblem problem.now }
{
    problem.is_said();
}

/// The problem as a value of JSON: an object with the keys `dims`, `geost` (the version), `macros`,
/// `objects`, `order`, `rules`, `shapes` and `sides`. Macros and the bodies of rules are canonical
/// texts. The error is want of memory.
pub fn problem_to_json(alloc: Global, problem: &Problem) -> Result<Value, AllocError>
    ensures { IfOk result (λ v. view v ≡ sheet_json (sheet_of problem.now)) }
{
    is_ascii(problem);
    let macros = macros_to_json(alloc, problem.macros())?;
    let objects = objects_to_json(alloc, problem.shapes(), problem.objects())?;
    let order = order_to_json(alloc, problem.objects(), problem.search_order())?;
    let rules = rules_to_json(alloc, problem.rules())?;
    let shapes = list_to_json(alloc, problem.shapes())?;
    let sides = list_to_json(alloc, problem.sides())?;
    let (dims, version) = (problem.dims() as u64, problem.version() as u64);
    json!(in alloc; {
        "dims": dims,
        "geost": version,
        "macros": macros,
        "objects": objects,
        "order": order,
        "rules": rules,
        "shapes": shapes,
        "sides": sides,
    })
}
