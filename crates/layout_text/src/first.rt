//! The first value of each dimension, at which an absent object lies.

ghost use Rattle.std.specs.Prelude.{◌≡◌, ◌<◌, ◌↔◌, IsTrue, IfOk, length, map};
ghost use Rattle.problem_data.specs.Meaning.{number_of};
ghost use Rattle.problem_data.specs.Places.{first_value as first_value_of};
ghost use Rattle.problem_data.specs.WellFormed.{IsObject};
ghost use Rattle.layout_text.specs.Faults.{first_values as first_values_of};

use problem_data::problem::{ObjectDef, Problem};
use problem_data::tree::Int;
use std::alloc::{AllocError, Global};

// The end of the hull from which the values of a dimension are tried.
fn first_value(problem: &Problem, object: &ObjectDef, d: usize) -> i64
    requires object { IsObject problem.now object.now }
    requires dimension { d < problem.now.dims }
    ensures { result ≡ first_value_of problem.now object.now d }
{
    problem.is_said();
    let hull = object.hull(d);
    if problem.sides()[d].runs_down() {
        hull.high
    } else {
        hull.low
    }
}

/// The first value of each dimension.
pub fn first_values(
    alloc: Global,
    problem: &Problem,
    object: &ObjectDef,
) -> Result<Vec<i64>, AllocError>
    requires { IsObject problem.now object.now }
    ensures { IfOk result (λ v. v.items ≡ first_values_of problem.now object.now) }
{
    let mut values = Vec::new(alloc);
    for d in 0..problem.dims() {
        values.push(first_value(problem, object, d))?;
    }
    Ok(values)
}

/// Whether the numbers are the first values.
pub fn are_first_values(problem: &Problem, object: &ObjectDef, origin: &[Int]) -> bool
    requires { IsObject problem.now object.now }
    ensures { IsTrue result
        ↔ (map number_of origin.now ≡ first_values_of problem.now object.now) }
{
    if origin.len() != problem.dims() {
        return false;
    }
    for (d, number) in origin.iter().enumerate() {
        if number.value != first_value(problem, object, d) {
            return false;
        }
    }
    true
}
