//! Whether the groups of a token line give the tuple of the lines.

ghost use Rattle.std.specs.Prelude.{◌≡◌, ◌↔◌, IsTrue, All, map};
ghost use Rattle.problem_data.specs.Meaning.{number_of};
ghost use Rattle.problem_data.specs.WellFormed.{IsObject};
ghost use Rattle.layout_text.specs.View.{line_view, group_view};
ghost use Rattle.layout_text.specs.Faults.{spot_of, spots_of, tuple_of, spot_in};

use crate::first::are_first_values;
use crate::names::shape_position;
use crate::tree::{GroupText, LineText, PutText};
use problem_data::problem::{ObjectDef, Problem};
use problem_data::tree::Int;

// The two lists have the same numbers.
fn same_numbers(a: &[Int], b: &[Int]) -> bool
    ensures { IsTrue result ↔ (map number_of a.now ≡ map number_of b.now) }
{
    if a.len() != b.len() {
        return false;
    }
    for (i, number) in a.iter().enumerate() {
        if number.value != b[i].value {
            return false;
        }
    }
    true
}

// The group gives the spot that the line gives the object.
fn same_spot(problem: &Problem, object: &ObjectDef, line: &LineText, group: &GroupText) -> bool
    requires { IsObject problem.now object.now }
    ensures { IsTrue result
        ↔ (spot_in (group_view group.now) ≡ spot_of problem.now object.now (line_view line.now)) }
{
    let numbers = group.origin.as_slice();
    match &line.put {
        PutText::Placed(shape, origin) => {
            let place = shape_position(problem, object, &shape.name) + 1;
            group.shape as usize == place && same_numbers(numbers, origin.as_slice())
        }
        PutText::Absent(_) => {
            let place = object.shapes().len() + 1;
            group.shape as usize == place && are_first_values(problem, object, numbers)
        }
    }
}

// The groups give the spots that the lines give these objects.
fn same_spots(
    problem: &Problem,
    objects: &[ObjectDef],
    lines: &[LineText],
    groups: &[GroupText],
) -> bool
    requires { All (IsObject problem.now) objects.now }
    ensures { IsTrue result
        ↔ (map spot_in (map group_view groups.now)
        ≡ spots_of problem.now objects.now (map line_view lines.now)) }
{
    match objects {
        [object, objects @ ..] => match lines {
            [line, lines @ ..] => match groups {
                [group, groups @ ..] => {
                    same_spot(problem, object, line, group)
                        && same_spots(problem, objects, lines, groups)
                }
                [] => false,
            },
            [] => groups.is_empty(),
        },
        [] => groups.is_empty(),
    }
}

/// The groups give the tuple of the lines.
pub fn same_tuple(problem: &Problem, lines: &[LineText], groups: &[GroupText]) -> bool
    ensures { IsTrue result
        ↔ (map spot_in (map group_view groups.now)
        ≡ tuple_of problem.now (map line_view lines.now)) }
{
    problem.is_said();
    same_spots(problem, problem.objects(), lines, groups)
}
