//! The tuple that the groups of a token give.

ghost use Rattle.std.specs.Prelude.{◌≡◌, ◌≤◌, ◌↔◌, IsTrue, IfOk, length, map, true};
ghost use Rattle.problem_data.specs.Cells.{HasForm, IsSpotOf, IsTuple};
ghost use Rattle.problem_data.specs.Meaning.{number_of};
ghost use Rattle.problem_data.specs.Places.{is_absent_at, place_count};
ghost use Rattle.problem_data.specs.WellFormed.{IsObject};
ghost use Rattle.layout_text.specs.Faults.{AreInPieces, first_values, spot_in};
ghost use Rattle.layout_text.specs.Token.{tuple_in};
ghost use Rattle.layout_text.specs.View.{group_view};

use crate::first::are_first_values;
use crate::pieces::is_in_pieces;
use crate::tree::GroupText;
use geo_conditions::Layout;
use problem_data::problem::{ObjectDef, PiecesDef, Problem};
use problem_data::tree::Int;
use problem_syntax::numbers::values;
use std::alloc::{AllocError, Global};

// Whether each number lies in a piece of its range.
fn are_in_pieces(pieces: &[PiecesDef], origin: &[Int]) -> bool
    requires { length pieces.now ≡ length origin.now }
    ensures { IsTrue result ↔ AreInPieces pieces.now (map number_of origin.now) }
{
    for (i, number) in origin.iter().enumerate() {
        if !is_in_pieces(&pieces[i], *number) {
            return false;
        }
    }
    true
}

// Whether the object has this place. Places count from 1.
fn has_place(object: &ObjectDef, place: usize) -> bool
    requires few { length object.now.shapes ≤ 16 }
    ensures { IsTrue result ↔ (1 ≤ place) × (place ≤ place_count object.now) }
{
    1 <= place && place <= object.places()
}

// Whether the group has a place of the object's list, and as many coordinates as there are
// dimensions.
fn has_form(problem: &Problem, object: &ObjectDef, group: &GroupText) -> bool
    requires { IsObject problem.now object.now }
    ensures { IsTrue result ↔ HasForm problem.now object.now (spot_in (group_view group.now)) }
{
    let origin = group.origin.as_slice();
    has_place(object, group.shape as usize) && origin.len() == problem.dims()
}

// Whether the object is not absent at this place, or lies there at its first values.
fn lies_right(problem: &Problem, object: &ObjectDef, place: usize, origin: &[Int]) -> bool
    requires { IsObject problem.now object.now }
    ensures { IsTrue result ↔ (is_absent_at object.now place ≡ true
        → map number_of origin.now ≡ first_values problem.now object.now) }
{
    if object.is_absent_at(place) {
        are_first_values(problem, object, origin)
    } else {
        true
    }
}

// Whether the group has a place of the object, and an origin in pieces of its ranges, which is that
// of its first values where it is absent.
fn is_spot(problem: &Problem, object: &ObjectDef, group: &GroupText) -> bool
    requires { IsObject problem.now object.now }
    ensures { IsTrue result ↔ IsSpotOf problem.now object.now (spot_in (group_view group.now)) }
{
    if !has_form(problem, object, group) {
        return false;
    }
    let origin = group.origin.as_slice();
    are_in_pieces(object.pieces(), origin)
        && lies_right(problem, object, group.shape as usize, origin)
}

/// Whether the groups give a tuple of the problem.
pub fn give_tuple(problem: &Problem, groups: &[GroupText]) -> bool
    ensures { IsTrue result ↔ IsTuple problem.now (tuple_in (map group_view groups.now)) }
{
    problem.is_said();
    let objects = problem.objects();
    if groups.len() != objects.len() {
        return false;
    }
    for (i, group) in groups.iter().enumerate() {
        if !is_spot(problem, &objects[i], group) {
            return false;
        }
    }
    true
}

/// The tuple that the groups give.
pub fn tuple_in(
    alloc: Global,
    problem: &Problem,
    groups: &[GroupText],
) -> Result<Layout, AllocError>
    requires { IsTuple problem.now (tuple_in (map group_view groups.now)) }
    ensures { IfOk result (λ t. t ≡ tuple_in (map group_view groups.now)) }
{
    problem.is_said();
    let mut layout = Layout::new(alloc);
    for group in groups {
        let origin = values(alloc, group.origin.as_slice())?;
        layout.push(group.shape as u8, origin.as_slice())?;
    }
    Ok(layout)
}
