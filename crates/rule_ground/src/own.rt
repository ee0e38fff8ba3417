//! The conditions that objects have by themselves: that no coordinate lies between two pieces of
//! its range, and that an absent object lies at the first value of each dimension.

ghost use Rattle.std.specs.List.{flat_map, range_with_len};
ghost use Rattle.std.specs.Prelude.{◌≡◌, ◌<◌, ◌++◌, ◌-ℤ◌, IfOk, OnOk, length, map, pos};
ghost use Rattle.geo_conditions.specs.Form.{IsBounded};
ghost use Rattle.linear_conditions.specs.CondTree.{cond_view};
ghost use Rattle.problem_data.specs.Limits.{IsSmall};
ghost use Rattle.problem_data.specs.Pieces.{hull, pieces_at};
ghost use Rattle.problem_data.specs.Problem.{runs_down};
ghost use Rattle.problem_data.specs.ProblemView.{range_data};
ghost use Rattle.problem_data.specs.Tuple.{object_of};
ghost use Rattle.problem_data.specs.WellFormed.{ArePieces, IsRange};
ghost use Rattle.rule_ground.specs.Own.{at_first, hole_condition, holes_at, holes_in, origin_condition, origins_of, own_conditions, own_of};
ghost use Rattle.problem_data.specs.Places.{side_at};

use crate::literals;
use crate::optional::{absent_place, may_be_absent};
use crate::shapes::Placed;
use crate::within::{other_or, range_in};
use geo_conditions::{Cond, Conds, ObjId};
use problem_data::problem::{Problem, RangeDef};
use std::alloc::{AllocError, Global};

// What is added to a coordinate that is at most the number, so that the sum is at most 0.
fn opposite(number: i64) -> i64
    requires number { IsSmall number }
    ensures value { result ≡ pos 0 -ℤ number }
    ensures bounded { IsBounded result }
{
    0 - number
}

// The coordinate `d` of `o` is at most the end of one piece, or at least the beginning of another.
fn hole_condition(
    alloc: Global,
    o: ObjId,
    d: usize,
    before: RangeDef,
    behind: RangeDef,
) -> Result<Cond, AllocError>
    requires before { IsRange (range_data before) }
    requires behind { IsRange (range_data behind) }
    ensures { IfOk result (λ c. cond_view c
        ≡ hole_condition o.0 d (range_data before) (range_data behind)) }
{
    let mut parts = Conds::new(alloc);
    let first = literals::to_high(alloc, o, d, opposite(before.high))?;
    parts.push(first)?;
    let second = literals::from_low(alloc, o, d, behind.low)?;
    parts.push(second)?;
    Ok(Cond::AtLeast(1, parts))
}

// Appends the conditions of a range: for each two neighbouring pieces one.
fn push_holes(
    alloc: Global,
    o: ObjId,
    d: usize,
    pieces: &[RangeDef],
    out: &mut Vec<Cond>,
) -> Result<(), AllocError>
    requires pieces { ArePieces (map range_data pieces.now) }
    ensures { OnOk result (map cond_view out.new.items ≡ map cond_view out.old.items
        ++ holes_in o.0 d (map range_data pieces.now)) }
{
    for n in 0..pieces.len() - 1 {
        let before = range_in(pieces, n);
        let behind = range_in(pieces, n + 1);
        let hole = hole_condition(alloc, o, d, before, behind)?;
        out.push(hole)?;
    }
    Ok(())
}

// The pieces of a coordinate's range.
fn pieces<'a>(problem: &'a Problem, o: ObjId, d: usize) -> &'a [RangeDef]
    requires o { o.0 < length problem.now.objects }
    requires d { d < problem.now.dims }
    ensures same { map range_data result.now ≡ pieces_at (object_of problem.now o.0) d }
    ensures pieces { ArePieces (map range_data result.now) }
{
    problem.is_said();
    let object = &problem.objects()[o.0 as usize];
    object.pieces()[d].ranges()
}

// The hull of a coordinate's range.
fn hull(problem: &Problem, o: ObjId, d: usize) -> RangeDef
    requires o { o.0 < length problem.now.objects }
    requires d { d < problem.now.dims }
    ensures same { range_data result ≡ hull (pieces_at (object_of problem.now o.0) d) }
    ensures range { IsRange (range_data result) }
{
    problem.is_said();
    let object = &problem.objects()[o.0 as usize];
    object.hull(d)
}

// Appends the conditions of an object's holes.
fn push_ranges(
    alloc: Global,
    problem: &Problem,
    o: ObjId,
    out: &mut Vec<Cond>,
) -> Result<(), AllocError>
    requires o { o.0 < length problem.now.objects }
    ensures { OnOk result (map cond_view out.new.items ≡ map cond_view out.old.items
        ++ flat_map (holes_at problem.now o.0) (range_with_len 0 problem.now.dims)) }
{
    for d in 0..problem.dims() {
        push_holes(alloc, o, d, pieces(problem, o, d), out)?;
    }
    Ok(())
}

// Whether the values of a dimension are tried from the high end down.
fn is_down(problem: &Problem, d: usize) -> bool
    requires d { d < problem.now.dims }
    ensures { result ≡ runs_down (side_at problem.now d) }
{
    problem.is_said();
    problem.sides()[d].runs_down()
}

// The coordinate `d` of `o` is not behind its first value.
fn at_first(alloc: Global, problem: &Problem, o: ObjId, d: usize) -> Result<Cond, AllocError>
    requires o { o.0 < length problem.now.objects }
    requires d { d < problem.now.dims }
    ensures { IfOk result (λ c. cond_view c ≡ at_first problem.now o.0 d) }
{
    let range = hull(problem, o, d);
    if is_down(problem, d) {
        literals::from_low(alloc, o, d, range.high)
    } else {
        literals::to_high(alloc, o, d, opposite(range.low))
    }
}

// That the object is not absent, or that the coordinate `d` is not behind its first value.
fn origin_condition(
    alloc: Global,
    problem: &Problem,
    o: ObjId,
    d: usize,
) -> Result<Cond, AllocError>
    requires o { o.0 < length problem.now.objects }
    requires d { d < problem.now.dims }
    ensures { IfOk result (λ c. cond_view c ≡ origin_condition problem.now o.0 d) }
{
    let at = Placed {
        object: o,
        place: absent_place(problem, o),
    };
    let first = at_first(alloc, problem, o, d)?;
    other_or(alloc, at, first)
}

// Appends the conditions of the origin of an object, where it may be absent.
fn push_origin(
    alloc: Global,
    problem: &Problem,
    o: ObjId,
    out: &mut Vec<Cond>,
) -> Result<(), AllocError>
    requires o { o.0 < length problem.now.objects }
    ensures { OnOk result (map cond_view out.new.items
        ≡ map cond_view out.old.items ++ map (origin_condition problem.now o.0)
        (range_with_len 0 problem.now.dims)) }
{
    for d in 0..problem.dims() {
        let origin = origin_condition(alloc, problem, o, d)?;
        out.push(origin)?;
    }
    Ok(())
}

// Appends the conditions of an object's absence.
fn push_absence(
    alloc: Global,
    problem: &Problem,
    o: ObjId,
    out: &mut Vec<Cond>,
) -> Result<(), AllocError>
    requires o { o.0 < length problem.now.objects }
    ensures { OnOk result (map cond_view out.new.items
        ≡ map cond_view out.old.items ++ origins_of problem.now o.0) }
{
    if may_be_absent(problem, o) {
        push_origin(alloc, problem, o, out)
    } else {
        Ok(())
    }
}

// Appends the conditions of an object: of its holes, and then of its absence.
fn push_object(
    alloc: Global,
    problem: &Problem,
    o: ObjId,
    out: &mut Vec<Cond>,
) -> Result<(), AllocError>
    requires o { o.0 < length problem.now.objects }
    ensures { OnOk result (map cond_view out.new.items
        ≡ map cond_view out.old.items ++ own_of problem.now o.0) }
{
    push_ranges(alloc, problem, o, out)?;
    push_absence(alloc, problem, o, out)?;
    Ok(())
}

/// Appends the conditions that objects have by themselves, for each object in file order: for the
/// dimensions and each two neighbouring pieces, that the coordinate is at most the end of the one, or
/// at least the beginning of the other; and then, where the object may be absent, for the dimensions
/// that it is not, or that the coordinate is its first value.
pub fn push_own(alloc: Global, problem: &Problem, out: &mut Vec<Cond>) -> Result<(), AllocError>
    ensures { OnOk result (map cond_view out.new.items
        ≡ map cond_view out.old.items ++ own_conditions problem.now) }
{
    problem.is_said();
    let count = problem.objects().len() as u16;
    for o in 0..count {
        push_object(alloc, problem, ObjId(o), out)?;
    }
    Ok(())
}
