//! The conditions of the rule that all cells lie in given ranges.

ghost use Rattle.std.specs.Prelude.{◌≡◌, ◌<◌, ◌+ℤ◌, ◌-ℤ◌, ◌∷◌, ◌++◌, [], All, IfOk, OnOk, length, map, pos};
ghost use Rattle.geo_base.specs.Boxes.{coordinate};
ghost use Rattle.geo_conditions.specs.Form.{IsBounded};
ghost use Rattle.problem_data.specs.Cells.{range_at};
ghost use Rattle.problem_data.specs.Limits.{IsSize, IsSmall};
ghost use Rattle.problem_data.specs.ProblemView.{range_data};
ghost use Rattle.problem_data.specs.WellFormed.{IsBox, IsRange};
ghost use Rattle.linear_conditions.specs.CondTree.{at_least, cond_view, conds, shape_is_not};
ghost use Rattle.rule_ground.specs.Shapes.{HasSmallShapes, IsPlace, IsSmallBox};
ghost use Rattle.rule_ground.specs.Within.{from_low, to_high, unless_other, within_at_place, within_conditions, within_in, within_of, within_of_box};

use crate::literals;
use crate::shapes::{Placed, boxes, has_several, places};
use geo_conditions::{Cond, Conds, ObjId};
use problem_data::problem::{BoxDef, Problem, RangeDef};
use std::alloc::{AllocError, Global};

// How far the low end of the range lies behind the place where the box begins.
fn low_constant(range: RangeDef, b: &BoxDef, d: usize) -> i64
    requires b { d < length b.now.offsets }
    requires small { IsSmallBox b.now }
    requires range { IsRange (range_data range) }
    ensures value { result ≡ range.low -ℤ coordinate b.now.offsets d }
    ensures bounded { IsBounded result }
{
    let begins = b.offsets()[d];
    range.low - begins
}

// How far the last number of a box, which begins at an offset and has a size, lies behind the high end.
fn behind(begins: i64, size: i64, high: i64) -> i64
    requires begins { IsSmall begins }
    requires size { IsSize size }
    requires high { IsSmall high }
    ensures value { result ≡ ((begins +ℤ size) -ℤ pos 1) -ℤ high }
    ensures bounded { IsBounded result }
{
    begins + size - 1 - high
}

// How far the last number of the box, by its offset, lies behind the high end of the range in the dimension d.
fn high_constant(range: RangeDef, b: &BoxDef, d: usize) -> i64
    requires b { (d < length b.now.offsets) × (d < length b.now.sizes) }
    requires small { IsSmallBox b.now }
    requires range { IsRange (range_data range) }
    ensures value { result ≡ ((coordinate b.now.offsets d +ℤ coordinate b.now.sizes d) -ℤ pos 1)
        -ℤ range.high }
    ensures bounded { IsBounded result }
{
    let begins = b.offsets()[d];
    let size = b.sizes()[d];
    behind(begins, size, range.high)
}

/// That the object has another place, or the condition.
pub fn other_or(alloc: Global, at: Placed, c: Cond) -> Result<Cond, AllocError>
    ensures { IfOk result (λ r. cond_view r ≡ at_least (pos 1)
        (conds (shape_is_not at.object.0 at.place ∷ (cond_view c ∷ [])))) }
{
    let mut parts = Conds::new(alloc);
    parts.push(Cond::NotShape(at.object, at.place))?;
    parts.push(c)?;
    Ok(Cond::AtLeast(1, parts))
}

/// That the object has another place, or the condition; the condition alone, where it has no other.
pub fn unless_other(
    alloc: Global,
    problem: &Problem,
    at: Placed,
    c: Cond,
) -> Result<Cond, AllocError>
    requires at { IsPlace problem.now at.object.0 at.place }
    ensures { IfOk result (λ r. cond_view r
        ≡ unless_other problem.now at.object.0 at.place (cond_view c)) }
{
    if has_several(problem, at.object) {
        other_or(alloc, at, c)
    } else {
        Ok(c)
    }
}

/// The range at a place of a list.
pub fn range_in(ranges: &[RangeDef], d: usize) -> RangeDef
    requires ranges { All IsRange (map range_data ranges.now) }
    requires d { d < length ranges.now }
    ensures is { range_data result ≡ range_at (map range_data ranges.now) d }
    ensures small { IsRange (range_data result) }
{
    ranges[d]
}

// That the box begins at the low end of the range or behind it.
fn low_condition(
    alloc: Global,
    problem: &Problem,
    ranges: &[RangeDef],
    at: Placed,
    b: &BoxDef,
    d: usize,
) -> Result<Cond, AllocError>
    requires ranges { All IsRange (map range_data ranges.now) }
    requires at { IsPlace problem.now at.object.0 at.place }
    requires b { d < length b.now.offsets }
    requires d { d < length ranges.now }
    requires small { IsSmallBox b.now }
    ensures { IfOk result (λ c. cond_view c ≡ unless_other problem.now at.object.0 at.place
        (from_low at.object.0 b.now (map range_data ranges.now) d)) }
{
    let range = range_in(ranges, d);
    let c = literals::from_low(alloc, at.object, d, low_constant(range, b, d))?;
    unless_other(alloc, problem, at, c)
}

// That the last number of the box is at most the high end of the range.
fn high_condition(
    alloc: Global,
    problem: &Problem,
    ranges: &[RangeDef],
    at: Placed,
    b: &BoxDef,
    d: usize,
) -> Result<Cond, AllocError>
    requires ranges { All IsRange (map range_data ranges.now) }
    requires at { IsPlace problem.now at.object.0 at.place }
    requires b { (d < length b.now.offsets) × (d < length b.now.sizes) }
    requires d { d < length ranges.now }
    requires small { IsSmallBox b.now }
    ensures { IfOk result (λ c. cond_view c ≡ unless_other problem.now at.object.0 at.place
        (to_high at.object.0 b.now (map range_data ranges.now) d)) }
{
    let range = range_in(ranges, d);
    let c = literals::to_high(alloc, at.object, d, high_constant(range, b, d))?;
    unless_other(alloc, problem, at, c)
}

// Appends the two conditions of a box in the dimension d.
fn push_dimension(
    alloc: Global,
    problem: &Problem,
    ranges: &[RangeDef],
    at: Placed,
    b: &BoxDef,
    d: usize,
    out: &mut Vec<Cond>,
) -> Result<(), AllocError>
    requires ranges { All IsRange (map range_data ranges.now) }
    requires at { IsPlace problem.now at.object.0 at.place }
    requires b { (d < length b.now.offsets) × (d < length b.now.sizes) }
    requires d { d < length ranges.now }
    requires small { IsSmallBox b.now }
    ensures { OnOk result (map cond_view out.new.items ≡ map cond_view out.old.items
        ++ within_in problem.now (map range_data ranges.now) at.object.0 at.place b.now d) }
{
    let range = range_in(ranges, d);
    out.push(low_condition(alloc, problem, ranges, at, b, d)?)?;
    out.push(high_condition(alloc, problem, ranges, at, b, d)?)?;
    Ok(())
}

// Appends the conditions of a box.
fn push_box(
    alloc: Global,
    problem: &Problem,
    ranges: &[RangeDef],
    at: Placed,
    b: &BoxDef,
    out: &mut Vec<Cond>,
) -> Result<(), AllocError>
    requires ranges { All IsRange (map range_data ranges.now) }
    requires dims { length ranges.now ≡ problem.now.dims }
    requires at { IsPlace problem.now at.object.0 at.place }
    requires b { IsBox problem.now.dims b.now }
    requires small { IsSmallBox b.now }
    ensures { OnOk result (map cond_view out.new.items ≡ map cond_view out.old.items
        ++ within_of_box problem.now (map range_data ranges.now) at.object.0 at.place b.now) }
{
    for d in 0..problem.dims() {
        push_dimension(alloc, problem, ranges, at, b, d, out)?;
    }
    Ok(())
}

// Appends the conditions of a shape.
fn push_shape(
    alloc: Global,
    problem: &Problem,
    ranges: &[RangeDef],
    at: Placed,
    out: &mut Vec<Cond>,
) -> Result<(), AllocError>
    requires shapes { HasSmallShapes problem.now }
    requires ranges { All IsRange (map range_data ranges.now) }
    requires dims { length ranges.now ≡ problem.now.dims }
    requires at { IsPlace problem.now at.object.0 at.place }
    ensures { OnOk result (map cond_view out.new.items ≡ map cond_view out.old.items
        ++ within_at_place problem.now (map range_data ranges.now) at.object.0 at.place) }
{
    let own = boxes(problem, at);
    for b in own {
        push_box(alloc, problem, ranges, at, b, out)?;
    }
    Ok(())
}

// Appends the conditions of an object.
fn push_object(
    alloc: Global,
    problem: &Problem,
    ranges: &[RangeDef],
    o: ObjId,
    out: &mut Vec<Cond>,
) -> Result<(), AllocError>
    requires shapes { HasSmallShapes problem.now }
    requires ranges { All IsRange (map range_data ranges.now) }
    requires dims { length ranges.now ≡ problem.now.dims }
    requires o { o.0 < length problem.now.objects }
    ensures { OnOk result (map cond_view out.new.items ≡ map cond_view out.old.items
        ++ within_of problem.now (map range_data ranges.now) o.0) }
{
    for before in 0..places(problem, o) {
        let at = Placed {
            object: o,
            place: before + 1,
        };
        push_shape(alloc, problem, ranges, at, out)?;
    }
    Ok(())
}

/// Appends the conditions of `within`, for each object in file order, its shapes, their boxes and the dimensions.
pub fn push_within(
    alloc: Global,
    problem: &Problem,
    ranges: &[RangeDef],
    out: &mut Vec<Cond>,
) -> Result<(), AllocError>
    requires shapes { HasSmallShapes problem.now }
    requires ranges { All IsRange (map range_data ranges.now) }
    requires dims { length ranges.now ≡ problem.now.dims }
    ensures { OnOk result (map cond_view out.new.items ≡ map cond_view out.old.items
        ++ within_conditions problem.now (map range_data ranges.now)) }
{
    problem.is_said();
    let count = problem.objects().len() as u16;
    for o in 0..count {
        push_object(alloc, problem, ranges, ObjId(o), out)?;
    }
    Ok(())
}
