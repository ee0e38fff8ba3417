//! Caps: conditions that no box of an object ends beyond a number in one dimension.
//!
//! They are linear, one for each box of each place of an object, so that a search may take them
//! behind the conditions of the problem: it then finds layouts that end by this number alone.

ghost use Rattle.std.specs.Prelude.{◌≡◌, ◌↔◌, ◌<◌, ◌≤◌, ◌+ℤ◌, ◌-ℤ◌, IfOk, OnOk, length, map};
ghost use Rattle.geo_base.specs.Tuple.{Tuple};
ghost use Rattle.geo_conditions.specs.Conditions.{AllFit, AllHold};
ghost use Rattle.geo_conditions.specs.Form.{IsBounded};
ghost use Rattle.problem_data.specs.Cells.{IsWideTuple};
ghost use Rattle.problem_data.specs.Limits.{IsSize, IsSmall};
ghost use Rattle.linear_conditions.specs.CondTree.{cond_view};
ghost use Rattle.rule_ground.specs.Shapes.{HasSmallShapes, IsPlace, IsSmallBox};
ghost use Rattle.rule_ground.specs.Start.{first_state};
ghost use Rattle.extent_caps.specs.Capped.{Adds, AddsCaps, IsCapEnd, most_caps};
ghost use Rattle.extent_caps.specs.Extents.{EndsBy, cap, caps, caps_at, caps_of};

use geo_conditions::{Cond, ObjId};
use problem_data::problem::{BoxDef, Problem};
use rule_ground::literals::to_high;
use rule_ground::shapes::{Placed, boxes, places};
use rule_ground::within::unless_other;
use std::alloc::{AllocError, Global};

// How far the first number past a box, which begins at an offset and has a size, lies beyond `e`.
fn beyond(begins: i64, size: i64, e: i64) -> i64
    requires begins { IsSmall begins }
    requires size { IsSize size }
    requires e { IsCapEnd e }
    ensures value { result ≡ (begins +ℤ size) -ℤ e }
    ensures bounded { IsBounded result }
{
    begins + size - e
}

// That the box of an object at a place ends by `e`, or that the object has another place.
fn cap(
    alloc: Global,
    problem: &Problem,
    at: Placed,
    b: &BoxDef,
    d: usize,
    e: i64,
) -> Result<Cond, AllocError>
    requires at { IsPlace problem.now at.object.0 at.place }
    requires b { (d < length b.now.offsets) × (d < length b.now.sizes) }
    requires small { IsSmallBox b.now }
    requires e { IsCapEnd e }
    ensures { IfOk result (λ c. cond_view c ≡ cap problem.now d e at.object.0 at.place b.now) }
{
    let begins = b.offsets()[d];
    let size = b.sizes()[d];
    let c = to_high(alloc, at.object, d, beyond(begins, size, e))?;
    unless_other(alloc, problem, at, c)
}

// Appends the caps of the boxes that an object has at a place.
fn push_place(
    alloc: Global,
    problem: &Problem,
    at: Placed,
    d: usize,
    e: i64,
    conditions: &mut Vec<Cond>,
) -> Result<(), AllocError>
    requires shapes { HasSmallShapes problem.now }
    requires at { IsPlace problem.now at.object.0 at.place }
    requires d { d < problem.now.dims }
    requires e { IsCapEnd e }
    ensures { OnOk result (Adds (caps_at problem.now d e at.object.0 at.place)
        conditions.old.items conditions.new.items) }
{
    let own = boxes(problem, at);
    for b in own {
        conditions.push(cap(alloc, problem, at, b, d, e)?)?;
    }
    Ok(())
}

// Appends the caps of an object.
fn push_object(
    alloc: Global,
    problem: &Problem,
    o: ObjId,
    d: usize,
    e: i64,
    conditions: &mut Vec<Cond>,
) -> Result<(), AllocError>
    requires shapes { HasSmallShapes problem.now }
    requires o { o.0 < length problem.now.objects }
    requires d { d < problem.now.dims }
    requires e { IsCapEnd e }
    ensures { OnOk result (Adds (caps_of problem.now d e o.0)
        conditions.old.items conditions.new.items) }
{
    for before in 0..places(problem, o) {
        let at = Placed {
            object: o,
            place: before + 1,
        };
        push_place(alloc, problem, at, d, e, conditions)?;
    }
    Ok(())
}

/// Appends the caps at `e` in the dimension `d`: for each object in file order, its places and their
/// boxes. They name objects and dimensions of the problem alone, and there are at most 51,200. On a
/// tuple of the problem's hulls all are true exactly where none of its boxes ends beyond `e`.
pub fn push_caps(
    alloc: Global,
    problem: &Problem,
    d: usize,
    e: i64,
    conditions: &mut Vec<Cond>,
) -> Result<(), AllocError>
    requires d { d < problem.now.dims }
    requires e { IsCapEnd e }
    ensures { OnOk result (AddsCaps problem.now d e conditions.old.items conditions.new.items) }
{
    problem.is_said();
    let count = problem.objects().len() as u16;
    for o in 0..count {
        push_object(alloc, problem, ObjId(o), d, e, conditions)?;
    }
    Ok(())
}

/// The caps at `e` in the dimension `d`, as `push_caps` appends them.
pub fn caps(alloc: Global, problem: &Problem, d: usize, e: i64) -> Result<Vec<Cond>, AllocError>
    requires d { d < problem.now.dims }
    requires e { IsCapEnd e }
    ensures trees { IfOk result (λ v. map cond_view v.items ≡ caps problem.now d e) }
    ensures fit { IfOk result (λ v. AllFit v.items (first_state problem.now)) }
    ensures few { IfOk result (λ v. length v.items ≤ most_caps) }
    ensures meaning { IfOk result (λ v. (t : Tuple) → IsWideTuple problem.now t
        → AllHold v.items t ↔ EndsBy problem.now t d e) }
{
    let mut conditions = Vec::new(alloc);
    push_caps(alloc, problem, d, e, &mut conditions)?;
    Ok(conditions)
}
