//! The conditions of the rule that no cell belongs to two objects.

ghost use Rattle.std.specs.Prelude.{◌≡◌, ◌<◌, ◌+ℤ◌, ◌-ℤ◌, ◌++◌, IfOk, OnOk, length, map};
ghost use Rattle.geo_base.specs.Boxes.{coordinate};
ghost use Rattle.geo_conditions.specs.Form.{IsBounded};
ghost use Rattle.problem_data.specs.Limits.{IsSize, IsSmall};
ghost use Rattle.problem_data.specs.WellFormed.{IsBox};
ghost use Rattle.rule_ground.specs.Apart.{apart_at_place, apart_at_places, apart_behind, apart_condition, apart_conditions, apart_from_box, apart_of, parted_in};
ghost use Rattle.linear_conditions.specs.CondTree.{cond_view};
ghost use Rattle.rule_ground.specs.Shapes.{HasSmallShapes, IsPlace, IsSmallBox};

use crate::literals::{at_least, at_most};
use crate::shapes::{Placed, boxes, places, push_other_shape};
use geo_conditions::{Cond, Conds, ObjId};
use problem_data::problem::{BoxDef, Problem};
use std::alloc::{AllocError, Global};

// How far one box, which begins at an offset and has a size, reaches beyond the offset of another.
fn beyond(begins: i64, size: i64, other: i64) -> i64
    requires begins { IsSmall begins }
    requires size { IsSize size }
    requires other { IsSmall other }
    ensures value { result ≡ (begins +ℤ size) -ℤ other }
    ensures bounded { IsBounded result }
{
    begins + size - other
}

// How far the box a, by its offset, reaches beyond the offset of the box b in the dimension d.
fn reach_beyond(a: &BoxDef, b: &BoxDef, d: usize) -> i64
    requires a { (d < length a.now.offsets) × (d < length a.now.sizes) }
    requires b { d < length b.now.offsets }
    requires small { IsSmallBox a.now × IsSmallBox b.now }
    ensures value { result ≡ (coordinate a.now.offsets d +ℤ coordinate a.now.sizes d)
        -ℤ coordinate b.now.offsets d }
    ensures bounded { IsBounded result }
{
    let begins = a.offsets()[d];
    let size = a.sizes()[d];
    let other = b.offsets()[d];
    beyond(begins, size, other)
}

// Appends that the boxes are parted in the dimension d, in either order.
fn push_parted(
    alloc: Global,
    i: ObjId,
    a: &BoxDef,
    j: ObjId,
    b: &BoxDef,
    d: usize,
    parts: &mut Conds,
) -> Result<(), AllocError>
    requires order { i.0 < j.0 }
    requires a { (d < length a.now.offsets) × (d < length a.now.sizes) }
    requires b { (d < length b.now.offsets) × (d < length b.now.sizes) }
    requires small { IsSmallBox a.now × IsSmallBox b.now }
    ensures { OnOk result (map cond_view parts.new.items.items
        ≡ map cond_view parts.old.items.items ++ parted_in i.0 a.now j.0 b.now d) }
{
    let first = at_most(alloc, i, j, d, reach_beyond(a, b, d))?;
    parts.push(first)?;
    let second = at_least(alloc, i, j, d, reach_beyond(b, a, d))?;
    parts.push(second)?;
    Ok(())
}

// The condition of two boxes.
fn box_condition(
    alloc: Global,
    problem: &Problem,
    first: Placed,
    a: &BoxDef,
    second: Placed,
    b: &BoxDef,
) -> Result<Cond, AllocError>
    requires order { first.object.0 < second.object.0 }
    requires first { IsPlace problem.now first.object.0 first.place }
    requires second { IsPlace problem.now second.object.0 second.place }
    requires a { IsBox problem.now.dims a.now }
    requires b { IsBox problem.now.dims b.now }
    requires small { IsSmallBox a.now × IsSmallBox b.now }
    ensures { IfOk result (λ c. cond_view c ≡ apart_condition problem.now
        first.object.0 first.place second.object.0 second.place a.now b.now) }
{
    problem.is_said();
    let mut parts = Conds::with_capacity(alloc, 2 + 2 * problem.dims())?;
    push_other_shape(problem, first, &mut parts)?;
    push_other_shape(problem, second, &mut parts)?;
    for d in 0..problem.dims() {
        push_parted(alloc, first.object, a, second.object, b, d, &mut parts)?;
    }
    Ok(Cond::AtLeast(1, parts))
}

// Appends the conditions of a box with each box of the other object.
fn push_box(
    alloc: Global,
    problem: &Problem,
    first: Placed,
    a: &BoxDef,
    second: Placed,
    out: &mut Vec<Cond>,
) -> Result<(), AllocError>
    requires shapes { HasSmallShapes problem.now }
    requires order { first.object.0 < second.object.0 }
    requires first { IsPlace problem.now first.object.0 first.place }
    requires second { IsPlace problem.now second.object.0 second.place }
    requires a { IsBox problem.now.dims a.now }
    requires small { IsSmallBox a.now }
    ensures { OnOk result (map cond_view out.new.items ≡ map cond_view out.old.items
        ++ apart_from_box problem.now first.object.0 first.place second.object.0 second.place
        a.now) }
{
    let others = boxes(problem, second);
    for b in others {
        out.push(box_condition(alloc, problem, first, a, second, b)?)?;
    }
    Ok(())
}

// Appends the conditions of two shapes.
fn push_shapes(
    alloc: Global,
    problem: &Problem,
    first: Placed,
    second: Placed,
    out: &mut Vec<Cond>,
) -> Result<(), AllocError>
    requires shapes { HasSmallShapes problem.now }
    requires order { first.object.0 < second.object.0 }
    requires first { IsPlace problem.now first.object.0 first.place }
    requires second { IsPlace problem.now second.object.0 second.place }
    ensures { OnOk result (map cond_view out.new.items ≡ map cond_view out.old.items
        ++ apart_at_places problem.now first.object.0 first.place second.object.0 second.place) }
{
    let own = boxes(problem, first);
    for a in own {
        push_box(alloc, problem, first, a, second, out)?;
    }
    Ok(())
}

// Appends the conditions of a shape with each shape of the other object.
fn push_shape(
    alloc: Global,
    problem: &Problem,
    first: Placed,
    j: ObjId,
    out: &mut Vec<Cond>,
) -> Result<(), AllocError>
    requires shapes { HasSmallShapes problem.now }
    requires order { first.object.0 < j.0 }
    requires first { IsPlace problem.now first.object.0 first.place }
    requires j { j.0 < length problem.now.objects }
    ensures { OnOk result (map cond_view out.new.items ≡ map cond_view out.old.items
        ++ apart_at_place problem.now first.object.0 j.0 first.place) }
{
    for before in 0..places(problem, j) {
        let second = Placed {
            object: j,
            place: before + 1,
        };
        push_shapes(alloc, problem, first, second, out)?;
    }
    Ok(())
}

// Appends the conditions of two objects.
fn push_objects(
    alloc: Global,
    problem: &Problem,
    i: ObjId,
    j: ObjId,
    out: &mut Vec<Cond>,
) -> Result<(), AllocError>
    requires shapes { HasSmallShapes problem.now }
    requires order { i.0 < j.0 }
    requires j { j.0 < length problem.now.objects }
    ensures { OnOk result (map cond_view out.new.items ≡ map cond_view out.old.items
        ++ apart_of problem.now i.0 j.0) }
{
    for before in 0..places(problem, i) {
        let first = Placed {
            object: i,
            place: before + 1,
        };
        push_shape(alloc, problem, first, j, out)?;
    }
    Ok(())
}

// Appends the conditions of an object with each one behind it.
fn push_behind(
    alloc: Global,
    problem: &Problem,
    i: u16,
    out: &mut Vec<Cond>,
) -> Result<(), AllocError>
    requires shapes { HasSmallShapes problem.now }
    requires i { i < length problem.now.objects }
    ensures { OnOk result (map cond_view out.new.items ≡ map cond_view out.old.items
        ++ apart_behind problem.now i) }
{
    problem.is_said();
    let count = problem.objects().len() as u16;
    for j in i + 1..count {
        push_objects(alloc, problem, ObjId(i), ObjId(j), out)?;
    }
    Ok(())
}

/// Appends the conditions of `apart`, for each two objects in file order, their shapes and their boxes.
pub fn push_apart(alloc: Global, problem: &Problem, out: &mut Vec<Cond>) -> Result<(), AllocError>
    requires shapes { HasSmallShapes problem.now }
    ensures { OnOk result (map cond_view out.new.items ≡ map cond_view out.old.items
        ++ apart_conditions problem.now) }
{
    problem.is_said();
    let count = problem.objects().len() as u16;
    for i in 0..count {
        push_behind(alloc, problem, i, out)?;
    }
    Ok(())
}
