//! Whether one placed object is in the way of another one, by the ends of their boxes: two boxes
//! have cells that agree in every dimension but one where their spans there have a common number.
ghost use Rattle.std.specs.Prelude.{◌≡◌, ◌<◌, ◌+ℤ◌, ◌<ℤ◌, ℕ, length};
ghost use Rattle.std.specs.Bool.{OnTrue, OnFalse};
ghost use Rattle.geo_base.specs.Boxes.{coordinate};
ghost use Rattle.geo_base.specs.Tuple.{spot};
ghost use Rattle.problem_data.specs.Cells.{BoxHas, IsCellOf, IsIn, IsShaped};
ghost use Rattle.problem_data.specs.WellFormed.{IsBox};
ghost use Rattle.geo_load.specs.Blocks.{Blocks, BoxBlocks, BoxBlocksOne, low_in, end_in};

use box_ends::{boxes, ends, parts_in};
use geo_conditions::{Layout, ObjId};
use problem_data::problem::{BoxDef, Problem};

/// Whether the object `i` blocks the object `j`, which comes in along the dimension `d` from its
/// high side: some cell of `i` lies at or beyond a cell of `j` in that dimension, and agrees with
/// it in every other one. Objects that overlap block each other; one that is absent blocks none,
/// and none blocks it. It takes no memory.
pub fn blocks(problem: &Problem, layout: &Layout, i: ObjId, j: ObjId, d: usize) -> bool
    requires layout { IsShaped problem.now layout.now }
    requires i { i.0 < length problem.now.objects }
    requires j { j.0 < length problem.now.objects }
    requires d { d < problem.now.dims }
    ensures yes { OnTrue result (Blocks problem.now layout.now d i.0 j.0) }
    ensures no { OnFalse result (Blocks problem.now layout.now d i.0 j.0 → ⊥) }
{
    let own = boxes(problem, layout, i);
    for a in own {
        if box_blocks_one(problem, layout, i, a, j, d) {
            return true;
        }
    }
    false
}

// Whether the box a of the object i blocks a box of the object j.
fn box_blocks_one(
    problem: &Problem,
    layout: &Layout,
    i: ObjId,
    a: &BoxDef,
    j: ObjId,
    d: usize,
) -> bool
    requires layout { IsShaped problem.now layout.now }
    requires i { i.0 < length problem.now.objects }
    requires j { j.0 < length problem.now.objects }
    requires a { IsBox problem.now.dims a.now }
    requires d { d < problem.now.dims }
    ensures yes { OnTrue result
        (BoxBlocksOne problem.now layout.now d a.now (spot layout.now i.0).origin j.0) }
    ensures no { OnFalse result
        (BoxBlocksOne problem.now layout.now d a.now (spot layout.now i.0).origin j.0 → ⊥) }
{
    let others = boxes(problem, layout, j);
    for b in others {
        if box_blocks(problem.dims(), layout, i, a, j, b, d) {
            return true;
        }
    }
    false
}

// Whether the box a of the object i blocks the box b of the object j.
fn box_blocks(
    dims: usize,
    layout: &Layout,
    i: ObjId,
    a: &BoxDef,
    j: ObjId,
    b: &BoxDef,
    d: usize,
) -> bool
    requires i { (i.0 < length layout.now) × (length (spot layout.now i.0).origin ≡ dims) }
    requires j { (j.0 < length layout.now) × (length (spot layout.now j.0).origin ≡ dims) }
    requires a { IsBox dims a.now }
    requires b { IsBox dims b.now }
    requires d { d < dims }
    ensures yes { OnTrue result (BoxBlocks dims d a.now (spot layout.now i.0).origin b.now
        (spot layout.now j.0).origin) }
    ensures no { OnFalse result (BoxBlocks dims d a.now (spot layout.now i.0).origin b.now
        (spot layout.now j.0).origin → ⊥) }
{
    if !reaches(layout, i, a, j, b, d) {
        return false;
    }
    for e in 0..dims {
        if e != d && parts_in(layout, i, a, j, b, e) {
            return false;
        }
    }
    true
}

// Whether the last number of the box a in the dimension d is no less than the first one of b.
fn reaches(layout: &Layout, i: ObjId, a: &BoxDef, j: ObjId, b: &BoxDef, d: usize) -> bool
    requires i { (i.0 < length layout.now) × (d < length (spot layout.now i.0).origin) }
    requires j { (j.0 < length layout.now) × (d < length (spot layout.now j.0).origin) }
    requires a { (d < length a.now.offsets) × (d < length a.now.sizes) }
    requires b { (d < length b.now.offsets) × (d < length b.now.sizes) }
    ensures yes { OnTrue result (low_in b.now (spot layout.now j.0).origin d
        <ℤ end_in a.now (spot layout.now i.0).origin d) }
    ensures no { OnFalse result (low_in b.now (spot layout.now j.0).origin d
        <ℤ end_in a.now (spot layout.now i.0).origin d → ⊥) }
{
    let (_, end) = ends(layout, i, a, d);
    let (low, _) = ends(layout, j, b, d);
    low < end
}
