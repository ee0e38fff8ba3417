//! Boxes of placed objects, by their ends in each dimension.
ghost use Rattle.std.specs.Prelude.{◌≡◌, ◌<◌, ◌≤◌, ◌≤ℤ◌, ◌<ℤ◌, ℕ, ℤ, pos, List, length, map};
ghost use Rattle.std.specs.Bool.{OnTrue, OnFalse};
ghost use Rattle.geo_base.specs.Boxes.{coordinate};
ghost use Rattle.geo_base.specs.Tuple.{spot};
ghost use Rattle.problem_data.specs.Cells.{IsIn, BoxHas, IsInRanges};
ghost use Rattle.problem_data.specs.ProblemView.{range_data};
ghost use Rattle.problem_data.specs.WellFormed.{IsBox};

use box_ends::{ends, parts_in};
use geo_conditions::{Layout, ObjId};
use problem_data::problem::{BoxDef, RangeDef};

/// Whether no cell belongs to both boxes: to the box a of the object o, and to the box b of the object u.
pub fn box_shares_no_cell(
    dims: usize,
    layout: &Layout,
    o: ObjId,
    a: &BoxDef,
    u: ObjId,
    b: &BoxDef,
) -> bool
    requires o { (o.0 < length layout.now) × (length (spot layout.now o.0).origin ≡ dims) }
    requires u { (u.0 < length layout.now) × (length (spot layout.now u.0).origin ≡ dims) }
    requires a { IsBox dims a.now }
    requires b { IsBox dims b.now }
    ensures yes { OnTrue result ((c : List ℤ) → BoxHas dims a.now (spot layout.now o.0).origin c
        → BoxHas dims b.now (spot layout.now u.0).origin c → ⊥) }
    ensures no { OnFalse result ((c : List ℤ)
        × (BoxHas dims a.now (spot layout.now o.0).origin c
        × BoxHas dims b.now (spot layout.now u.0).origin c)) }
{
    for d in 0..dims {
        if parts_in(layout, o, a, u, b, d) {
            return true;
        }
    }
    false
}

/// Whether each cell of the box of the object o lies in the ranges.
pub fn box_lies_within(ranges: &[RangeDef], layout: &Layout, o: ObjId, a: &BoxDef) -> bool
    requires o { (o.0 < length layout.now)
        × (length (spot layout.now o.0).origin ≡ length ranges.now) }
    requires a { IsBox (length ranges.now) a.now }
    ensures yes { OnTrue result ((c : List ℤ)
        → BoxHas (length ranges.now) a.now (spot layout.now o.0).origin c
        → IsInRanges (map range_data ranges.now) c) }
    ensures no { OnFalse result ((c : List ℤ)
        × (BoxHas (length ranges.now) a.now (spot layout.now o.0).origin c
        × (IsInRanges (map range_data ranges.now) c → ⊥))) }
{
    for d in 0..ranges.len() {
        if !part_lies_in(&ranges[d], layout, o, a, d) {
            return false;
        }
    }
    true
}

// Whether each number of the box of the object o in the dimension d lies in the range.
fn part_lies_in(range: &RangeDef, layout: &Layout, o: ObjId, a: &BoxDef, d: usize) -> bool
    requires o { (o.0 < length layout.now) × (d < length (spot layout.now o.0).origin) }
    requires a { (d < length a.now.offsets) × (d < length a.now.sizes) }
    requires solid { pos 0 <ℤ coordinate a.now.sizes d }
    ensures yes { OnTrue result ((c : ℤ) → IsIn a.now (spot layout.now o.0).origin d c
        → (range.now.low ≤ℤ c) × (c ≤ℤ range.now.high)) }
    ensures no { OnFalse result ((c : ℤ)
        × (IsIn a.now (spot layout.now o.0).origin d c
        × ((range.now.low ≤ℤ c) → (c ≤ℤ range.now.high) → ⊥))) }
{
    let (low, high) = ends(layout, o, a, d);
    all_between(low, high, range.low as i128, range.high as i128)
}

// Whether the numbers from low on and below high all stand from lowest to highest.
fn all_between(low: i128, high: i128, lowest: i128, highest: i128) -> bool
    requires { low <ℤ high }
    ensures yes { OnTrue result ((c : ℤ) → low ≤ℤ c → c <ℤ high → (lowest ≤ℤ c) × (c ≤ℤ highest)) }
    ensures no { OnFalse result ((c : ℤ)
        × ((low ≤ℤ c) × (c <ℤ high) × ((lowest ≤ℤ c) → (c ≤ℤ highest) → ⊥))) }
{
    lowest <= low && high - 1 <= highest
}
