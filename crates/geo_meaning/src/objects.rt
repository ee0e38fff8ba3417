//! Placed objects, box by box.
ghost use Rattle.std.specs.Prelude.{◌≡◌, ◌<◌, ℕ, ℤ, List, length, map};
ghost use Rattle.std.specs.Bool.{OnTrue, OnFalse};
ghost use Rattle.geo_base.specs.Tuple.{spot};
ghost use Rattle.problem_data.specs.Cells.{BoxHas, IsShaped, IsInRanges, IsCellOf, NoCommonCell, LiesWithin};
ghost use Rattle.problem_data.specs.ProblemView.{range_data};
ghost use Rattle.problem_data.specs.WellFormed.{IsBox};

use crate::boxes::{box_lies_within, box_shares_no_cell};
use box_ends::boxes;
use geo_conditions::{Layout, ObjId};
use problem_data::problem::{BoxDef, Problem, RangeDef};

/// Whether no cell belongs to both objects where the layout puts them.
pub fn shares_no_cell(problem: &Problem, layout: &Layout, o: ObjId, u: ObjId) -> bool
    requires layout { IsShaped problem.now layout.now }
    requires o { o.0 < length problem.now.objects }
    requires u { u.0 < length problem.now.objects }
    ensures yes { OnTrue result (NoCommonCell problem.now layout.now o.0 u.0) }
    ensures no { OnFalse result ((c : List ℤ)
        × (IsCellOf problem.now layout.now o.0 c × IsCellOf problem.now layout.now u.0 c)) }
{
    let own = boxes(problem, layout, o);
    for a in own {
        if !shares_none_of(problem, layout, o, a, u) {
            return false;
        }
    }
    true
}

// Whether no cell belongs to the box a of the object o and to the object u.
fn shares_none_of(problem: &Problem, layout: &Layout, o: ObjId, a: &BoxDef, u: ObjId) -> bool
    requires layout { IsShaped problem.now layout.now }
    requires o { o.0 < length problem.now.objects }
    requires u { u.0 < length problem.now.objects }
    requires a { IsBox problem.now.dims a.now }
    ensures yes { OnTrue result ((c : List ℤ)
        → BoxHas problem.now.dims a.now (spot layout.now o.0).origin c
        → IsCellOf problem.now layout.now u.0 c → ⊥) }
    ensures no { OnFalse result ((c : List ℤ)
        × (BoxHas problem.now.dims a.now (spot layout.now o.0).origin c
        × IsCellOf problem.now layout.now u.0 c)) }
{
    let others = boxes(problem, layout, u);
    for b in others {
        if !box_shares_no_cell(problem.dims(), layout, o, a, u, b) {
            return false;
        }
    }
    true
}

/// Whether each cell of the object lies in the ranges.
pub fn lies_within(problem: &Problem, ranges: &[RangeDef], layout: &Layout, o: ObjId) -> bool
    requires ranges { length ranges.now ≡ problem.now.dims }
    requires layout { IsShaped problem.now layout.now }
    requires o { o.0 < length problem.now.objects }
    ensures yes { OnTrue result
        (LiesWithin problem.now (map range_data ranges.now) layout.now o.0) }
    ensures no { OnFalse result (LiesWithin problem.now (map range_data ranges.now) layout.now o.0
        → ⊥) }
{
    let own = boxes(problem, layout, o);
    for a in own {
        if !box_lies_within(ranges, layout, o, a) {
            return false;
        }
    }
    true
}
