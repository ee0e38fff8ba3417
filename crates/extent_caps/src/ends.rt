//! Where a tuple ends in one dimension: the greatest end of the boxes of its objects.

ghost use Rattle.std.specs.Prelude.{◌≡◌, ◌<◌, IfSome, length};
ghost use Rattle.geo_base.specs.Boxes.{coordinate};
ghost use Rattle.geo_base.specs.Tuple.{spot};
ghost use Rattle.problem_data.specs.Cells.{IsWideTuple};
ghost use Rattle.problem_data.specs.Limits.{IsSize, IsSmall};
ghost use Rattle.rule_ground.specs.Shapes.{HasSmallShapes};
ghost use Rattle.extent_caps.specs.Capped.{IsReachable};
ghost use Rattle.extent_caps.specs.Extents.{IsBoxEndOf, IsEnd, IsGreatestOf, box_end, later};

use box_ends::{boxes, ends};
use geo_conditions::{Layout, ObjId};
use problem_data::problem::{BoxDef, Problem};

/// Where the tuple ends in the dimension `d`: the first number past all cells of its objects. None,
/// where no object has a box, since each is absent. It takes no memory.
pub fn end_of(problem: &Problem, layout: &Layout, d: usize) -> Option<i64>
    requires layout { IsWideTuple problem.now layout.now }
    requires d { d < problem.now.dims }
    ensures end { IsEnd problem.now layout.now d result }
    ensures small { IfSome result IsReachable }
{
    problem.is_said();
    let count = problem.objects().len() as u16;
    let mut greatest = None;
    for o in 0..count {
        greatest = later(greatest, end_of_object(problem, layout, ObjId(o), d));
    }
    greatest
}

// Where the object ends, where the tuple puts it.
fn end_of_object(problem: &Problem, layout: &Layout, o: ObjId, d: usize) -> Option<i64>
    requires layout { IsWideTuple problem.now layout.now }
    requires shapes { HasSmallShapes problem.now }
    requires o { o.0 < length problem.now.objects }
    requires d { d < problem.now.dims }
    ensures { IsGreatestOf (IsBoxEndOf problem.now layout.now d o.0) result }
{
    problem.is_said();
    let own = boxes(problem, layout, o);
    let mut greatest = None;
    for b in own {
        greatest = later(greatest, Some(end_of_box(layout, o, b, d)));
    }
    greatest
}

// Where the box of the object ends, where the tuple puts it.
fn end_of_box(layout: &Layout, o: ObjId, b: &BoxDef, d: usize) -> i64
    requires o { (o.0 < length layout.now) × (d < length (spot layout.now o.0).origin) }
    requires origin { IsSmall (coordinate (spot layout.now o.0).origin d) }
    requires b { (d < length b.now.offsets) × (d < length b.now.sizes) }
    requires small { IsSmall (coordinate b.now.offsets d) × IsSize (coordinate b.now.sizes d) }
    ensures { result ≡ box_end b.now (spot layout.now o.0).origin d }
{
    let (_, end) = ends(layout, o, b, d);
    end as i64
}

// The greater of two numbers, where there are two.
fn later(a: Option<i64>, b: Option<i64>) -> Option<i64>
    ensures { result ≡ later a b }
{
    match (a, b) {
        (None, _) => b,
        (_, None) => a,
        (Some(x), Some(y)) => Some(if x < y { y } else { x }),
    }
}
