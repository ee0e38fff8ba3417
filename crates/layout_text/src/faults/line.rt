//! Faults of a line.

ghost use Rattle.std.specs.Prelude.{◌≡◌, ℕ, List, length, map, slice_get};
ghost use Rattle.geo_tokens.specs.declared.fault.FaultWord.TheVariants.{Limit};
ghost use Rattle.problem_data.specs.declared.tree.Int.{Int};
ghost use Rattle.problem_data.specs.Least.{IsLeast};
ghost use Rattle.problem_data.specs.WellFormed.{IsObject};
ghost use Rattle.layout_text.specs.Tree.{placed};
ghost use Rattle.layout_text.specs.View.{line_view, put_view};
ghost use Rattle.layout_text.specs.Faults.{NameFault, ShapeFault, CountFault, OutsideFault, PiecesFault, AbsentFault, PutFault, LineFault};

use crate::names::shape_position;
use crate::pieces::is_in_pieces;
use crate::tree::{LineText, PutText};
use geo_tokens::fault::FaultWord;
use problem_data::fault::{Fault, earlier, fault_if};
use problem_data::problem::{ObjectDef, PiecesDef, Problem};
use problem_data::tree::Int;
use rule_syntax::tree::PlacedName;
use statement_faults::numbers::first_int;

fn name_fault(object: &ObjectDef, line: &LineText) -> Option<Fault>
    ensures { IsLeast (NameFault object.now (line_view line.now)) result }
{
    let same = &line.name.name == object.name();
    fault_if(!same, line.name.place, FaultWord::Order)
}

fn shape_fault(problem: &Problem, object: &ObjectDef, shape: &PlacedName) -> Option<Fault>
    requires { IsObject problem.now object.now }
    ensures { IsLeast (ShapeFault problem.now object.now shape.now) result }
{
    let position = shape_position(problem, object, &shape.name);
    let listed = position < object.shapes().len();
    fault_if(!listed, shape.place, FaultWord::Unknown)
}

fn count_fault(dims: usize, origin: &[Int]) -> Option<Fault>
    ensures { IsLeast (CountFault dims origin.now) result }
{
    fault_if(origin.len() != dims, first_int(origin), FaultWord::Limit)
}

fn outside_fault(pieces: &PiecesDef, number: Int) -> Option<Fault>
    ensures { IsLeast (OutsideFault (Some pieces.now) number) result }
{
    let inside = is_in_pieces(pieces, number);
    fault_if(!inside, number.place, FaultWord::Range)
}

// The fault of a coordinate that has so many coordinates before it.
fn coordinate_fault(pieces: &[PiecesDef], index: usize, number: Int) -> Option<Fault>
    ensures { IsLeast (OutsideFault (slice_get pieces.now index) number) result }
{
    if index >= pieces.len() {
        return None;
    }
    outside_fault(&pieces[index], number)
}

fn pieces_fault(pieces: &[PiecesDef], origin: &[Int]) -> Option<Fault>
    ensures { IsLeast (PiecesFault pieces.now origin.now) result }
{
    let mut found = None;
    for (i, number) in origin.iter().enumerate() {
        let here = coordinate_fault(pieces, i, *number);
        found = earlier(found, here);
    }
    found
}

// The first fault of a shape and coordinates.
fn placed_fault(
    problem: &Problem,
    object: &ObjectDef,
    shape: &PlacedName,
    origin: &[Int],
) -> Option<Fault>
    requires { IsObject problem.now object.now }
    ensures { IsLeast (PutFault problem.now object.now (placed shape.now origin.now)) result }
{
    let shape = shape_fault(problem, object, shape);
    let count = count_fault(problem.dims(), origin);
    let pieces = pieces_fault(object.pieces(), origin);
    let last = earlier(count, pieces);
    earlier(shape, last)
}

// The fault of the word `absent` at a place.
fn absent_fault(object: &ObjectDef, place: u64) -> Option<Fault>
    ensures { IsLeast (AbsentFault object.now place) result }
{
    let optional = object.may_be_absent();
    fault_if(!optional, place, FaultWord::Unknown)
}

// The first fault of where a line puts its object.
fn put_fault(problem: &Problem, object: &ObjectDef, put: &PutText) -> Option<Fault>
    requires { IsObject problem.now object.now }
    ensures { IsLeast (PutFault problem.now object.now (put_view put.now)) result }
{
    match put {
        PutText::Placed(shape, origin) => placed_fault(problem, object, shape, origin.as_slice()),
        PutText::Absent(place) => absent_fault(object, *place),
    }
}

// The first fault of a line that has this object.
fn object_line_fault(problem: &Problem, object: &ObjectDef, line: &LineText) -> Option<Fault>
    requires { IsObject problem.now object.now }
    ensures { IsLeast (LineFault problem.now (Some object.now) (line_view line.now)) result }
{
    let name = name_fault(object, line);
    let put = put_fault(problem, object, &line.put);
    earlier(name, put)
}

/// The first fault of a line that has so many lines before it.
pub fn line_fault(problem: &Problem, index: usize, line: &LineText) -> Option<Fault>
    ensures { IsLeast (LineFault problem.now (slice_get problem.now.objects index)
        (line_view line.now)) result }
{
    problem.is_said();
    let objects = problem.objects();
    if index >= objects.len() {
        return fault_if(true, line.name.place, FaultWord::Order);
    }
    object_line_fault(problem, &objects[index], line)
}
