//! Writes layouts and tokens. Nothing here takes memory, so that a listing over a quiet sink can
//! stop for want of room alone.

ghost use Rattle.std.specs.Prelude.{◌≡◌, ◌+◌, ◌<◌, codes, decimal, length, flat_map, drop};
ghost use Rattle.geo_base.specs.Boxes.{coordinate};
ghost use Rattle.geo_base.specs.Tuple.{spot};
ghost use Rattle.geo_chan.specs.Written.{Prints};
ghost use Rattle.problem_data.specs.Cells.{IsShaped};
ghost use Rattle.problem_data.specs.Places.{is_absent_at};
ghost use Rattle.problem_data.specs.Tuple.{object_of};
ghost use Rattle.layout_text.specs.Block.{shape_name as shape_name_of, behind, coordinates, head_of, placed_line, absent_line, line_of, lines_of, group_of, later_group, token_of, token_line, block_of};

use crate::given::shape_of;
use geo_chan::{Piece, PutFault, Sink, write_all_bytes, write_pieces};
use geo_conditions::{Layout, ObjId};
use problem_data::problem::Problem;

/// Writes the layout block: the line `layout`, a line `NAME as SHAPE at X1 .. XK`, or `NAME
/// absent`, for each object in file order, and the token line. After a fault a front part of it was
/// written.
pub fn print_layout<W: Sink>(
    problem: &Problem,
    layout: &Layout,
    sink: &mut W,
) -> Result<(), PutFault>
    requires layout { IsShaped problem.now layout.now }
    ensures { Prints W.written W.faults W.quiet sink.old sink.new result
        (block_of problem.now layout.now) }
{
    write_all_bytes(sink, b"layout\n")?;
    write_lines(problem, layout, sink)?;
    print_token_line(problem, layout, sink)
}

/// Writes the token of a layout: the place and the coordinates of each object, in file order; `-`
/// where there are no objects. After a fault a front part of it was written.
pub fn print_token<W: Sink>(
    problem: &Problem,
    layout: &Layout,
    sink: &mut W,
) -> Result<(), PutFault>
    requires layout { IsShaped problem.now layout.now }
    ensures { Prints W.written W.faults W.quiet sink.old sink.new result (token_of layout.now) }
{
    write_token(problem, layout, sink)
}

/// Writes the line `token TOKEN` of a layout. After a fault a front part of it was written.
pub fn print_token_line<W: Sink>(
    problem: &Problem,
    layout: &Layout,
    sink: &mut W,
) -> Result<(), PutFault>
    requires layout { IsShaped problem.now layout.now }
    ensures { Prints W.written W.faults W.quiet sink.old sink.new result (token_line layout.now) }
{
    write_all_bytes(sink, b"token ")?;
    write_token(problem, layout, sink)?;
    write_all_bytes(sink, b"\n")
}

fn write_lines<W: Sink>(problem: &Problem, layout: &Layout, sink: &mut W) -> Result<(), PutFault>
    requires layout { IsShaped problem.now layout.now }
    ensures { Prints W.written W.faults W.quiet sink.old sink.new result
        (lines_of problem.now layout.now) }
{
    problem.is_said();
    for o in 0..layout.len() {
        write_line(problem, layout, ObjId(o as u16), sink)?;
    }
    Ok(())
}

fn write_line<W: Sink>(
    problem: &Problem,
    layout: &Layout,
    o: ObjId,
    sink: &mut W,
) -> Result<(), PutFault>
    requires layout { IsShaped problem.now layout.now }
    requires object { o.0 < length problem.now.objects }
    ensures { Prints W.written W.faults W.quiet sink.old sink.new result
        (line_of problem.now layout.now o.0) }
{
    if is_absent(problem, layout, o) {
        write_absent(problem, o, sink)
    } else {
        write_placed(problem, layout, o, sink)
    }
}

// Whether the object is absent.
fn is_absent(problem: &Problem, layout: &Layout, o: ObjId) -> bool
    requires layout { IsShaped problem.now layout.now }
    requires object { o.0 < length problem.now.objects }
    ensures { result ≡ is_absent_at (object_of problem.now o.0) (spot layout.now o.0).place }
{
    problem.is_said();
    problem.objects()[o.0 as usize].is_absent_at(layout.place(o) as usize)
}

// Writes the line `NAME absent`.
fn write_absent<W: Sink>(problem: &Problem, o: ObjId, sink: &mut W) -> Result<(), PutFault>
    requires { o.0 < length problem.now.objects }
    ensures { Prints W.written W.faults W.quiet sink.old sink.new result
        (absent_line problem.now o.0) }
{
    let object = &problem.objects()[o.0 as usize];
    let pieces = [
        Piece::Bytes(object.name().as_bytes()),
        Piece::Bytes(b" absent\n"),
    ];
    write_pieces(sink, &pieces)
}

// Writes the line `NAME as SHAPE at X1 .. XK`.
fn write_placed<W: Sink>(
    problem: &Problem,
    layout: &Layout,
    o: ObjId,
    sink: &mut W,
) -> Result<(), PutFault>
    requires layout { IsShaped problem.now layout.now }
    requires object { o.0 < length problem.now.objects }
    ensures { Prints W.written W.faults W.quiet sink.old sink.new result
        (placed_line problem.now layout.now o.0) }
{
    write_head(problem, layout, o, sink)?;
    write_coordinates(problem.dims(), layout, o, b" ", sink)?;
    write_all_bytes(sink, b"\n")
}

fn write_head<W: Sink>(
    problem: &Problem,
    layout: &Layout,
    o: ObjId,
    sink: &mut W,
) -> Result<(), PutFault>
    requires layout { IsShaped problem.now layout.now }
    requires object { o.0 < length problem.now.objects }
    ensures { Prints W.written W.faults W.quiet sink.old sink.new result
        (head_of problem.now layout.now o.0) }
{
    let object = &problem.objects()[o.0 as usize];
    let pieces = [
        Piece::Bytes(object.name().as_bytes()),
        Piece::Bytes(b" as "),
        Piece::Bytes(shape_name(problem, layout, o)),
        Piece::Bytes(b" at"),
    ];
    write_pieces(sink, &pieces)
}

// The name of the shape that the layout gives the object; none where it gives it no shape.
fn shape_name<'a>(problem: &'a Problem, layout: &Layout, o: ObjId) -> &'a [u8]
    requires layout { IsShaped problem.now layout.now }
    requires object { o.0 < length problem.now.objects }
    ensures { result.now ≡ shape_name_of problem.now layout.now o.0 }
{
    match shape_of(problem, layout, o) {
        Some(number) => match problem.shapes().get(number as usize) {
            Some(shape) => shape.name().as_bytes(),
            None => b"",
        },
        None => b"",
    }
}

// Writes the object's coordinates, each behind the mark.
fn write_coordinates<W: Sink>(
    dims: usize,
    layout: &Layout,
    o: ObjId,
    mark: &'static [u8],
    sink: &mut W,
) -> Result<(), PutFault>
    requires object { o.0 < length layout.now }
    requires dimensions { length (spot layout.now o.0).origin ≡ dims }
    ensures { Prints W.written W.faults W.quiet sink.old sink.new result
        (coordinates mark.now (spot layout.now o.0).origin) }
{
    for d in 0..dims {
        write_coordinate(layout, o, d, mark, sink)?;
    }
    Ok(())
}

// Writes the object's coordinate in the dimension d behind the mark.
fn write_coordinate<W: Sink>(
    layout: &Layout,
    o: ObjId,
    d: usize,
    mark: &'static [u8],
    sink: &mut W,
) -> Result<(), PutFault>
    requires object { o.0 < length layout.now }
    requires dimension { d < length (spot layout.now o.0).origin }
    ensures { Prints W.written W.faults W.quiet sink.old sink.new result
        (behind mark.now (coordinate (spot layout.now o.0).origin d)) }
{
    let pieces = [
        Piece::Bytes(mark),
        Piece::Number(layout.origin(o, d) as i128),
    ];
    write_pieces(sink, &pieces)
}

fn write_token<W: Sink>(problem: &Problem, layout: &Layout, sink: &mut W) -> Result<(), PutFault>
    requires layout { IsShaped problem.now layout.now }
    ensures { Prints W.written W.faults W.quiet sink.old sink.new result (token_of layout.now) }
{
    if layout.len() == 0 {
        return write_all_bytes(sink, b"-");
    }
    write_group(problem.dims(), layout, ObjId(0), sink)?;
    write_later_groups(problem, layout, layout.len() - 1, sink)
}

// Writes the groups of the objects behind the first one, of which there are `count`.
fn write_later_groups<W: Sink>(
    problem: &Problem,
    layout: &Layout,
    count: usize,
    sink: &mut W,
) -> Result<(), PutFault>
    requires layout { IsShaped problem.now layout.now }
    requires count { count + 1 ≡ length layout.now }
    ensures { Prints W.written W.faults W.quiet sink.old sink.new result
        (flat_map later_group (drop 1 layout.now)) }
{
    problem.is_said();
    for k in 0..count {
        write_later_group(problem.dims(), layout, ObjId(k as u16 + 1), sink)?;
    }
    Ok(())
}

fn write_later_group<W: Sink>(
    dims: usize,
    layout: &Layout,
    o: ObjId,
    sink: &mut W,
) -> Result<(), PutFault>
    requires object { o.0 < length layout.now }
    requires dimensions { length (spot layout.now o.0).origin ≡ dims }
    ensures { Prints W.written W.faults W.quiet sink.old sink.new result
        (later_group (spot layout.now o.0)) }
{
    write_all_bytes(sink, b"/")?;
    write_group(dims, layout, o, sink)
}

fn write_group<W: Sink>(
    dims: usize,
    layout: &Layout,
    o: ObjId,
    sink: &mut W,
) -> Result<(), PutFault>
    requires object { o.0 < length layout.now }
    requires dimensions { length (spot layout.now o.0).origin ≡ dims }
    ensures { Prints W.written W.faults W.quiet sink.old sink.new result
        (group_of (spot layout.now o.0)) }
{
    write_place(layout, o, sink)?;
    write_coordinates(dims, layout, o, b",", sink)
}

fn write_place<W: Sink>(layout: &Layout, o: ObjId, sink: &mut W) -> Result<(), PutFault>
    requires { o.0 < length layout.now }
    ensures { Prints W.written W.faults W.quiet sink.old sink.new result
        (decimal (spot layout.now o.0).place) }
{
    let pieces = [Piece::Number(layout.place(o) as i128)];
    write_pieces(sink, &pieces)
}
