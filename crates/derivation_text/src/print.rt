//! Printing a derivation.

ghost use Rattle.std.specs.Prelude.{◌≡◌, ◌+◌, ◌≤◌, ◌<◌, ℤ, pos, codes, length};
ghost use Rattle.derivation_text.specs.Lines.{object_name as object_name_of, shape_name as shape_name_of, coordinate_line, shape_line, cut_line, number_line, gone_line, cover_line, line_of, lines_of, listed, derivation_text, HasShape, IsNamed, AreNamed};
ghost use Rattle.derivation_text.specs.Gathering.{Gathers};
ghost use Rattle.geo_chan.specs.Written.{Prints};

use derivation::{Event, Log};
use geo_chan::{Page, Piece, PutFault, Sink, write_all_bytes, write_pieces};
use geo_conditions::ObjId;
use geo_tokens::names::Names;

// The name of an object.
fn object_name(names: &Names, o: ObjId) -> &[u8]
    requires object { o.0 < length names.now.objects }
    ensures { result.now ≡ object_name_of names.now o.0 }
{
    names.objects()[o.0 as usize].name().as_bytes()
}

// The name of its shape at a place.
fn shape_name(names: &Names, o: ObjId, place: u8) -> &[u8]
    requires shape { HasShape names.now o.0 place }
    ensures { result.now ≡ shape_name_of names.now o.0 place }
{
    let number = names.objects()[o.0 as usize].shapes()[place as usize - 1];
    names.shapes()[number as usize].as_bytes()
}

// What stands before the name of an object, between a dimension and a number, and at the end.
#[derive(Clone, Copy)]
struct Marks {
    word: &'static [u8],
    between: &'static [u8],
    end: &'static [u8],
}

const UPTO: Marks = Marks {
    word: b"split ",
    between: b" upto ",
    end: b"\n",
};

const FROM: Marks = Marks {
    word: b"split ",
    between: b" from ",
    end: b"\n",
};

const RAISE: Marks = Marks {
    word: b"raise ",
    between: b" ",
    end: b" [\n",
};

const LOWER: Marks = Marks {
    word: b"lower ",
    between: b" ",
    end: b" [\n",
};

// A text counts dimensions from 1.
fn counted(d: u32) -> i128
    requires dimension { d < 1000000000 }
    ensures { result ≡ pos (d + 1) }
{
    d as i128 + 1
}

// Writes a line with a coordinate of an object and a number.
fn write_coordinate<W: Sink>(
    names: &Names,
    o: ObjId,
    d: u32,
    v: i64,
    marks: Marks,
    sink: &mut W,
) -> Result<(), PutFault>
    requires object { o.0 < length names.now.objects }
    requires dimension { d < 1000000000 }
    ensures { Prints W.written W.faults W.quiet sink.old sink.new result
        (coordinate_line marks.word.now (object_name_of names.now o.0) d marks.between.now v
        marks.end.now) }
{
    let pieces = [
        Piece::Bytes(marks.word),
        Piece::Bytes(object_name(names, o)),
        Piece::Bytes(b" "),
        Piece::Number(counted(d)),
        Piece::Bytes(marks.between),
        Piece::Number(v as i128),
        Piece::Bytes(marks.end),
    ];
    write_pieces(sink, &pieces)
}

// Writes a line with an object and one of its shapes.
fn write_shape<'a, W: Sink>(
    names: &'a Names,
    word: &'a [u8],
    o: ObjId,
    between: &'a [u8],
    place: u8,
    sink: &mut W,
) -> Result<(), PutFault>
    requires shape { HasShape names.now o.0 place }
    ensures { Prints W.written W.faults W.quiet sink.old sink.new result
        (shape_line word.now (object_name_of names.now o.0) between.now
        (shape_name_of names.now o.0 place)) }
{
    let pieces = [
        Piece::Bytes(word),
        Piece::Bytes(object_name(names, o)),
        Piece::Bytes(between),
        Piece::Bytes(shape_name(names, o, place)),
        Piece::Bytes(b"\n"),
    ];
    write_pieces(sink, &pieces)
}

fn write_cut<W: Sink>(word: &[u8], d: u32, v: i64, sink: &mut W) -> Result<(), PutFault>
    requires dimension { d < 1000000000 }
    ensures { Prints W.written W.faults W.quiet sink.old sink.new result
        (cut_line word.now d v) }
{
    let pieces = [
        Piece::Bytes(word),
        Piece::Number(counted(d)),
        Piece::Bytes(b" "),
        Piece::Number(v as i128),
        Piece::Bytes(b"\n"),
    ];
    write_pieces(sink, &pieces)
}

fn write_number_line<W: Sink>(word: &[u8], n: u32, sink: &mut W) -> Result<(), PutFault>
    ensures { Prints W.written W.faults W.quiet sink.old sink.new result
        (number_line word.now n) }
{
    let pieces = [
        Piece::Bytes(word),
        Piece::Number(n as i128),
        Piece::Bytes(b"\n"),
    ];
    write_pieces(sink, &pieces)
}

fn write_head<W: Sink>(names: &Names, o: ObjId, sink: &mut W) -> Result<(), PutFault>
    requires object { o.0 < length names.now.objects }
    ensures { Prints W.written W.faults W.quiet sink.old sink.new result
        (gone_line (object_name_of names.now o.0)) }
{
    let pieces = [
        Piece::Bytes(b"gone "),
        Piece::Bytes(object_name(names, o)),
        Piece::Bytes(b" [\n"),
    ];
    write_pieces(sink, &pieces)
}

fn write_name<W: Sink>(names: &Names, o: ObjId, place: u8, sink: &mut W) -> Result<(), PutFault>
    requires shape { HasShape names.now o.0 place }
    ensures { Prints W.written W.faults W.quiet sink.old sink.new result
        (cover_line (shape_name_of names.now o.0 place)) }
{
    let pieces = [
        Piece::Bytes(shape_name(names, o, place)),
        Piece::Bytes(b"\n"),
    ];
    write_pieces(sink, &pieces)
}

// Writes the line of an event, where `o` is the object whose covers are listed.
fn write_line<W: Sink>(names: &Names, o: ObjId, e: Event, sink: &mut W) -> Result<(), PutFault>
    requires named { IsNamed names.now o.0 e }
    ensures { Prints W.written W.faults W.quiet sink.old sink.new result
        (line_of names.now o.0 e) }
{
    let _dims = names.dims();
    match e {
        Event::SplitShape(u, s) => write_shape(names, b"split ", u, b" shape ", s, sink),
        Event::Drop(u, s) => write_shape(names, b"drop ", u, b" ", s, sink),
        Event::SplitUpto(u, d, v) => write_coordinate(names, u, d, v, UPTO, sink),
        Event::SplitFrom(u, d, v) => write_coordinate(names, u, d, v, FROM, sink),
        Event::Raise(u, d, v) => write_coordinate(names, u, d, v, RAISE, sink),
        Event::Lower(u, d, v) => write_coordinate(names, u, d, v, LOWER, sink),
        Event::Gone(u) => write_head(names, u, sink),
        Event::Cover(s) => write_name(names, o, s, sink),
        Event::EndCovers => write_all_bytes(sink, b"]\n"),
        Event::Dead(i) => write_number_line(b"dead ", i, sink),
        Event::By(i) => write_number_line(b"by ", i, sink),
        Event::Cut(d, v) => write_cut(b"cut ", d, v, sink),
        Event::CutFrom(d, v) => write_cut(b"from ", d, v, sink),
    }
}

// The object whose covers are listed behind an event.
pub fn listed(o: ObjId, e: Event) -> ObjId
    ensures { result.0 ≡ listed o.0 e }
{
    match e {
        Event::Raise(u, _, _) => u,
        Event::Lower(u, _, _) => u,
        Event::Gone(u) => u,
        _ => o,
    }
}

/// Writes the lines of the events, in text order, and the line `qed`. After a fault a front part of this was written. It takes no
/// memory.
pub fn print_derivation<W: Sink>(names: &Names, log: &Log, sink: &mut W) -> Result<(), PutFault>
    requires named { AreNamed names.now 0 log.now.events }
    ensures { Prints W.written W.faults W.quiet sink.old sink.new result
        (derivation_text names.now log.now.events) }
{
    write_lines(names, log.events(), sink)?;
    write_all_bytes(sink, b"qed\n")
}

fn write_lines<W: Sink>(names: &Names, events: &[Event], sink: &mut W) -> Result<(), PutFault>
    requires named { AreNamed names.now 0 events.now }
    ensures { Prints W.written W.faults W.quiet sink.old sink.new result
        (lines_of names.now 0 events.now) }
{
    let mut page = Page::new();
    let mut o = ObjId(0);
    for e in events {
        gather_line(names, o, *e, &mut page, sink)?;
        o = listed(o, *e);
    }
    write_all_bytes(sink, page.bytes())
}

// Puts the line of an event behind what the page holds. Where it has no room for the whole line, both are written.
fn gather_line<W: Sink>(
    names: &Names,
    o: ObjId,
    e: Event,
    page: &mut Page,
    sink: &mut W,
) -> Result<(), PutFault>
    requires named { IsNamed names.now o.0 e }
    ensures { Gathers W.written W.faults W.quiet sink.old sink.new page.old page.new result
        (line_of names.now o.0 e) }
{
    let held = page.bytes().len();
    if write_line(names, o, e, page).is_ok() {
        return Ok(());
    }
    write_all_bytes(sink, &page.bytes()[..held])?;
    page.clear();
    write_line(names, o, e, sink)
}
