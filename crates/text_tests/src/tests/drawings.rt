//! Layout texts that are read and drawn, by hand, and their first faults.

use geo_chan::{MemSink, PutFault};
use geo_tokens::fault::TextFault;
use layout_drawing::{draw, drawing};
use layout_text::read_layout;
use problem_text::read::read_problem;
use std::alloc::{AllocError, Global};
use std::test::Fail;

/// A problem, a layout text of it, and the drawing or the first fault.
type Row = (&'static [u8], &'static [u8], &'static [u8]);

/// Two objects of two cells on a line.
const LINE: &[u8] = b"geost 1 dims 1 shape s box 0 size 2 ; \
    object a as s at -9..9 ; object b as s at -9..9 ; end";

/// Single cells on a line, for a drawing of so many cells that it is large.
const LONG: &[u8] = b"geost 1 dims 1 shape u box 0 size 1 ; \
    object a as u at 0..1000000 ; object b as u at 0..1000000 ; end";

/// Single cells in the plane.
const WIDE: &[u8] = b"geost 1 dims 2 shape u box 0 0 size 1 1 ; \
    object a as u at 0..9999 0..9999 ; object b as u at 0..9999 0..9999 ; end";

/// Two boxes on a line, of which the second one also has a shape of two cells.
const TWO_BOXES: &[u8] = b"geost 1 dims 1 shape u box 0 size 1 ; shape w box 0 size 2 ; \
    object a as u at 0..9 ; object b as u, w at -5..5 ; end";

/// Two objects on a line, of which the second one may be absent.
const OPTIONAL: &[u8] = b"geost 2 dims 1 shape s box 0 size 2 ; \
    object a as s at 0..1 ; object b as s, absent at 0..1 ; end";

/// Two objects on a line, of which the first one may be absent.
const FIRST_OPTIONAL: &[u8] = b"geost 2 dims 1 shape s box 0 size 2 ; \
    object a as s, absent at 0..1 ; object b as s at 0..1 ; end";

const ROWS: &[Row] = &[
    // an absent object has no cells, and the others keep their signs; without cells there is no box
    (OPTIONAL, b"layout a as s at 0 b absent", b"box 0..1\naa\n"),
    (
        OPTIONAL,
        b"layout a as s at 0 b absent token 1,0/2,0",
        b"box 0..1\naa\n",
    ),
    (
        FIRST_OPTIONAL,
        b"layout a absent b as s at 1",
        b"box 1..2\nbb\n",
    ),
    (
        b"geost 2 dims 1 shape s box 0 size 2 ; object a as s, absent at 5..6 ; end",
        b"layout a absent",
        b"box -\n",
    ),
    // the word where the object has to be there, and a token with another origin
    (OPTIONAL, b"layout a absent b absent", b"At(109, Unknown)"),
    (
        OPTIONAL,
        b"layout a as s at 0 b absent token 1,0/2,1",
        b"At(128, Token)",
    ),
    (LINE, b"layout a as s at 0 b as s at 2", b"box 0..3\naabb\n"),
    (
        LINE,
        b"layout a as s at 4 b as s at -3",
        b"box -3..5\nbb.....aa\n",
    ),
    (LINE, b"layout a as s at 1 b as s at 1", b"box 1..2\n##\n"),
    (LINE, b"layout a as s at 1 b as s at 2", b"box 1..3\na#b\n"),
    // boxes of one object with a cell in common, and a hole
    (
        b"geost 1 dims 1 shape s box 0 size 2 box 1 size 2 box 5 size 1 ; object a as s at 0..4 ; end",
        b"layout a as s at 2",
        b"box 2..7\naaa..a\n",
    ),
    // the highest row first
    (
        b"geost 1 dims 2 shape flat box 0 0 size 2 1 ; shape tall box 0 0 size 1 2 ; \
        object a as flat, tall at 0..5 0..5 ; rule w : within 0..0 0..9 ; end",
        b"layout a as tall at 0 0",
        b"box 0..0 0..1\na\na\n",
    ),
    (
        b"geost 1 dims 2 shape l box 0 0 size 2 1 box 0 1 size 1 1 ; \
        object a as l at 0..9 0..9 ; object b as l at 0..9 0..9 ; end",
        b"layout a as l at 0 0 b as l at 1 1",
        b"box 0..2 0..2\n.b.\nabb\naa.\n",
    ),
    // layers upwards, the last dimension fastest
    (
        b"geost 1 dims 3 shape u box 0 0 0 size 1 1 1 ; shape v box 0 0 0 size 2 1 2 ; \
        object a as u at -9..9 -9..9 -9..9 ; object b as v at -9..9 -9..9 -9..9 ; end",
        b"layout a as u at 0 1 -1 b as v at 0 0 0",
        b"box 0..1 0..1 -1..1\nlayer -1\na.\n..\nlayer 0\n..\nbb\nlayer 1\n..\nbb\n",
    ),
    (
        b"geost 1 dims 4 shape u box 0 0 0 0 size 1 1 1 1 ; \
        object a as u at -9..9 -9..9 -9..9 -9..9 ; object b as u at -9..9 -9..9 -9..9 -9..9 ; end",
        b"layout a as u at 0 0 0 1 b as u at 0 0 1 -1",
        b"box 0..0 0..0 0..1 -1..1\n\
        layer 0 -1\n.\nlayer 0 0\n.\nlayer 0 1\na\nlayer 1 -1\nb\nlayer 1 0\n.\nlayer 1 1\n.\n",
    ),
    (b"geost 1 dims 3 end", b"layout token -", b"box -\n"),
    // 1,000,001 cells, 1,001,000 cells and 10^24 cells
    (LONG, b"layout a as u at 0 b as u at 1000000", b"large"),
    (WIDE, b"layout a as u at 0 0 b as u at 999 1000", b"large"),
    (
        b"geost 1 dims 4 shape u box 0 0 0 0 size 1000000 1000000 1000000 1000000 ; \
        object a as u at 0..0 0..0 0..0 0..0 ; end",
        b"layout a as u at 0 0 0 0",
        b"large",
    ),
    // 64 single cells on a line, each at its number: the signs begin again behind the digits
    (
        b"geost 1 dims 1 shape u box 0 size 1 ; object o0 as u at 0..99 ; object o1 as u at 1..99 ; \
        object o2 as u at 2..99 ; object o3 as u at 3..99 ; object o4 as u at 4..99 ; object o5 as \
        u at 5..99 ; object o6 as u at 6..99 ; object o7 as u at 7..99 ; object o8 as u at 8..99 ; \
        object o9 as u at 9..99 ; object o10 as u at 10..99 ; object o11 as u at 11..99 ; object \
        o12 as u at 12..99 ; object o13 as u at 13..99 ; object o14 as u at 14..99 ; object o15 as \
        u at 15..99 ; object o16 as u at 16..99 ; object o17 as u at 17..99 ; object o18 as u at \
        18..99 ; object o19 as u at 19..99 ; object o20 as u at 20..99 ; object o21 as u at 21..99 \
        ; object o22 as u at 22..99 ; object o23 as u at 23..99 ; object o24 as u at 24..99 ; \
        object o25 as u at 25..99 ; object o26 as u at 26..99 ; object o27 as u at 27..99 ; object \
        o28 as u at 28..99 ; object o29 as u at 29..99 ; object o30 as u at 30..99 ; object o31 as \
        u at 31..99 ; object o32 as u at 32..99 ; object o33 as u at 33..99 ; object o34 as u at \
        34..99 ; object o35 as u at 35..99 ; object o36 as u at 36..99 ; object o37 as u at 37..99 \
        ; object o38 as u at 38..99 ; object o39 as u at 39..99 ; object o40 as u at 40..99 ; \
        object o41 as u at 41..99 ; object o42 as u at 42..99 ; object o43 as u at 43..99 ; object \
        o44 as u at 44..99 ; object o45 as u at 45..99 ; object o46 as u at 46..99 ; object o47 as \
        u at 47..99 ; object o48 as u at 48..99 ; object o49 as u at 49..99 ; object o50 as u at \
        50..99 ; object o51 as u at 51..99 ; object o52 as u at 52..99 ; object o53 as u at 53..99 \
        ; object o54 as u at 54..99 ; object o55 as u at 55..99 ; object o56 as u at 56..99 ; \
        object o57 as u at 57..99 ; object o58 as u at 58..99 ; object o59 as u at 59..99 ; object \
        o60 as u at 60..99 ; object o61 as u at 61..99 ; object o62 as u at 62..99 ; object o63 as \
        u at 63..99 ; end",
        b"layout o0 as u at 0 o1 as u at 1 o2 as u at 2 o3 as u at 3 o4 as u at 4 o5 as u at 5 o6 as \
        u at 6 o7 as u at 7 o8 as u at 8 o9 as u at 9 o10 as u at 10 o11 as u at 11 o12 as u at 12 \
        o13 as u at 13 o14 as u at 14 o15 as u at 15 o16 as u at 16 o17 as u at 17 o18 as u at 18 \
        o19 as u at 19 o20 as u at 20 o21 as u at 21 o22 as u at 22 o23 as u at 23 o24 as u at 24 \
        o25 as u at 25 o26 as u at 26 o27 as u at 27 o28 as u at 28 o29 as u at 29 o30 as u at 30 \
        o31 as u at 31 o32 as u at 32 o33 as u at 33 o34 as u at 34 o35 as u at 35 o36 as u at 36 \
        o37 as u at 37 o38 as u at 38 o39 as u at 39 o40 as u at 40 o41 as u at 41 o42 as u at 42 \
        o43 as u at 43 o44 as u at 44 o45 as u at 45 o46 as u at 46 o47 as u at 47 o48 as u at 48 \
        o49 as u at 49 o50 as u at 50 o51 as u at 51 o52 as u at 52 o53 as u at 53 o54 as u at 54 \
        o55 as u at 55 o56 as u at 56 o57 as u at 57 o58 as u at 58 o59 as u at 59 o60 as u at 60 \
        o61 as u at 61 o62 as u at 62 o63 as u at 63",
        b"box 0..63\nabcdefghijklmnopqrstuvwxyzABCDEFGHIJKLMNOPQRSTUVWXYZ0123456789ab\n",
    ),
    // the first faults of layouts, of which the texts stand at the place 100
    (
        TWO_BOXES,
        b"layout\na as u at 3\nb as w at -5\ntoken 1,3/2,-5\n",
        b"box -5..3\nbb......a\n",
    ),
    (
        TWO_BOXES,
        b"layout a as u at 9 b as u at - 0",
        b"box 0..9\nb........a\n",
    ),
    (
        TWO_BOXES,
        b"layout\nb as u at 3\na as w at -5\n",
        b"At(107, Order)",
    ),
    (TWO_BOXES, b"layout\na as u at 3\n", b"At(119, Order)"),
    (
        TWO_BOXES,
        b"layout\na as u at 3\ntoken 1,3\n",
        b"At(119, Order)",
    ),
    (
        TWO_BOXES,
        b"layout\na as u at 3\nb as w at -5\nc as u at 0\n",
        b"At(132, Order)",
    ),
    (
        TWO_BOXES,
        b"layout\na as w at 3\nb as w at -5\n",
        b"At(112, Unknown)",
    ),
    (
        TWO_BOXES,
        b"layout\na as u at 10 4\nb as w at -5\n",
        b"At(117, Limit)",
    ),
    (
        TWO_BOXES,
        b"layout\na as u at 10\nb as w at -6\n",
        b"At(117, Range)",
    ),
    (
        TWO_BOXES,
        b"layout\na as u at 3\nb as w at -6\n",
        b"At(129, Range)",
    ),
    (
        TWO_BOXES,
        b"layout\na as u at 3\nb as w at -5\ntoken 1,3/2,5\n",
        b"At(132, Token)",
    ),
    (
        TWO_BOXES,
        b"layout\na as u at 3\nb as w at -5\ntoken -\n",
        b"At(132, Token)",
    ),
    (
        TWO_BOXES,
        b"layout\na as u at\nb as w at -5\n",
        b"At(117, Syntax)",
    ),
    // no object of version 1 may be absent; the word is no shape, and nothing stands behind it
    (
        TWO_BOXES,
        b"layout\na as u at 3\nb absent\n",
        b"At(121, Unknown)",
    ),
    (
        TWO_BOXES,
        b"layout\na as u at 3\nb as absent at 0\n",
        b"At(124, Syntax)",
    ),
    (
        TWO_BOXES,
        b"layout\na absent at 3\nb as w at -5\n",
        b"At(116, Syntax)",
    ),
    (TWO_BOXES, b"", b"At(100, Syntax)"),
    (TWO_BOXES, b"layout ?", b"At(107, Byte)"),
];

/// The drawing of a layout text at the place 100 of an input, or `large`.
fn drawn(alloc: Global, problem: &[u8], layout: &[u8]) -> Result<Vec<u8>, TextFault> {
    let problem = read_problem(alloc, problem)?;
    let layout = read_layout(alloc, &problem, layout, 100)?;
    match drawing(alloc, &problem, &layout)? {
        Some(text) => Ok(text),
        None => Ok(Vec::from_slice(alloc, b"large")?),
    }
}

/// The drawing, or the fault.
fn answer(alloc: Global, problem: &[u8], layout: &[u8]) -> Result<Vec<u8>, AllocError> {
    match drawn(alloc, problem, layout) {
        Ok(text) => Ok(text),
        Err(fault) => Ok(format!(in alloc; "{fault:?}")?.into_bytes()),
    }
}

/// Whether that is the drawing or the fault.
fn is_answer(
    alloc: Global,
    problem: &[u8],
    layout: &[u8],
    wanted: &[u8],
) -> Result<bool, AllocError> {
    Ok(answer(alloc, problem, layout)?.as_slice() == wanted)
}

/// The first layout text that has another drawing or fault than its row says.
fn wrong_layout(alloc: Global, rows: &'static [Row]) -> Result<Option<&'static [u8]>, AllocError> {
    for (problem, layout, wanted) in rows {
        if !is_answer(alloc, problem, layout, wanted)? {
            return Ok(Some(layout));
        }
    }
    Ok(None)
}

#[test]
fn layouts_are_read_and_drawn(rt: HostRuntime) -> Result<(), Fail> {
    let wrong = wrong_layout(rt.alloc(), ROWS)?;
    assert!(rt; wrong.is_none(), "{wrong:?}");
    Ok(())
}

/// A problem, a layout text of it, how many bytes the drawing has, its front and its end.
type Long = (
    &'static [u8],
    &'static [u8],
    usize,
    &'static [u8],
    &'static [u8],
);

/// What stands in front of about a million cells, and the last sign.
const LONG_ROWS: &[Long] = &[
    (
        LONG,
        b"layout a as u at 0 b as u at 999999",
        14 + 1_000_000 + 1,
        b"box 0..999999\na.........",
        b".........b\n",
    ),
    (
        WIDE,
        b"layout a as u at 0 0 b as u at 999 999",
        18 + 1_001_000,
        b"box 0..999 0..999\n.........",
        b".........\n",
    ),
];

/// Whether a drawing is so long, and begins and ends so.
fn is_drawing(drawing: &[u8], length: usize, front: &[u8], end: &[u8]) -> bool {
    drawing.len() == length && drawing.starts_with(front) && drawing.ends_with(end)
}

/// The first layout text that has another long drawing than its row says.
fn wrong_long_layout(
    alloc: Global,
    rows: &'static [Long],
) -> Result<Option<&'static [u8]>, TextFault> {
    for (problem, layout, length, front, end) in rows {
        if !is_drawing(&drawn(alloc, problem, layout)?, *length, front, end) {
            return Ok(Some(layout));
        }
    }
    Ok(None)
}

#[test]
fn a_million_cells_are_drawn(rt: HostRuntime) -> Result<(), Fail> {
    let wrong = wrong_long_layout(rt.alloc(), LONG_ROWS)?;
    assert!(rt; wrong.is_none(), "{wrong:?}");
    Ok(())
}

/// A sink that takes five bytes in a call and fails at the second one.
fn leaves_a_front(alloc: Global) -> Result<bool, TextFault> {
    let problem = read_problem(alloc, LINE)?;
    let layout = read_layout(alloc, &problem, b"layout a as s at 0 b as s at 2", 0)?;
    let mut sink = MemSink::new(alloc, 5, vec![in alloc; 2]?);
    let failed = matches!(
        draw(alloc, &problem, &layout, &mut sink),
        Err(PutFault::Failed)
    );
    Ok(failed && sink.bytes() == b"box 0".as_slice())
}

#[test]
fn a_fault_leaves_the_front_of_a_drawing(rt: HostRuntime) -> Result<(), Fail> {
    let is_right = leaves_a_front(rt.alloc())?;
    assert!(rt; is_right);
    Ok(())
}
