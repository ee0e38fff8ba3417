//! Drawings, in memory and to a sink.

ghost use Rattle.std.specs.Prelude.{◌≡◌, IfOk, IsErrOf, List, MatchOption, OnErr, true, ℕ};
ghost use Rattle.std.specs.Io.KnownBytes.{Appends};
ghost use Rattle.geo_chan.specs.Causes.{PutCause};
ghost use Rattle.geo_chan.specs.Written.{AppendsFront};
ghost use Rattle.problem_data.specs.Cells.{IsShaped};
ghost use Rattle.layout_drawing.specs.Drawing.{IsDrawing, IsLarge};

use crate::blocks::blocks_of;
use crate::frame::{is_small, least_box};
use crate::picture::{push_box, push_picture};
use geo_chan::{PutFault, Sink, write_all_bytes};
use geo_conditions::Layout;
use problem_data::problem::Problem;
use std::alloc::{AllocError, Global};

/// What became of a drawing.
#[derive(Clone, Copy, Debug, PartialEq, Eq)]
pub enum Drawn {
    /// It was written.
    Done,
    /// It would have more than 1,000,000 cells. Nothing was written.
    Large,
}

/// The drawing of a tuple; none where the least box that holds all cells has more than 1,000,000
/// cells. It is what `draw` writes.
pub fn drawing(
    alloc: Global,
    problem: &Problem,
    layout: &Layout,
) -> Result<Option<Vec<u8>>, AllocError>
    requires layout { IsShaped problem.now layout.now }
    ensures { IfOk result (λ drawn. MatchOption drawn (IsLarge problem.now layout.now)
        (λ text. IsDrawing problem.now layout.now text.items)) }
{
    problem.is_said();
    let blocks = blocks_of(alloc, problem, layout)?;
    if blocks.is_empty() {
        return Ok(Some(Vec::from_slice(alloc, b"box -\n")?));
    }
    let spans = least_box(alloc, problem.dims(), blocks.as_slice())?;
    if !is_small(spans.as_slice()) {
        return Ok(None);
    }
    let mut text = Vec::new(alloc);
    push_box(spans.as_slice(), &mut text)?;
    push_picture(alloc, blocks.as_slice(), spans.as_slice(), &mut text)?;
    Ok(Some(text))
}

/// Writes the drawing of a tuple: the line of its box; for each combination of the coordinates from
/// x3 on a line `layer`; for each x2, from the highest to the lowest, a row with a sign for each
/// x1. A cell of no object is `.`, one of several is `#`; else it has the sign of its object, in
/// file order `a` to `z`, `A` to `Z`, `0` to `9` and then `a` again. After a fault a front part of
/// it was written, and nothing where memory ran out and the sink itself needs none.
pub fn draw<W: Sink>(
    alloc: Global,
    problem: &Problem,
    layout: &Layout,
    sink: &mut W,
) -> Result<Drawn, PutFault>
    requires layout { IsShaped problem.now layout.now }
    ensures done { result ≡ Ok Drawn.Done → (text : List ℕ)
        × IsDrawing problem.now layout.now text
        × Appends (W.written sink.old) (W.written sink.new) text }
    ensures large { result ≡ Ok Drawn.Large → IsLarge problem.now layout.now }
    ensures nothing { IsLarge problem.now layout.now → sink.new ≡ sink.old }
    ensures front { OnErr result ((text : List ℕ) → IsDrawing problem.now layout.now text
        → AppendsFront (W.written sink.old) (W.written sink.new) text) }
    ensures cause { PutCause (W.faults sink.old) (W.faults sink.new) result }
    ensures memory { W.quiet sink.old ≡ true → IsErrOf result PutFault.Memory
        → sink.new ≡ sink.old }
    ensures quiet { W.quiet sink.old ≡ true → W.quiet sink.new ≡ true }
{
    problem.is_said();
    match drawing(alloc, problem, layout)? {
        Some(text) => {
            write_all_bytes(sink, text.as_slice())?;
            Ok(Drawn::Done)
        }
        None => Ok(Drawn::Large),
    }
}
