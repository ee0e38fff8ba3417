//! Faults of the ranges of an object, each by its pieces.

ghost use Rattle.std.specs.Prelude.{◌≡◌, ◌↔◌, ◌+ℤ◌, ◌≤ℤ◌, pos, map, IsTrue};
ghost use Rattle.problem_data.specs.View.{pieces_view};
ghost use Rattle.problem_data.specs.Least.{IsLeast};
ghost use Rattle.problem_data.specs.Faults.{first_place, pieces_place, IsTooNear, TooNear, PieceFault, PiecesFault, OriginFault};

use crate::each::{FindFault, each_fault};
use crate::numbers::{first_range, miscount, range_fault};
use geo_tokens::fault::FaultWord;
use problem_data::fault::{Fault, earlier, fault_if};
use problem_data::tree::{PiecesText, RangeText};

/// How many pieces a range may have.
const MOST_PIECES: usize = 8;

/// Whether the second number is at most one above the first.
fn is_near(high: i64, low: i64) -> bool
    ensures { IsTrue result ↔ (low ≤ℤ (high +ℤ pos 1)) }
{
    low <= high || low - 1 == high
}

/// Whether the piece leaves out no number behind the last of those before it.
fn is_too_near(before: &[RangeText], piece: &RangeText) -> bool
    ensures { IsTrue result ↔ IsTooNear before.now piece.now }
{
    match before.last() {
        Some(last) => is_near(last.high.value, piece.low.value),
        None => false,
    }
}

fn near_fault(before: &[RangeText], piece: &RangeText) -> Option<Fault>
    ensures { IsLeast (TooNear before.now piece.now) result }
{
    let near = is_too_near(before, piece);
    fault_if(near, piece.low.place, FaultWord::Range)
}

/// The first fault of a piece that has these before it.
fn piece_fault(before: &[RangeText], piece: &RangeText) -> Option<Fault>
    ensures { IsLeast (PieceFault before.now piece.now) result }
{
    let past = fault_if(
        before.len() >= MOST_PIECES,
        piece.low.place,
        FaultWord::Limit,
    );
    let range = range_fault(piece);
    let near = near_fault(before, piece);
    let others = earlier(range, near);
    earlier(past, others)
}

fn pieces_fault(pieces: &[RangeText]) -> Option<Fault>
    ensures { IsLeast (PiecesFault pieces.now) result }
{
    let mut found = None;
    for (i, piece) in pieces.iter().enumerate() {
        let here = piece_fault(&pieces[..i], piece);
        found = earlier(found, here);
    }
    found
}

// Finds the first fault of a range by its pieces.
#[derive(Clone, Copy)]
struct Pieces;

impl FindFault<PiecesText> for Pieces {
    ghost IsFaultOf = { λ _ p. PiecesFault (pieces_view p) };

    fn fault_of(&self, item: &PiecesText) -> Option<Fault> {
        pieces_fault(item.ranges.as_slice())
    }
}

/// The place of the first piece of the first range, and 0 where there is none.
fn first_piece(ranges: &[PiecesText]) -> u64
    ensures { result ≡ first_place pieces_place (map pieces_view ranges.now) }
{
    match ranges {
        [first, ..] => first_range(first.ranges.as_slice()),
        [] => 0,
    }
}

/// The first fault of the ranges of an object.
pub fn origin_fault(k: usize, ranges: &[PiecesText]) -> Option<Fault>
    ensures { IsLeast (OriginFault k (map pieces_view ranges.now)) result }
{
    let count = miscount(k, ranges.len(), first_piece(ranges));
    let each = each_fault(&Pieces, ranges);
    earlier(count, each)
}
