//! Whether a range in pieces has a number.

ghost use Rattle.std.specs.Prelude.{◌↔◌, IsTrue};
ghost use Rattle.problem_data.specs.Pieces.{IsInRange, IsInPieces};
ghost use Rattle.problem_data.specs.ProblemView.{range_data};

use problem_data::problem::{PiecesDef, RangeDef};
use problem_data::tree::Int;

fn is_in_range(range: &RangeDef, number: Int) -> bool
    ensures { IsTrue result ↔ IsInRange (range_data range.now) number.value }
{
    range.low <= number.value && number.value <= range.high
}

/// Whether some piece has the number.
pub fn is_in_pieces(pieces: &PiecesDef, number: Int) -> bool
    ensures { IsTrue result ↔ IsInPieces pieces.now number.value }
{
    for range in pieces.ranges() {
        if is_in_range(range, number) {
            return true;
        }
    }
    false
}
