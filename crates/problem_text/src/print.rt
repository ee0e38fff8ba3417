//! The canonical text of a problem.
//!
//! Each statement is spelled as a list of lexemes, and shown on a line of its own.

pub mod line;
pub mod part;
pub mod statement;
pub mod text;

ghost use Rattle.geo_chan.specs.Written.{AppendsFront};
ghost use Rattle.geo_chan.specs.Causes.{PutCause};
ghost use Rattle.std.specs.Prelude.{◌≡◌, ◌≤◌, length, true, MatchResult, IsErrOf};
ghost use Rattle.std.specs.Io.KnownBytes.{Appends};
ghost use Rattle.problem_text.specs.Canonical.{problem_text};
ghost use Rattle.problem_data.specs.Accepted.{most_bytes};
ghost use Rattle.problem_text.specs.ReadBack.{IsSpelled, ReadsBack};

use geo_chan::{PutFault, Sink, write_all_bytes};
use problem_data::problem::Problem;
use std::alloc::Global;
use text::canonical_text;

/// Writes the canonical text of a problem. After a fault a front part of it was written, and
/// nothing where memory ran out and the sink itself needs none. The canonical text spells
/// statements without a fault that mean the same problem, places aside. So where it has at most
/// 1,048,576 bytes it is read back as that problem.
pub fn print_problem<W: Sink>(
    alloc: Global,
    problem: &Problem,
    sink: &mut W,
) -> Result<(), PutFault>
    ensures bytes { MatchResult result
        (λ _. Appends (W.written sink.old) (W.written sink.new) (problem_text problem.now))
        (λ _. AppendsFront (W.written sink.old) (W.written sink.new) (problem_text problem.now)) }
    ensures cause { PutCause (W.faults sink.old) (W.faults sink.new) result }
    ensures nothing { W.quiet sink.old ≡ true → IsErrOf result PutFault.Memory
        → W.written sink.new ≡ W.written sink.old }
    ensures quiet { W.quiet sink.old ≡ true → W.quiet sink.new ≡ true }
    ensures spelled { IsSpelled problem.now }
    ensures read_back { length (problem_text problem.now) ≤ most_bytes → ReadsBack problem.now }
{
    problem.is_said();
    let text = canonical_text(alloc, problem)?;
    write_all_bytes(sink, text.as_slice())
}
