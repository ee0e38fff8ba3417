//! The check of a derivation behind a problem. Its text is taken in pieces, and one of them is held
//! at a time.

ghost use Rattle.std.specs.Prelude.{◌≡◌, ◌⊎◌, ◌+◌, ◌^◌, ◌<◌, ◌≤◌, ℕ, List, [], ◌++◌, IfOk, length, take, true};
ghost use Rattle.std.specs.Io.KnownBytes.{Consumes, IsAtEnd};
ghost use Rattle.geo_conditions.specs.Conditions.{AllFit};
ghost use Rattle.geo_conditions.specs.Reach.{Reach};
ghost use Rattle.rule_ground.specs.Start.{first_state};
ghost use Rattle.stream_check.specs.Streaming.{IsChecking};
ghost use Rattle.command_input.specs.Reading.{ReadCause, TakesAtMost};
ghost use Rattle.check_commands.specs.Checks.{FindsBehind, Follows, HasEnded, bytes_behind};

use crate::front::SecondText;
use command_input::{ReadFault, taken};
use derivation_check::Checked;
use geo_base::MAX_DIMS;
use geo_chan::Source;
use geo_conditions::Cond;
use geo_tokens::fault::TextFault;
use layout_search::in_dimensions;
use problem_data::problem::Problem;
use problem_text::names::names;
use rule_ground::start::start_state;
use std::alloc::Global;
use stream_check::StreamCheck;

// How many bytes of a derivation are taken at once.
const PIECE: usize = 4096;

/// Whether the text behind a problem is a derivation that is valid under these conditions, else its
/// first node that is not, or the first fault of the text.
pub fn check_second<S: Source>(
    alloc: Global,
    problem: &Problem,
    conditions: &[Cond],
    second: &SecondText,
    source: &mut S,
) -> Result<Result<Checked, TextFault>, ReadFault>
    requires fit { AllFit conditions.now (first_state problem.now) }
    requires place { second.now.place ≤ 2 ^ 62 }
    requires inside { second.now.place ≤ length second.now.read.items }
    ensures answer { IfOk result
        (FindsBehind problem.now conditions.now second.now (S.left source.old)) }
    ensures most { TakesAtMost (2 ^ 40 + 4096) (S.left source.old) (S.left source.new) }
    ensures counted { S.taken source.new ≤ S.taken source.old + (2 ^ 40 + 4096) }
    ensures cause { ReadCause (S.faults source.old) (S.faults source.new) result }
{
    problem.is_said();
    in_dimensions!(
        problem.dims(),
        check_in::<S>(alloc, problem, conditions, second, source)
    )
}

// The same, where K is the number of dimensions.
fn check_in<const K: usize, S: Source>(
    alloc: Global,
    problem: &Problem,
    conditions: &[Cond],
    second: &SecondText,
    source: &mut S,
) -> Result<Result<Checked, TextFault>, ReadFault>
    requires k { (0 < K) × (K ≤ MAX_DIMS) }
    requires dims { problem.now.dims ≡ K }
    requires fit { AllFit conditions.now (first_state problem.now) }
    requires place { second.now.place ≤ 2 ^ 62 }
    requires inside { second.now.place ≤ length second.now.read.items }
    ensures answer { IfOk result
        (FindsBehind problem.now conditions.now second.now (S.left source.old)) }
    ensures most { TakesAtMost (2 ^ 40 + 4096) (S.left source.old) (S.left source.new) }
    ensures counted { S.taken source.new ≤ S.taken source.old + (2 ^ 40 + 4096) }
    ensures cause { ReadCause (S.faults source.old) (S.faults source.new) result }
{
    problem.is_said();
    let names = names(alloc, problem)?;
    let first = start_state::<K>(alloc, problem)?;
    let place = second.place as u64;
    let mut check = StreamCheck::start(alloc, &names, place, conditions, first);
    match give_text(&mut check, second, source)? {
        Ok(()) => Ok(Ok(check.verdict())),
        Err(fault) => Ok(Err(fault)),
    }
}

// Gives the check the text, up to its word `qed` or its end, and says whether it is a derivation.
fn give_text<const K: usize, S: Source>(
    check: &mut StreamCheck<K>,
    text: &SecondText,
    source: &mut S,
) -> Result<Result<(), TextFault>, ReadFault>
    requires k { K ≤ MAX_DIMS }
    requires inside { text.now.place ≤ length text.now.read.items }
    requires fresh { (first : List Reach)
        × IsChecking first K check.old.feeder check.old.checker check.old.log [] [] }
    ensures ended { IfOk result (λ end. (first : List Reach)
        → IsChecking first K check.old.feeder check.old.checker check.old.log [] []
        → (more : List ℕ) × Follows text.now.is_whole (S.left source.old) more
        × HasEnded first K check.old.feeder check.new.checker end
        (bytes_behind text.now ++ more)) }
    ensures conditions { check.new.checker.conds ≡ check.old.checker.conds }
    ensures most { TakesAtMost (2 ^ 40 + 4096) (S.left source.old) (S.left source.new) }
    ensures counted { S.taken source.new ≤ S.taken source.old + (2 ^ 40 + 4096) }
    ensures cause { ReadCause (S.faults source.old) (S.faults source.new) result }
{
    let mut piece = [0; PIECE];
    let mut progress = check.take(text.bytes());
    'giving: while let Ok(false) = progress {
        let count = next_piece(source, text.is_whole, &mut piece)?;
        if count == 0 {
            return Ok(check.finish());
        }
        progress = check.take(&piece[..count]);
    }
    match progress {
        Ok(_) => Ok(Ok(())),
        Err(fault) => Ok(Err(fault)),
    }
}

// Takes the next bytes of a text, none where those before were all.
fn next_piece<S: Source>(
    source: &mut S,
    is_whole: bool,
    piece: &mut [u8],
) -> Result<usize, ReadFault>
    ensures bound { IfOk result (λ n. n ≤ length piece.new) }
    ensures bytes { IfOk result (λ n.
        Consumes (S.left source.old) (S.left source.new) (take n piece.new)) }
    ensures end { IfOk result (λ n. n ≡ 0 → 0 < length piece.new
        → (is_whole ≡ true) ⊎ IsAtEnd (S.left source.new)) }
    ensures none { IfOk result (λ n. is_whole ≡ true → n ≡ 0) }
    ensures kept { TakesAtMost (length piece.old) (S.left source.old) (S.left source.new) }
    ensures counted { S.taken source.new ≤ S.taken source.old + length piece.old }
    ensures few { IfOk result (λ n. S.taken source.new ≤ S.taken source.old + n) }
    ensures size { length piece.new ≡ length piece.old }
    ensures cause { ReadCause (S.faults source.old) (S.faults source.new) result }
{
    if is_whole {
        return Ok(0);
    }
    taken(source.take(piece))
}
