//! The cycle: from the object of least number to the one of least number that it blocks, and so on,
//! until an object is met again.
ghost use Rattle.std.specs.Prelude.{◌≡◌, ◌<◌, IfOk, MatchOption, length, drop};
ghost use Rattle.geo_load.specs.Order.{BlocksOne, HasNot, IsAscending, IsCycle, IsLeastBlocked, IsStuck};
ghost use Rattle.geo_load.specs.Pairs.{Says};
ghost use Rattle.geo_load.specs.Walk.{IsAt};

use crate::pairs::PairAnswers;
use std::alloc::{AllocError, Global};

// The one of least number that the object blocks.
fn least_blocked(answers: &PairAnswers, left: &[u16], o: u16) -> u16
    requires ascending { IsAscending left.now }
    requires blocks { BlocksOne (Says answers.now) left.now o }
    ensures { IsLeastBlocked (Says answers.now) left.now o result }
{
    for u in left {
        if *u != o && answers.is_blocked(o, *u) {
            return *u;
        }
    }
    unreachable!()
}

// Where the object stands on the path.
fn position(path: &[u16], o: u16) -> Option<usize>
    ensures { MatchOption result (HasNot path.now o) (λ k. IsAt path.now k o) }
{
    for k in 0..path.len() {
        if path[k] == o {
            return Some(k);
        }
    }
    None
}

// The path from a position on.
fn tail(alloc: Global, path: &[u16], from: usize) -> Result<Vec<u16>, AllocError>
    requires { from < length path.now }
    ensures { IfOk result (λ v. v.items ≡ drop from path.now) }
{
    Vec::from_slice(alloc, &path[from..])
}

/// The cycle among objects each of which blocks another one. The walk takes a step for each object
/// at most.
pub fn find_cycle(
    alloc: Global,
    answers: &PairAnswers,
    left: &[u16],
) -> Result<Vec<u16>, AllocError>
    requires ascending { IsAscending left.now }
    requires stuck { IsStuck (Says answers.now) left.now }
    ensures { IfOk result (λ cycle. IsCycle (Says answers.now) left.now cycle.items) }
{
    let mut path = Vec::new(alloc);
    let mut last = left[0];
    'walking: loop {
        path.push(last)?;
        let next = least_blocked(answers, left, last);
        if let Some(k) = position(&path, next) {
            return tail(alloc, &path, k);
        }
        last = next;
    }
}
