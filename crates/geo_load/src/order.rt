//! The order: the object of least number that blocks no other one left comes next.
//!
//! What blocks none of those left may come first in every free order of them, so the order is free
//! and the least one; and where each one left blocks another one, no free order exists.
ghost use Rattle.std.specs.Prelude.{◌≡◌, ◌<◌, ℕ, IfOk, MatchOption, length, slice_index_or};
ghost use Rattle.std.specs.Bool.{OnTrue, OnFalse};
ghost use Rattle.problem_data.specs.Cells.{IsShaped};
ghost use Rattle.geo_load.specs.Blocks.{Blocks, present};
ghost use Rattle.geo_load.specs.Order.{BlocksOne, IsAscending, IsClear, IsLoading, Promises};
ghost use Rattle.geo_load.specs.Pairs.{Says};

use crate::list::ObjList;
use crate::pairs::PairAnswers;
use crate::present::present_objects;
use crate::walk::find_cycle;
use geo_conditions::Layout;
use problem_data::problem::Problem;
use std::alloc::{AllocError, Global};

/// What comes of loading.
#[derive(Drop)]
pub enum Loading {
    /// All objects that are present, as they come in.
    Order(ObjList),
    /// Each of these blocks the next one, and the last one the first.
    Cycle(ObjList),
}

// Whether the object blocks no other one of these.
fn is_clear(answers: &PairAnswers, left: &[u16], o: u16) -> bool
    ensures yes { OnTrue result (IsClear (Says answers.now) left.now o) }
    ensures no { OnFalse result (BlocksOne (Says answers.now) left.now o) }
{
    for u in left {
        if *u != o && answers.is_blocked(o, *u) {
            return false;
        }
    }
    true
}

// The position of the first one that blocks no other one.
fn first_clear(answers: &PairAnswers, left: &[u16]) -> Option<usize>
    ensures { MatchOption result
        ((k d : ℕ) → k < length left.now
        → BlocksOne (Says answers.now) left.now (slice_index_or left.now k d))
        (λ i. (i < length left.now)
        × ((d : ℕ) → IsClear (Says answers.now) left.now (slice_index_or left.now i d))
        × ((k d : ℕ) → k < i
        → BlocksOne (Says answers.now) left.now (slice_index_or left.now k d))) }
{
    for i in 0..left.len() {
        if is_clear(answers, left, left[i]) {
            return Some(i);
        }
    }
    None
}

// The order in which these objects come in, or a cycle among those left.
fn loading_of(
    alloc: Global,
    answers: &PairAnswers,
    objects: Vec<u16>,
) -> Result<Loading, AllocError>
    requires { IsAscending objects.items }
    ensures { IfOk result (IsLoading (Says answers.now) objects.items) }
{
    let mut left = objects;
    let mut order = Vec::new(alloc);
    'loading: while !left.is_empty() {
        match first_clear(answers, &left) {
            Some(i) => {
                let o = left.remove(i);
                order.push(o)?;
            }
            None => {
                let cycle = find_cycle(alloc, answers, &left)?;
                return Ok(Loading::Cycle(ObjList::new(cycle)));
            }
        }
    }
    Ok(Loading::Order(ObjList::new(order)))
}

/// In which order the objects that are present come in along the dimension `d` from its high side:
/// the one of least number that blocks no other one left comes next. Where each one left blocks
/// another one, a cycle of them: the walk begins with the least one left and goes on to the least
/// one that it blocks; the cycle begins with the first one that is met again.
pub fn load(
    alloc: Global,
    problem: &Problem,
    layout: &Layout,
    d: usize,
) -> Result<Loading, AllocError>
    requires layout { IsShaped problem.now layout.now }
    requires d { d < problem.now.dims }
    ensures loading { IfOk result
        (IsLoading (Blocks problem.now layout.now d) (present problem.now layout.now)) }
    ensures promises { IfOk result
        (Promises (Blocks problem.now layout.now d) (present problem.now layout.now)) }
{
    let answers = PairAnswers::ask(alloc, problem, layout, d)?;
    let objects = present_objects(alloc, problem, layout)?;
    loading_of(alloc, &answers, objects)
}
