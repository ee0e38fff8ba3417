//! The rounds.

ghost use Rattle.std.specs.Prelude.{◌≡◌, ◌<◌, ◌≤◌, IfOk};
ghost use Rattle.geo_best.specs.Rounds.{AreOwn, IsBest, IsSmallBest, PromisesLeast, ShowsBest};

use crate::one_round::{Round, Rounds, Turn, search_round};
use geo_base::MAX_DIMS;
use geo_conditions::Cond;
use problem_data::problem::Problem;
use std::alloc::{AllocError, Global};

/// The layout that ends first in the dimension `d`, from 0: by rounds, the first of which is the
/// search for the first layout of the problem under its own conditions, which are given. Behind a
/// round that found a layout with a box the next asks for one that ends before it: by the
/// conditions of the problem, and behind them one for each box, that it ends before. Each round has
/// the budget for itself. The rounds are over behind a layout without a box, and at one that finds
/// nothing or uses up its budget. The conditions of the last round are given back. K is the number
/// of dimensions.
pub fn find_best<const K: usize>(
    alloc: Global,
    problem: &Problem,
    conditions: Vec<Cond>,
    d: usize,
    budget: u64,
) -> Result<Rounds, AllocError>
    requires k { (0 < K) × (K ≤ MAX_DIMS) }
    requires dims { problem.now.dims ≡ K }
    requires d { d < K }
    requires own { AreOwn problem.now conditions.items }
    ensures rounds { IfOk result (λ r. IsBest problem.now d budget r.best) }
    ensures least { IfOk result (λ r. PromisesLeast problem.now d r.best) }
    ensures small { IfOk result (λ r. IsSmallBest r.best) }
    ensures shows { IfOk result (λ r. ShowsBest problem.now d r.conditions.items r.best) }
{
    let own = conditions.len();
    let mut round = Round {
        last: None,
        conditions,
    };
    'rounds: loop {
        match search_round::<K>(alloc, problem, own, round, d, budget)? {
            Turn::On(next) => round = next,
            Turn::Over(rounds) => return Ok(rounds),
        }
    }
}
