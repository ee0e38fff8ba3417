//! One round: what it makes of the last layout found.

ghost use Rattle.std.specs.Prelude.{◌≡◌, ◌<◌, ◌≤◌, IfOk, length, take};
ghost use Rattle.extent_caps.specs.Capped.{AddsCaps, IsCapEnd};
ghost use Rattle.geo_best.specs.Turns.{IsRound, Turns, stopped};

use crate::Extent;
use derivation::Log;
use extent_caps::{end_of, push_caps};
use geo_base::MAX_DIMS;
use geo_conditions::{Cond, Layout};
use layout_search::{Outcome, Searched, first_solution};
use problem_data::problem::Problem;
use std::alloc::{AllocError, Global};

/// What the rounds come to.
#[derive(Drop)]
pub enum Best {
    /// There is no layout, as this record of the first round shows.
    Refused(Log),
    /// A round used up its budget.
    Budget,
    /// A layout without a box: it ends before every other one.
    Bare(Layout),
    /// The least number that a layout ends by, the first layout that does, and what shows that none
    /// ends before.
    Least(i64, Layout, Log),
}

/// What the rounds come to, and the conditions of the last one.
#[derive(Drop)]
pub struct Rounds {
    pub best: Best,
    pub conditions: Vec<Cond>,
}

// Where the rounds are: the last layout found, and the conditions of the next round.
#[derive(Drop)]
pub struct Round {
    pub last: Option<Extent>,
    pub conditions: Vec<Cond>,
}

// What a round leads to: another round, or the end.
#[derive(Drop)]
pub enum Turn {
    On(Round),
    Over(Rounds),
}

// One round; `own` is how many conditions the problem has without caps.
pub fn search_round<const K: usize>(
    alloc: Global,
    problem: &Problem,
    own: usize,
    round: Round,
    d: usize,
    budget: u64,
) -> Result<Turn, AllocError>
    requires k { (0 < K) × (K ≤ MAX_DIMS) }
    requires dims { problem.now.dims ≡ K }
    requires d { d < K }
    requires round { IsRound problem.now d budget own round }
    ensures { IfOk result (Turns problem.now d budget own round) }
{
    problem.is_said();
    let Round { last, conditions } = round;
    let Searched {
        outcome,
        conditions,
    } = first_solution::<K>(alloc, problem, conditions, budget)?;
    match outcome {
        Outcome::Found(layout) => match end_of(problem, &layout, d) {
            Some(end) => {
                let conditions = capped(alloc, problem, own, conditions, d, end - 1)?;
                let last = Some(Extent { end, layout });
                Ok(Turn::On(Round { last, conditions }))
            }
            None => Ok(Turn::Over(Rounds {
                best: Best::Bare(layout),
                conditions,
            })),
        },
        Outcome::Nothing(log) => Ok(Turn::Over(Rounds {
            best: stopped(last, log),
            conditions,
        })),
        Outcome::OutOfBudget => Ok(Turn::Over(Rounds {
            best: Best::Budget,
            conditions,
        })),
    }
}

// The first `own` of these conditions, and behind them the caps at `e`.
fn capped(
    alloc: Global,
    problem: &Problem,
    own: usize,
    conditions: Vec<Cond>,
    d: usize,
    e: i64,
) -> Result<Vec<Cond>, AllocError>
    requires own { own ≤ length conditions.items }
    requires d { d < problem.now.dims }
    requires e { IsCapEnd e }
    ensures { IfOk result (λ v.
        AddsCaps problem.now d e (take own conditions.items) v.items) }
{
    let mut conditions = conditions;
    conditions.truncate(own);
    push_caps(alloc, problem, d, e, &mut conditions)?;
    Ok(conditions)
}

// What the rounds come to at one that finds nothing.
fn stopped(last: Option<Extent>, log: Log) -> Best
    ensures { result ≡ stopped last log }
{
    match last {
        None => Best::Refused(log),
        Some(extent) => {
            let Extent { end, layout } = extent;
            Best::Least(end, layout, log)
        }
    }
}
