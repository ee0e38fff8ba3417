//! The rounds: the first with all rules; then each rule is left out in turn, and stays out where
//! there is still no layout.

ghost use Rattle.std.specs.Prelude.{◌≡◌, ◌≤◌, ◌<◌, ◌-◌, ◌+◌, ◌++◌, IfOk, length};
ghost use Rattle.std.specs.List.{range_with_len};
ghost use Rattle.fewer_rules.specs.Fewer.{HasConditions};
ghost use Rattle.geo_core.specs.Cores.{ComesTo, Refutes, RoundEnds};
ghost use Rattle.geo_core.specs.Refusing.{Refuse};

use crate::rounds::{round_of, round_with};
use derivation::Log;
use geo_base::MAX_DIMS;
use geo_conditions::Layout;
use layout_search::Outcome;
use problem_data::problem::Problem;
use std::alloc::{AllocError, Global};

/// What the rounds come to.
#[derive(Drop)]
pub enum Core {
    /// The problem has this first layout.
    Found(Layout),
    /// The walk of a round goes on past the budget.
    Budget,
    /// The numbers of the rules left, from 1 in file order; for each a layout of the problem with
    /// the others, that of its own round; and a derivation under the conditions of the rules left.
    Left(Vec<u16>, Vec<Layout>, Log),
}

// The rules kept, and those from a number to the last.
fn rules_with(alloc: Global, kept: &[u16], from: u16, last: u16) -> Result<Vec<u16>, AllocError>
    requires few { last ≤ 100 }
    requires from { from ≤ last + 1 }
    ensures { IfOk result (λ v. v.items ≡ kept.now ++ range_with_len from ((last + 1) - from)) }
{
    let mut rules = Vec::from_slice(alloc, kept)?;
    for i in from..last + 1 {
        rules.push(i)?;
    }
    Ok(rules)
}

// How many rules the problem has.
fn count_rules(problem: &Problem) -> u16
    ensures is { result ≡ length problem.now.rules }
    ensures few { result ≤ 100 }
{
    problem.is_said();
    problem.rules().len() as u16
}

/// An irreducible part of the rules of a problem under which it has no layout, or its first layout,
/// where it has one.
///
/// A round is a search among the first `budget` members of a walk. The first one has all rules.
/// Behind it there is one for each rule in file order, without that rule and without those that
/// have left: where it finds no layout, the rule leaves. K is the number of dimensions.
pub fn find_core<const K: usize>(
    alloc: Global,
    problem: &Problem,
    budget: u64,
) -> Result<Core, AllocError>
    requires k { (0 < K) × (K ≤ MAX_DIMS) }
    requires dims { problem.now.dims ≡ K }
    requires grounds { HasConditions problem.now }
    ensures answer { IfOk result (ComesTo problem.now budget) }
    ensures refuse { IfOk result (Refuse problem.now) }
{
    match round_of::<K>(alloc, problem, budget)? {
        Outcome::Found(layout) => Ok(Core::Found(layout)),
        Outcome::OutOfBudget => Ok(Core::Budget),
        Outcome::Nothing(log) => leave_out::<K>(alloc, problem, budget, log),
    }
}

// The rounds behind the first.
fn leave_out<const K: usize>(
    alloc: Global,
    problem: &Problem,
    budget: u64,
    log: Log,
) -> Result<Core, AllocError>
    requires k { (0 < K) × (K ≤ MAX_DIMS) }
    requires dims { problem.now.dims ≡ K }
    requires grounds { HasConditions problem.now }
    requires ends { RoundEnds problem.now budget }
    requires refutes { Refutes problem.now log.events }
    ensures answer { IfOk result (ComesTo problem.now budget) }
    ensures refuse { IfOk result (Refuse problem.now) }
{
    problem.is_said();
    let count = count_rules(problem);
    let mut kept = Vec::new(alloc);
    let mut layouts = Vec::new(alloc);
    let mut log = log;
    'leaving: for i in 1..count + 1 {
        let others = rules_with(alloc, &kept, i + 1, count)?;
        match round_with::<K>(alloc, problem, &others, budget)? {
            Outcome::Found(layout) => {
                kept.push(i)?;
                layouts.push(layout)?;
            }
            Outcome::Nothing(shorter) => log = shorter,
            Outcome::OutOfBudget => return Ok(Core::Budget),
        }
    }
    Ok(Core::Left(kept, layouts, log))
}
