//! One round: a search over a problem, or over one with some of its rules alone.

ghost use Rattle.std.specs.Prelude.{◌≡◌, ◌≤◌, ◌<◌, IfOk};
ghost use Rattle.fewer_rules.specs.Fewer.{HasConditions};
ghost use Rattle.geo_core.specs.Cores.{AreConditions, HasEnded};
ghost use Rattle.problem_data.specs.SomeRules.{AreRules, with_rules};

use derivation::Log;
use fewer_rules::some_rules_ground;
use geo_base::MAX_DIMS;
use geo_conditions::Cond;
use geo_tokens::fault::TextFault;
use layout_search::{Outcome, first_solution};
use problem_data::problem::{Problem, with_rules};
use rule_ground::conditions_are_meant;
use rule_ground::ground::ground;
use std::alloc::{AllocError, Global};

/// The conditions of a problem without a fault.
pub fn conditions_of(alloc: Global, problem: &Problem) -> Result<Vec<Cond>, AllocError>
    requires { HasConditions problem.now }
    ensures { IfOk result (λ v. AreConditions problem.now v.items) }
{
    match ground(alloc, problem) {
        Ok(conditions) => Ok(conditions),
        Err(TextFault::Memory) => Err(AllocError),
        Err(TextFault::At(_place, _word)) => unreachable!(),
    }
}

// A search for the first layout of a problem, among so many members of its walk.
pub fn round_of<const K: usize>(
    alloc: Global,
    problem: &Problem,
    budget: u64,
) -> Result<Outcome<Log>, AllocError>
    requires k { (0 < K) × (K ≤ MAX_DIMS) }
    requires dims { problem.now.dims ≡ K }
    requires grounds { HasConditions problem.now }
    ensures { IfOk result (HasEnded problem.now budget) }
{
    problem.is_said();
    conditions_are_meant(problem);
    let conditions = conditions_of(alloc, problem)?;
    let searched = first_solution::<K>(alloc, problem, conditions, budget)?;
    Ok(searched.outcome)
}

// The same over the problem with the rules of these numbers alone.
pub fn round_with<const K: usize>(
    alloc: Global,
    problem: &Problem,
    keep: &[u16],
    budget: u64,
) -> Result<Outcome<Log>, AllocError>
    requires k { (0 < K) × (K ≤ MAX_DIMS) }
    requires dims { problem.now.dims ≡ K }
    requires grounds { HasConditions problem.now }
    requires rules { AreRules problem.now keep.now }
    ensures { IfOk result (HasEnded (with_rules problem.now keep.now) budget) }
{
    some_rules_ground();
    let part = with_rules(alloc, problem, keep)?;
    round_of::<K>(alloc, &part, budget)
}
