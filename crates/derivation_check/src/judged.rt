//! Whether events are a valid derivation.

ghost use Rattle.std.specs.Prelude.{◌≡◌, ◌≤◌, ◌↔◌, IsTrue, IfOk};
ghost use Rattle.geo_conditions.specs.Conditions.{AllFit};
ghost use Rattle.derivation_check.specs.declared.progress.Checked.TheVariants as answers;
ghost use Rattle.derivation_check.specs.Trees.{IsValidTree};

use crate::checker::check;
use crate::fitting::all_fit;
use crate::progress::Checked;
use crate::tree::is_one_tree;
use derivation::Log;
use geo_base::MAX_DIMS;
use geo_conditions::{Cond, State};
use std::alloc::{AllocError, Global};

/// Whether the events are those of one tree that is valid on the first state, and name only what
/// exists there.
pub fn is_derivation<const K: usize>(
    alloc: Global,
    conditions: &[Cond],
    first: &State<K>,
    log: &Log,
) -> Result<bool, AllocError>
    requires k { K ≤ MAX_DIMS }
    requires fits { AllFit conditions.now first.now }
    ensures { IfOk result (λ yes. IsTrue yes
        ↔ IsValidTree K conditions.now first.now log.now.events) }
{
    let events = log.events();
    if !all_fit::<K>(events, first.objects()) || !is_one_tree(alloc, events)? {
        return Ok(false);
    }
    let answer = check(alloc, conditions, first, log)?;
    Ok(is_yes(answer))
}

// Whether the answer is yes.
fn is_yes(answer: Checked) -> bool
    ensures { IsTrue result ↔ answer ≡ answers.Yes }
{
    match answer {
        Checked::Yes => true,
        Checked::No(_) => false,
    }
}
