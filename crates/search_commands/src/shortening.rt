//! A shorter derivation in place of the one that a search has recorded.

ghost use Rattle.std.specs.Prelude.{◌≡◌, ◌≤◌, IfOk};
ghost use Rattle.geo_base.specs.declared.TheConstants.{MAX_DIMS};
ghost use Rattle.geo_conditions.specs.Conditions.{AllFit};
ghost use Rattle.problem_text.specs.NameTable.{name_table};
ghost use Rattle.rule_ground.specs.Start.{first_state};
ghost use Rattle.search_commands.specs.First.{ShowsNone};

use derivation::Log;
use derivation_check::is_derivation;
use derivation_trim::shortened;
use geo_conditions::Cond;
use geo_tokens::names::Names;
use layout_search::in_dimensions;
use printed_derivation::is_printable;
use problem_data::problem::Problem;
use rule_ground::start::start_state;
use std::alloc::{AllocError, Global};

/// A derivation under these conditions that shows that none of the problem's tuples satisfies them:
/// the given one, or a shorter one where one is found that was checked. The error is want of
/// memory.
pub fn shorter(
    alloc: Global,
    problem: &Problem,
    conditions: &[Cond],
    names: &Names,
    log: Log,
) -> Result<Log, AllocError>
    requires fits { AllFit conditions.now (first_state problem.now) }
    requires shows { ShowsNone problem.now conditions.now log.events }
    requires names { names.now ≡ name_table problem.now }
    ensures { IfOk result (λ other. ShowsNone problem.now conditions.now other.events) }
{
    problem.is_said();
    in_dimensions!(
        problem.dims(),
        shorter_in::<>(alloc, problem, conditions, names, log)
    )
}

// The same, where K is the number of dimensions.
fn shorter_in<const K: usize>(
    alloc: Global,
    problem: &Problem,
    conditions: &[Cond],
    names: &Names,
    log: Log,
) -> Result<Log, AllocError>
    requires k { K ≤ MAX_DIMS }
    requires dims { problem.now.dims ≡ K }
    requires fits { AllFit conditions.now (first_state problem.now) }
    requires shows { ShowsNone problem.now conditions.now log.events }
    requires names { names.now ≡ name_table problem.now }
    ensures { IfOk result (λ other. ShowsNone problem.now conditions.now other.events) }
{
    let first = start_state::<K>(alloc, problem)?;
    let other = shortened(alloc, conditions, &first, &log)?;
    if is_derivation(alloc, conditions, &first, &other)? && is_printable(names, other.events()) {
        Ok(other)
    } else {
        Ok(log)
    }
}
