//! Shorter derivations.

ghost use Rattle.std.specs.Prelude.{◌≤◌, IfOk, length};

use crate::joins::join_ends;
use crate::needed::{copied, drop_needless};
use crate::walk::with_simpler_covers;
use derivation::Log;
use geo_base::MAX_DIMS;
use geo_conditions::{Cond, State};
use std::alloc::{AllocError, Global};

/// Events that are to show the same of the first state as those of the record, and are no more than
/// they are. Whether they do is asked of `is_derivation`.
pub fn shortened<const K: usize>(
    alloc: Global,
    conditions: &[Cond],
    first: &State<K>,
    log: &Log,
) -> Result<Log, AllocError>
    requires { K ≤ MAX_DIMS }
    ensures { IfOk result (λ shorter. length shorter.events ≤ length log.now.events) }
{
    let mut shorter = with_simpler_covers(alloc, conditions, first, log.events())?;
    drop_needless::<K>(alloc, conditions, &mut shorter)?;
    join_ends(&mut shorter);
    if shorter.events().len() <= log.events().len() {
        Ok(shorter)
    } else {
        copied(alloc, log.events())
    }
}
