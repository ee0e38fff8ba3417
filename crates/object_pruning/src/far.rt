//! What lies too far apart for a condition to be refuted.

ghost use Rattle.std.specs.Prelude.{◌≡◌, ◌<◌, ◌≤◌, ℤ, ◌+ℤ◌, ◌≤ℤ◌, ◌<ℤ◌, length, IfSome, IsTrue, MatchOption};
ghost use Rattle.geo_conditions.specs.Regions.{region_of};
ghost use Rattle.geo_state.specs.Trail.{HasSmallIntervals, IsSmallEnd};
ghost use Rattle.object_pruning.specs.Limits.{IsInReach};
ghost use Rattle.object_pruning.specs.Near.{IsFar};

use crate::near::Near;
use crate::rows::Run;
use geo_base::{Interval, KBox, MAX_DIMS};
use geo_conditions::{ObjId, State};

// Whether one number is below another one.
#[inline(always)]
fn is_below(a: i64, b: i64) -> bool
    ensures { IsTrue result → a <ℤ b }
{
    a < b
}

// Whether no number from `low` to `high` is near the interval: less than `behind` behind its start,
// with its end less than `ahead` behind the number.
#[inline(always)]
fn is_apart(held: Interval, ahead: i64, behind: i64, low: i64, high: i64) -> bool
    requires ends { IsSmallEnd held.lo × IsSmallEnd held.hi }
    requires reach { IsInReach ahead × IsInReach behind }
    ensures { IsTrue result → (v : ℤ) → low ≤ℤ v → v ≤ℤ high
        → held.hi <ℤ (v +ℤ ahead) → v <ℤ (held.lo +ℤ behind) → ⊥ }
{
    let first = held.hi - ahead + 1;
    let last = held.lo + behind - 1;
    if is_below(last, first) {
        return true;
    }
    if is_below(high, first) {
        return true;
    }
    is_below(last, low)
}

// Whether u is nowhere near the region.
#[inline(always)]
fn is_far<const K: usize>(s: &State<K>, u: ObjId, near: &Near, region: &KBox<K>) -> bool
    requires k { K ≤ MAX_DIMS }
    requires object { u.0 < length s.now }
    requires small { HasSmallIntervals s.now }
    ensures { IsTrue result → IsFar K s.now u.0 near.now (region_of region.now) }
{
    for d in 0..K {
        let held = s.interval(u, d);
        let ahead = near.ahead.get(d);
        let behind = near.behind.get(d);
        if is_apart(held, ahead, behind, region.lo.get(d), region.hi.get(d)) {
            return true;
        }
    }
    false
}

/// Whether the other object of a run is nowhere near the region, as far as it is known how near it
/// has to be.
#[inline(always)]
pub fn is_run_far<const K: usize>(
    s: &State<K>,
    run: &Run,
    near: Option<&Near>,
    region: &KBox<K>,
) -> bool
    requires k { K ≤ MAX_DIMS }
    requires other { IfSome run.now.other (λ u. u.0 < length s.now) }
    requires small { HasSmallIntervals s.now }
    ensures { IsTrue result → MatchOption run.now.other ⊥ (λ u. MatchOption near.entry ⊥ (λ n.
        IsFar K s.now u.0 n.now (region_of region.now))) }
{
    match run.other {
        Some(u) => match near {
            Some(near) => is_far(s, u, near, region),
            None => false,
        },
        None => false,
    }
}
