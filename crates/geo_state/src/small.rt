//! Whether the ends of a state are small enough for its trail.

ghost use Rattle.std.specs.Prelude.{ℕ, ◌<◌, ◌≤◌, ◌↔◌, IsTrue, length};
ghost use Rattle.geo_conditions.specs.Reach.{low, high};
ghost use Rattle.geo_state.specs.Trail.{HasSmallIntervals, IsSmallEnd};

use geo_base::MAX_DIMS;
use geo_conditions::{ObjId, State};

fn is_small_number(v: i64) -> bool
    ensures { IsTrue result ↔ IsSmallEnd v }
{
    -2_000_000 <= v && v <= 2_000_000
}

fn has_small_ends<const K: usize>(s: &State<K>, o: ObjId) -> bool
    requires k { K ≤ MAX_DIMS }
    requires object { o.0 < length s.now }
    ensures { IsTrue result
        ↔ ((d : ℕ) → IsSmallEnd (low s.now o.0 d) × IsSmallEnd (high s.now o.0 d)) }
{
    let _objects = s.objects();
    for d in 0..K {
        let v = s.interval(o, d);
        if !is_small_number(v.lo) || !is_small_number(v.hi) {
            return false;
        }
    }
    true
}

/// Whether each end of each interval lies in -2,000,000 to 2,000,000.
pub fn is_small<const K: usize>(s: &State<K>) -> bool
    requires k { K ≤ MAX_DIMS }
    ensures { IsTrue result ↔ HasSmallIntervals s.now }
{
    for i in 0..s.objects() {
        if !has_small_ends(s, ObjId(i as u16)) {
            return false;
        }
    }
    true
}
