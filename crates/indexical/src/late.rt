//! Conditions that are seen to be possible by one of their last parts.

ghost use Rattle.std.specs.Prelude.{◌≡◌, ◌<◌, ◌≤◌, length, true, pos, IsTrue, ◌≤ℤ◌};
ghost use Rattle.geo_conditions.specs.Reach.{with_at};
ghost use Rattle.geo_conditions.specs.Regions.{region_of};
ghost use Rattle.geo_conditions.specs.Conditions.{possible, FitsIn};

use crate::spared::MANY_PARTS;
use geo_base::{KBox, MAX_DIMS};
use geo_conditions::{Cond, Conds, ObjId, State, refuted_at};

/// So many of the last parts are looked at: of those that a condition can be met by, the ones on what stands earlier in the search
/// order come first, and are the first to be ruled out.
const LOOKS: usize = 4;

// Whether there is a part at that index, of which one is enough, and it is possible with the object at that place in the box.
#[inline(always)]
fn is_part_possible<const K: usize>(
    n: i64,
    children: &Conds,
    i: usize,
    s: &State<K>,
    o: ObjId,
    place: u8,
    b: &KBox<K>,
) -> bool
    requires k { K ≤ MAX_DIMS }
    requires fits { FitsIn (Cond.AtLeast n children.now) s.now }
    requires one { n ≤ℤ pos 1 }
    requires object { o.0 < length s.now }
    ensures { IsTrue result → possible (Cond.AtLeast n children.now)
        (with_at s.now o.0 place (region_of b.now)) ≡ true }
{
    let parts = children.as_slice();
    i < parts.len() && !refuted_at(&parts[i], s, o, place, b)
}

// Whether one of the last parts is.
fn is_late_part_possible<const K: usize>(
    n: i64,
    children: &Conds,
    s: &State<K>,
    o: ObjId,
    place: u8,
    b: &KBox<K>,
) -> bool
    requires k { K ≤ MAX_DIMS }
    requires fits { FitsIn (Cond.AtLeast n children.now) s.now }
    requires one { n ≤ℤ pos 1 }
    requires object { o.0 < length s.now }
    ensures { IsTrue result → possible (Cond.AtLeast n children.now)
        (with_at s.now o.0 place (region_of b.now)) ≡ true }
{
    let count = children.len();
    for i in (count.saturating_sub(LOOKS)..count).rev() {
        if is_part_possible(n, children, i, s, o, place, b) {
            return true;
        }
    }
    false
}

/// Whether the condition is seen to be possible, with the object at that place in the box, by one of its last parts. It is told where
/// one of many parts is enough, and is false for each other condition.
pub fn is_found_possible<const K: usize>(
    cond: &Cond,
    s: &State<K>,
    o: ObjId,
    place: u8,
    b: &KBox<K>,
) -> bool
    requires k { K ≤ MAX_DIMS }
    requires fits { FitsIn cond.now s.now }
    requires object { o.0 < length s.now }
    ensures { IsTrue result → possible cond.now
        (with_at s.now o.0 place (region_of b.now)) ≡ true }
{
    match cond {
        Cond::AtLeast(n, children) if *n <= 1 => {
            if children.len() >= MANY_PARTS {
                return is_late_part_possible(*n, children, s, o, place, b);
            }
            for child in children.as_slice() {
                if is_found_possible(child, s, o, place, b) {
                    return true;
                }
            }
            false
        }
        _ => false,
    }
}
