//! Which of many parts of a condition spared an object at a place last.

ghost use Rattle.std.specs.Prelude.{◌<◌, ◌≤◌, length, pos, IsTrue, ◌≤ℤ◌};
ghost use Rattle.geo_conditions.specs.Conditions.{FitsIn};
ghost use Rattle.indexical.specs.Free.{Spares};

use crate::spared::{MANY_PARTS, tree_spares};
use geo_base::MAX_DIMS;
use geo_conditions::{Cond, Conds, ObjId, State};
use std::cell::Cell;

// The greatest index that is remembered.
const LAST_INDEX: usize = 65_535;

// Whether there is a part at that index, of which one is enough, and it spares the object at that place.
fn part_spares_at<const K: usize>(
    n: i64,
    children: &Conds,
    i: usize,
    s: &State<K>,
    o: ObjId,
    place: u8,
) -> bool
    requires k { K ≤ MAX_DIMS }
    requires fits { FitsIn (Cond.AtLeast n children.now) s.now }
    requires one { n ≤ℤ pos 1 }
    requires object { o.0 < length s.now }
    ensures { IsTrue result → Spares (Cond.AtLeast n children.now) s.now o.0 place }
{
    let parts = children.as_slice();
    i < parts.len() && tree_spares(&parts[i], s, o, place)
}

// Whether one of the parts does. Its index is remembered.
fn any_spares_at<const K: usize>(
    n: i64,
    children: &Conds,
    s: &State<K>,
    o: ObjId,
    place: u8,
    last: &Cell<u16>,
) -> bool
    requires k { K ≤ MAX_DIMS }
    requires fits { FitsIn (Cond.AtLeast n children.now) s.now }
    requires one { n ≤ℤ pos 1 }
    requires object { o.0 < length s.now }
    ensures { IsTrue result → Spares (Cond.AtLeast n children.now) s.now o.0 place }
{
    for i in 0..children.len() {
        if part_spares_at(n, children, i, s, o, place) {
            last.set(i.min(LAST_INDEX) as u16);
            return true;
        }
    }
    false
}

/// Whether enough parts of the condition spare the object at that place. Where one of many is enough, the one that was enough last is
/// asked first. What is remembered of it promises nothing: it is asked before it is trusted.
pub fn tree_spares_by<const K: usize>(
    c: &Cond,
    s: &State<K>,
    o: ObjId,
    place: u8,
    last: &Cell<u16>,
) -> bool
    requires k { K ≤ MAX_DIMS }
    requires fits { FitsIn c.now s.now }
    requires object { o.0 < length s.now }
    ensures { IsTrue result → Spares c.now s.now o.0 place }
{
    match c {
        Cond::AtLeast(n, children) if *n <= 1 => {
            if children.len() >= MANY_PARTS {
                return part_spares_at(*n, children, usize::from(last.get()), s, o, place)
                    || any_spares_at(*n, children, s, o, place, last);
            }
            for child in children.as_slice() {
                if tree_spares_by(child, s, o, place, last) {
                    return true;
                }
            }
            false
        }
        _ => tree_spares(c, s, o, place),
    }
}
