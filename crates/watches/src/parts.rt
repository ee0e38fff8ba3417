//! Parts of a condition of which one is enough, and the objects that they name.

ghost use Rattle.std.specs.Prelude.{◌≢◌, ◌<◌, ◌≤◌, IfSome};
ghost use Rattle.geo_conditions.specs.Conditions.{FitsIn};
ghost use Rattle.watches.specs.Rests.{IsPart, NamesOnly, RestsOn};

use crate::beside::beside;
use geo_base::MAX_DIMS;
use geo_conditions::{Cond, ObjId, State, refuted};

/// Two objects, or one twice.
#[derive(Clone, Copy)]
pub struct Pair {
    pub first: ObjId,
    pub second: ObjId,
}

// So many parts are many: of a condition that has fewer, the parts of its parts are looked at.
const MANY_PARTS: usize = 8;

/// How many parts the condition has of which one is enough, those of few parts counted one by one;
/// 1 where it has none.
pub fn width(c: &Cond) -> usize
    ensures { 0 < result }
{
    match c {
        Cond::AtLeast(n, children) if *n <= 1 => {
            if children.len() >= MANY_PARTS {
                return children.len();
            }
            let mut total: usize = 0;
            for part in children.as_slice() {
                total = total.saturating_add(width(part));
            }
            total.max(1)
        }
        _ => 1,
    }
}

// The k-th child of which one is enough, round and round; the condition itself where it has none.
fn child_at(c: &Cond, k: usize) -> &Cond
    ensures { IsPart result.now c.now }
{
    match c {
        Cond::AtLeast(n, children) if *n <= 1 && !children.is_empty() => {
            let parts = children.as_slice();
            &parts[k % parts.len()]
        }
        _ => c,
    }
}

// The k-th part of which one is enough; the condition itself where there is none.
fn part_at(c: &Cond, k: usize) -> &Cond
    ensures { IsPart result.now c.now }
{
    let mut left = k;
    match c {
        Cond::AtLeast(n, children) if *n <= 1 && children.len() < MANY_PARTS => {
            let parts = children.as_slice();
            for part in parts {
                let many = width(part);
                if left < many {
                    return part_at(part, left);
                }
                left -= many;
            }
            c
        }
        _ => child_at(c, left),
    }
}

// The objects that the condition names, if there are two at most, and o is none of them.
fn pair_without(c: &Cond, o: ObjId) -> Option<Pair>
    ensures { IfSome result (λ p. NamesOnly c.now p.first.0 p.second.0
        × (p.first.0 ≢ o.0) × (p.second.0 ≢ o.0)) }
{
    let first = beside(c, o, o)?;
    let second = beside(c, first, first).unwrap_or(first);
    if first.0 == o.0 || second.0 == o.0 {
        return None;
    }
    match beside(c, first, second) {
        Some(_) => None,
        None => Some(Pair { first, second }),
    }
}

/// Two objects other than o on which the condition rests by its k-th part, if there are such.
pub fn rests_by<const K: usize>(c: &Cond, k: usize, s: &State<K>, o: ObjId) -> Option<Pair>
    requires k { K ≤ MAX_DIMS }
    requires fits { FitsIn c.now s.now }
    ensures { IfSome result (λ p. RestsOn c.now s.now p.first.0 p.second.0
        × (p.first.0 ≢ o.0) × (p.second.0 ≢ o.0)) }
{
    let part = part_at(c, k);
    let pair = pair_without(part, o)?;
    if refuted(part, s) { None } else { Some(pair) }
}
