//! Which picked condition forbids a point, and the box around it that it forbids. The conditions
//! are asked in turn from the one that answered last, since the point that a jump comes to lies
//! most often beside the box of its neighbour.

ghost use Rattle.std.specs.Prelude.{◌≡◌, ℕ, ◌+◌, ◌-◌, ◌<◌, ◌≤◌, true, length, map, slice_get, IfSome, IfNone, Some};
ghost use Rattle.geo_base.specs.Boxes.{Has};
ghost use Rattle.geo_conditions.specs.declared.cond.Cond.{Cond};
ghost use Rattle.geo_conditions.specs.Conditions.{possible, AllFit, FitsIn};
ghost use Rattle.geo_conditions.specs.Reach.{with_at, just};
ghost use Rattle.geo_conditions.specs.Regions.{region_of};
ghost use Rattle.geo_conditions.specs.Supported.{NoneRefuted};
ghost use Rattle.sweep.specs.Parts.{AreParts};
ghost use Rattle.sweep.specs.Picks.{ArePicks, PicksAt, IsPickedBox, picked};

use geo_base::{KBox, Point, Steps, Way};
use geo_conditions::{ObjId, State};
use indexical::Indexical;
use std::sync::ledger::Ledger;

/// The box that stands for the k-th pick, if one does.
#[inline(always)]
fn known_part<const K: usize>(parts: &[Option<KBox<K>>], k: usize) -> Option<&KBox<K>>
    ensures { IfSome result (λ b. slice_get parts.now k ≡ Some (Some b.now)) }
{
    if parts.len() <= k {
        return None;
    }
    match &parts[k] {
        Some(part) => Some(part),
        None => None,
    }
}

/// The box, where it has the point. One look at it counts as one question.
#[inline(always)]
fn ask_part<const K: usize, L: Ledger>(
    part: &KBox<K>,
    c: &Point<K>,
    steps: &mut Steps<L>,
) -> Option<KBox<K>>
    ensures some { IfSome result (λ b. (b ≡ part.now)
        × Has K b.lo.coordinates b.hi.coordinates c.now.coordinates) }
    ensures none { IfNone result
        (Has K part.now.lo.coordinates part.now.hi.coordinates c.now.coordinates → ⊥) }
    ensures asked { steps.new ≡ steps.old + 1 }
{
    steps.tick();
    if part.has(c) { Some(*part) } else { None }
}

/// The condition that the k-th pick names.
#[inline(always)]
fn condition_of<'a, const K: usize, I: Indexical<K>>(
    s: &State<K>,
    list: &'a [I],
    picks: &[u32],
    k: usize,
) -> &'a I
    requires fits { AllFit (map I.cond list.now) s.now }
    requires picks { ArePicks (length list.now) picks.now }
    requires k { k < length picks.now }
    ensures pick { PicksAt (map I.cond list.now) picks.now k (I.cond result.now) }
    ensures fits { FitsIn (I.cond result.now) s.now }
{
    &list[picks[k] as usize - 1]
}

/// Asks the condition that the k-th pick names.
#[inline(always)]
fn ask_condition<const K: usize, I: Indexical<K>, L: Ledger>(
    s: &State<K>,
    o: ObjId,
    place: u8,
    list: &[I],
    picks: &[u32],
    k: usize,
    c: &Point<K>,
    region: &KBox<K>,
    way: &Way<K>,
    steps: &mut Steps<L>,
) -> Option<KBox<K>>
    requires fits { AllFit (map I.cond list.now) s.now }
    requires object { o.0 < length s.now }
    requires picks { ArePicks (length list.now) picks.now }
    requires k { k < length picks.now }
    requires inside { Has K region.now.lo.coordinates region.now.hi.coordinates c.now.coordinates }
    ensures forbidden { IfSome result (λ b. IsPickedBox K (map I.cond list.now) picks.now s.now o.0
        place c.now.coordinates (region_of region.now) k (region_of b)) }
    ensures none { IfNone result ((x : Cond) → PicksAt (map I.cond list.now) picks.now k x
        → possible x (with_at s.now o.0 place (just c.now.coordinates)) ≡ true) }
    ensures asked { steps.new ≡ steps.old + 1 }
{
    condition_of(s, list, picks, k).forbid(s, o, place, c, region, way, steps)
}

/// Asks the condition that the k-th pick names, or looks at what it forbids where that is known.
#[inline(always)]
fn ask_pick<const K: usize, I: Indexical<K>, L: Ledger>(
    s: &State<K>,
    o: ObjId,
    place: u8,
    list: &[I],
    picks: &[u32],
    parts: &[Option<KBox<K>>],
    k: usize,
    c: &Point<K>,
    region: &KBox<K>,
    way: &Way<K>,
    steps: &mut Steps<L>,
) -> Option<KBox<K>>
    requires fits { AllFit (map I.cond list.now) s.now }
    requires object { o.0 < length s.now }
    requires picks { ArePicks (length list.now) picks.now }
    requires parts { AreParts K (map I.cond list.now) picks.now s.now o.0 place
        (region_of region.now) parts.now }
    requires k { k < length picks.now }
    requires inside { Has K region.now.lo.coordinates region.now.hi.coordinates c.now.coordinates }
    ensures forbidden { IfSome result (λ b. IsPickedBox K (map I.cond list.now) picks.now s.now o.0
        place c.now.coordinates (region_of region.now) k (region_of b)) }
    ensures none { IfNone result ((x : Cond) → PicksAt (map I.cond list.now) picks.now k x
        → possible x (with_at s.now o.0 place (just c.now.coordinates)) ≡ true) }
    ensures asked { steps.new ≡ steps.old + 1 }
{
    match known_part(parts, k) {
        Some(part) => ask_part(part, c, steps),
        None => ask_condition(s, o, place, list, picks, k, c, region, way, steps),
    }
}

/// The first pick from `from` on, and around, whose condition is refuted at the point c, and its
/// forbidden box. What the conditions of the first picks forbid may be known.
#[inline(never)]
pub fn ask<const K: usize, I: Indexical<K>, L: Ledger>(
    s: &State<K>,
    o: ObjId,
    place: u8,
    list: &[I],
    picks: &[u32],
    parts: &[Option<KBox<K>>],
    from: usize,
    c: &Point<K>,
    region: &KBox<K>,
    way: &Way<K>,
    steps: &mut Steps<L>,
) -> Option<(usize, KBox<K>)>
    requires fits { AllFit (map I.cond list.now) s.now }
    requires object { o.0 < length s.now }
    requires picks { ArePicks (length list.now) picks.now }
    requires parts { AreParts K (map I.cond list.now) picks.now s.now o.0 place
        (region_of region.now) parts.now }
    requires from { from ≤ length picks.now }
    requires inside { Has K region.now.lo.coordinates region.now.hi.coordinates c.now.coordinates }
    ensures forbidden { IfSome result (λ a. IsPickedBox K (map I.cond list.now) picks.now s.now o.0
        place c.now.coordinates (region_of region.now) a.0 (region_of a.1)) }
    ensures none { IfNone result (NoneRefuted (picked (map I.cond list.now) picks.now)
        (with_at s.now o.0 place (just c.now.coordinates))) }
    ensures asked { steps.new ≤ steps.old + length picks.now }
{
    'ahead: for k in from..picks.len() {
        if let Some(b) = ask_pick(s, o, place, list, picks, parts, k, c, region, way, steps) {
            return Some((k, b));
        }
    }
    'around: for k in 0..from {
        if let Some(b) = ask_pick(s, o, place, list, picks, parts, k, c, region, way, steps) {
            return Some((k, b));
        }
    }
    None
}
