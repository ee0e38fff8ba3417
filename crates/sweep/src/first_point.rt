//! The sweep: from the first corner of a region it jumps over forbidden boxes to the first point
//! that no picked condition forbids. The jump vector keeps for each dimension the least end of the
//! boxes met so far, after Beldiceanu, Carlsson, Poder, Sadek and Truchet (2007).

ghost use Rattle.std.specs.Prelude.{◌≡◌, ℕ, ◌+◌, ◌-◌, ◌*◌, ◌^◌, ◌<◌, ◌≤◌, true, length, map, Some, None, if◌then◌else◌, IfOk, MatchOption};
ghost use Rattle.std.specs.List.{All};
ghost use Rattle.std.specs.Option.{option_map};
ghost use Rattle.geo_base.specs.Ways.{IsSmallPoint};
ghost use Rattle.geo_conditions.specs.Conditions.{AllFit};
ghost use Rattle.geo_conditions.specs.Regions.{region_of};
ghost use Rattle.geo_conditions.specs.Supported.{IsFirstPoint, HasNoPoint};
ghost use Rattle.derivation.specs.Events.{Grows};
ghost use Rattle.indexical.specs.Disjunctions.{IsDisjunction};
ghost use Rattle.sweep.specs.Parts.{AreParts};
ghost use Rattle.sweep.specs.Picks.{ArePicks, picked};
ghost use Rattle.sweep.specs.Sweep.{part_before, IsCovered};
ghost use Rattle.sweep.specs.Swept.{IsBegun, HasSwept};

use crate::ask::ask;
use crate::marks::Marks;
use crate::record::open_chains;
use crate::turn::{stop, turn};
use derivation::{Event, Recorder};
use geo_base::{KBox, Point, Steps, Way};
use geo_conditions::{ObjId, State};
use indexical::Indexical;
use std::alloc::AllocError;
use std::sync::ledger::Ledger;

/// Turns of the sweep, from the first corner c and the jump n past the region on. Ok(true) where c has come to a point at which no
/// picked condition is refuted, and Ok(false) where there is none.
#[tactic(auto, using(crate::proofs::Between::box_has, crate::proofs::Between::box_small, crate::proofs::Between::box_opened))]
#[inline(always)]
fn sweep_turns<const K: usize, I: Indexical<K>, R: Recorder, L: Ledger>(
    s: &State<K>,
    o: ObjId,
    place: u8,
    region: &KBox<K>,
    list: &[I],
    picks: &[u32],
    parts: &[Option<KBox<K>>],
    way: &Way<K>,
    past: &Point<K>,
    c: &mut Point<K>,
    n: &mut Point<K>,
    marks: &mut Marks<K>,
    rec: &mut R,
    steps: &mut Steps<L>,
) -> Result<bool, AllocError>
    requires fits { AllFit (map I.cond list.now) s.now }
    requires object { o.0 < length s.now }
    requires picks { ArePicks (length list.now) picks.now }
    requires parts { AreParts K (map I.cond list.now) picks.now s.now o.0 place
        (region_of region.now) parts.now }
    requires small { IsSmallPoint K region.now.lo.coordinates
        × IsSmallPoint K region.now.hi.coordinates }
    requires begun { IsBegun K way.now.up s.now o.0 (region_of region.now) past.now.coordinates
        c.old.coordinates n.old.coordinates }
    ensures { HasSwept K way.now.lead way.now.up R.keeps (map I.cond list.now) picks.now s.now o.0
        place (region_of region.now) (R.list rec.old) (R.list rec.new) (R.refusals rec.old)
        (R.refusals rec.new) steps.old steps.new result
        (λ found. if found then Some c.new.coordinates else None) }
{
    match open_chains(way, c, past, c, n, 0, marks, rec) {
        Err(e) => return Err(e),
        Ok(()) => {}
    }
    let mut from = 0;
    'turns: loop {
        match ask(s, o, place, list, picks, parts, from, c, region, way, steps) {
            None => {
                let _coordinates = c.dimensions();
                return match stop(way, region, past, c, n, marks, rec) {
                    Err(e) => Err(e),
                    Ok(()) => Ok(true),
                };
            }
            Some((k, b)) => match turn(way, region, past, picks[k], &b, c, n, marks, rec) {
                Err(e) => return Err(e),
                Ok(more) => {
                    if !more {
                        return Ok(false);
                    }
                    from = k;
                }
            },
        }
    }
}

/// Sweeps the region from its first corner on, if it has a point.
#[inline(always)]
fn sweep_region<const K: usize, I: Indexical<K>, R: Recorder, L: Ledger>(
    s: &State<K>,
    o: ObjId,
    place: u8,
    region: &KBox<K>,
    list: &[I],
    picks: &[u32],
    parts: &[Option<KBox<K>>],
    way: &Way<K>,
    rec: &mut R,
    steps: &mut Steps<L>,
) -> Result<Option<Point<K>>, AllocError>
    requires fits { AllFit (map I.cond list.now) s.now }
    requires object { o.0 < length s.now }
    requires picks { ArePicks (length list.now) picks.now }
    requires parts { AreParts K (map I.cond list.now) picks.now s.now o.0 place
        (region_of region.now) parts.now }
    requires small { IsSmallPoint K region.now.lo.coordinates
        × IsSmallPoint K region.now.hi.coordinates }
    ensures { HasSwept K way.now.lead way.now.up R.keeps (map I.cond list.now) picks.now s.now o.0
        place (region_of region.now) (R.list rec.old) (R.list rec.new) (R.refusals rec.old)
        (R.refusals rec.new) steps.old steps.new result
        (λ r. option_map (λ p. p.coordinates) r) }
{
    // The state has K dimensions, and so have the corners.
    let _objects = s.objects();
    let _low = region.lo.dimensions();
    let _high = region.hi.dimensions();
    if region.is_empty() {
        return match rec.add(Event::By(1)) {
            Err(e) => Err(e),
            Ok(()) => Ok(None),
        };
    }
    let past = way.one_past(way.end(region));
    let mut c = *way.start(region);
    let mut n = past;
    let mut marks = Marks::new();
    match sweep_turns(
        s, o, place, region, list, picks, parts, way, &past, &mut c, &mut n, &mut marks, rec, steps,
    ) {
        Err(e) => Err(e),
        Ok(true) => Ok(Some(c)),
        Ok(false) => Ok(None),
    }
}

/// The same sweep, where what the conditions of some picks forbid of the region is known: a box in the place of the pick, which
/// is looked at in place of the condition.
pub fn sweep_parts<const K: usize, I: Indexical<K>, R: Recorder, L: Ledger>(
    s: &State<K>,
    o: ObjId,
    place: u8,
    region: &KBox<K>,
    list: &[I],
    picks: &[u32],
    parts: &[Option<KBox<K>>],
    way: &Way<K>,
    rec: &mut R,
    steps: &mut Steps<L>,
) -> Result<Option<Point<K>>, AllocError>
    requires fits { AllFit (map I.cond list.now) s.now }
    requires object { o.0 < length s.now }
    requires picks { ArePicks (length list.now) picks.now }
    requires parts { AreParts K (map I.cond list.now) picks.now s.now o.0 place
        (region_of region.now) parts.now }
    requires small { IsSmallPoint K region.now.lo.coordinates
        × IsSmallPoint K region.now.hi.coordinates }
    ensures point { let cs = picked (map I.cond list.now) picks.now in
        let b = region_of region.now in
        IfOk result (λ r. MatchOption r (HasNoPoint cs s.now o.0 place b)
        (λ p. IsFirstPoint K way.now.lead way.now.up cs s.now o.0 place b p.coordinates)) }
    ensures covered { let cs = map I.cond list.now in
        let b = region_of region.now in
        IfOk result (λ r. R.keeps ≡ true → MatchOption r
        (IsCovered K cs picks.now s.now o.0 place b (R.list rec.old) (R.list rec.new))
        (λ p. IsCovered K cs picks.now s.now o.0 place
        (part_before way.now.lead way.now.up p.coordinates b) (R.list rec.old) (R.list rec.new))) }
    ensures asked { All (IsDisjunction o.0) (picked (map I.cond list.now) picks.now)
        → steps.new ≤ steps.old + length picks.now * (length picks.now + 1) ^ K }
    ensures events { R.keeps ≡ true
        → All (IsDisjunction o.0) (picked (map I.cond list.now) picks.now)
        → length (R.list rec.new)
        ≤ length (R.list rec.old) + 2 * K * (length picks.now + 1) ^ K + 1 }
    ensures grows { Grows R.keeps R.list R.refusals rec.old rec.new result }
{
    sweep_region(s, o, place, region, list, picks, parts, way, rec, steps)
}

/// The first point of the region, in the way's order, at which no picked condition is refuted: with
/// the object at that place at the point, and all others as in the state. None where some picked
/// condition is refuted at each point. The picks are numbers of the list, from 1. The ends of the
/// region lie within 2,000,000 on either side of 0.
///
/// The events that are added are a cover of the region where there is no such point, and else of
/// the part of the region that comes before the point in the lead dimension. The only error is want
/// of memory, and then a refusal was counted. What stood in the record before stays, after an error
/// too.
///
/// Where each picked condition is a disjunction of literals that name at most one coordinate of the
/// object each, m picks are asked at most m * (m + 1)^K questions in K dimensions, and at most
/// 2 * K * (m + 1)^K + 1 events are added, after want of memory too.
///
/// The method is the sweep over forbidden boxes of Beldiceanu, Carlsson, Poder, Sadek and Truchet
/// for the constraint geost (2007).
pub fn sweep<const K: usize, I: Indexical<K>, R: Recorder, L: Ledger>(
    s: &State<K>,
    o: ObjId,
    place: u8,
    region: &KBox<K>,
    list: &[I],
    picks: &[u32],
    way: &Way<K>,
    rec: &mut R,
    steps: &mut Steps<L>,
) -> Result<Option<Point<K>>, AllocError>
    requires fits { AllFit (map I.cond list.now) s.now }
    requires object { o.0 < length s.now }
    requires picks { ArePicks (length list.now) picks.now }
    requires small { IsSmallPoint K region.now.lo.coordinates
        × IsSmallPoint K region.now.hi.coordinates }
    ensures point { let cs = picked (map I.cond list.now) picks.now in
        let b = region_of region.now in
        IfOk result (λ r. MatchOption r (HasNoPoint cs s.now o.0 place b)
        (λ p. IsFirstPoint K way.now.lead way.now.up cs s.now o.0 place b p.coordinates)) }
    ensures covered { let cs = map I.cond list.now in
        let b = region_of region.now in
        IfOk result (λ r. R.keeps ≡ true → MatchOption r
        (IsCovered K cs picks.now s.now o.0 place b (R.list rec.old) (R.list rec.new))
        (λ p. IsCovered K cs picks.now s.now o.0 place
        (part_before way.now.lead way.now.up p.coordinates b) (R.list rec.old) (R.list rec.new))) }
    ensures asked { All (IsDisjunction o.0) (picked (map I.cond list.now) picks.now)
        → steps.new ≤ steps.old + length picks.now * (length picks.now + 1) ^ K }
    ensures events { R.keeps ≡ true
        → All (IsDisjunction o.0) (picked (map I.cond list.now) picks.now)
        → length (R.list rec.new)
        ≤ length (R.list rec.old) + 2 * K * (length picks.now + 1) ^ K + 1 }
    ensures grows { Grows R.keeps R.list R.refusals rec.old rec.new result }
{
    sweep_parts(s, o, place, region, list, picks, &[], way, rec, steps)
}
