//! The first point of a region of an object.

ghost use Rattle.std.specs.Prelude.{◌≡◌, ◌+◌, ◌-◌, ◌^◌, ◌<◌, ◌≤◌, false, take, true, length, map, min, IfOk, IsOk, MatchOption, OnErr, IfSome};
ghost use Rattle.geo_conditions.specs.Conditions.{AllFit};
ghost use Rattle.geo_conditions.specs.Regions.{region_of};
ghost use Rattle.geo_conditions.specs.Supported.{HasNoPoint, IsFirstPoint};
ghost use Rattle.geo_state.specs.Trail.{HasSmallIntervals};
ghost use Rattle.derivation.specs.Events.{Grows};
ghost use Rattle.sweep.specs.Parts.{AreParts};
ghost use Rattle.sweep.specs.Picks.{ArePicks, picked};
ghost use Rattle.sweep.specs.Sweep.{IsCovered, part_before};
ghost use Rattle.object_pruning.specs.Pruning.{IsSmallBox};
ghost use Rattle.object_pruning.specs.Gathered.{AreGathered, HoldParts};
ghost use Rattle.object_pruning.specs.InRows.{AreRows};

use crate::counted::{Counted, answer};
use crate::gathering::{GATHERED, PARTS, gather, no_parts};
use crate::rows::Rows;
use derivation::Recorder;
use geo_base::{KBox, MAX_DIMS, Point, Steps, Way};
use geo_conditions::{ObjId, State};
use indexical::Indexical;
use std::alloc::AllocError;
use std::sync::ledger::Ledger;
use sweep::sweep_parts;

// A sweep over a region of an object at a place.
#[derive(Drop)]
struct RegionSweep<'a, const K: usize, I: Indexical<K> + 'a> {
    s: &'a State<K>,
    o: ObjId,
    place: u8,
    region: &'a KBox<K>,
    list: &'a [I],
    picks: &'a [u32],
    parts: &'a [Option<KBox<K>>],
    way: &'a Way<K>,
}

impl<'a, const K: usize, I: Indexical<K> + 'a, R: Recorder> Counted<
    R,
    Result<Option<Point<K>>, AllocError>,
> for RegionSweep<'a, K, I> {
    ghost use Rattle.geo_base.specs.declared.TheConstants.{MAX_DIMS};

    ghost ready = { λ x. (K ≤ MAX_DIMS) × AllFit (map I.cond x.list.now) x.s.now
        × (x.o.0 < length x.s.now) × ArePicks (length x.list.now) x.picks.now
        × AreParts K (map I.cond x.list.now) x.picks.now x.s.now x.o.0 x.place
        (region_of x.region.now) x.parts.now
        × IsSmallBox x.region.now };

    ghost right = { λ x old new result.
        IfOk result (λ r. MatchOption r
        (HasNoPoint (picked (map I.cond x.list.now) x.picks.now) x.s.now x.o.0 x.place
        (region_of x.region.now))
        (λ p. IsFirstPoint K x.way.now.lead x.way.now.up
        (picked (map I.cond x.list.now) x.picks.now) x.s.now x.o.0 x.place
        (region_of x.region.now) p.coordinates))
        × IfOk result (λ r. R.keeps ≡ true → MatchOption r
        (IsCovered K (map I.cond x.list.now) x.picks.now x.s.now x.o.0 x.place
        (region_of x.region.now) (R.list old) (R.list new))
        (λ p. IsCovered K (map I.cond x.list.now) x.picks.now x.s.now x.o.0 x.place
        (part_before x.way.now.lead x.way.now.up p.coordinates (region_of x.region.now))
        (R.list old) (R.list new)))
        × Grows R.keeps R.list R.refusals old new result };

    fn answer<L: Ledger>(
        &self,
        to: &mut R,
        steps: &mut Steps<L>,
    ) -> Result<Option<Point<K>>, AllocError> {
        sweep_parts(
            self.s,
            self.o,
            self.place,
            self.region,
            self.list,
            self.picks,
            self.parts,
            self.way,
            to,
            steps,
        )
    }
}

// The first point of a region, in the way's order, at which no picked condition is refuted with the
// object at that place. None where there is no such point. The events that are added are a cover of
// the region, or of the part of it that comes before the point in the lead dimension. The only
// error is want of memory, and then a refusal was counted.
fn sweep_region<const K: usize, I: Indexical<K>, R: Recorder>(
    s: &State<K>,
    o: ObjId,
    place: u8,
    region: &KBox<K>,
    list: &[I],
    picks: &[u32],
    parts: &[Option<KBox<K>>],
    way: &Way<K>,
    rec: &mut R,
) -> Result<Option<Point<K>>, AllocError>
    requires k { K ≤ MAX_DIMS }
    requires fits { AllFit (map I.cond list.now) s.now }
    requires object { o.0 < length s.now }
    requires picks { ArePicks (length list.now) picks.now }
    requires parts { AreParts K (map I.cond list.now) picks.now s.now o.0 place
        (region_of region.now) parts.now }
    requires small { IsSmallBox region.now }
    ensures point { let cs = picked (map I.cond list.now) picks.now in
        let b = region_of region.now in
        IfOk result (λ r. MatchOption r (HasNoPoint cs s.now o.0 place b)
        (λ p. IsFirstPoint K way.now.lead way.now.up cs s.now o.0 place b p.coordinates)) }
    ensures covered { let cs = map I.cond list.now in
        let b = region_of region.now in
        IfOk result (λ r. R.keeps ≡ true → MatchOption r
        (IsCovered K cs picks.now s.now o.0 place b (R.list rec.old) (R.list rec.new))
        (λ p. IsCovered K cs picks.now s.now o.0 place
        (part_before way.now.lead way.now.up p.coordinates b) (R.list rec.old) (R.list rec.new))) }
    ensures grows { Grows R.keeps R.list R.refusals rec.old rec.new result }
{
    answer(
        &RegionSweep {
            s,
            o,
            place,
            region,
            list,
            picks,
            parts,
            way,
        },
        rec,
    )
}

// No parts, of any numbers.
#[inline(always)]
fn without_parts<const K: usize, I: Indexical<K>>(
    _s: &State<K>,
    _o: ObjId,
    _place: u8,
    _region: &KBox<K>,
    _list: &[I],
    _live: &[u32],
) -> [Option<KBox<K>>; PARTS]
    requires k { K ≤ MAX_DIMS }
    ensures { HoldParts K (map I.cond _list.now) _s.now _o.0 _place (region_of _region.now)
        _live.now result }
{
    no_parts()
}

// The numbers that were gathered: the first ones of the list. They are picks, and `parts` are
// theirs.
#[inline(always)]
fn gathered<'a, const K: usize, I: Indexical<K>>(
    _s: &State<K>,
    _o: ObjId,
    _place: u8,
    _region: &KBox<K>,
    _list: &[I],
    _picks: &[u32],
    live: &'a [u32],
    count: usize,
    _parts: &[Option<KBox<K>>],
) -> &'a [u32]
    requires room { count ≤ length live.now }
    requires picks { ArePicks (length _list.now) _picks.now }
    requires gathered { AreGathered K (map I.cond _list.now) _s.now _o.0 _place
        (region_of _region.now) _picks.now count live.now }
    requires parts { HoldParts K (map I.cond _list.now) _s.now _o.0 _place
        (region_of _region.now) live.now _parts.now }
    ensures those { result.now ≡ take count live.now }
    ensures picks { ArePicks (length _list.now) result.now }
    ensures parts { AreParts K (map I.cond _list.now) result.now _s.now _o.0 _place
        (region_of _region.now) _parts.now }
{
    &live[0..count]
}

/// The first point of a region, in the way's order, at which no picked condition is refuted with
/// the object at that place. None where there is no such point. The events that are added are a
/// cover of the region, or of the part of it that comes before the point in the lead dimension. The
/// only error is want of memory, and then a refusal was counted.
pub fn first_point_in<const K: usize, I: Indexical<K>, R: Recorder>(
    s: &State<K>,
    o: ObjId,
    place: u8,
    region: &KBox<K>,
    list: &[I],
    picks: &[u32],
    rows: Option<&Rows>,
    way: &Way<K>,
    rec: &mut R,
) -> Result<Option<Point<K>>, AllocError>
    requires k { K ≤ MAX_DIMS }
    requires fits { AllFit (map I.cond list.now) s.now }
    requires object { o.0 < length s.now }
    requires picks { ArePicks (length list.now) picks.now }
    requires rows { IfSome rows (λ r. AreRows (map I.cond list.now) o.0 picks.now r.now) }
    requires small { IsSmallBox region.now }
    requires ends { HasSmallIntervals s.now }
    ensures point { let cs = picked (map I.cond list.now) picks.now in
        let b = region_of region.now in
        IfOk result (λ r. MatchOption r (HasNoPoint cs s.now o.0 place b)
        (λ p. IsFirstPoint K way.now.lead way.now.up cs s.now o.0 place b p.coordinates)) }
    ensures covered { let cs = map I.cond list.now in
        let b = region_of region.now in
        IfOk result (λ r. R.keeps ≡ true → MatchOption r
        (IsCovered K cs picks.now s.now o.0 place b (R.list rec.old) (R.list rec.new))
        (λ p. IsCovered K cs picks.now s.now o.0 place
        (part_before way.now.lead way.now.up p.coordinates b) (R.list rec.old) (R.list rec.new))) }
    ensures grows { Grows R.keeps R.list R.refusals rec.old rec.new result }
{
    let mut live = [0u32; GATHERED];
    let mut parts = without_parts(s, o, place, region, list, &live);
    match gather(
        s, o, place, region, list, picks, rows, &mut live, &mut parts,
    ) {
        Some(count) => {
            let those = gathered(s, o, place, region, list, picks, &live, count, &parts);
            sweep_region(s, o, place, region, list, those, &parts, way, rec)
        }
        None => sweep_region(s, o, place, region, list, picks, &[], way, rec),
    }
}
