//! The record of what is taken away.

ghost use Rattle.std.specs.Prelude.{◌≡◌, ℕ, ◌+◌, ◌-◌, ◌^◌, ◌<◌, ◌≤◌, ◌+ℤ◌, pos, negsuc, true, false, List, [], ◌∷◌, ◌++◌, length, slice_set, min, OnOk, OnErr, IsOk};
ghost use Rattle.std.specs.List.{All};
ghost use Rattle.geo_base.specs.Boxes.{coordinate};
ghost use Rattle.geo_conditions.specs.Conditions.{FitsIn};
ghost use Rattle.geo_conditions.specs.Reach.{has, reach, low, high, with_at, with_low, with_high, without};
ghost use Rattle.geo_conditions.specs.Regions.{region_of};
ghost use Rattle.geo_conditions.specs.Supported.{NoneRefuted, HasNoPoint};
ghost use Rattle.derivation.specs.declared.event.Event.{Event};
ghost use Rattle.derivation.specs.declared.event.Event.TheVariants as events;
ghost use Rattle.derivation.specs.Covers.{refutes};
ghost use Rattle.derivation.specs.Events.{Grows};
ghost use Rattle.derivation.specs.PlaceCovers.{RecordedBelow, RecordedCovers};
ghost use Rattle.geo_state.specs.Trail.{HasSmallIntervals};
ghost use Rattle.plain_propagate.specs.Points.{IsSmallRegion};
ghost use Rattle.plain_propagate.specs.Defects.{LacksAll, LacksPoint, LacksLow, LacksHigh};
ghost use Rattle.derivation.specs.Chains.{IsLed, IsClosed};
ghost use Rattle.plain_propagate.specs.Recorded.{RecordedCover};

use crate::points::{cut_to, first_refuted_at};
use derivation::{Event, Recorder};
use geo_base::{KBox, MAX_DIMS};
use geo_conditions::{Cond, ObjId, State};
use std::alloc::AllocError;

/// Takes down an event.
fn record_event<R: Recorder>(rec: &mut R, e: Event) -> Result<(), AllocError>
    ensures added { OnOk result (R.keeps ≡ true → R.list rec.new ≡ R.list rec.old ++ e ∷ []) }
    ensures grows { Grows R.keeps R.list R.refusals rec.old rec.new result }
{
    rec.add(e)
}

/// Names a condition that is refuted with the object at that place in that box.
fn record_refuted<const K: usize, R: Recorder>(
    cs: &[Cond],
    s: &State<K>,
    o: ObjId,
    place: u8,
    b: &KBox<K>,
    rec: &mut R,
) -> Result<(), AllocError>
    requires k { K ≤ MAX_DIMS }
    requires list { length cs.now ≤ 1000000000 }
    requires fits { All (λ c. FitsIn c s.now) cs.now }
    requires object { o.0 < length s.now }
    requires refuted { NoneRefuted cs.now (with_at s.now o.0 place (region_of b.now)) → ⊥ }
    ensures cover { OnOk result (R.keeps ≡ true → RecordedCover cs.now s.now o.0 place
        (region_of b.now) (R.list rec.old) (R.list rec.new)) }
    ensures grows { Grows R.keeps R.list R.refusals rec.old rec.new result }
{
    match first_refuted_at(cs, s, o, place, b) {
        None => Ok(()),
        Some(i) => record_event(rec, Event::By(i as u32)),
    }
}

/// Records a cover of the box, in which the dimensions below `d` have one number each: the box is
/// cut number by number, and at each point a refuted condition is named.
fn record_points<const K: usize, R: Recorder>(
    cs: &[Cond],
    s: &State<K>,
    o: ObjId,
    place: u8,
    b: &KBox<K>,
    d: usize,
    rec: &mut R,
) -> Result<(), AllocError>
    requires k { K ≤ MAX_DIMS }
    requires list { length cs.now ≤ 1000000000 }
    requires fits { All (λ c. FitsIn c s.now) cs.now }
    requires object { o.0 < length s.now }
    requires small { IsSmallRegion (region_of b.now) }
    requires dimension { d ≤ K }
    requires lows { length b.now.lo.coordinates ≡ K }
    requires highs { length b.now.hi.coordinates ≡ K }
    requires single { (e : ℕ) → e < d
        → coordinate b.now.lo.coordinates e ≡ coordinate b.now.hi.coordinates e }
    requires none { HasNoPoint cs.now s.now o.0 place (region_of b.now) }
    ensures cover { OnOk result (R.keeps ≡ true → RecordedCover cs.now s.now o.0 place
        (region_of b.now) (R.list rec.old) (R.list rec.new)) }
    ensures grows { Grows R.keeps R.list R.refusals rec.old rec.new result }
{
    if b.is_empty() {
        return record_event(rec, Event::By(1));
    }
    if d == K {
        return record_refuted(cs, s, o, place, b, rec);
    }
    let _objects = s.objects();
    let last = b.hi.get(d);
    for v in b.lo.get(d)..last {
        record_event(rec, Event::Cut(d as u32, v))?;
        record_points(cs, s, o, place, &cut_to(b, d, v), d + 1, rec)?;
    }
    record_points(cs, s, o, place, &cut_to(b, d, last), d + 1, rec)
}

/// Records the cover of a place, if it is there.
fn record_place<const K: usize, R: Recorder>(
    cs: &[Cond],
    s: &State<K>,
    o: ObjId,
    place: u8,
    b: &KBox<K>,
    rec: &mut R,
) -> Result<(), AllocError>
    requires k { K ≤ MAX_DIMS }
    requires list { length cs.now ≤ 1000000000 }
    requires fits { All (λ c. FitsIn c s.now) cs.now }
    requires object { o.0 < length s.now }
    requires small { IsSmallRegion (region_of b.now) }
    requires place { 1 ≤ place }
    requires lows { length b.now.lo.coordinates ≡ K }
    requires highs { length b.now.hi.coordinates ≡ K }
    requires none { has s.now o.0 place ≡ true
        → HasNoPoint cs.now s.now o.0 place (region_of b.now) }
    ensures cover { OnOk result (R.keeps ≡ true → (base : List Event)
        → RecordedBelow cs.now s.now o.0 (region_of b.now) place base (R.list rec.old)
        → RecordedBelow cs.now s.now o.0 (region_of b.now) (place + 1) base (R.list rec.new)) }
    ensures grows { Grows R.keeps R.list R.refusals rec.old rec.new result }
{
    if !s.has_shape(o, place) {
        return Ok(());
    }
    record_event(rec, Event::Cover(place))?;
    record_points(cs, s, o, place, b, 0, rec)
}

/// Records a cover of the box for each place that the object has, and their end.
fn record_places<const K: usize, R: Recorder>(
    cs: &[Cond],
    s: &State<K>,
    o: ObjId,
    b: &KBox<K>,
    rec: &mut R,
) -> Result<(), AllocError>
    requires k { K ≤ MAX_DIMS }
    requires list { length cs.now ≤ 1000000000 }
    requires fits { All (λ c. FitsIn c s.now) cs.now }
    requires object { o.0 < length s.now }
    requires small { IsSmallRegion (region_of b.now) }
    requires lows { length b.now.lo.coordinates ≡ K }
    requires highs { length b.now.hi.coordinates ≡ K }
    requires none { (n : ℕ) → has s.now o.0 n ≡ true
        → HasNoPoint cs.now s.now o.0 n (region_of b.now) }
    ensures covers { OnOk result (R.keeps ≡ true → RecordedCovers cs.now s.now o.0
        (region_of b.now) (R.list rec.old) (R.list rec.new)) }
    ensures grows { Grows R.keeps R.list R.refusals rec.old rec.new result }
{
    let _region = s.region(o);
    for place in 1..17u8 {
        record_place(cs, s, o, place, b, rec)?;
    }
    record_event(rec, Event::EndCovers)
}

/// Records that the condition of that number is refuted.
pub fn record_dead<const K: usize, R: Recorder>(
    cs: &[Cond],
    s: &State<K>,
    i: usize,
    rec: &mut R,
) -> Result<(), AllocError>
    requires list { length cs.now ≤ 1000000000 }
    requires number { i ≤ length cs.now }
    requires refuted { refutes cs.now i s.now ≡ true }
    ensures closed { OnOk result (R.keeps ≡ true
        → IsClosed cs.now s.now (R.list rec.old) (R.list rec.new)) }
    ensures added { OnOk result (R.keeps ≡ true
        → R.list rec.new ≡ R.list rec.old ++ events.Dead i ∷ []) }
    ensures grows { Grows R.keeps R.list R.refusals rec.old rec.new result }
{
    record_event(rec, Event::Dead(i as u32))
}

/// Records that the object has no point, at any place.
pub fn record_gone<const K: usize, R: Recorder>(
    cs: &[Cond],
    s: &State<K>,
    o: ObjId,
    rec: &mut R,
) -> Result<(), AllocError>
    requires k { K ≤ MAX_DIMS }
    requires list { length cs.now ≤ 1000000000 }
    requires fits { All (λ c. FitsIn c s.now) cs.now }
    requires small { HasSmallIntervals s.now }
    requires lacks { LacksAll cs.now s.now o.0 }
    ensures closed { OnOk result (R.keeps ≡ true
        → IsClosed cs.now s.now (R.list rec.old) (R.list rec.new)) }
    ensures grows { Grows R.keeps R.list R.refusals rec.old rec.new result }
{
    let region = s.region(o);
    record_event(rec, Event::Gone(o))?;
    record_places(cs, s, o, &region, rec)
}

/// Records that the object has no point at the place, which leads to the state without the place.
pub fn record_drop<const K: usize, R: Recorder>(
    cs: &[Cond],
    s: &State<K>,
    o: ObjId,
    place: u8,
    rec: &mut R,
) -> Result<(), AllocError>
    requires k { K ≤ MAX_DIMS }
    requires list { length cs.now ≤ 1000000000 }
    requires fits { All (λ c. FitsIn c s.now) cs.now }
    requires small { HasSmallIntervals s.now }
    requires lacks { LacksPoint cs.now s.now o.0 place }
    ensures led { OnOk result (R.keeps ≡ true → IsLed cs.now s.now
        (slice_set s.now o.0 (without (reach s.now o.0) place)) (R.list rec.old) (R.list rec.new)) }
    ensures grows { Grows R.keeps R.list R.refusals rec.old rec.new result }
{
    let region = s.region(o);
    record_event(rec, Event::Drop(o, place))?;
    record_points(cs, s, o, place, &region, 0, rec)
}

/// Records that the low end of the interval has no point, which leads to the state with the next
/// number as the low end.
pub fn record_raise<const K: usize, R: Recorder>(
    cs: &[Cond],
    s: &State<K>,
    o: ObjId,
    d: usize,
    rec: &mut R,
) -> Result<(), AllocError>
    requires k { K ≤ MAX_DIMS }
    requires list { length cs.now ≤ 1000000000 }
    requires fits { All (λ c. FitsIn c s.now) cs.now }
    requires dimension { d < K }
    requires small { HasSmallIntervals s.now }
    requires lacks { LacksLow cs.now s.now o.0 d }
    ensures led { OnOk result (R.keeps ≡ true → IsLed cs.now s.now
        (slice_set s.now o.0 (with_low (reach s.now o.0) d (low s.now o.0 d +ℤ pos 1)))
        (R.list rec.old) (R.list rec.new)) }
    ensures grows { Grows R.keeps R.list R.refusals rec.old rec.new result }
{
    let region = s.region(o);
    let low = region.lo.get(d);
    let _high = region.hi.get(d);
    let taken = KBox::new(region.lo, region.hi.with(d, low));
    record_event(rec, Event::Raise(o, d as u32, low + 1))?;
    record_places(cs, s, o, &taken, rec)
}

/// Records that the high end of the interval has no point, which leads to the state with the number
/// before it as the high end.
pub fn record_lower<const K: usize, R: Recorder>(
    cs: &[Cond],
    s: &State<K>,
    o: ObjId,
    d: usize,
    rec: &mut R,
) -> Result<(), AllocError>
    requires k { K ≤ MAX_DIMS }
    requires list { length cs.now ≤ 1000000000 }
    requires fits { All (λ c. FitsIn c s.now) cs.now }
    requires dimension { d < K }
    requires small { HasSmallIntervals s.now }
    requires lacks { LacksHigh cs.now s.now o.0 d }
    ensures led { OnOk result (R.keeps ≡ true → IsLed cs.now s.now
        (slice_set s.now o.0 (with_high (reach s.now o.0) d (high s.now o.0 d +ℤ negsuc 0)))
        (R.list rec.old) (R.list rec.new)) }
    ensures grows { Grows R.keeps R.list R.refusals rec.old rec.new result }
{
    let region = s.region(o);
    let _low = region.lo.get(d);
    let high = region.hi.get(d);
    let taken = KBox::new(region.lo.with(d, high), region.hi);
    record_event(rec, Event::Lower(o, d as u32, high - 1))?;
    record_places(cs, s, o, &taken, rec)
}
