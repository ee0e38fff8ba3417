//! The places of an object: each without a point goes.

ghost use Rattle.std.specs.Prelude.{◌≡◌, ℕ, ◌+◌, ◌-◌, ◌^◌, ◌<◌, ◌≤◌, false, true, ℤ, List, length, map, min, slice_set, IfOk, IsOk, MatchBool, MatchOption, OnErr, IfSome};
ghost use Rattle.geo_conditions.specs.Conditions.{AllFit};
ghost use Rattle.geo_conditions.specs.Reach.{Inside, has, reach, without};
ghost use Rattle.geo_conditions.specs.Supported.{HasNoPoint};
ghost use Rattle.geo_state.specs.Trail.{HasSmallIntervals};
ghost use Rattle.derivation.specs.Events.{Grows};
ghost use Rattle.sweep.specs.Picks.{ArePicks, picked};
ghost use Rattle.object_pruning.specs.Ends.{DropsPlaces};
ghost use Rattle.object_pruning.specs.Kept.{AllSupport};
ghost use Rattle.object_pruning.specs.Pruning.{CanBe};
ghost use Rattle.derivation.specs.Chains.{IsLed};
ghost use Rattle.object_pruning.specs.Same.{SameBut};
ghost use Rattle.object_pruning.specs.InRows.{AreRows};

use crate::first_point::first_point;
use crate::hints::knows_place;
use crate::kept::{Placed, keep_found, place_slot};
use crate::rows::Rows;
use derivation::{Event, Recorder};
use geo_base::{MAX_DIMS, Point, Way};
use geo_conditions::{MAX_SHAPES, ObjId, State};
use geo_state::Trailed;
use indexical::Indexical;
use std::alloc::AllocError;

/// The last place that the object has; 0 where it has none.
pub fn last_place<const K: usize>(s: &State<K>, o: ObjId) -> u8
    requires k { K ≤ MAX_DIMS }
    requires object { o.0 < length s.now }
    ensures few { result ≤ MAX_SHAPES }
    ensures last { (place : ℕ) → has s.now o.0 place ≡ true → place ≤ result }
{
    let places = s.places(o);
    let sole = s.sole_place(o);
    if sole != 0 {
        return sole;
    }
    let mut last = 0u8;
    for before in 0..16u8 {
        if places.has(before + 1) {
            last = before + 1;
        }
    }
    last
}

// A point of the object at that place, which is there: one that a sweep finds from the far corner
// on. Where there is none, the record has the place dropped, with its cover, and else it is as
// before.
fn sought_point<const K: usize, I: Indexical<K>, R: Recorder>(
    s: &State<K>,
    o: ObjId,
    place: u8,
    list: &[I],
    picks: &[u32],
    rows: Option<&Rows>,
    rec: &mut R,
) -> Result<Option<Point<K>>, AllocError>
    requires k { (0 < K) × (K ≤ MAX_DIMS) }
    requires fits { AllFit (map I.cond list.now) s.now }
    requires object { o.0 < length s.now }
    requires there { has s.now o.0 place ≡ true }
    requires picks { ArePicks (length list.now) picks.now }
    requires rows { IfSome rows (λ r. AreRows (map I.cond list.now) o.0 picks.now r.now) }
    requires small { HasSmallIntervals s.now }
    ensures point { let cs = picked (map I.cond list.now) picks.now in
        IfOk result (λ r. MatchOption r (HasNoPoint cs s.now o.0 place (reach s.now o.0).region)
        (λ p. CanBe cs s.now o.0 place p.coordinates)) }
    ensures led { let cs = map I.cond list.now in
        IfOk result (λ r. R.keeps ≡ true → MatchOption r
        (IsLed cs s.now (slice_set s.now o.0 (without (reach s.now o.0) place))
        (R.list rec.old) (R.list rec.new))
        (λ p. R.list rec.new ≡ R.list rec.old)) }
    ensures grows { Grows R.keeps R.list R.refusals rec.old rec.new result }
{
    let _objects = s.objects();
    let way = Way::new(0, false);
    let mark = rec.mark();
    rec.add(Event::Drop(o, place))?;
    match first_point(s, o, place, list, picks, rows, &way, rec)? {
        Some(point) => {
            rec.cut_back(mark);
            Ok(Some(point))
        }
        None => Ok(None),
    }
}

// Whether the object has a point at that place, which is there: one that is known, or else one that
// is sought, and that is kept from then on, and a hint. Where it has none, the record has the place
// dropped, with its cover, and else it is as before.
fn has_point<const K: usize, I: Indexical<K>, R: Recorder>(
    s: &State<K>,
    o: ObjId,
    place: u8,
    list: &[I],
    picks: &[u32],
    rows: Option<&Rows>,
    kept: &mut [Option<Placed<K>>],
    hints: &mut [Option<Placed<K>>],
    rec: &mut R,
) -> Result<bool, AllocError>
    requires k { (0 < K) × (K ≤ MAX_DIMS) }
    requires fits { AllFit (map I.cond list.now) s.now }
    requires object { o.0 < length s.now }
    requires there { has s.now o.0 place ≡ true }
    requires picks { ArePicks (length list.now) picks.now }
    requires rows { IfSome rows (λ r. AreRows (map I.cond list.now) o.0 picks.now r.now) }
    requires small { HasSmallIntervals s.now }
    requires kept { AllSupport (picked (map I.cond list.now) picks.now) s.now o.0 kept.old }
    ensures point { let cs = picked (map I.cond list.now) picks.now in
        IfOk result (λ b. MatchBool b ((p : List ℤ) × CanBe cs s.now o.0 place p)
        (HasNoPoint cs s.now o.0 place (reach s.now o.0).region)) }
    ensures led { let cs = map I.cond list.now in
        IfOk result (λ b. R.keeps ≡ true → MatchBool b (R.list rec.new ≡ R.list rec.old)
        (IsLed cs s.now (slice_set s.now o.0 (without (reach s.now o.0) place))
        (R.list rec.old) (R.list rec.new))) }
    ensures kept { AllSupport (picked (map I.cond list.now) picks.now) s.now o.0 kept.new }
    ensures grows { Grows R.keeps R.list R.refusals rec.old rec.new result }
{
    if knows_place(s, o, place, list, picks, rows, kept, hints) {
        return Ok(true);
    }
    match sought_point(s, o, place, list, picks, rows, rec)? {
        Some(point) => {
            keep_found(
                kept,
                hints,
                place_slot::<K>(place),
                &Placed { place, point },
            );
            Ok(true)
        }
        None => Ok(false),
    }
}

/// What became of the places of an object.
#[derive(Clone, Copy)]
pub struct Places {
    pub some: bool,
    pub dropped: bool,
}

/// Takes away each place of the object that has no point, and records it.
pub fn drop_places<const K: usize, I: Indexical<K>, R: Recorder>(
    t: &mut Trailed<K>,
    o: ObjId,
    list: &[I],
    picks: &[u32],
    rows: Option<&Rows>,
    kept: &mut [Option<Placed<K>>],
    hints: &mut [Option<Placed<K>>],
    rec: &mut R,
) -> Result<Places, AllocError>
    requires k { (0 < K) × (K ≤ MAX_DIMS) }
    requires fits { AllFit (map I.cond list.now) t.old.state }
    requires object { o.0 < length t.old.state }
    requires picks { ArePicks (length list.now) picks.now }
    requires rows { IfSome rows (λ r. AreRows (map I.cond list.now) o.0 picks.now r.now) }
    requires kept { AllSupport (picked (map I.cond list.now) picks.now) t.old.state o.0 kept.old }
    ensures drops { IfOk result (λ a. DropsPlaces (picked (map I.cond list.now) picks.now) o.0
        t.old.state a.some a.dropped t.new.state) }
    ensures led { IfOk result (λ a. R.keeps ≡ true
        → IsLed (map I.cond list.now) t.old.state t.new.state (R.list rec.old) (R.list rec.new)) }
    ensures alone { SameBut o.0 t.old.state t.new.state × Inside t.new.state t.old.state }
    ensures kept { AllSupport (picked (map I.cond list.now) picks.now) t.new.state o.0 kept.new }
    ensures levels { (t.new.levels ≡ t.old.levels) × (t.new.restores ≡ t.old.restores) }
    ensures grows { Grows R.keeps R.list R.refusals rec.old rec.new result }
{
    let start = t.state();
    let _objects = start.objects();
    let last = last_place(start, o);
    let mut some = false;
    let mut dropped = false;
    for before in 0..last {
        let place = before + 1;
        let state = t.state();
        if state.has_shape(o, place) {
            if has_point(state, o, place, list, picks, rows, kept, hints, rec)? {
                some = true;
            } else {
                t.drop_shape(o, place);
                dropped = true;
            }
        }
    }
    Ok(Places { some, dropped })
}
