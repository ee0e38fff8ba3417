//! The first point of an object.

ghost use Rattle.std.specs.Prelude.{◌≡◌, ◌+◌, ◌-◌, ◌^◌, ◌<◌, ◌≤◌, false, true, length, map, min, IfOk, IsOk, MatchOption, OnErr, IfSome};
ghost use Rattle.geo_conditions.specs.Conditions.{AllFit};
ghost use Rattle.geo_conditions.specs.Reach.{reach};
ghost use Rattle.geo_conditions.specs.Supported.{HasNoPoint, IsFirstPoint};
ghost use Rattle.geo_state.specs.Trail.{HasSmallIntervals};
ghost use Rattle.derivation.specs.Events.{Grows};
ghost use Rattle.sweep.specs.Picks.{ArePicks, picked};
ghost use Rattle.sweep.specs.Sweep.{IsCovered, part_before};
ghost use Rattle.object_pruning.specs.InRows.{AreRows};

use crate::region_sweep::first_point_in;
use crate::rows::Rows;
use derivation::Recorder;
use geo_base::{MAX_DIMS, Point, Way};
use geo_conditions::{ObjId, State};
use indexical::Indexical;
use std::alloc::AllocError;

/// The first point of the object's region, in the way's order, at which no picked condition is
/// refuted with the object at that place. None where there is no such point. The events that are
/// added are a cover of the region, or of the part of it that comes before the point in the lead
/// dimension. The only error is want of memory, and then a refusal was counted.
pub fn first_point<const K: usize, I: Indexical<K>, R: Recorder>(
    s: &State<K>,
    o: ObjId,
    place: u8,
    list: &[I],
    picks: &[u32],
    rows: Option<&Rows>,
    way: &Way<K>,
    rec: &mut R,
) -> Result<Option<Point<K>>, AllocError>
    requires k { K ≤ MAX_DIMS }
    requires fits { AllFit (map I.cond list.now) s.now }
    requires object { o.0 < length s.now }
    requires picks { ArePicks (length list.now) picks.now }
    requires rows { IfSome rows (λ r. AreRows (map I.cond list.now) o.0 picks.now r.now) }
    requires small { HasSmallIntervals s.now }
    ensures point { let cs = picked (map I.cond list.now) picks.now in
        let b = (reach s.now o.0).region in
        IfOk result (λ r. MatchOption r (HasNoPoint cs s.now o.0 place b)
        (λ p. IsFirstPoint K way.now.lead way.now.up cs s.now o.0 place b p.coordinates)) }
    ensures covered { let cs = map I.cond list.now in
        let b = (reach s.now o.0).region in
        IfOk result (λ r. R.keeps ≡ true → MatchOption r
        (IsCovered K cs picks.now s.now o.0 place b (R.list rec.old) (R.list rec.new))
        (λ p. IsCovered K cs picks.now s.now o.0 place
        (part_before way.now.lead way.now.up p.coordinates b) (R.list rec.old) (R.list rec.new))) }
    ensures grows { Grows R.keeps R.list R.refusals rec.old rec.new result }
{
    let region = s.region(o);
    first_point_in(s, o, place, &region, list, picks, rows, way, rec)
}
