//! The ends of an object's intervals: each moves to the outermost coordinate of the object's
//! points.

ghost use Rattle.std.specs.Prelude.{◌≡◌, ◌+◌, ◌-◌, ◌^◌, ◌<◌, ◌≤◌, ◌≤ℤ◌, false, true, length, map, min, IfOk, IsOk, OnErr, IfSome};
ghost use Rattle.geo_conditions.specs.Conditions.{AllFit};
ghost use Rattle.geo_conditions.specs.Reach.{Inside, low, high};
ghost use Rattle.geo_state.specs.Trail.{IsSmallEnd};
ghost use Rattle.derivation.specs.Events.{Grows};
ghost use Rattle.sweep.specs.Picks.{ArePicks, picked};
ghost use Rattle.object_pruning.specs.Ends.{CanMove, HasSome, MovesEnd, MovesEnds};
ghost use Rattle.object_pruning.specs.Kept.{AllSupport};
ghost use Rattle.derivation.specs.Chains.{IsLed};
ghost use Rattle.object_pruning.specs.Record.{with_end};
ghost use Rattle.object_pruning.specs.Same.{SameBut};
ghost use Rattle.object_pruning.specs.InRows.{AreRows};

use crate::hints::knows_end;
use crate::kept::{Placed, end_of, end_slot, keep_found};
use crate::lasting::lasting_point;
use crate::outer_points::sought_end;
use crate::rows::Rows;
use derivation::Recorder;
use geo_base::MAX_DIMS;
use geo_conditions::ObjId;
use geo_state::Trailed;
use indexical::Indexical;
use std::alloc::AllocError;

// Moves one end of an interval inwards.
fn set_end<const K: usize>(t: &mut Trailed<K>, o: ObjId, d: usize, up: bool, v: i64)
    requires k { K ≤ MAX_DIMS }
    requires object { o.0 < length t.old.state }
    requires dimension { d < K }
    requires small { IsSmallEnd v }
    requires within { (low t.old.state o.0 d ≤ℤ v) × (v ≤ℤ high t.old.state o.0 d) }
    ensures state { t.new.state ≡ with_end t.old.state o.0 d up v }
    ensures levels { (t.new.levels ≡ t.old.levels) × (t.new.restores ≡ t.old.restores) }
{
    if up {
        t.set_low(o, d, v);
    } else {
        t.set_high(o, d, v);
    }
}

// Moves one end of an interval to the outermost coordinate of the object's points, where no known
// point has it, records it, and says whether it moved. A point with that coordinate that lasts is
// kept from then on, and a hint.
fn move_end<const K: usize, I: Indexical<K>, R: Recorder>(
    t: &mut Trailed<K>,
    o: ObjId,
    d: usize,
    up: bool,
    list: &[I],
    picks: &[u32],
    rows: Option<&Rows>,
    kept: &mut [Option<Placed<K>>],
    hints: &mut [Option<Placed<K>>],
    rec: &mut R,
) -> Result<bool, AllocError>
    requires k { K ≤ MAX_DIMS }
    requires can { CanMove (map I.cond list.now) (picked (map I.cond list.now) picks.now)
        t.old.state o.0 }
    requires dimension { d < K }
    requires picks { ArePicks (length list.now) picks.now }
    requires rows { IfSome rows (λ r. AreRows (map I.cond list.now) o.0 picks.now r.now) }
    requires kept { AllSupport (picked (map I.cond list.now) picks.now) t.old.state o.0 kept.old }
    ensures moves { IfOk result (λ m. MovesEnd (picked (map I.cond list.now) picks.now) o.0 d up
        t.old.state m t.new.state) }
    ensures led { IfOk result (λ m. R.keeps ≡ true
        → IsLed (map I.cond list.now) t.old.state t.new.state (R.list rec.old) (R.list rec.new)) }
    ensures unmoved { OnErr result (t.new.state ≡ t.old.state) }
    ensures can { CanMove (map I.cond list.now) (picked (map I.cond list.now) picks.now)
        t.new.state o.0 }
    ensures kept { AllSupport (picked (map I.cond list.now) picks.now) t.new.state o.0 kept.new }
    ensures levels { (t.new.levels ≡ t.old.levels) × (t.new.restores ≡ t.old.restores) }
    ensures grows { Grows R.keeps R.list R.refusals rec.old rec.new result }
{
    let state = t.state();
    let _objects = state.objects();
    if knows_end(state, o, d, up, list, picks, rows, kept, hints) {
        return Ok(false);
    }
    let q = sought_end(state, o, d, up, list, picks, rows, rec)?;
    let v = q.point.get(d);
    let lasting = lasting_point(state, o, d, up, &q, list, picks, rows);
    keep_found(kept, hints, end_slot(d, up), &lasting);
    if v == end_of(state, o, d, up) {
        return Ok(false);
    }
    set_end(t, o, d, up, v);
    Ok(true)
}

/// Moves both ends of each interval, records it, and says whether one moved.
pub fn move_ends<const K: usize, I: Indexical<K>, R: Recorder>(
    t: &mut Trailed<K>,
    o: ObjId,
    list: &[I],
    picks: &[u32],
    rows: Option<&Rows>,
    kept: &mut [Option<Placed<K>>],
    hints: &mut [Option<Placed<K>>],
    rec: &mut R,
) -> Result<bool, AllocError>
    requires k { K ≤ MAX_DIMS }
    requires fits { AllFit (map I.cond list.now) t.old.state }
    requires object { o.0 < length t.old.state }
    requires picks { ArePicks (length list.now) picks.now }
    requires rows { IfSome rows (λ r. AreRows (map I.cond list.now) o.0 picks.now r.now) }
    requires some { HasSome (picked (map I.cond list.now) picks.now) t.old.state o.0 }
    requires kept { AllSupport (picked (map I.cond list.now) picks.now) t.old.state o.0 kept.old }
    ensures moves { IfOk result (λ m. MovesEnds (picked (map I.cond list.now) picks.now) o.0
        t.old.state m t.new.state) }
    ensures led { IfOk result (λ m. R.keeps ≡ true
        → IsLed (map I.cond list.now) t.old.state t.new.state (R.list rec.old) (R.list rec.new)) }
    ensures alone { SameBut o.0 t.old.state t.new.state × Inside t.new.state t.old.state }
    ensures kept { AllSupport (picked (map I.cond list.now) picks.now) t.new.state o.0 kept.new }
    ensures levels { (t.new.levels ≡ t.old.levels) × (t.new.restores ≡ t.old.restores) }
    ensures grows { Grows R.keeps R.list R.refusals rec.old rec.new result }
{
    let _objects = t.state().objects();
    let mut moved = false;
    for d in 0..K {
        moved |= move_end(t, o, d, true, list, picks, rows, kept, hints, rec)?;
        moved |= move_end(t, o, d, false, list, picks, rows, kept, hints, rec)?;
    }
    Ok(moved)
}
