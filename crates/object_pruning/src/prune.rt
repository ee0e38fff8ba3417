//! The pruning of one object by sweeps.

ghost use Rattle.std.specs.Prelude.{◌≡◌, ◌+◌, ◌-◌, ◌^◌, ◌<◌, ◌≤◌, ◌++◌, ◌||◌, ℕ, false, true, List, length, map, min, IfOk, IsOk, OnErr, OnOk, IfSome};
ghost use Rattle.geo_conditions.specs.Conditions.{AllFit};
ghost use Rattle.geo_conditions.specs.declared.cond.Cond.{Cond};
ghost use Rattle.geo_conditions.specs.Reach.{State, Inside, has};
ghost use Rattle.derivation.specs.declared.event.Event.{Event};
ghost use Rattle.derivation.specs.Events.{Grows};
ghost use Rattle.sweep.specs.Picks.{ArePicks, picked};
ghost use Rattle.object_pruning.specs.Kept.{AllSupport};
ghost use Rattle.object_pruning.specs.Pruning.{PrunesTo, outcome};
ghost use Rattle.object_pruning.specs.Record.{AreEventsOfPruning, IsClosedByGone};
ghost use Rattle.object_pruning.specs.Same.{SameBut};
ghost use Rattle.object_pruning.specs.InRows.{AreRows};

use crate::kept::Placed;
use crate::move_ends::move_ends;
use crate::places::drop_places;
use crate::rows::Rows;
use crate::settled::is_settled;
use derivation::{Event, Recorder};
use geo_base::MAX_DIMS;
use geo_conditions::ObjId;
use geo_state::Trailed;
use indexical::Indexical;
use std::alloc::AllocError;

/// What the pruning of an object gives.
#[derive(Clone, Copy)]
pub enum Pruned {
    /// It has no point.
    Empty,
    /// Something moved.
    Changed,
    /// Nothing did.
    Same,
}

// Records that the object has no place left, and so no point.
fn record_gone<R: Recorder>(o: ObjId, rec: &mut R) -> Result<(), AllocError>
    ensures gone { OnOk result (R.keeps ≡ true → (cs : List Cond) → (S : State) → o.0 < length S
        → ((s : ℕ) → has S o.0 s ≡ true → ⊥)
        → IsClosedByGone cs S o.0 (R.list rec.old) (R.list rec.new)) }
    ensures grows { Grows R.keeps R.list R.refusals rec.old rec.new result }
{
    rec.add(Event::Gone(o))?;
    match rec.add(Event::EndCovers) {
        Ok(()) => Ok(()),
        Err(e) => Err(e),
    }
}

/// Leaves the object the places at which it has a point, and in each dimension the loosest bounds
/// over its points: those of its region, at its places, at which no picked condition is refuted on
/// the state. The picks are numbers of the list, from 1; where they are given in rows too, only
/// those are looked at that ask for places which the objects have. Every other object stays as it
/// is, and so does what the open levels restore. Kept supports that the object still has are not
/// sought again, and what is found is kept, as far as there are slots. Of hints nothing need be
/// known: each is tried before a point is sought, and what is found is the next hint of its slot.
/// The events that are added are a chain from the old state to the new one, or, where no point is
/// left, one that is closed by the node of the object, which is gone. The only error is want of
/// memory, and then a refusal was counted.
pub fn prune_kept<const K: usize, I: Indexical<K>, R: Recorder>(
    t: &mut Trailed<K>,
    o: ObjId,
    list: &[I],
    picks: &[u32],
    rows: Option<&Rows>,
    kept: &mut [Option<Placed<K>>],
    hints: &mut [Option<Placed<K>>],
    rec: &mut R,
) -> Result<Pruned, AllocError>
    requires k { (0 < K) × (K ≤ MAX_DIMS) }
    requires fits { AllFit (map I.cond list.now) t.old.state }
    requires object { o.0 < length t.old.state }
    requires picks { ArePicks (length list.now) picks.now }
    requires rows { IfSome rows (λ r. AreRows (map I.cond list.now) o.0 picks.now r.now) }
    requires kept { AllSupport (picked (map I.cond list.now) picks.now) t.old.state o.0 kept.old }
    ensures pruned { IfOk result (λ a. PrunesTo (picked (map I.cond list.now) picks.now) o.0
        t.old.state a t.new.state) }
    ensures alone { SameBut o.0 t.old.state t.new.state × Inside t.new.state t.old.state }
    ensures kept { AllSupport (picked (map I.cond list.now) picks.now) t.new.state o.0 kept.new }
    ensures slots { length kept.new ≡ length kept.old }
    ensures hints { length hints.new ≡ length hints.old }
    ensures levels { (t.new.levels ≡ t.old.levels) × (t.new.restores ≡ t.old.restores) }
    ensures record { IfOk result (λ a. R.keeps ≡ true → (es : List Event)
        × (R.list rec.new ≡ R.list rec.old ++ es)
        × AreEventsOfPruning (map I.cond list.now) t.old.state a t.new.state es) }
    ensures gone { IfOk result (λ a. a ≡ Pruned.Empty → R.keeps ≡ true
        → IsClosedByGone (map I.cond list.now) t.old.state o.0 (R.list rec.old) (R.list rec.new)) }
    ensures grows { Grows R.keeps R.list R.refusals rec.old rec.new result }
{
    if is_settled(t.state(), o, kept) {
        return Ok(Pruned::Same);
    }
    let places = drop_places(t, o, list, picks, rows, kept, hints, rec)?;
    if !places.some {
        record_gone(o, rec)?;
        return Ok(Pruned::Empty);
    }
    let moved = move_ends(t, o, list, picks, rows, kept, hints, rec)?;
    Ok(changed_or_same(places.dropped, moved))
}

// What a pruning gives that left a point.
fn changed_or_same(dropped: bool, moved: bool) -> Pruned
    ensures { result ≡ outcome (dropped || moved) }
{
    if dropped | moved {
        Pruned::Changed
    } else {
        Pruned::Same
    }
}

/// Prunes the object as `prune_kept` does, and keeps no support.
pub fn prune_object<const K: usize, I: Indexical<K>, R: Recorder>(
    t: &mut Trailed<K>,
    o: ObjId,
    list: &[I],
    picks: &[u32],
    rec: &mut R,
) -> Result<Pruned, AllocError>
    requires k { (0 < K) × (K ≤ MAX_DIMS) }
    requires fits { AllFit (map I.cond list.now) t.old.state }
    requires object { o.0 < length t.old.state }
    requires picks { ArePicks (length list.now) picks.now }
    ensures pruned { IfOk result (λ a. PrunesTo (picked (map I.cond list.now) picks.now) o.0
        t.old.state a t.new.state) }
    ensures alone { SameBut o.0 t.old.state t.new.state × Inside t.new.state t.old.state }
    ensures levels { (t.new.levels ≡ t.old.levels) × (t.new.restores ≡ t.old.restores) }
    ensures record { IfOk result (λ a. R.keeps ≡ true → (es : List Event)
        × (R.list rec.new ≡ R.list rec.old ++ es)
        × AreEventsOfPruning (map I.cond list.now) t.old.state a t.new.state es) }
    ensures gone { IfOk result (λ a. a ≡ Pruned.Empty → R.keeps ≡ true
        → IsClosedByGone (map I.cond list.now) t.old.state o.0 (R.list rec.old) (R.list rec.new)) }
    ensures grows { Grows R.keeps R.list R.refusals rec.old rec.new result }
{
    let mut kept: [Option<Placed<K>>; 0] = [];
    let mut hints: [Option<Placed<K>>; 0] = [];
    prune_kept(t, o, list, picks, None, &mut kept, &mut hints, rec)
}
