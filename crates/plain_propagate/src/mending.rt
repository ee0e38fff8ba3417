//! Narrows a state object by object, one defect after another, until none is left.

ghost use Rattle.std.specs.Prelude.{◌≡◌, ℕ, ◌+◌, ◌-◌, ◌^◌, ◌<◌, ◌≤◌, length, false, true, min, MatchBool, IfOk, IsOk, OnOk, OnErr};
ghost use Rattle.std.specs.List.{All};
ghost use Rattle.geo_conditions.specs.Conditions.{FitsIn};
ghost use Rattle.geo_conditions.specs.Reach.{Inside};
ghost use Rattle.geo_conditions.specs.Supported.{NoneInside};
ghost use Rattle.derivation.specs.Events.{Grows};
ghost use Rattle.plain_propagate.specs.Defects.{IsDefect, LacksPoint, LacksLow, LacksHigh};
ghost use Rattle.plain_propagate.specs.Passes.{IsNarrower, Repairs, Passes};
ghost use Rattle.derivation.specs.Chains.{IsLed, IsClosed};
ghost use Rattle.plain_propagate.specs.Recorded.{BlamesOutcome, RecordsOutcome};

use crate::defects::{Defect, object_defect};
use crate::points::first_refuted;
use crate::recording::{record_dead, record_drop, record_gone, record_lower, record_raise};
use derivation::Recorder;
use geo_base::MAX_DIMS;
use geo_conditions::{Cond, ObjId};
use geo_state::Trailed;
use std::alloc::AllocError;

/// What became of a state.
#[derive(Clone, Copy)]
pub enum Outcome {
    /// No supported state lies inside it.
    Dead,
    /// It was narrowed.
    Changed,
    /// It is as it was, and nothing is wrong with it.
    Fine,
}

/// Takes away what the defect names; not, if there is no hope.
fn mend<const K: usize, R: Recorder>(
    cs: &[Cond],
    t: &mut Trailed<K>,
    defect: Defect,
    rec: &mut R,
) -> Result<bool, AllocError>
    requires k { K ≤ MAX_DIMS }
    requires list { length cs.now ≤ 1000000000 }
    requires fits { All (λ c. FitsIn c t.old.state) cs.now }
    requires defect { IsDefect cs.now t.old.state defect }
    ensures mended { IfOk result (λ m. MatchBool m (IsNarrower cs.now t.old.state t.new.state)
        (NoneInside cs.now t.old.state × (t.new.state ≡ t.old.state))) }
    ensures same { OnErr result (t.new.state ≡ t.old.state) }
    ensures levels { (t.new.levels ≡ t.old.levels) × (t.new.restores ≡ t.old.restores) }
    ensures record { IfOk result (λ m. R.keeps ≡ true → MatchBool m
        (IsLed cs.now t.old.state t.new.state (R.list rec.old) (R.list rec.new))
        (IsClosed cs.now t.old.state (R.list rec.old) (R.list rec.new))) }
    ensures grows { Grows R.keeps R.list R.refusals rec.old rec.new result }
{
    match defect {
        Defect::Gone(o) => {
            record_gone(cs, t.state(), o, rec)?;
            Ok(false)
        }
        Defect::NoPoint(o, place) => {
            take(cs, t, o, place, rec)?;
            Ok(true)
        }
        Defect::NoLow(o, d) => {
            raise(cs, t, o, d, rec)?;
            Ok(true)
        }
        Defect::NoHigh(o, d) => {
            lower(cs, t, o, d, rec)?;
            Ok(true)
        }
    }
}

/// Takes away a place that has no point.
fn take<const K: usize, R: Recorder>(
    cs: &[Cond],
    t: &mut Trailed<K>,
    o: ObjId,
    place: u8,
    rec: &mut R,
) -> Result<(), AllocError>
    requires k { K ≤ MAX_DIMS }
    requires list { length cs.now ≤ 1000000000 }
    requires fits { All (λ c. FitsIn c t.old.state) cs.now }
    requires defect { LacksPoint cs.now t.old.state o.0 place }
    ensures narrower { OnOk result (IsNarrower cs.now t.old.state t.new.state) }
    ensures same { OnErr result (t.new.state ≡ t.old.state) }
    ensures levels { (t.new.levels ≡ t.old.levels) × (t.new.restores ≡ t.old.restores) }
    ensures led { OnOk result (R.keeps ≡ true
        → IsLed cs.now t.old.state t.new.state (R.list rec.old) (R.list rec.new)) }
    ensures grows { Grows R.keeps R.list R.refusals rec.old rec.new result }
{
    record_drop(cs, t.state(), o, place, rec)?;
    t.drop_shape(o, place);
    Ok(())
}

/// Takes away a low end that has no point.
fn raise<const K: usize, R: Recorder>(
    cs: &[Cond],
    t: &mut Trailed<K>,
    o: ObjId,
    d: usize,
    rec: &mut R,
) -> Result<(), AllocError>
    requires k { K ≤ MAX_DIMS }
    requires list { length cs.now ≤ 1000000000 }
    requires fits { All (λ c. FitsIn c t.old.state) cs.now }
    requires defect { LacksLow cs.now t.old.state o.0 d }
    ensures narrower { OnOk result (IsNarrower cs.now t.old.state t.new.state) }
    ensures same { OnErr result (t.new.state ≡ t.old.state) }
    ensures levels { (t.new.levels ≡ t.old.levels) × (t.new.restores ≡ t.old.restores) }
    ensures led { OnOk result (R.keeps ≡ true
        → IsLed cs.now t.old.state t.new.state (R.list rec.old) (R.list rec.new)) }
    ensures grows { Grows R.keeps R.list R.refusals rec.old rec.new result }
{
    let state = t.state();
    let _objects = state.objects();
    let region = state.region(o);
    let _high = region.hi.get(d);
    let low = region.lo.get(d);
    record_raise(cs, state, o, d, rec)?;
    t.set_low(o, d, low + 1);
    Ok(())
}

/// Takes away a high end that has no point.
fn lower<const K: usize, R: Recorder>(
    cs: &[Cond],
    t: &mut Trailed<K>,
    o: ObjId,
    d: usize,
    rec: &mut R,
) -> Result<(), AllocError>
    requires k { K ≤ MAX_DIMS }
    requires list { length cs.now ≤ 1000000000 }
    requires fits { All (λ c. FitsIn c t.old.state) cs.now }
    requires defect { LacksHigh cs.now t.old.state o.0 d }
    ensures narrower { OnOk result (IsNarrower cs.now t.old.state t.new.state) }
    ensures same { OnErr result (t.new.state ≡ t.old.state) }
    ensures levels { (t.new.levels ≡ t.old.levels) × (t.new.restores ≡ t.old.restores) }
    ensures led { OnOk result (R.keeps ≡ true
        → IsLed cs.now t.old.state t.new.state (R.list rec.old) (R.list rec.new)) }
    ensures grows { Grows R.keeps R.list R.refusals rec.old rec.new result }
{
    let state = t.state();
    let _objects = state.objects();
    let region = state.region(o);
    let _low = region.lo.get(d);
    let high = region.hi.get(d);
    record_lower(cs, state, o, d, rec)?;
    t.set_high(o, d, high - 1);
    Ok(())
}

/// Narrows one object until nothing is wrong with it.
fn repair<const K: usize, R: Recorder>(
    cs: &[Cond],
    t: &mut Trailed<K>,
    o: ObjId,
    rec: &mut R,
) -> Result<Outcome, AllocError>
    requires k { K ≤ MAX_DIMS }
    requires list { length cs.now ≤ 1000000000 }
    requires fits { All (λ c. FitsIn c t.old.state) cs.now }
    requires object { o.0 < length t.old.state }
    ensures repairs { IfOk result (λ a. Repairs cs.now t.old.state o.0 a t.new.state) }
    ensures inside { Inside t.new.state t.old.state }
    ensures levels { (t.new.levels ≡ t.old.levels) × (t.new.restores ≡ t.old.restores) }
    ensures record { IfOk result (λ a. R.keeps ≡ true → RecordsOutcome cs.now t.old.state a
        t.new.state (R.list rec.old) (R.list rec.new)) }
    ensures grows { Grows R.keeps R.list R.refusals rec.old rec.new result }
{
    let mut changed = false;
    while let Some(defect) = object_defect(cs, t.state(), o) {
        if !mend(cs, t, defect, rec)? {
            return Ok(Outcome::Dead);
        }
        changed = true;
    }
    if changed {
        Ok(Outcome::Changed)
    } else {
        Ok(Outcome::Fine)
    }
}

/// Narrows one object after another.
pub fn pass<const K: usize, R: Recorder>(
    cs: &[Cond],
    t: &mut Trailed<K>,
    rec: &mut R,
) -> Result<Outcome, AllocError>
    requires k { K ≤ MAX_DIMS }
    requires list { length cs.now ≤ 1000000000 }
    requires fits { All (λ c. FitsIn c t.old.state) cs.now }
    ensures passes { IfOk result (λ a. Passes cs.now t.old.state a t.new.state) }
    ensures inside { Inside t.new.state t.old.state }
    ensures levels { (t.new.levels ≡ t.old.levels) × (t.new.restores ≡ t.old.restores) }
    ensures record { IfOk result (λ a. R.keeps ≡ true → RecordsOutcome cs.now t.old.state a
        t.new.state (R.list rec.old) (R.list rec.new)) }
    ensures blame { IfOk result (λ a. R.keeps ≡ true
        → BlamesOutcome cs.now t.old.state a (R.list rec.old) (R.list rec.new)) }
    ensures grows { Grows R.keeps R.list R.refusals rec.old rec.new result }
{
    if let Some(i) = first_refuted(cs, t.state()) {
        record_dead(cs, t.state(), i, rec)?;
        return Ok(Outcome::Dead);
    }
    let mut changed = false;
    let objects = t.state().objects();
    for o in 0..objects {
        let outcome = repair(cs, t, ObjId(o as u16), rec)?;
        match outcome {
            Outcome::Dead => return Ok(Outcome::Dead),
            Outcome::Changed => changed = true,
            Outcome::Fine => {}
        }
    }
    if changed {
        Ok(Outcome::Changed)
    } else {
        Ok(Outcome::Fine)
    }
}
