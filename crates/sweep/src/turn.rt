//! One turn of a sweep: the jump over a forbidden box, and what it adds to the record, so that the
//! events are at each moment a cover of what the sweep has left behind.

ghost use Rattle.std.specs.Prelude.{◌≡◌, ◌⊎◌, ℕ, ◌+◌, ◌-◌, ◌*◌, ◌≤◌, ℤ, ◌<ℤ◌, Bool, true, List, length, if◌then◌else◌, OnOk, OnErr, IfOk, MatchBool};
ghost use Rattle.geo_base.specs.Boxes.{Has};
ghost use Rattle.geo_base.specs.Ways.{IsSmallPoint, key, start};
ghost use Rattle.derivation.specs.declared.event.Event.{Event};
ghost use Rattle.derivation.specs.Events.{GrowsFrom};
ghost use Rattle.sweep.specs.Chains.{IsOpen, IsRecordOf, SomeOpen, SomeOpenBy};
ghost use Rattle.sweep.specs.Jump.{IsPlaced, IsPast};
ghost use Rattle.sweep.specs.Turned.{HasTurned};

use crate::marks::Marks;
use crate::record::{open_chains, record_turn};
use derivation::{Event, Recorder};
use geo_base::{KBox, Point, Way, advance_between};
use std::alloc::AllocError;

/// Jumps over the box b, which has c and was given by the condition `number`, and records it.
/// Ok(false) where nothing of the region is left; then the record is complete.
pub fn turn<const K: usize, R: Recorder>(
    way: &Way<K>,
    region: &KBox<K>,
    past: &Point<K>,
    number: u32,
    b: &KBox<K>,
    c: &mut Point<K>,
    n: &mut Point<K>,
    marks: &mut Marks<K>,
    rec: &mut R,
) -> Result<bool, AllocError>
    requires small { IsSmallPoint K region.now.lo.coordinates
        × IsSmallPoint K region.now.hi.coordinates }
    requires past { IsPast K way.now.up region.now.lo.coordinates region.now.hi.coordinates
        past.now.coordinates }
    requires placed { let k = key K way.now.lead way.now.up in
        IsPlaced K (k (start way.now.up region.now.lo.coordinates region.now.hi.coordinates))
        (k past.now.coordinates) (k c.old.coordinates) (k n.old.coordinates) }
    requires has { Has K b.now.lo.coordinates b.now.hi.coordinates c.old.coordinates }
    requires small_box { IsSmallPoint K b.now.lo.coordinates × IsSmallPoint K b.now.hi.coordinates }
    requires recorded { let k = key K way.now.lead way.now.up in
        let first = k (start way.now.up region.now.lo.coordinates region.now.hi.coordinates) in
        R.keeps ≡ true → SomeOpenBy K way.now.lead way.now.up number b.now.lo.coordinates
        b.now.hi.coordinates first (k past.now.coordinates)
        (k c.old.coordinates) (k n.old.coordinates) marks.old.places (R.list rec.old) }
    ensures { HasTurned K way.now.lead way.now.up R.keeps number region.now.lo.coordinates
        region.now.hi.coordinates b.now.lo.coordinates b.now.hi.coordinates past.now.coordinates
        c.old.coordinates n.old.coordinates c.new.coordinates n.new.coordinates marks.old.places
        marks.new.places (R.list rec.old) (R.list rec.new) (R.refusals rec.old)
        (R.refusals rec.new) result }
{
    let first = way.start(region);
    way.draw_in(way.end(b), n);
    match record_turn(way, first, past, number, b, c, n, marks, rec) {
        Err(e) => Err(e),
        Ok(j) => {
            if advance_between(way, first, past, c, n) {
                match open_chains(way, first, past, c, n, j, marks, rec) {
                    Err(e) => Err(e),
                    Ok(()) => Ok(true),
                }
            } else {
                match rec.add(Event::By(1)) {
                    Err(e) => Err(e),
                    Ok(()) => Ok(false),
                }
            }
        }
    }
}

/// Ends the record at the point c, at which no condition is refuted. The first chain alone is kept:
/// it covers what comes before c in the lead dimension.
pub fn stop<const K: usize, R: Recorder>(
    way: &Way<K>,
    region: &KBox<K>,
    past: &Point<K>,
    c: &Point<K>,
    n: &Point<K>,
    marks: &Marks<K>,
    rec: &mut R,
) -> Result<(), AllocError>
    requires past { IsPast K way.now.up region.now.lo.coordinates region.now.hi.coordinates
        past.now.coordinates }
    requires placed { let k = key K way.now.lead way.now.up in
        IsPlaced K (k (start way.now.up region.now.lo.coordinates region.now.hi.coordinates))
        (k past.now.coordinates) (k c.now.coordinates) (k n.now.coordinates) }
    requires recorded { let k = key K way.now.lead way.now.up in
        let first = k (start way.now.up region.now.lo.coordinates region.now.hi.coordinates) in
        R.keeps ≡ true → SomeOpen K way.now.lead way.now.up first (k past.now.coordinates)
        (k c.now.coordinates) (k n.now.coordinates) marks.now.places (R.list rec.old) }
    ensures covered { let k = key K way.now.lead way.now.up in
        let first = k (start way.now.up region.now.lo.coordinates region.now.hi.coordinates) in
        OnOk result (R.keeps ≡ true → (T : ℕ → List ℤ → List ℤ → Bool) (base : List Event)
        → IsOpen K way.now.lead way.now.up T first (k past.now.coordinates) (K - 1)
        (k c.now.coordinates) (k n.now.coordinates) marks.now.places base (R.list rec.old)
        → IsRecordOf K T base (R.list rec.new)
        (λ q. Has K region.now.lo.coordinates region.now.hi.coordinates q
        × (k q 0 <ℤ k c.now.coordinates 0))) }
    ensures few { R.keeps ≡ true → length (R.list rec.new) ≤ length (R.list rec.old) + 1 }
    ensures grows { let k = key K way.now.lead way.now.up in
        let first = k (start way.now.up region.now.lo.coordinates region.now.hi.coordinates) in
        (T : ℕ → List ℤ → List ℤ → Bool) (base : List Event) → (R.keeps ≡ true
        → IsOpen K way.now.lead way.now.up T first (k past.now.coordinates) (K - 1)
        (k c.now.coordinates) (k n.now.coordinates) marks.now.places base (R.list rec.old))
        → GrowsFrom R.keeps R.list R.refusals base rec.old rec.new result }
{
    if K > 1 {
        rec.cut_back(marks.get(0));
        match rec.add(Event::By(1)) {
            Err(e) => Err(e),
            Ok(()) => Ok(()),
        }
    } else {
        match rec.add(Event::By(1)) {
            Err(e) => Err(e),
            Ok(()) => Ok(()),
        }
    }
}
