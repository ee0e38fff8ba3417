//! The record of a sweep: one chain of cuts for each dimension by significance, with an open part at
//! its end. Between two chains stands a cut that holds a place; its number is set when the chain
//! behind it is complete.

ghost use Rattle.std.specs.Prelude.{◌≡◌, ◌≢◌, ℕ, ◌+◌, ◌-◌, ◌<◌, ◌≤◌, pos, ℤ, ◌+ℤ◌, ◌≤ℤ◌, Bool, true, List, [], ◌∷◌, ◌++◌, length, OnOk, IfOk};
ghost use Rattle.geo_base.specs.Boxes.{Has};
ghost use Rattle.geo_base.specs.Ways.{dimension, key, end};
ghost use Rattle.derivation.specs.declared.event.Event.{Event};
ghost use Rattle.derivation.specs.Events.{Grows, GrowsFrom};
ghost use Rattle.sweep.specs.Chains.{IsCutBefore, IsOpen, IsOpenAtJump, SomeOpenAtJump, SomeOpenBy};
ghost use Rattle.sweep.specs.Jump.{IsSmallJump};

use crate::marks::Marks;
use derivation::{Event, Recorder, Side};
use geo_base::{KBox, Point, Way};
use std::alloc::AllocError;

/// The cut just before the jump n, in the dimension at the place `j` of significance.
#[inline(always)]
fn cut_before<const K: usize>(way: &Way<K>, n: &Point<K>, j: usize) -> Event
    requires j { j < K }
    requires small { IsSmallJump K n.now.coordinates }
    ensures { let k = key K way.now.lead way.now.up in
        IsCutBefore K way.now.up (dimension K way.now.lead j) (k n.now.coordinates j) result }
{
    let d = way.dimension(j);
    let jump = n.get(d);
    if way.up() {
        Side::Upto(d as u32, jump - 1).cut()
    } else {
        Side::From(d as u32, jump + 1).cut()
    }
}

/// Records the box of the condition `number`, up to the jump n in the least significant dimension.
#[inline(always)]
fn record_found<const K: usize, R: Recorder>(
    way: &Way<K>,
    n: &Point<K>,
    number: u32,
    rec: &mut R,
) -> Result<(), AllocError>
    requires { IsSmallJump K n.now.coordinates }
    ensures ok { let k = key K way.now.lead way.now.up in
        OnOk result (R.keeps ≡ true → (e : Event)
        × IsCutBefore K way.now.up (dimension K way.now.lead (K - 1))
        (k n.now.coordinates (K - 1)) e
        × (R.list rec.new ≡ R.list rec.old ++ (e ∷ Event.By number ∷ []))) }
    ensures few { R.keeps ≡ true → length (R.list rec.new) ≤ length (R.list rec.old) + 2 }
    ensures grows { Grows R.keeps R.list R.refusals rec.old rec.new result }
{
    rec.add(cut_before(way, n, K - 1))?;
    rec.add(Event::By(number))?;
    Ok(())
}

/// Closes the chains that ran out at the jump n, from the least significant one on. The answer is
/// the place of the first one that did not, or 0.
fn close_chains<const K: usize, R: Recorder>(
    way: &Way<K>,
    first: &Point<K>,
    past: &Point<K>,
    n: &Point<K>,
    marks: &Marks<K>,
    rec: &mut R,
) -> Result<usize, AllocError>
    requires small { IsSmallJump K n.now.coordinates }
    requires recorded { let k = key K way.now.lead way.now.up in
        R.keeps ≡ true → SomeOpenAtJump K way.now.lead way.now.up (k first.now.coordinates)
        (k past.now.coordinates) (k n.now.coordinates) marks.now.places (R.list rec.old) }
    ensures level { IfOk result (λ j. j < K) }
    ensures ran_out { let k = key K way.now.lead way.now.up in
        IfOk result (λ j. (i : ℕ) → j < i → i < K
        → k n.now.coordinates i ≡ k past.now.coordinates i) }
    ensures more { let k = key K way.now.lead way.now.up in
        IfOk result (λ j. 0 < j → k n.now.coordinates j ≢ k past.now.coordinates j) }
    ensures recorded { let k = key K way.now.lead way.now.up in
        let first = k first.now.coordinates in let past = k past.now.coordinates in
        IfOk result (λ j. R.keeps ≡ true
        → (T : ℕ → List ℤ → List ℤ → Bool) (base : List Event) (c : ℕ → ℤ)
        → IsOpenAtJump K way.now.lead way.now.up T first past (K - 1) c (k n.now.coordinates)
        marks.now.places base (R.list rec.old)
        → IsOpenAtJump K way.now.lead way.now.up T first past j c (k n.now.coordinates)
        marks.now.places base (R.list rec.new)) }
    ensures length { IfOk result (λ j. R.keeps ≡ true
        → length (R.list rec.new) + j ≡ length (R.list rec.old) + (K - 1)) }
    ensures few { R.keeps ≡ true
        → length (R.list rec.new) ≤ length (R.list rec.old) + (K - 1) }
    ensures grows { let k = key K way.now.lead way.now.up in
        let first = k first.now.coordinates in let past = k past.now.coordinates in
        (T : ℕ → List ℤ → List ℤ → Bool) (base : List Event) (c : ℕ → ℤ) → (R.keeps ≡ true
        → IsOpenAtJump K way.now.lead way.now.up T first past (K - 1) c (k n.now.coordinates)
        marks.now.places base (R.list rec.old))
        → GrowsFrom R.keeps R.list R.refusals base rec.old rec.new result }
{
    let mut j = K - 1;
    while j > 0 && way.same_at(n, past, j) {
        rec.add(Event::By(1))?;
        j -= 1;
        rec.set(marks.get(j), cut_before(way, n, j));
    }
    Ok(j)
}

/// Opens an empty chain for each dimension that is less significant than the one at the place `j`.
pub fn open_chains<const K: usize, R: Recorder>(
    way: &Way<K>,
    first: &Point<K>,
    past: &Point<K>,
    c: &Point<K>,
    n: &Point<K>,
    j: usize,
    marks: &mut Marks<K>,
    rec: &mut R,
) -> Result<(), AllocError>
    requires small { IsSmallJump K n.now.coordinates }
    requires level { j < K }
    requires fresh { let k = key K way.now.lead way.now.up in
        (i : ℕ) → j < i → i < K → k c.now.coordinates i ≡ k first.now.coordinates i }
    ensures recorded { let k = key K way.now.lead way.now.up in
        let first = k first.now.coordinates in let past = k past.now.coordinates in
        OnOk result (R.keeps ≡ true → (T : ℕ → List ℤ → List ℤ → Bool) (base : List Event)
        → IsOpen K way.now.lead way.now.up T first past j (k c.now.coordinates)
        (k n.now.coordinates) marks.old.places base (R.list rec.old)
        → IsOpen K way.now.lead way.now.up T first past (K - 1) (k c.now.coordinates)
        (k n.now.coordinates) marks.new.places base (R.list rec.new)) }
    ensures length { OnOk result (R.keeps ≡ true
        → length (R.list rec.new) + j ≡ length (R.list rec.old) + (K - 1)) }
    ensures few { R.keeps ≡ true
        → length (R.list rec.new) + j ≤ length (R.list rec.old) + (K - 1) }
    ensures grows { Grows R.keeps R.list R.refusals rec.old rec.new result }
{
    for p in j..K - 1 {
        marks.set(p, rec.mark());
        rec.add(cut_before(way, n, p))?;
    }
    Ok(())
}

/// Records the box b, which has c and was given by the condition `number`, up to the jump n, and
/// closes the chains that run out there. The answer is the place of the first one that did not, or 0.
pub fn record_turn<const K: usize, R: Recorder>(
    way: &Way<K>,
    first: &Point<K>,
    past: &Point<K>,
    number: u32,
    b: &KBox<K>,
    c: &Point<K>,
    n: &Point<K>,
    marks: &Marks<K>,
    rec: &mut R,
) -> Result<usize, AllocError>
    requires small { IsSmallJump K n.now.coordinates }
    requires has { Has K b.now.lo.coordinates b.now.hi.coordinates c.now.coordinates }
    requires drawn { let k = key K way.now.lead way.now.up in
        (i : ℕ) → i < K → k n.now.coordinates i
        ≤ℤ (k (end way.now.up b.now.lo.coordinates b.now.hi.coordinates) i +ℤ pos 1) }
    requires recorded { let k = key K way.now.lead way.now.up in
        R.keeps ≡ true → SomeOpenBy K way.now.lead way.now.up number b.now.lo.coordinates
        b.now.hi.coordinates (k first.now.coordinates) (k past.now.coordinates)
        (k c.now.coordinates) (k n.now.coordinates) marks.now.places (R.list rec.old) }
    ensures level { IfOk result (λ j. j < K) }
    ensures ran_out { let k = key K way.now.lead way.now.up in
        IfOk result (λ j. (i : ℕ) → j < i → i < K
        → k n.now.coordinates i ≡ k past.now.coordinates i) }
    ensures more { let k = key K way.now.lead way.now.up in
        IfOk result (λ j. 0 < j → k n.now.coordinates j ≢ k past.now.coordinates j) }
    ensures recorded { let k = key K way.now.lead way.now.up in
        let first = k first.now.coordinates in let past = k past.now.coordinates in
        IfOk result (λ j. R.keeps ≡ true
        → (T : ℕ → List ℤ → List ℤ → Bool) (base : List Event)
        → T number b.now.lo.coordinates b.now.hi.coordinates ≡ true
        → IsOpen K way.now.lead way.now.up T first past (K - 1) (k c.now.coordinates)
        (k n.now.coordinates) marks.now.places base (R.list rec.old)
        → IsOpenAtJump K way.now.lead way.now.up T first past j (k c.now.coordinates)
        (k n.now.coordinates) marks.now.places base (R.list rec.new)) }
    ensures length { IfOk result (λ j. R.keeps ≡ true
        → length (R.list rec.new) + j ≡ length (R.list rec.old) + (K + 1)) }
    ensures few { R.keeps ≡ true
        → length (R.list rec.new) ≤ length (R.list rec.old) + (K + 1) }
    ensures grows { let k = key K way.now.lead way.now.up in
        let first = k first.now.coordinates in let past = k past.now.coordinates in
        (T : ℕ → List ℤ → List ℤ → Bool) (base : List Event) → (R.keeps ≡ true
        → (T number b.now.lo.coordinates b.now.hi.coordinates ≡ true)
        × IsOpen K way.now.lead way.now.up T first past (K - 1) (k c.now.coordinates)
        (k n.now.coordinates) marks.now.places base (R.list rec.old))
        → GrowsFrom R.keeps R.list R.refusals base rec.old rec.new result }
{
    record_found(way, n, number, rec)?;
    match close_chains(way, first, past, n, marks, rec) {
        Err(e) => Err(e),
        Ok(j) => Ok(j),
    }
}
