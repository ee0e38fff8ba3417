//! What differs in two states.

ghost use Rattle.std.specs.Prelude.{◌≡◌, ◌<◌, ◌≤◌, ◌↔◌, IsTrue, length, map};
ghost use Rattle.geo_conditions.specs.Conditions.{AllFit};
ghost use Rattle.geo_conditions.specs.Reach.{high, low, reach};
ghost use Rattle.fixpoint.specs.Links.{AreLinks};
ghost use Rattle.fixpoint.specs.Marks.{IsSquare, NotesChanges};
ghost use Rattle.fixpoint.specs.Queue.{CatchesUp};
ghost use Rattle.watches.specs.Watches.{Later};

use crate::links::Links;
use crate::marks::Marks;
use crate::waking::wake;
use geo_base::MAX_DIMS;
use geo_conditions::{ObjId, State};
use indexical::AnyIndexical;
use watches::Watches;

// Whether the object has one place alone in both states, and the same one.
fn has_same_place_alone<const K: usize>(a: &State<K>, b: &State<K>, o: ObjId) -> bool
    requires k { K ≤ MAX_DIMS }
    requires first { o.0 < length a.now }
    requires second { o.0 < length b.now }
    ensures { IsTrue result → (reach a.now o.0).places ≡ (reach b.now o.0).places }
{
    let _first = a.objects();
    let _second = b.objects();
    let place = a.sole_place(o);
    if place == 0 {
        return false;
    }
    b.sole_place(o) == place
}

// Whether the object has the same places in both states.
fn has_same_places<const K: usize>(a: &State<K>, b: &State<K>, o: ObjId) -> bool
    requires k { K ≤ MAX_DIMS }
    requires first { o.0 < length a.now }
    requires second { o.0 < length b.now }
    ensures { IsTrue result ↔ ((reach a.now o.0).places ≡ (reach b.now o.0).places) }
{
    if has_same_place_alone(a, b, o) {
        return true;
    }
    a.places(o).is_same(&b.places(o))
}

// Whether both are the same number.
#[inline(always)]
fn is_same_number(v: i64, w: i64) -> bool
    ensures { IsTrue result ↔ (v ≡ w) }
{
    v == w
}

// Whether the object has the same interval in a dimension of both states.
#[inline(always)]
fn has_same_interval<const K: usize>(a: &State<K>, b: &State<K>, o: ObjId, d: usize) -> bool
    requires k { K ≤ MAX_DIMS }
    requires first { o.0 < length a.now }
    requires second { o.0 < length b.now }
    requires dimension { d < K }
    ensures { IsTrue result
        ↔ ((low a.now o.0 d ≡ low b.now o.0 d) × (high a.now o.0 d ≡ high b.now o.0 d)) }
{
    let first = a.interval(o, d);
    let second = b.interval(o, d);
    is_same_number(first.lo, second.lo) && is_same_number(first.hi, second.hi)
}

// Whether the object has the same region in both states.
fn has_same_region<const K: usize>(a: &State<K>, b: &State<K>, o: ObjId) -> bool
    requires k { K ≤ MAX_DIMS }
    requires first { o.0 < length a.now }
    requires second { o.0 < length b.now }
    ensures { IsTrue result ↔ ((reach a.now o.0).region ≡ (reach b.now o.0).region) }
{
    let _first = a.objects();
    let _second = b.objects();
    for d in 0..K {
        if !has_same_interval(a, b, o, d) {
            return false;
        }
    }
    true
}

// Whether the object is the same in both states.
fn is_same<const K: usize>(a: &State<K>, b: &State<K>, o: ObjId) -> bool
    requires k { K ≤ MAX_DIMS }
    requires first { o.0 < length a.now }
    requires second { o.0 < length b.now }
    ensures { IsTrue result ↔ (reach a.now o.0 ≡ reach b.now o.0) }
{
    has_same_region(a, b, o) && has_same_places(a, b, o)
}

/// Queues each object that differs in the two states, wakes those that it may hinder, and tells the
/// watches.
pub fn queue_changed<const K: usize>(
    list: &[AnyIndexical<K>],
    links: &Links,
    from: &State<K>,
    to: &State<K>,
    queued: &mut [bool],
    dirty: &mut [Marks],
    watches: &mut Watches,
)
    requires k { K ≤ MAX_DIMS }
    requires fits { AllFit (map (λ x. x.cond) list.now) to.now }
    requires objects { (length from.now ≡ length to.now) × (length queued.old ≡ length to.now) }
    requires links { AreLinks (map (λ x. x.cond) list.now) (length queued.old) links.now }
    requires square { IsSquare (length queued.old) dirty.old }
    requires watches { length watches.old.changed.items ≡ length to.now }
    ensures queued { CatchesUp (map (λ x. x.cond) list.now) from.now to.now queued.old queued.new }
    ensures noted { NotesChanges (map (λ x. x.cond) list.now) from.now to.now dirty.old dirty.new }
    ensures square { IsSquare (length queued.old) dirty.new }
    ensures later { Later (λ o. reach from.now o ≡ reach to.now o) watches.old watches.new }
{
    let _objects = from.objects();
    for u in 0..queued.len() {
        if !is_same(from, to, ObjId(u as u16)) {
            queued[u] = true;
            watches.change(u);
            wake(list, links, u, to, queued, dirty);
        }
    }
}
