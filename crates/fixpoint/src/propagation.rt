//! Propagation by a queue of objects.

ghost use Rattle.std.specs.Prelude.{◌≡◌, ◌+◌, ◌-◌, ◌^◌, ◌<◌, ◌≤◌, ◌≢◌, ℕ, false, true, List, length, map, min, IfOk, IfSome, IsOk, OnErr, MatchOption};
ghost use Rattle.std.specs.List.{AllPairs};
ghost use Rattle.geo_conditions.specs.declared.cond.Cond.{Cond};
ghost use Rattle.geo_base.specs.declared.TheConstants.{MAX_DIMS};
ghost use Rattle.geo_conditions.specs.Conditions.{AllFit};
ghost use Rattle.geo_conditions.specs.Reach.{Inside};
ghost use Rattle.geo_conditions.specs.Supported.{NoneRefuted};
ghost use Rattle.derivation.specs.Covers.{refutes};
ghost use Rattle.derivation.specs.Events.{Grows};
ghost use Rattle.geo_state.specs.Settle.{BlamesFirst, Records, SettlesOr};
ghost use Rattle.sweep.specs.Picks.{ArePicks, picked};
ghost use Rattle.object_pruning.specs.Same.{SameBut};
ghost use Rattle.fixpoint.specs.Kept.{AllStand, Stand, StandsAlone};
ghost use Rattle.fixpoint.specs.Links.{AreLinks, row};
ghost use Rattle.fixpoint.specs.Marks.{IsSquare};
ghost use Rattle.fixpoint.specs.Near.{BarePossible, Unhindered};
ghost use Rattle.fixpoint.specs.Queue.{Prunes, Queues, RestFine};
ghost use Rattle.fixpoint.specs.Record.{NoneLower, RecordsPruning};
ghost use Rattle.watches.specs.Watches.{Hold};

use crate::differences::queue_changed;
use crate::kept::{all_blank, blank_slots, refresh};
use crate::links::{Links, links_of};
use crate::marks::Marks;
use crate::queue::pop;
use crate::waking::{no_marks, wake};
use derivation::{Event, Recorder};
use geo_base::{KBox, MAX_DIMS, Point};
use geo_conditions::{MAX_OBJECTS, ObjId, State};
use geo_state::{Propagate, Settled, Trailed};
use indexical::AnyIndexical;
use object_pruning::{Placed, Pruned, prune_kept, slots};
use std::alloc::{AllocError, Global};
use watches::Watches;

// The number of the first picked condition that is refuted on the state.
fn first_refuted<const K: usize>(
    list: &[AnyIndexical<K>],
    picks: &[u32],
    s: &State<K>,
) -> Option<u32>
    requires k { K ≤ MAX_DIMS }
    requires fits { AllFit (map (λ x. x.cond) list.now) s.now }
    requires picks { ArePicks (length list.now) picks.now }
    requires rising { AllPairs (λ i j. i < j) picks.now }
    ensures found { MatchOption result
        (NoneRefuted (picked (map (λ x. x.cond) list.now) picks.now) s.now)
        (λ i. refutes (map (λ x. x.cond) list.now) i s.now ≡ true) }
    ensures first { IfSome result
        (NoneLower (map (λ x. x.cond) list.now) picks.now s.now) }
{
    for pick in picks {
        if list[*pick as usize - 1].refuted(s) {
            return Some(*pick);
        }
    }
    None
}

// Prunes an object by the conditions that name it, with what is kept of it. The error is want of
// memory for the record.
fn prune_linked<const K: usize, R: Recorder>(
    list: &[AnyIndexical<K>],
    links: &Links,
    o: usize,
    t: &mut Trailed<K>,
    kept: &mut [Vec<Option<Placed<K>>>],
    hints: &mut [Option<Placed<K>>],
    rec: &mut R,
) -> Result<Pruned, AllocError>
    requires k { (0 < K) × (K ≤ MAX_DIMS) }
    requires fits { AllFit (map (λ x. x.cond) list.now) t.old.state }
    requires object { (o < length t.old.state) × (length kept.old ≡ length t.old.state) }
    requires links { AreLinks (map (λ x. x.cond) list.now) (length t.old.state) links.now }
    requires stand { Stand (map (λ x. x.cond) list.now) t.old.state o (row kept.old o) }
    ensures pruned { IfOk result (λ a.
        Prunes (map (λ x. x.cond) list.now) t.old.state o a t.new.state) }
    ensures alone { SameBut o t.old.state t.new.state × Inside t.new.state t.old.state }
    ensures levels { (t.new.levels ≡ t.old.levels) × (t.new.restores ≡ t.old.restores) }
    ensures stand { StandsAlone (map (λ x. x.cond) list.now) t.new.state o kept.old kept.new }
    ensures record { IfOk result (λ a. R.keeps ≡ true
        → RecordsPruning (map (λ x. x.cond) list.now) t.old.state a t.new.state
        (R.list rec.old) (R.list rec.new)) }
    ensures grows { Grows R.keeps R.list R.refusals rec.old rec.new result }
{
    let _objects = t.state().objects();
    let picks = &links.picks[o];
    let rows = Some(&links.rows[o]);
    prune_kept(
        t,
        ObjId(o as u16),
        list,
        picks,
        rows,
        &mut kept[o],
        hints,
        rec,
    )
}

// Prunes an object, after what is kept of it was asked again. Where it changed, the neighbours that
// it may hinder are woken; so are they after an error.
fn prune_and_wake<const K: usize, R: Recorder>(
    list: &[AnyIndexical<K>],
    links: &Links,
    o: usize,
    t: &mut Trailed<K>,
    queued: &mut [bool],
    dirty: &mut [Marks],
    watches: &mut Watches,
    kept: &mut [Vec<Option<Placed<K>>>],
    hints: &mut [Option<Placed<K>>],
    rec: &mut R,
) -> Result<Pruned, AllocError>
    requires k { (0 < K) × (K ≤ MAX_DIMS) }
    requires fits { AllFit (map (λ x. x.cond) list.now) t.old.state }
    requires object { (o < length t.old.state) × (length kept.old ≡ length t.old.state)
        × (length queued.old ≡ length t.old.state) }
    requires links { AreLinks (map (λ x. x.cond) list.now) (length t.old.state) links.now }
    requires square { IsSquare (length t.old.state) dirty.old }
    requires hold { Hold (map (λ x. x.cond) list.now) t.old.state watches.old }
    requires stand { AllStand (map (λ x. x.cond) list.now) t.old.state dirty.old kept.old }
    ensures pruned { IfOk result (λ a.
        Prunes (map (λ x. x.cond) list.now) t.old.state o a t.new.state) }
    ensures alone { SameBut o t.old.state t.new.state × Inside t.new.state t.old.state }
    ensures levels { (t.new.levels ≡ t.old.levels) × (t.new.restores ≡ t.old.restores) }
    ensures same { result ≡ Ok Pruned.Same → queued.new ≡ queued.old }
    ensures woken { result ≢ Ok Pruned.Same → Queues
        (Unhindered (map (λ x. x.cond) list.now) t.new.state o) o queued.old queued.new }
    ensures square { IsSquare (length t.old.state) dirty.new }
    ensures stand { AllStand (map (λ x. x.cond) list.now) t.new.state dirty.new kept.new }
    ensures hold { Hold (map (λ x. x.cond) list.now) t.new.state watches.new }
    ensures record { IfOk result (λ a. R.keeps ≡ true
        → RecordsPruning (map (λ x. x.cond) list.now) t.old.state a t.new.state
        (R.list rec.old) (R.list rec.new)) }
    ensures grows { Grows R.keeps R.list R.refusals rec.old rec.new result }
{
    refresh(list, links, o, t.state(), dirty, watches, kept);
    let pruned = prune_linked(list, links, o, t, kept, hints, rec);
    match pruned {
        Ok(Pruned::Same) => {}
        _ => {
            watches.change(o);
            wake(list, links, o, t.state(), queued, dirty);
        }
    }
    pruned
}

// Prunes the queued objects until none is left. An object comes back where one changed that may
// hinder it. At a dead end, and after an error, it is queued again itself.
fn prune_queued<const K: usize, R: Recorder>(
    list: &[AnyIndexical<K>],
    links: &Links,
    queued: &mut [bool],
    dirty: &mut [Marks],
    t: &mut Trailed<K>,
    watches: &mut Watches,
    kept: &mut [Vec<Option<Placed<K>>>],
    hints: &mut [Option<Placed<K>>],
    rec: &mut R,
) -> Result<Settled, AllocError>
    requires k { (0 < K) × (K ≤ MAX_DIMS) }
    requires fits { AllFit (map (λ x. x.cond) list.now) t.old.state }
    requires objects { (length queued.old ≡ length t.old.state)
        × (length kept.old ≡ length t.old.state) }
    requires links { AreLinks (map (λ x. x.cond) list.now) (length queued.old) links.now }
    requires bare { BarePossible (map (λ x. x.cond) list.now) t.old.state }
    requires fine { RestFine (map (λ x. x.cond) list.now) t.old.state queued.old }
    requires square { IsSquare (length queued.old) dirty.old }
    requires hold { Hold (map (λ x. x.cond) list.now) t.old.state watches.old }
    requires stand { AllStand (map (λ x. x.cond) list.now) t.old.state dirty.old kept.old }
    ensures settles { SettlesOr (map (λ x. x.cond) list.now) t.old.state result t.new.state }
    ensures levels { (t.new.levels ≡ t.old.levels) × (t.new.restores ≡ t.old.restores) }
    ensures fine { RestFine (map (λ x. x.cond) list.now) t.new.state queued.new }
    ensures square { IsSquare (length queued.old) dirty.new }
    ensures stand { AllStand (map (λ x. x.cond) list.now) t.new.state dirty.new kept.new }
    ensures hold { Hold (map (λ x. x.cond) list.now) t.new.state watches.new }
    ensures record { IfOk result (λ a. R.keeps ≡ true
        → Records (map (λ x. x.cond) list.now) t.old.state a t.new.state
        (R.list rec.old) (R.list rec.new)) }
    ensures grows { Grows R.keeps R.list R.refusals rec.old rec.new result }
{
    let mut next = 0;
    while let Some(o) = pop(queued, next) {
        next = o + 1;
        match prune_and_wake(list, links, o, t, queued, dirty, watches, kept, hints, rec) {
            Ok(Pruned::Same) => {}
            Ok(Pruned::Changed) => {}
            Ok(Pruned::Empty) => {
                queued[o] = true;
                return Ok(Settled::Dead);
            }
            Err(e) => {
                queued[o] = true;
                return Err(e);
            }
        }
    }
    Ok(Settled::Kept)
}

// Settles the state. Besides what was queued before, it begins with what differs from the last
// state, which becomes the state that it leaves.
fn settle<const K: usize, R: Recorder>(
    list: &[AnyIndexical<K>],
    links: &Links,
    last: &mut State<K>,
    queued: &mut [bool],
    dirty: &mut [Marks],
    watches: &mut Watches,
    kept: &mut [Vec<Option<Placed<K>>>],
    hints: &mut [Option<Placed<K>>],
    t: &mut Trailed<K>,
    rec: &mut R,
) -> Result<Settled, AllocError>
    requires k { (0 < K) × (K ≤ MAX_DIMS) }
    requires fits { AllFit (map (λ x. x.cond) list.now) t.old.state }
    requires objects { (length queued.old ≡ length t.old.state)
        × (length last.old ≡ length t.old.state) × (length kept.old ≡ length t.old.state) }
    requires links { AreLinks (map (λ x. x.cond) list.now) (length queued.old) links.now }
    requires fine { RestFine (map (λ x. x.cond) list.now) last.old queued.old }
    requires square { IsSquare (length queued.old) dirty.old }
    requires hold { Hold (map (λ x. x.cond) list.now) last.old watches.old }
    requires stand { AllStand (map (λ x. x.cond) list.now) last.old dirty.old kept.old }
    ensures settles { SettlesOr (map (λ x. x.cond) list.now) t.old.state result t.new.state }
    ensures levels { (t.new.levels ≡ t.old.levels) × (t.new.restores ≡ t.old.restores) }
    ensures objects { length last.new ≡ length last.old }
    ensures fine { RestFine (map (λ x. x.cond) list.now) last.new queued.new }
    ensures square { IsSquare (length queued.old) dirty.new }
    ensures stand { AllStand (map (λ x. x.cond) list.now) last.new dirty.new kept.new }
    ensures hold { Hold (map (λ x. x.cond) list.now) last.new watches.new }
    ensures record { IfOk result (λ a. R.keeps ≡ true
        → Records (map (λ x. x.cond) list.now) t.old.state a t.new.state
        (R.list rec.old) (R.list rec.new)) }
    ensures blame { IfOk result (λ a. R.keeps ≡ true
        → BlamesFirst (map (λ x. x.cond) list.now) t.old.state (R.list rec.old) (R.list rec.new)) }
    ensures grows { Grows R.keeps R.list R.refusals rec.old rec.new result }
{
    if let Some(i) = first_refuted(list, &links.bare, t.state()) {
        return match rec.add(Event::Dead(i)) {
            Ok(()) => Ok(Settled::Dead),
            Err(e) => Err(e),
        };
    }
    queue_changed(list, links, last, t.state(), queued, dirty, watches);
    let settled = prune_queued(list, links, queued, dirty, t, watches, kept, hints, rec);
    last.copy_from(t.state());
    settled
}

// A state of that number of objects.
fn some_state<const K: usize>(alloc: Global, objects: usize) -> Result<State<K>, AllocError>
    requires k { K ≤ MAX_DIMS }
    requires objects { objects ≤ MAX_OBJECTS }
    ensures { IfOk result (λ s. length s ≡ objects) }
{
    let mut s = State::new(alloc);
    for _ in 0..objects {
        s.add_object(1, KBox::new(Point::filled(0), Point::filled(0)))?;
    }
    Ok(s)
}

/// Propagation by a queue of objects, each pruned by sweeps for its places and for the ends of its
/// intervals. All memory but that of the record is taken at the start.
pub struct QueueFixpoint<const K: usize> {
    pub list: Vec<AnyIndexical<K>>,
    links: Links,
    last: State<K>,
    pub queued: Vec<bool>,
    dirty: Vec<Marks>,
    watches: Watches,
    kept: Vec<Vec<Option<Placed<K>>>>,
    hints: Vec<Option<Placed<K>>>,
    ghost dims: { (0 < K) × (K ≤ MAX_DIMS) },
    ghost linked: { ∥ AreLinks (map (λ x. x.cond) list.items) (length queued.items) links ∥₁ },
    ghost objects: { (length last ≡ length queued.items)
        × (length kept.items ≡ length queued.items) },
    ghost fine: { ∥ RestFine (map (λ x. x.cond) list.items) last queued.items ∥₁ },
    ghost square: { IsSquare (length queued.items) dirty.items },
    ghost watching: { Hold (map (λ x. x.cond) list.items) last watches },
    ghost stand: { AllStand (map (λ x. x.cond) list.items) last dirty.items kept.items },
}

impl<const K: usize> Drop for QueueFixpoint<K> {
    fn drop(self) {
        let QueueFixpoint {
            list: _list,
            links: _links,
            last: _last,
            queued: _queued,
            dirty: _dirty,
            watches: _watches,
            kept: _kept,
            hints: _hints,
        } = self;
    }
}

impl<const K: usize> QueueFixpoint<K> {
    /// Propagates that list of conditions on that number of objects.
    pub fn start(
        alloc: Global,
        list: Vec<AnyIndexical<K>>,
        objects: usize,
    ) -> Result<QueueFixpoint<K>, AllocError>
        requires k { (0 < K) × (K ≤ MAX_DIMS) }
        requires list { length list.items ≤ 1000000000 }
        requires objects { objects ≤ MAX_OBJECTS }
        ensures conditions { IfOk result (λ p.
            ⟦<QueueFixpoint<K> as Propagate<K>>⟧.conditions p
            ≡ map (λ x. x.cond) list.entry.items) }
        ensures objects { IfOk result (λ p.
            ⟦<QueueFixpoint<K> as Propagate<K>>⟧.objects p ≡ objects) }
    {
        let links = links_of(alloc, &list, objects)?;
        let last = some_state(alloc, objects)?;
        let queued = Vec::from_elem(alloc, true, objects)?;
        let dirty = no_marks(alloc, objects)?;
        let watches = Watches::start(alloc, list.len(), objects)?;
        let kept = all_blank(alloc, &links.rows)?;
        let hints = blank_slots(alloc, slots::<K>())?;
        Ok(QueueFixpoint {
            list,
            links,
            last,
            queued,
            dirty,
            watches,
            kept,
            hints,
        })
    }

    /// The list of conditions, at the end.
    pub fn into_list(self) -> Vec<AnyIndexical<K>>
        ensures { result ≡ self.entry.list }
    {
        let QueueFixpoint {
            list,
            links: _links,
            last: _last,
            queued: _queued,
            dirty: _dirty,
            watches: _watches,
            kept: _kept,
            hints: _hints,
        } = self;
        list
    }
}

impl<const K: usize> Propagate<K> for QueueFixpoint<K> {
    ghost conditions = { λ p. map (λ x. x.cond) p.list.items };

    ghost objects = { λ p. length p.queued.items };

    fn settle<R: Recorder>(
        &mut self,
        t: &mut Trailed<K>,
        rec: &mut R,
    ) -> Result<Settled, AllocError> {
        settle(
            &self.list,
            &self.links,
            &mut self.last,
            &mut self.queued,
            &mut self.dirty,
            &mut self.watches,
            &mut self.kept,
            &mut self.hints,
            t,
            rec,
        )
    }
}
