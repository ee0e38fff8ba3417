//! For each condition two objects on which it was found to rest, and for each object when it
//! changed last.

ghost use Rattle.std.specs.Prelude.{◌≡◌, ◌≢◌, ◌+◌, ◌<◌, ◌≤◌, length, map, slice_index_or, IfOk, IfSome, IsTrue};
ghost use Rattle.geo_conditions.specs.declared.cond.Cond.{Cond};
ghost use Rattle.geo_conditions.specs.Conditions.{AllFit, FitsIn};
ghost use Rattle.indexical.specs.Free.{SparesAnywhere};
ghost use Rattle.indexical.specs.Sole.{Decides};
ghost use Rattle.watches.specs.declared.watches.TheConstants.{LAST};
ghost use Rattle.watches.specs.Watches.{AddsUp, HavePlaces, Hold, HoldAnyhow, IsAdded, IsFresh, IsNoted, IsPut, IsWatched, Later, TellSpared};

use crate::parts::{Pair, rests_by, width};
use geo_base::MAX_DIMS;
use geo_conditions::{Cond, Form, ObjId, State};
use indexical::{AnyIndexical, SoleTerm, Watched, least_value_of, sole_of};
use std::alloc::{AllocError, Global};

// The clock stops at this time. What is found then is not kept, since it could not be told from
// what changed later.
const LAST: u64 = 1_000_000_000_000_000_000;

// Watches and looks have places by the numbers of their conditions, round and round. There are no
// more places than conditions, and so many at most.
const PLACES: usize = 4096;

// So often in a row no objects are found before a condition is given up.
const MOST_MISSES: u16 = 1000;

// So many parts are looked at together.
const MOST_LOOKS: usize = 500;

/// Two objects on which a condition was found to rest, and the time at which that was found.
#[derive(Clone, Copy)]
pub struct Watch {
    condition: usize,
    first: ObjId,
    second: ObjId,
    since: u64,
}

impl Watch {
    // Found at that time.
    fn of(condition: usize, pair: Pair, since: u64) -> Watch
        ensures { (result.condition ≡ condition) × (result.first ≡ pair.first)
            × (result.second ≡ pair.second) × (result.since ≡ since) }
    {
        Watch {
            condition,
            first: pair.first,
            second: pair.second,
            since,
        }
    }

    // Nothing was found yet.
    fn new() -> Watch
        ensures { result.since ≡ 0 }
    {
        Watch {
            condition: 0,
            first: ObjId(0),
            second: ObjId(0),
            since: 0,
        }
    }
}

/// Which part of a condition is looked at next, how often nothing was found in a row, an object for
/// which nothing was found, and whether something was found ever. It promises nothing.
#[derive(Clone, Copy)]
pub struct Look {
    part: u16,
    misses: u16,
    failed: Option<ObjId>,
    has_found: bool,
}

impl Look {
    // Nothing was looked at yet.
    fn new() -> Look {
        Look {
            part: 0,
            misses: 0,
            failed: None,
            has_found: false,
        }
    }

    // Whether there is no use in looking.
    fn is_hopeless(&self, o: ObjId) -> bool {
        match self.failed {
            Some(u) if u.0 == o.0 => true,
            _ => self.misses >= MOST_MISSES,
        }
    }

    // Something was found.
    fn hit(&self) -> Look {
        Look {
            part: self.part,
            misses: 0,
            failed: self.failed,
            has_found: true,
        }
    }

    // Nothing was found, so the next part is looked at next.
    fn missed(&self) -> Look {
        Look {
            part: self.part.wrapping_add(1),
            misses: self.misses.saturating_add(1),
            failed: self.failed,
            has_found: self.has_found,
        }
    }

    // Nothing was found for o in many parts. The last such object stays.
    fn failed_for(&self, o: ObjId) -> Look {
        Look {
            part: self.part,
            misses: self.misses,
            failed: Some(o),
            has_found: self.has_found,
        }
    }
}

/// What a form came to, the number of its condition, and the time at which that was so.
#[derive(Clone, Copy)]
pub struct Total {
    condition: usize,
    since: u64,
    value: i128,
}

impl Total {
    // Added up at that time.
    fn of(condition: usize, value: i128, since: u64) -> Total
        ensures { (result.condition ≡ condition) × (result.value ≡ value)
            × (result.since ≡ since) }
    {
        Total {
            condition,
            since,
            value,
        }
    }

    // Nothing was added up yet.
    fn new() -> Total
        ensures { result.since ≡ 0 }
    {
        Total {
            condition: 0,
            since: 0,
            value: 0,
        }
    }
}

/// For each condition what is watched of it: parts that spared an object last, which promise
/// nothing, and twice two objects on which it was found to rest. That is so as long as neither of
/// the two changes. Of a form it is also kept what its terms came to, which is so as long as
/// nothing changes.
pub struct Watches {
    watched: Vec<Watched>,
    looks: Vec<Look>,
    found: Vec<Watch>,
    totals: Vec<Total>,
    changed: Vec<u64>,
    clock: u64,
}

impl Drop for Watches {
    fn drop(self) {
        let Watches {
            watched: _watched,
            looks: _looks,
            found: _found,
            totals: _totals,
            changed: _changed,
            clock: _clock,
        } = self;
    }
}

impl Watches {
    /// For that many conditions and objects, with nothing found.
    pub fn start(alloc: Global, conditions: usize, objects: usize) -> Result<Watches, AllocError>
        ensures { IfOk result (HoldAnyhow conditions objects) }
    {
        let places = conditions.min(PLACES).max(1);
        let watched = Vec::from_elem(alloc, Watched::new(), conditions)?;
        let looks = Vec::from_elem(alloc, Look::new(), places)?;
        let found = Vec::from_elem(alloc, Watch::new(), 2 * places)?;
        let totals = Vec::from_elem(alloc, Total::new(), places)?;
        let changed = Vec::from_elem(alloc, 1, objects)?;
        Ok(Watches {
            watched,
            looks,
            found,
            totals,
            changed,
            clock: 1,
        })
    }

    /// The object changes.
    pub fn change(&mut self, u: usize)
        requires { u < length self.old.changed.items }
        ensures { Later (λ v. v ≢ u) self.old self.new }
    {
        if self.clock < LAST {
            self.clock += 1;
        }
        self.changed[u] = self.clock;
    }

    // When the object changed last.
    #[inline(always)]
    fn changed_at(&self, o: ObjId) -> u64
        ensures { result ≡ slice_index_or self.now.changed.items o.0 LAST }
    {
        let at = usize::from(o.0);
        if at < self.changed.len() {
            self.changed[at]
        } else {
            LAST
        }
    }

    // Whether neither of the objects of a watch changed since.
    #[inline(always)]
    fn is_fresh(&self, x: &Watch) -> bool
        ensures { IsTrue result → IsFresh self.now x.now }
    {
        if self.changed_at(x.first) <= x.since {
            self.changed_at(x.second) <= x.since
        } else {
            false
        }
    }

    // Whether the k-th watch tells that the i-th condition spares the object.
    #[inline(always)]
    fn tells(&self, k: usize, i: usize, o: ObjId) -> bool
        requires { k < length self.now.found.items }
        ensures { IsTrue result → TellSpared self.now i o.0 }
    {
        let x = &self.found[k];
        if x.condition != i || x.first.0 == o.0 || x.second.0 == o.0 {
            return false;
        }
        self.is_fresh(x)
    }

    /// Whether the i-th condition is known to spare the object: it rests on two others, which did
    /// not change since that was found.
    pub fn is_known_to_spare(&self, i: usize, o: ObjId) -> bool
        requires { HavePlaces self.now }
        ensures { IsTrue result → TellSpared self.now i o.0 }
    {
        let places = self.looks.len();
        let k = i % places;
        if self.tells(k, i, o) {
            return true;
        }
        self.tells(k + places, i, o)
    }

    // Puts another watch in place of the k-th one.
    fn put(&mut self, k: usize, x: Watch)
        requires { k < length self.old.found.items }
        ensures { IsPut k x self.old self.new }
    {
        self.found[k] = x;
    }

    // Puts another look in place of the k-th one.
    fn note(&mut self, k: usize, x: Look)
        requires { k < length self.old.looks.items }
        ensures { IsNoted self.old self.new }
    {
        self.looks[k] = x;
    }

    // Watches two objects on which the i-th condition was found to rest now. Another watch of it
    // that is fresh is kept.
    fn watch(&mut self, i: usize, pair: Pair)
        requires { HavePlaces self.old }
        ensures { IsWatched i pair.first.0 pair.second.0 self.old self.new }
    {
        if self.clock >= LAST {
            return;
        }
        let places = self.looks.len();
        let k = i % places;
        let old = self.found[k];
        let is_kept = old.condition == i && self.is_fresh(&old);
        let at = if is_kept { k + places } else { k };
        let x = Watch::of(i, pair, self.clock);
        self.put(at, x);
    }

    // Looks at a part of the i-th condition, which has so many, for objects other than o on which it rests, and watches them. The
    // answer is whether there are such.
    fn look<const K: usize>(
        &mut self,
        list: &[AnyIndexical<K>],
        i: usize,
        parts: usize,
        s: &State<K>,
        o: ObjId,
    ) -> bool
        requires k { K ≤ MAX_DIMS }
        requires fits { AllFit (map (λ x. x.cond) list.now) s.now }
        requires condition { i < length list.now }
        requires parts { 0 < parts }
        requires hold { Hold (map (λ x. x.cond) list.now) s.now self.old }
        ensures spares { IsTrue result → (c : Cond)
            → SparesAnywhere (slice_index_or (map (λ x. x.cond) list.now) i c) s.now o.0 }
        ensures hold { Hold (map (λ x. x.cond) list.now) s.now self.new }
    {
        let k = i % self.looks.len();
        let look = self.looks[k];
        match rests_by(list[i].cond(), usize::from(look.part) % parts, s, o) {
            Some(pair) => {
                self.note(k, look.hit());
                self.watch(i, pair);
                true
            }
            None => {
                self.note(k, look.missed());
                false
            }
        }
    }

    // Looks for objects other than o on which the i-th condition rests, and watches them. The
    // answer is whether there are such.
    fn find<const K: usize>(
        &mut self,
        list: &[AnyIndexical<K>],
        i: usize,
        s: &State<K>,
        o: ObjId,
    ) -> bool
        requires k { K ≤ MAX_DIMS }
        requires fits { AllFit (map (λ x. x.cond) list.now) s.now }
        requires condition { i < length list.now }
        requires hold { Hold (map (λ x. x.cond) list.now) s.now self.old }
        ensures spares { IsTrue result → (c : Cond)
            → SparesAnywhere (slice_index_or (map (λ x. x.cond) list.now) i c) s.now o.0 }
        ensures hold { Hold (map (λ x. x.cond) list.now) s.now self.new }
    {
        if self.looks[i % self.looks.len()].is_hopeless(o) {
            return false;
        }
        let parts = width(list[i].cond());
        for _ in 0..parts.min(MOST_LOOKS) {
            if self.look(list, i, parts, s, o) {
                return true;
            }
        }
        let k = i % self.looks.len();
        let look = self.looks[k];
        self.note(k, look.failed_for(o));
        false
    }

    /// Whether the i-th condition surely spares the object, asked anew. Where it does, objects on
    /// which it rests are watched. Other parts are asked only where none has ever named so few
    /// objects.
    pub fn surely_spares<const K: usize>(
        &mut self,
        list: &[AnyIndexical<K>],
        i: usize,
        s: &State<K>,
        o: ObjId,
    ) -> bool
        requires k { K ≤ MAX_DIMS }
        requires fits { AllFit (map (λ x. x.cond) list.now) s.now }
        requires condition { i < length list.now }
        requires hold { Hold (map (λ x. x.cond) list.now) s.now self.old }
        ensures spares { IsTrue result → (c : Cond)
            → SparesAnywhere (slice_index_or (map (λ x. x.cond) list.now) i c) s.now o.0 }
        ensures hold { Hold (map (λ x. x.cond) list.now) s.now self.new }
    {
        if self.find(list, i, s, o) {
            return true;
        }
        if self.looks[i % self.looks.len()].has_found {
            return false;
        }
        list[i].surely_spares_watched(s, o, &mut self.watched[i])
    }

    // Puts another total in place of the k-th one.
    fn put_total(&mut self, k: usize, x: Total)
        requires { k < length self.old.totals.items }
        ensures { IsAdded k x self.old self.new }
    {
        self.totals[k] = x;
    }

    // The least value of the form, which is the i-th condition. It is added up once as long as
    // nothing changes.
    fn total<const K: usize>(&mut self, f: &Form, i: usize, s: &State<K>) -> i128
        requires k { K ≤ MAX_DIMS }
        requires fits { FitsIn (Cond.Lin f.now) s.now }
        requires places { 0 < length self.old.totals.items }
        ensures { AddsUp i f.now s.now result self.old self.new }
    {
        let k = i % self.totals.len();
        let known = self.totals[k];
        if self.clock >= LAST {
            return least_value_of(f, s);
        }
        if known.condition == i && known.since == self.clock {
            return known.value;
        }
        let value = least_value_of(f, s);
        self.put_total(k, Total::of(i, value, self.clock));
        value
    }

    /// What the i-th condition comes to with the object at a point, if it is a form that has one
    /// coordinate of the object.
    pub fn sole_term<const K: usize>(
        &mut self,
        list: &[AnyIndexical<K>],
        i: usize,
        s: &State<K>,
        o: ObjId,
    ) -> Option<SoleTerm<K>>
        requires k { K ≤ MAX_DIMS }
        requires fits { AllFit (map (λ x. x.cond) list.now) s.now }
        requires object { o.0 < length s.now }
        requires condition { i < length list.now }
        requires hold { Hold (map (λ x. x.cond) list.now) s.now self.old }
        ensures decides { IfSome result (λ x. (c : Cond)
            → Decides (slice_index_or (map (λ x. x.cond) list.now) i c) s.now o.0 x) }
        ensures hold { Hold (map (λ x. x.cond) list.now) s.now self.new }
    {
        match list[i].cond() {
            Cond::Lin(f) => {
                let total = self.total(f, i, s);
                sole_of(f, total, s, o)
            }
            _ => None,
        }
    }
}
