//! What is needed of a derivation.
//!
//! The events are read from the last to the first. Each node then has what of the state it leans
//! on. A link that moves what its rest does not lean on may be left out, with its covers; and where
//! one part of a split does not lean on what the split moves for it, that part alone may stand for
//! both.

ghost use Rattle.std.specs.Prelude.{◌≡◌, ◌≤◌, IfOk};

use crate::leans::{Aspect, Leans};
use derivation::{Event, Log, Recorder};
use geo_base::MAX_DIMS;
use geo_conditions::{Cond, ObjId};
use std::alloc::{AllocError, Global};

/// A node: its events from `start` on and before `end`, and what it leans on.
#[derive(Clone, Copy)]
struct Span<const K: usize> {
    start: usize,
    end: usize,
    leans: Leans<K>,
}

/// What was read of a derivation, from its end.
#[derive(Drop)]
struct Backwards<'a, const K: usize> {
    conditions: &'a [Cond],
    /// The nodes that are part of no other yet, the first in the text last.
    spans: Vec<Span<K>>,
    /// What the leaves lean on of covers that belong to no node yet.
    covers: Leans<K>,
    /// Where the last list of covers ends.
    covers_end: usize,
    /// For each event how many are left out from it on, or 0 where it stays.
    gaps: Vec<u32>,
}

// What it takes to refute the condition of this number.
fn insert_number<const K: usize>(leans: &mut Leans<K>, conditions: &[Cond], i: u32) {
    if i != 0 {
        if let Some(c) = conditions.get((i - 1) as usize) {
            leans.insert_refuted(c);
        }
    }
}

impl<'a, const K: usize> Backwards<'a, K> {
    fn start(
        alloc: Global,
        conditions: &'a [Cond],
        events: usize,
    ) -> Result<Backwards<'a, K>, AllocError> {
        Ok(Backwards {
            conditions,
            spans: Vec::new(alloc),
            covers: Leans::new(),
            covers_end: 0,
            gaps: vec![in alloc; 0; events]?,
        })
    }

    // Leaves the events out, where their number is one of 32 bits.
    fn leave_out(&mut self, start: usize, end: usize) {
        let length = end.saturating_sub(start);
        if start < self.gaps.len() && length <= u32::MAX as usize {
            self.gaps[start] = length as u32;
        }
    }

    // The covers that were read belong to a node of this object. They lean on its region, and at
    // their leaves it is put at a place.
    fn close_covers(&mut self, o: ObjId) {
        self.covers.lean_on_ends(o);
    }

    // A link begins at `start` that moves an aspect of the object, and its covers and its rest are
    // read. It says whether there is a rest.
    fn link(&mut self, start: usize, o: ObjId, moved: Aspect) -> bool {
        let Some(last) = self.spans.len().checked_sub(1) else {
            return false;
        };
        let rest = &mut self.spans[last];
        let behind = rest.start;
        rest.start = start;
        if rest.leans.has(o, moved) {
            rest.leans.join(&self.covers);
        } else {
            self.leave_out(start, behind);
        }
        self.covers = Leans::new();
        true
    }

    // A link that moves one end of an interval. Its covers end below the other end.
    fn bound(&mut self, start: usize, o: ObjId, moved: Aspect, other: Aspect) -> bool {
        self.close_covers(o);
        self.covers.insert(o, Aspect::Places);
        self.covers.remove(o, other);
        self.link(start, o, moved)
    }

    // A list of covers at `start` shows that the object has no point.
    fn gone(&mut self, start: usize, o: ObjId) -> Result<bool, AllocError> {
        self.close_covers(o);
        self.covers.insert(o, Aspect::Places);
        let leans = self.covers;
        self.covers = Leans::new();
        let end = self.covers_end;
        self.spans.push(Span { start, end, leans })?;
        Ok(true)
    }

    // A split of the object stands at `start`, which moves one aspect for its first part and one
    // for the second, and both parts are read.
    fn split(
        &mut self,
        start: usize,
        o: ObjId,
        in_first: Aspect,
        in_second: Aspect,
    ) -> Result<bool, AllocError> {
        let Some(first) = self.spans.pop() else {
            return Ok(false);
        };
        let Some(second) = self.spans.pop() else {
            return Ok(false);
        };
        let leans = if !first.leans.has(o, in_first) {
            self.leave_out(start, first.start);
            self.leave_out(second.start, second.end);
            first.leans
        } else if !second.leans.has(o, in_second) {
            self.leave_out(start, second.start);
            second.leans
        } else {
            of_both(o, (first.leans, in_first), (second.leans, in_second))
        };
        let end = second.end;
        self.spans.push(Span { start, end, leans })?;
        Ok(true)
    }

    // Takes the event before those that were read. It says whether they can be the end of a
    // derivation.
    fn take(&mut self, start: usize, end: usize, e: Event) -> Result<bool, AllocError> {
        match e {
            Event::SplitShape(o, _) => self.split(start, o, Aspect::Places, Aspect::Places),
            Event::SplitUpto(o, d, _) => self.split(start, o, high(d), low(d)),
            Event::SplitFrom(o, d, _) => self.split(start, o, low(d), high(d)),
            Event::Raise(o, d, _) => Ok(self.bound(start, o, low(d), high(d))),
            Event::Lower(o, d, _) => Ok(self.bound(start, o, high(d), low(d))),
            Event::Drop(o, _) => {
                self.close_covers(o);
                Ok(self.link(start, o, Aspect::Places))
            }
            Event::Gone(o) => self.gone(start, o),
            Event::Dead(i) => {
                let mut leans = Leans::new();
                insert_number(&mut leans, self.conditions, i);
                self.spans.push(Span { start, end, leans })?;
                Ok(true)
            }
            Event::By(i) => {
                insert_number(&mut self.covers, self.conditions, i);
                Ok(true)
            }
            Event::EndCovers => {
                self.covers_end = end;
                Ok(true)
            }
            Event::Cover(_) | Event::Cut(_, _) | Event::CutFrom(_, _) => Ok(true),
        }
    }
}

// The low end in a dimension that an event names.
fn low(d: u32) -> Aspect {
    Aspect::Low(d as usize)
}

// The high end in it.
fn high(d: u32) -> Aspect {
    Aspect::High(d as usize)
}

// What both parts of a split of the object lean on. The first part has the place or the end that
// the split gives it, whatever it was before, and the second part has the end.
fn of_both<const K: usize>(
    o: ObjId,
    (first, in_first): (Leans<K>, Aspect),
    (second, in_second): (Leans<K>, Aspect),
) -> Leans<K> {
    let (mut leans, mut others) = (first, second);
    leans.remove(o, in_first);
    match in_second {
        Aspect::Places => {}
        Aspect::Low(_) | Aspect::High(_) => others.remove(o, in_second),
    }
    leans.join(&others);
    leans
}

// Puts an event of the record where another one stands.
fn put_at(log: &mut Log, to: usize, from: usize) {
    let events = log.events();
    if to < events.len() && from < events.len() {
        let e = events[from];
        log.set(to, e);
    }
}

// Takes out of the record what the gaps leave out.
fn leave_out(log: &mut Log, gaps: &[u32]) {
    let mut next: usize = 0;
    let mut stays: usize = 0;
    for (at, gap) in gaps.iter().enumerate() {
        if next <= at {
            if *gap > 0 {
                next = at.saturating_add(*gap as usize);
            } else {
                put_at(log, stays, at);
                stays = stays.saturating_add(1);
            }
        }
    }
    let end = stays.min(log.mark());
    log.cut_back(end);
}

/// The same events in a record of their own.
pub fn copied(alloc: Global, events: &[Event]) -> Result<Log, AllocError>
    ensures { IfOk result (λ copy. copy.events ≡ events.now) }
{
    let mut copy = Log::new(alloc);
    for e in events {
        copy.add(*e)?;
    }
    Ok(copy)
}

// For each event how many are left out from it on, or 0 where it stays; none where the events are
// no derivation.
fn gaps_of<const K: usize>(
    alloc: Global,
    conditions: &[Cond],
    events: &[Event],
) -> Result<Option<Vec<u32>>, AllocError>
    requires { K ≤ MAX_DIMS }
{
    let mut read = Backwards::<K>::start(alloc, conditions, events.len())?;
    let mut end = events.len();
    for e in events.iter().rev() {
        let start = end.saturating_sub(1);
        if !read.take(start, end, *e)? {
            return Ok(None);
        }
        end = start;
    }
    Ok(Some(read.gaps))
}

/// Takes out of a derivation what no later step leans on. What is no derivation is left as it is.
pub fn drop_needless<const K: usize>(
    alloc: Global,
    conditions: &[Cond],
    log: &mut Log,
) -> Result<(), AllocError>
    requires { K ≤ MAX_DIMS }
{
    if let Some(gaps) = gaps_of::<K>(alloc, conditions, log.events())? {
        leave_out(log, gaps.as_slice());
    }
    Ok(())
}
