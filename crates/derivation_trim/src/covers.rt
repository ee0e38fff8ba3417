//! Covers cut into fewer pieces.
//!
//! A box on which a condition is refuted that the cover names anyway needs no cut. Where the first
//! part of a cut is a leaf, the cut moves as far as the leaf's condition stays refuted; parts that
//! are empty then fall away.

ghost use Rattle.std.specs.Prelude.{◌≤◌, length};

use crate::reach::{far, near};
use crate::recalled::{Found, Recalled};
use crate::refuted_boxes::{Others, RefutedBoxes, lies_within, widest_within};
use derivation::{Event, Log, Recorder, Side};
use geo_base::{KBox, MAX_DIMS};
use geo_conditions::{Cond, ObjId, State, fits, refuted_at};
use std::alloc::{AllocError, Global};

/// How many conditions of a cover are tried on its parts.
const MOST_TRIED: usize = 12;

/// The object whose boxes are covered, and its place, in events that are read.
#[derive(Clone, Copy)]
pub struct Swept<'a, const K: usize> {
    pub conditions: &'a [Cond],
    pub events: &'a [Event],
    pub state: &'a State<K>,
    /// For each object the version of what is left to it.
    pub versions: &'a [u64],
    pub object: ObjId,
    pub place: u8,
}

/// A condition that is tried on the parts of a cover.
#[derive(Clone, Copy)]
struct Tried<const K: usize> {
    number: u32,
    boxes: RefutedBoxes<K>,
}

impl<'a, const K: usize> Swept<'a, K> {
    // The condition of this number, where there is one.
    fn condition(&self, i: u32) -> Option<&'a Cond> {
        if i == 0 {
            return None;
        }
        self.conditions.get((i - 1) as usize)
    }

    // What is found of the condition of this number.
    fn find(&self, number: u32) -> Found<K>
        requires { K ≤ MAX_DIMS }
    {
        let (boxes, others) = match self.condition(number) {
            Some(c) if (self.object.0 as usize) < self.state.objects() => {
                RefutedBoxes::of(c, self.state, self.object, self.place)
            }
            _ => (RefutedBoxes::Never, Others::None),
        };
        Found {
            number,
            object: self.object,
            place: self.place,
            others,
            version: 0,
            boxes,
        }
    }

    // Asks whether there is a condition of this number, and it is refuted with the object in the
    // box.
    fn ask(&self, i: u32, b: &KBox<K>) -> bool
        requires { K ≤ MAX_DIMS }
    {
        match self.condition(i) {
            Some(c) if (self.object.0 as usize) < self.state.objects() => {
                fits(c, self.state) && refuted_at(c, self.state, self.object, self.place, b)
            }
            _ => false,
        }
    }

    // Whether the condition is refuted with the object in the box.
    fn is_refuted(&self, tried: &Tried<K>, b: &KBox<K>) -> bool
        requires { K ≤ MAX_DIMS }
    {
        match &tried.boxes {
            RefutedBoxes::Never => false,
            RefutedBoxes::Within(outer) => lies_within(b, outer),
            RefutedBoxes::Asked => self.ask(tried.number, b),
        }
    }

    // A side as far from `side` towards the end of the box as bisection finds one on which the
    // condition of this number is refuted. It is taken to be refuted on `side`, and not on the whole.
    fn farthest(&self, number: u32, b: &KBox<K>, side: Side) -> Side
        requires { K ≤ MAX_DIMS }
    {
        let mut good = side;
        let mut bad = match side {
            Side::Upto(d, _) if (d as usize) < K => b.hi.get(d as usize),
            Side::From(d, _) if (d as usize) < K => b.lo.get(d as usize),
            _ => return side,
        };
        for _ in 0..64 {
            match between(good, bad) {
                None => return good,
                Some(middle) => {
                    if self.ask(number, &near(b, middle)) {
                        good = middle;
                    } else {
                        bad = number_of(middle);
                    }
                }
            }
        }
        good
    }

    // The farthest side at which the condition is still refuted on the first part.
    fn widest(&self, tried: &Tried<K>, b: &KBox<K>, side: Side) -> Side
        requires { K ≤ MAX_DIMS }
    {
        match &tried.boxes {
            RefutedBoxes::Never => side,
            RefutedBoxes::Within(outer) => widest_within(outer, b, side),
            RefutedBoxes::Asked => self.farthest(tried.number, b, side),
        }
    }
}

fn number_of(side: Side) -> i64 {
    match side {
        Side::Upto(_, v) => v,
        Side::From(_, v) => v,
    }
}

// The side in the middle between a side and the number `bad`, where another number is left between
// them.
fn between(good: Side, bad: i64) -> Option<Side> {
    match good {
        Side::Upto(d, v) => {
            let gap = bad.saturating_sub(v);
            (gap > 1).then_some(Side::Upto(d, v.saturating_add(gap / 2)))
        }
        Side::From(d, v) => {
            let gap = v.saturating_sub(bad);
            (gap > 1).then_some(Side::From(d, v.saturating_sub(gap / 2)))
        }
    }
}

// The side that a cut of a cover keeps in its first part.
fn side_of(e: Event) -> Option<Side> {
    match e {
        Event::Cut(d, v) => Some(Side::Upto(d, v)),
        Event::CutFrom(d, v) => Some(Side::From(d, v)),
        _ => None,
    }
}

// Writes the first leaf of a cover.
fn write_leaf(cover: &[Event], out: &mut Log) -> Result<(), AllocError> {
    for e in cover {
        if let Event::By(_) = e {
            return out.add(*e);
        }
    }
    Ok(())
}

/// How many of the events are the first cover.
pub fn cover_len(events: &[Event]) -> usize
    ensures { result ≤ length events.now }
{
    let mut wanted: usize = 1;
    for (at, e) in events.iter().enumerate() {
        match e {
            Event::By(_) => wanted = wanted.saturating_sub(1),
            Event::Cut(_, _) | Event::CutFrom(_, _) => wanted = wanted.saturating_add(1),
            _ => return at,
        }
        if wanted == 0 {
            return at + 1;
        }
    }
    events.len()
}

/// The events from the index on.
pub fn events_from(events: &[Event], at: usize) -> &[Event] {
    &events[at.min(events.len())..]
}

/// What makes covers simpler, with room that it uses again.
pub struct Coverer<const K: usize> {
    /// The boxes that are still to be covered, the next one last.
    boxes: Vec<KBox<K>>,
    /// Conditions that the cover names.
    tried: Vec<Tried<K>>,
    recalled: Recalled<K>,
}

impl<const K: usize> Drop for Coverer<K> {
    fn drop(self) {
        let Coverer {
            boxes: _boxes,
            tried: _tried,
            recalled: _recalled,
        } = self;
    }
}

impl<const K: usize> Coverer<K> {
    /// What makes covers by so many conditions simpler.
    pub fn start(alloc: Global, conditions: usize) -> Result<Coverer<K>, AllocError> {
        Ok(Coverer {
            recalled: Recalled::start(alloc, conditions)?,
            boxes: Vec::new(alloc),
            tried: Vec::new(alloc),
        })
    }

    // The boxes on which the condition of this number is refuted. What is found is kept.
    fn boxes_of(&mut self, swept: &Swept<K>, number: u32) -> RefutedBoxes<K>
        requires { K ≤ MAX_DIMS }
    {
        let (object, place) = (swept.object, swept.place);
        if let Some(boxes) = self.recalled.get(number, object, place, swept.versions) {
            return boxes;
        }
        let found = swept.find(number);
        let boxes = found.boxes;
        self.recalled.keep(found, swept.versions);
        boxes
    }

    // Whether the condition of this number is tried.
    fn is_tried(&self, number: u32) -> bool {
        for tried in self.tried.as_slice() {
            if tried.number == number {
                return true;
            }
        }
        false
    }

    // Notes a condition that the cover names, where there is room.
    fn note(&mut self, swept: &Swept<K>, number: u32) -> Result<(), AllocError>
        requires { K ≤ MAX_DIMS }
    {
        if self.tried.len() < MOST_TRIED && !self.is_tried(number) {
            let boxes = self.boxes_of(swept, number);
            self.tried.push(Tried { number, boxes })?;
        }
        Ok(())
    }

    // Notes the first conditions that the cover at the index names. It gives the index behind the
    // cover.
    fn gather(&mut self, swept: &Swept<K>, from: usize) -> Result<usize, AllocError>
        requires { K ≤ MAX_DIMS }
    {
        self.tried.clear();
        let events = swept.events;
        let mut wanted: usize = 1;
        for at in from..events.len() {
            match events[at] {
                Event::By(i) => {
                    self.note(swept, i)?;
                    wanted = wanted.saturating_sub(1);
                }
                Event::Cut(_, _) | Event::CutFrom(_, _) => wanted = wanted.saturating_add(1),
                _ => return Ok(at),
            }
            if wanted == 0 {
                return Ok(at + 1);
            }
        }
        Ok(events.len())
    }

    // One of these conditions that covers the whole box alone.
    fn whole(&self, swept: &Swept<K>, b: &KBox<K>) -> Option<u32>
        requires { K ≤ MAX_DIMS }
    {
        for tried in self.tried.as_slice() {
            if swept.is_refuted(tried, b) {
                return Some(tried.number);
            }
        }
        None
    }

    // The farthest side at which the condition of this number is still refuted on the first part.
    fn widest_of(&self, swept: &Swept<K>, number: u32, b: &KBox<K>, side: Side) -> Side
        requires { K ≤ MAX_DIMS }
    {
        for tried in self.tried.as_slice() {
            if tried.number == number {
                return swept.widest(tried, b, side);
            }
        }
        swept.farthest(number, b, side)
    }

    // A cut of a box that has points. It says how many of the events are done with.
    fn cut(
        &mut self,
        swept: &Swept<K>,
        cover: &[Event],
        side: Side,
        b: &KBox<K>,
        out: &mut Log,
    ) -> Result<usize, AllocError>
        requires { K ≤ MAX_DIMS }
    {
        if let Some(i) = self.whole(swept, b) {
            out.add(Event::By(i))?;
            return Ok(cover_len(cover));
        }
        let side = match cover.get(1) {
            Some(Event::By(i)) => self.widest_of(swept, *i, b, side),
            _ => side,
        };
        let (first, second) = (near(b, side), far(b, side));
        if !first.is_empty() && !second.is_empty() {
            out.add(side.cut())?;
        }
        self.boxes.push(second)?;
        self.boxes.push(first)?;
        Ok(1)
    }

    // The first event of what is left of a cover. It says how many events are done with.
    fn piece(
        &mut self,
        swept: &Swept<K>,
        cover: &[Event],
        e: Event,
        out: &mut Log,
    ) -> Result<usize, AllocError>
        requires { K ≤ MAX_DIMS }
    {
        let Some(b) = self.boxes.pop() else {
            return Ok(1);
        };
        if b.is_empty() {
            return Ok(cover_len(cover));
        }
        if let Some(side) = side_of(e) {
            return self.cut(swept, cover, side, &b, out);
        }
        out.add(e)?;
        Ok(1)
    }

    // Writes a simpler cover of a box that has points. It gives the index behind the old one.
    fn pieces(
        &mut self,
        swept: &Swept<K>,
        from: usize,
        b: &KBox<K>,
        out: &mut Log,
    ) -> Result<usize, AllocError>
        requires { K ≤ MAX_DIMS }
    {
        let end = self.gather(swept, from)?;
        self.boxes.clear();
        self.boxes.push(*b)?;
        let mut next = from;
        for _ in from..end {
            let cover = events_from(swept.events, next);
            if next >= end || cover.is_empty() {
                return Ok(end);
            }
            let done = self.piece(swept, cover, cover[0], out)?;
            next = next.saturating_add(done);
        }
        Ok(end)
    }

    /// Writes a simpler cover of the box in the place of the one at the index. It gives the index
    /// behind that one. A leaf stays as it is, and where the box has no points, the first leaf
    /// stands for all.
    pub fn simplify(
        &mut self,
        swept: &Swept<K>,
        from: usize,
        b: &KBox<K>,
        out: &mut Log,
    ) -> Result<usize, AllocError>
        requires { K ≤ MAX_DIMS }
    {
        match swept.events.get(from) {
            Some(Event::By(i)) => {
                out.add(Event::By(*i))?;
                Ok(from.saturating_add(1))
            }
            _ if b.is_empty() => {
                let rest = events_from(swept.events, from);
                let n = cover_len(rest);
                write_leaf(&rest[..n], out)?;
                Ok(from.saturating_add(n))
            }
            _ => self.pieces(swept, from, b, out),
        }
    }
}
