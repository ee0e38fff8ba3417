//! A walk over a derivation, with the state at each node, which makes its covers simpler.

ghost use Rattle.std.specs.Prelude.{◌≤◌};

use crate::covers::{Coverer, Swept};
use crate::reach::{Reach, Reaches, far};
use derivation::{Event, Half, Log, Recorder, Side};
use geo_base::{KBox, MAX_DIMS};
use geo_conditions::{Cond, ObjId, State};
use std::alloc::{AllocError, Global};

/// An open node: what it replaced, and of a split whose first part is read how its second part is
/// made.
#[derive(Clone, Copy)]
struct OpenNode<const K: usize> {
    object: ObjId,
    held: Reach<K>,
    second: Option<Half>,
}

struct Walk<'a, const K: usize> {
    conditions: &'a [Cond],
    events: &'a [Event],
    reaches: Reaches<K>,
    nodes: Vec<OpenNode<K>>,
    coverer: Coverer<K>,
    out: Log,
}

/// Written out, since a derived one goes through all parts at each end of a function that drops a walk.
impl<const K: usize> Drop for Walk<'_, K> {
    fn drop(self) {
        let Walk {
            conditions: _,
            events: _,
            reaches: _reaches,
            nodes: _nodes,
            coverer: _coverer,
            out: _out,
        } = self;
    }
}

impl<'a, const K: usize> Walk<'a, K> {
    // What was written, at the end.
    fn into_log(self) -> Log {
        let Walk {
            conditions: _,
            events: _,
            reaches: _reaches,
            nodes: _nodes,
            coverer: _coverer,
            out,
        } = self;
        out
    }

    // On to a part of what was left to the object.
    fn enter(
        &mut self,
        object: ObjId,
        held: Reach<K>,
        part: &Reach<K>,
        second: Option<Half>,
    ) -> Result<(), AllocError>
        requires { K ≤ MAX_DIMS }
    {
        self.nodes.push(OpenNode {
            object,
            held,
            second,
        })?;
        self.reaches.put_part(object, part);
        Ok(())
    }

    // A node has ended: back to the innermost split whose second part is to come, and on to that.
    fn leave(&mut self) -> Result<(), AllocError>
        requires { K ≤ MAX_DIMS }
    {
        while let Some(node) = self.nodes.pop() {
            self.reaches.put(node.object, &node.held);
            if let Some(half) = node.second {
                let part = node.held.second(half);
                return self.enter(node.object, node.held, &part, None);
            }
        }
        Ok(())
    }

    fn split(&mut self, o: ObjId, half: Half) -> Result<(), AllocError>
        requires { K ≤ MAX_DIMS }
    {
        match self.reaches.get(o) {
            Some(held) => self.enter(o, held, &held.first(half), Some(half)),
            None => Ok(()),
        }
    }

    // The cover of a box that begins at an index. It gives the index behind it.
    fn cover(
        &mut self,
        from: usize,
        object: ObjId,
        place: u8,
        b: &KBox<K>,
    ) -> Result<usize, AllocError>
        requires { K ≤ MAX_DIMS }
    {
        let swept = Swept {
            conditions: self.conditions,
            events: self.events,
            state: &self.reaches.state,
            versions: self.reaches.versions.as_slice(),
            object,
            place,
        };
        self.coverer.simplify(&swept, from, b, &mut self.out)
    }

    // The list of covers of a box that begins at an index. It gives the index behind it.
    fn covers(&mut self, from: usize, o: ObjId, b: &KBox<K>) -> Result<usize, AllocError>
        requires { K ≤ MAX_DIMS }
    {
        let events = self.events;
        let mut next = from;
        for _ in from..events.len() {
            let Some(e) = events.get(next) else {
                return Ok(next);
            };
            self.out.add(*e)?;
            next = next.saturating_add(1);
            match e {
                Event::Cover(place) => next = self.cover(next, o, *place, b)?,
                _ => return Ok(next),
            }
        }
        Ok(next)
    }

    fn drop_place(&mut self, at: usize, o: ObjId, place: u8) -> Result<usize, AllocError>
        requires { K ≤ MAX_DIMS }
    {
        let Some(held) = self.reaches.get(o) else {
            return Ok(at);
        };
        let next = self.cover(at, o, place, &held.region)?;
        let part = held.second(Half::OfPlace(place));
        self.enter(o, held, &part, None)?;
        Ok(next)
    }

    fn bound(&mut self, at: usize, o: ObjId, side: Side) -> Result<usize, AllocError>
        requires { K ≤ MAX_DIMS }
    {
        let Some(held) = self.reaches.get(o) else {
            return Ok(at);
        };
        let next = self.covers(at, o, &far(&held.region, side))?;
        let part = held.first(Half::OfSide(side));
        self.enter(o, held, &part, None)?;
        Ok(next)
    }

    fn gone(&mut self, at: usize, o: ObjId) -> Result<usize, AllocError>
        requires { K ≤ MAX_DIMS }
    {
        let Some(held) = self.reaches.get(o) else {
            return Ok(at);
        };
        let next = self.covers(at, o, &held.region)?;
        self.leave()?;
        Ok(next)
    }

    // A node, whose event stands before the index. It gives the index of the next event that is not
    // done with.
    fn node(&mut self, e: Event, at: usize) -> Result<usize, AllocError>
        requires { K ≤ MAX_DIMS }
    {
        self.out.add(e)?;
        match e {
            Event::SplitShape(o, place) => self.split(o, Half::OfPlace(place))?,
            Event::SplitUpto(o, d, v) => self.split(o, Half::OfSide(Side::Upto(d, v)))?,
            Event::SplitFrom(o, d, v) => self.split(o, Half::OfSide(Side::From(d, v)))?,
            Event::Drop(o, place) => return self.drop_place(at, o, place),
            Event::Raise(o, d, v) => return self.bound(at, o, Side::From(d, v)),
            Event::Lower(o, d, v) => return self.bound(at, o, Side::Upto(d, v)),
            Event::Gone(o) => return self.gone(at, o),
            Event::Dead(_) => self.leave()?,
            _ => {}
        }
        Ok(at)
    }
}

/// The same derivation on the first state, with simpler covers. Where the events are no derivation,
/// what comes out is none either.
pub fn with_simpler_covers<const K: usize>(
    alloc: Global,
    conditions: &[Cond],
    first: &State<K>,
    events: &[Event],
) -> Result<Log, AllocError>
    requires { K ≤ MAX_DIMS }
{
    let mut walk = Walk {
        conditions,
        events,
        reaches: Reaches::start(alloc, first)?,
        nodes: Vec::new(alloc),
        coverer: Coverer::start(alloc, conditions.len())?,
        out: Log::new(alloc),
    };
    let mut next: usize = 0;
    for _ in 0..events.len() {
        match events.get(next) {
            Some(e) => next = walk.node(*e, next.saturating_add(1))?,
            None => break,
        }
    }
    Ok(walk.into_log())
}
