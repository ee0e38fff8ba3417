//! Lists of events.

use crate::tests::literals::A;
use derivation::{Event, Log, Recorder};
use std::alloc::{AllocError, Global};

/// The kind of an event, and its numbers.
pub fn parts(e: &Event) -> (u8, u16, u32, i64) {
    match *e {
        Event::SplitShape(o, s) => (0, o.0, 0, i64::from(s)),
        Event::SplitUpto(o, d, v) => (1, o.0, d, v),
        Event::SplitFrom(o, d, v) => (2, o.0, d, v),
        Event::Drop(o, s) => (3, o.0, 0, i64::from(s)),
        Event::Raise(o, d, v) => (4, o.0, d, v),
        Event::Lower(o, d, v) => (5, o.0, d, v),
        Event::Gone(o) => (6, o.0, 0, 0),
        Event::Dead(i) => (7, 0, 0, i64::from(i)),
        Event::Cover(s) => (8, 0, 0, i64::from(s)),
        Event::EndCovers => (9, 0, 0, 0),
        Event::By(i) => (10, 0, 0, i64::from(i)),
        Event::Cut(d, v) => (11, 0, d, v),
        Event::CutFrom(d, v) => (12, 0, d, v),
    }
}

/// Whether both are the same events.
pub fn are_same(events: &[Event], wanted: &[Event]) -> bool {
    let mut same = events.len() == wanted.len();
    for (event, other) in events.iter().zip(wanted) {
        same &= parts(event) == parts(other);
    }
    same
}

/// A record of the events.
pub fn record(alloc: Global, events: &[Event]) -> Result<Log, AllocError> {
    let mut log = Log::new(alloc);
    for event in events {
        log.add(*event)?;
    }
    Ok(log)
}

/// A hundred thousand splits of the first object inside each other, each with an end for its first part, and the end of the last
/// second part; the ends name the condition `each`, the last one `last`.
pub fn many_splits(alloc: Global, upto: i64, each: u32, last: u32) -> Result<Log, AllocError> {
    let mut log = Log::new(alloc);
    for i in 0..200_000u32 {
        log.add(if i < 100_000 {
            Event::SplitUpto(A, 0, upto)
        } else {
            Event::Dead(each)
        })?;
    }
    log.add(Event::Dead(last))?;
    Ok(log)
}
