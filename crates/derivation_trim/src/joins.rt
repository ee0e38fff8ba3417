//! Places that are dropped one after another, up to an end of the same object, stand in the list of
//! that end in fewer words.

use crate::covers::{cover_len, events_from};
use derivation::{Event, Log, Recorder};
use geo_conditions::ObjId;

// Whether a list of covers that begins with this event names only places behind that one.
fn begins_behind(list: Option<&Event>, place: u8) -> bool {
    match list {
        Some(Event::EndCovers) => true,
        Some(Event::Cover(first)) => place < *first,
        _ => false,
    }
}

// Where the events drop places of the object, in order, and then say that it has no point, at none
// of the later places: the index of the event that says so.
fn run_end(events: &[Event], o: ObjId) -> Option<usize> {
    let mut next: usize = 0;
    let mut last = 0;
    for (at, e) in events.iter().enumerate() {
        if next <= at {
            match e {
                Event::Drop(u, place) if *u == o && last < *place => {
                    last = *place;
                    let cover = cover_len(events_from(events, at + 1));
                    next = cover.saturating_add(at + 1);
                }
                Event::Gone(u) if *u == o && begins_behind(events.get(at + 1), last) => {
                    return Some(at);
                }
                _ => return None,
            }
        }
    }
    None
}

/// An end's list that is being put in the place of drops: the event that belongs at the next index,
/// and the index of the end.
#[derive(Clone, Copy)]
struct Shift {
    held: Event,
    end: usize,
}

// Where the event at the index drops a place and begins such a run: the end comes first.
fn shift_at(events: &[Event], at: usize) -> Option<Shift> {
    match events.get(at) {
        Some(Event::Drop(o, _)) => match run_end(events_from(events, at), *o) {
            Some(length) => Some(Shift {
                held: Event::Gone(*o),
                end: length.saturating_add(at),
            }),
            None => None,
        },
        _ => None,
    }
}

// Inside of a list of covers a place is not dropped, but covered.
fn as_cover(e: Event) -> Event {
    match e {
        Event::Drop(_, place) => Event::Cover(place),
        _ => e,
    }
}

// Writes the held event at the index, and holds the one that stood there; none at the end.
fn write_held(log: &mut Log, at: usize, state: Shift) -> Option<Shift> {
    let events = log.events();
    if at >= events.len() {
        return None;
    }
    let next = as_cover(events[at]);
    log.set(at, state.held);
    if at < state.end {
        Some(Shift {
            held: next,
            end: state.end,
        })
    } else {
        None
    }
}

/// Puts an end's own list in the place of the drops in front of it: the end moves to the front of
/// them.
pub fn join_ends(log: &mut Log) {
    let mut state: Option<Shift> = None;
    for at in 0..log.events().len() {
        let here = match state {
            Some(run) => Some(run),
            None => shift_at(log.events(), at),
        };
        state = match here {
            Some(run) => write_held(log, at, run),
            None => None,
        };
    }
}
