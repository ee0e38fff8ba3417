//! Whether events speak of what exists.

ghost use Rattle.std.specs.Prelude.{IsTrue, ◌↔◌, ◌<◌, ◌≤◌};
ghost use Rattle.std.specs.List.{All};
ghost use Rattle.derivation_check.specs.Fits.{IsLimited};
ghost use Rattle.derivation.specs.Fits.{IsPlace, EventFits};

use derivation::Event;
use geo_conditions::{MAX_SHAPES, ObjId};

fn is_limited(v: i64) -> bool
    ensures { IsTrue result ↔ IsLimited v }
{
    -1_000_000_000 <= v && v <= 1_000_000_000
}

fn is_place(place: u8) -> bool
    ensures { IsTrue result ↔ IsPlace place }
{
    1 <= place && place as usize <= MAX_SHAPES
}

fn is_object(o: ObjId, objects: usize) -> bool
    ensures { IsTrue result ↔ (o.0 < objects) }
{
    (o.0 as usize) < objects
}

fn is_coordinate<const K: usize>(o: ObjId, d: u32, v: i64, objects: usize) -> bool
    ensures { IsTrue result ↔ ((o.0 < objects) × (d < K) × IsLimited v) }
{
    is_object(o, objects) && (d as usize) < K && is_limited(v)
}

/// Whether the object, the dimension and the place of an event exist in a state of so many objects, and its number is within the
/// limits of a derivation.
fn fits<const K: usize>(e: Event, objects: usize) -> bool
    ensures { IsTrue result ↔ EventFits objects K e }
{
    match e {
        Event::SplitShape(o, place) => is_object(o, objects) && is_place(place),
        Event::SplitUpto(o, d, v) => is_coordinate::<K>(o, d, v, objects),
        Event::SplitFrom(o, d, v) => is_coordinate::<K>(o, d, v, objects),
        Event::Drop(o, place) => is_object(o, objects) && is_place(place),
        Event::Raise(o, d, v) => is_coordinate::<K>(o, d, v, objects),
        Event::Lower(o, d, v) => is_coordinate::<K>(o, d, v, objects),
        Event::Gone(o) => is_object(o, objects),
        Event::Cover(place) => is_place(place),
        Event::Cut(d, v) => (d as usize) < K && is_limited(v),
        Event::CutFrom(d, v) => (d as usize) < K && is_limited(v),
        Event::Dead(_) => true,
        Event::By(_) => true,
        Event::EndCovers => true,
    }
}

/// Whether all of these events do.
pub fn all_fit<const K: usize>(events: &[Event], objects: usize) -> bool
    ensures { IsTrue result ↔ All (EventFits objects K) events.now }
{
    for e in events {
        if !fits::<K>(*e, objects) {
            return false;
        }
    }
    true
}
