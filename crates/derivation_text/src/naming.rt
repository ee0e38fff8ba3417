//! Whether the events of a derivation can be printed by a table of names.

ghost use Rattle.std.specs.Prelude.{IsTrue, ◌↔◌, ◌<◌, length};
ghost use Rattle.derivation_text.specs.Lines.{AreNamed, HasDimension, HasShape, IsNamed};

use crate::print::listed;
use derivation::Event;
use geo_conditions::ObjId;
use geo_tokens::names::Names;

fn has_object(names: &Names, o: ObjId) -> bool
    ensures { IsTrue result ↔ (o.0 < length names.now.objects) }
{
    (o.0 as usize) < names.objects().len()
}

fn has_dimension(names: &Names, d: u32) -> bool
    ensures { IsTrue result ↔ HasDimension names.now d }
{
    (d as usize) < names.dims()
}

fn has_shape(names: &Names, o: ObjId, place: u8) -> bool
    ensures { IsTrue result ↔ HasShape names.now o.0 place }
{
    has_object(names, o)
        && 1 <= place
        && place as usize <= names.objects()[o.0 as usize].shapes().len()
}

fn has_coordinate(names: &Names, o: ObjId, d: u32) -> bool
    ensures { IsTrue result ↔ ((o.0 < length names.now.objects) × HasDimension names.now d) }
{
    has_object(names, o) && has_dimension(names, d)
}

// Whether all that the event names has a name, where `o` is the object whose covers are listed.
fn is_named(names: &Names, o: ObjId, e: Event) -> bool
    ensures { IsTrue result ↔ IsNamed names.now o.0 e }
{
    match e {
        Event::SplitShape(u, place) => has_shape(names, u, place),
        Event::SplitUpto(u, d, _) => has_coordinate(names, u, d),
        Event::SplitFrom(u, d, _) => has_coordinate(names, u, d),
        Event::Drop(u, place) => has_shape(names, u, place),
        Event::Raise(u, d, _) => has_coordinate(names, u, d),
        Event::Lower(u, d, _) => has_coordinate(names, u, d),
        Event::Gone(u) => has_object(names, u),
        Event::Cover(place) => has_shape(names, o, place),
        Event::Cut(d, _) => has_dimension(names, d),
        Event::CutFrom(d, _) => has_dimension(names, d),
        Event::Dead(_) => true,
        Event::By(_) => true,
        Event::EndCovers => true,
    }
}

/// Whether all objects, places and dimensions of the events have names in the table.
pub fn all_named(names: &Names, events: &[Event]) -> bool
    ensures { IsTrue result ↔ AreNamed names.now 0 events.now }
{
    let mut o = ObjId(0);
    for e in events {
        if !is_named(names, o, *e) {
            return false;
        }
        o = listed(o, *e);
    }
    true
}
