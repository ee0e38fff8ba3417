//! Whether events can be printed, and read again.

ghost use Rattle.std.specs.Prelude.{IsTrue, ◌↔◌};
ghost use Rattle.std.specs.List.{All};
ghost use Rattle.derivation_round_trip.specs.Limits.{IsLimited, IsTextNumber};
ghost use Rattle.printed_derivation.specs.Printable.{IsPrintable};

use derivation::Event;
use derivation_text::all_named;
use geo_tokens::names::Names;

fn is_small(v: i64) -> bool
    ensures { IsTrue result ↔ IsTextNumber v }
{
    -1_000_000_000 <= v && v <= 1_000_000_000
}

// Whether the numbers of the event are ones that a text can have.
fn is_limited(e: Event) -> bool
    ensures { IsTrue result ↔ IsLimited e }
{
    match e {
        Event::SplitUpto(_, _, v) => is_small(v),
        Event::SplitFrom(_, _, v) => is_small(v),
        Event::Raise(_, _, v) => is_small(v),
        Event::Lower(_, _, v) => is_small(v),
        Event::Cut(_, v) => is_small(v),
        Event::CutFrom(_, v) => is_small(v),
        Event::Dead(i) => is_small(i64::from(i)),
        Event::By(i) => is_small(i64::from(i)),
        Event::SplitShape(_, _) => true,
        Event::Drop(_, _) => true,
        Event::Gone(_) => true,
        Event::Cover(_) => true,
        Event::EndCovers => true,
    }
}

fn all_limited(events: &[Event]) -> bool
    ensures { IsTrue result ↔ All IsLimited events.now }
{
    for e in events {
        if !is_limited(*e) {
            return false;
        }
    }
    true
}

/// Whether all that the events name has a name in the table, and their numbers are within the limit
/// of texts.
pub fn is_printable(names: &Names, events: &[Event]) -> bool
    ensures { IsTrue result ↔ IsPrintable names.now events.now }
{
    all_named(names, events) && all_limited(events)
}
