//! The sweep where there is no condition.

ghost use Rattle.std.specs.Prelude.{◌≡◌, ◌<◌, length};
ghost use Rattle.geo_base.specs.Ways.{IsSmallPoint};

use crate::tests::events::are_same;
use crate::tests::literals::{A, state};
use derivation::{Event, Log, Recorder};
use geo_base::{KBox, Point, Steps, Way};
use geo_conditions::State;
use indexical::TreeIndexical;
use std::alloc::AllocError;
use std::marker::Brand;
use std::sync::ledger::{Blank, Ledger};
use std::test::Fail;
use sweep::sweep;

/// A corner within the limits.
pub fn corner(x: i8, y: i8) -> Point<2>
    ensures { IsSmallPoint 2 result.coordinates }
{
    Point::filled(i64::from(x)).with(1, i64::from(y))
}

fn swept_with<L: Ledger>(
    blank: Blank,
    s: &State<2>,
    region: &KBox<2>,
    up: bool,
    log: &mut Log,
) -> Result<(), AllocError>
    requires name { blank.name ≡ L.name }
    requires parts { blank.parts ≡ L.parts }
    requires some { 0 < blank.parts }
    requires object { 0 < length s.now }
    requires small { IsSmallPoint 2 region.now.lo.coordinates
        × IsSmallPoint 2 region.now.hi.coordinates }
{
    let mut steps = Steps::<L>::new(blank);
    let list: [TreeIndexical; 0] = [];
    let way = Way::new(0, up);
    let _first = sweep(s, A, 1, region, &list, &[], &way, log, &mut steps)?;
    Ok(())
}

/// The events of the sweep of a region, behind those of the record.
fn swept(s: &State<2>, region: &KBox<2>, up: bool, log: &mut Log) -> Result<(), AllocError>
    requires object { 0 < length s.now }
    requires small { IsSmallPoint 2 region.now.lo.coordinates
        × IsSmallPoint 2 region.now.hi.coordinates }
{
    swept_with::<Brand>(Blank::new(1), s, region, up, log)
}

/// The corners of a region, and whether the sweep goes upwards.
const ROWS: &[((i8, i8), (i8, i8), bool)] = &[
    ((1, 0), (0, 1), true),
    ((2, 3), (5, 6), true),
    ((2, 3), (5, 6), false),
];

/// One event covers what is empty. It comes behind what stood in the record.
#[test]
fn one_event_covers_an_empty_part(rt: HostRuntime) -> Result<(), Fail> {
    let s = state::<2>(rt.alloc(), &[(1, 0, 9)])?;
    assert!(rt; s.objects() == 1);
    let mut log = Log::new(rt.alloc());
    log.add(Event::Dead(7))?;
    for (low, high, up) in ROWS {
        let region = KBox::new(corner(low.0, low.1), corner(high.0, high.1));
        swept(&s, &region, *up, &mut log)?;
    }
    let by_one = [Event::Dead(7), Event::By(1), Event::By(1), Event::By(1)];
    assert!(rt; are_same(log.events(), &by_one));
    Ok(())
}
