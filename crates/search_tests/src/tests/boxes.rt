//! The sweep of an object beside two fixed boxes: the point, the questions and the events.

ghost use Rattle.std.specs.Prelude.{◌≡◌, ◌<◌, pos, ◌≤ℤ◌, map, negsuc};
ghost use Rattle.geo_base.specs.Ways.{IsSmallPoint};
ghost use Rattle.geo_conditions.specs.Conditions.{AllFit, FitsIn};
ghost use Rattle.indexical.specs.Apart.{apart};

use crate::tests::literals::{A, B, C, state};
use derivation::{Log, NoRecord, Recorder};
use geo_base::{KBox, Point, Steps, Way};
use geo_conditions::{ObjId, State};
use indexical::{ApartIndexical, Counted, PlacedBox};
use std::alloc::AllocError;
use std::marker::Brand;
use std::sync::ledger::{Blank, Ledger};
use std::test::Fail;
use sweep::sweep;

fn at(x: i64) -> Point<1>
    requires { (negsuc 1999999 ≤ℤ x) × (x ≤ℤ pos 2000000) }
    ensures { IsSmallPoint 1 result.coordinates }
{
    Point::filled(x)
}

/// An object of one dimension with one shape: a box of size 10 at its origin.
fn ten(o: ObjId) -> PlacedBox<1>
    ensures { result.object ≡ o }
{
    PlacedBox::new(o, 1, false, Point::filled(0), Point::filled(10))
}

/// Two indexicals that fit the state.
fn pair(
    x: ApartIndexical<1>,
    y: ApartIndexical<1>,
    _s: &State<1>,
) -> [Counted<ApartIndexical<1>>; 2]
    requires first { FitsIn (apart x.first x.second x.short) _s.now }
    requires second { FitsIn (apart y.first y.second y.short) _s.now }
    ensures fits { AllFit (map (λ x. apart x.inner.first x.inner.second x.inner.short) result)
        _s.now }
{
    [Counted::new(x), Counted::new(y)]
}

fn sweep_with<L: Ledger, R: Recorder>(
    blank: Blank,
    s: &State<1>,
    rec: &mut R,
) -> Result<(i64, u64), AllocError>
    requires name { blank.name ≡ L.name }
    requires parts { blank.parts ≡ L.parts }
    requires some { 0 < blank.parts }
{
    let first = ApartIndexical::new(ten(A), ten(B));
    let second = ApartIndexical::new(ten(C), ten(A));
    if s.objects() == 0 || !first.fits(s) || !second.fits(s) {
        return Ok((-1, 0));
    }
    let list = pair(first, second, s);
    let region = KBox::new(at(0), at(1_000_000));
    let mut steps = Steps::<L>::new(blank);
    let found = sweep(
        s,
        A,
        1,
        &region,
        &list,
        &[1, 2],
        &Way::new(0, true),
        rec,
        &mut steps,
    )?;
    let asked = list[0].questions().wrapping_add(list[1].questions());
    match found {
        Some(p) => Ok((p.get(0), asked)),
        None => Ok((-1, asked)),
    }
}

/// Sweeps the first object upwards beside the two others. The answer is its coordinate, or -1, and how often the conditions were
/// asked.
fn sweep_beside<R: Recorder>(s: &State<1>, rec: &mut R) -> Result<(i64, u64), AllocError> {
    sweep_with::<Brand, R>(Blank::new(1), s, rec)
}

#[test]
fn two_fixed_boxes(rt: HostRuntime) -> Result<(), Fail> {
    let s = state::<1>(rt.alloc(), &[(1, 0, 1_000_000), (1, 0, 0), (1, 10, 10)])?;
    let mut log = Log::new(rt.alloc());
    let (x, asked) = sweep_beside(&s, &mut log)?;
    let (y, again) = sweep_beside(&s, &mut NoRecord::new())?;
    assert!(rt; x == 20 && y == 20 && 2 < asked && asked <= 6 && again == asked);
    assert!(rt; log.events().len() <= 7);
    Ok(())
}
