//! Sweeps in two dimensions, each with a record and without one. What is recorded is a cover, as the
//! check finds it, of what comes before the first point in the lead dimension, or of the whole region.

ghost use Rattle.std.specs.Prelude.{◌≡◌, ◌<◌, IfOk, length, map};
ghost use Rattle.geo_base.specs.Ways.{IsSmallPoint};
ghost use Rattle.geo_conditions.specs.Conditions.{AllFit};
ghost use Rattle.sweep.specs.Picks.{ArePicks};

use crate::tests::checking::verdict;
use crate::tests::indexicals::indexicals;
use crate::tests::literals::{A, of_one};
use crate::tests::sweeping::corner;
use derivation::{Event, Log, NoRecord, Recorder};
use geo_base::{KBox, Point, Steps, Way};
use geo_conditions::{Cond, Conds, Form, State, all_fit};
use indexical::AnyIndexical;
use std::alloc::{AllocError, Global};
use std::marker::Brand;
use std::sync::ledger::{Blank, Ledger};
use std::test::Fail;
use sweep::sweep;

/// A literal on the coordinates x1 and x2 of the object.
#[derive(Clone, Copy)]
enum Literal {
    /// The first is at least the number.
    FirstAtLeast(i8),
    /// The second is at least the number.
    SecondAtLeast(i8),
    /// The first and the number are at most 0 together.
    FirstAnd(i8),
    /// The second and the number are at most 0 together.
    SecondAnd(i8),
    /// `x1 + 2 * x2` is at least the number.
    SumAtLeast(i8),
}

use Literal::{FirstAnd, FirstAtLeast, SecondAnd, SecondAtLeast, SumAtLeast};

/// The condition that it is true.
fn alone_true(alloc: Global, one: Literal) -> Result<Cond, AllocError> {
    match one {
        FirstAtLeast(n) => of_one(alloc, 0, -1, n),
        SecondAtLeast(n) => of_one(alloc, 1, -1, n),
        FirstAnd(n) => of_one(alloc, 0, 1, n),
        SecondAnd(n) => of_one(alloc, 1, 1, n),
        SumAtLeast(n) => {
            let form = Form::new(alloc, &[(A, 0, -1), (A, 1, -2)], i64::from(n))?;
            Ok(Cond::Lin(form))
        }
    }
}

/// Conditions of which each asks for one of some literals.
type Rules = &'static [&'static [Literal]];

/// One of the literals is true.
fn condition(alloc: Global, literals: &[Literal]) -> Result<Cond, AllocError> {
    let mut parts = Conds::new(alloc);
    for one in literals {
        parts.push(alone_true(alloc, *one)?)?;
    }
    Ok(Cond::AtLeast(1, parts))
}

/// The conditions.
fn conditions(alloc: Global, rules: Rules) -> Result<Vec<Cond>, AllocError> {
    let mut list = Vec::new(alloc);
    for literals in rules {
        list.push(condition(alloc, literals)?)?;
    }
    Ok(list)
}

/// Conditions, the corners of a region, whether the sweep goes upwards, and the first point, if there
/// is one.
type Row = (Rules, (i8, i8), (i8, i8), bool, Option<(i64, i64)>);

const ROWS: &[Row] = &[
    // begun anew as a whole, the jump from (0, 1) would go to x1 = 3
    (
        &[
            &[FirstAtLeast(1), SecondAtLeast(1)],
            &[FirstAtLeast(3), SecondAnd(0)],
        ],
        (0, 0),
        (3, 1),
        true,
        Some((1, 0)),
    ),
    (
        &[
            &[FirstAtLeast(3), SecondAtLeast(1)],
            &[FirstAtLeast(1), SecondAnd(0)],
        ],
        (0, 0),
        (3, 1),
        true,
        Some((1, 1)),
    ),
    (&[&[SumAtLeast(11)]], (0, 0), (9, 3), true, Some((5, 3))),
    // begun anew as a whole, the jump would go to (0, 1)
    (
        &[
            &[FirstAnd(-2), SecondAnd(0)],
            &[FirstAnd(0), SecondAtLeast(1)],
        ],
        (0, 0),
        (3, 1),
        false,
        Some((2, 1)),
    ),
    (&[], (1, 0), (0, 0), true, None),
    (&[&[FirstAtLeast(1)]], (1, 0), (0, 0), true, None),
    (&[], (2, 0), (5, 0), true, Some((2, 0))),
    (&[], (2, 0), (5, 0), false, Some((5, 0))),
];

/// The corners of the row's region.
fn region_of(row: &Row) -> KBox<2>
    ensures lo { IsSmallPoint 2 result.lo.coordinates }
    ensures hi { IsSmallPoint 2 result.hi.coordinates }
{
    KBox::new(corner(row.1.0, row.1.1), corner(row.2.0, row.2.1))
}

/// A state of one object in the row's region.
fn alone(alloc: Global, row: &Row) -> Result<State<2>, AllocError> {
    let mut s = State::new(alloc);
    s.add_object(1, region_of(row))?;
    Ok(s)
}

fn sweep_with<L: Ledger, R: Recorder>(
    blank: Blank,
    s: &State<2>,
    list: &[AnyIndexical<2>],
    picks: &[u32],
    region: &KBox<2>,
    up: bool,
    rec: &mut R,
) -> Result<Option<Point<2>>, AllocError>
    requires name { blank.name ≡ L.name }
    requires parts { blank.parts ≡ L.parts }
    requires some { 0 < blank.parts }
    requires fits { AllFit (map (λ x. x.cond) list.now) s.now }
    requires object { 0 < length s.now }
    requires picks { ArePicks (length list.now) picks.now }
    requires small { IsSmallPoint 2 region.now.lo.coordinates
        × IsSmallPoint 2 region.now.hi.coordinates }
{
    let mut steps = Steps::<L>::new(blank);
    let way = Way::new(0, up);
    sweep(s, A, 1, region, list, picks, &way, rec, &mut steps)
}

/// The first point of the region at which none of the picked conditions is refuted.
fn swept<R: Recorder>(
    s: &State<2>,
    list: &[AnyIndexical<2>],
    picks: &[u32],
    region: &KBox<2>,
    up: bool,
    rec: &mut R,
) -> Result<Option<Point<2>>, AllocError>
    requires fits { AllFit (map (λ x. x.cond) list.now) s.now }
    requires object { 0 < length s.now }
    requires picks { ArePicks (length list.now) picks.now }
    requires small { IsSmallPoint 2 region.now.lo.coordinates
        × IsSmallPoint 2 region.now.hi.coordinates }
{
    sweep_with::<Brand, R>(Blank::new(1), s, list, picks, region, up, rec)
}

/// The same for all of at most two conditions.
fn swept_by_all<R: Recorder>(
    s: &State<2>,
    list: &[AnyIndexical<2>],
    region: &KBox<2>,
    up: bool,
    rec: &mut R,
) -> Result<Option<Point<2>>, AllocError>
    requires fits { AllFit (map (λ x. x.cond) list.now) s.now }
    requires object { 0 < length s.now }
    requires small { IsSmallPoint 2 region.now.lo.coordinates
        × IsSmallPoint 2 region.now.hi.coordinates }
{
    if list.len() == 2 {
        return swept(s, list, &[1, 2], region, up, rec);
    }
    if list.len() == 1 {
        return swept(s, list, &[1], region, up, rec);
    }
    swept(s, list, &[], region, up, rec)
}

/// Whether the sweep of the row ends at its point.
fn is_found<R: Recorder>(alloc: Global, row: &Row, rec: &mut R) -> Result<bool, AllocError> {
    let s = alone(alloc, row)?;
    let list = conditions(alloc, row.0)?;
    if s.objects() == 0 || !all_fit(&list, &s) || list.len() > 2 {
        return Ok(false);
    }
    let list = indexicals(alloc, list)?;
    let is_right = match (swept_by_all(&s, &list, &region_of(row), row.3, rec)?, row.4) {
        (Some(p), Some((x, y))) => p.get(0) == x && p.get(1) == y,
        (None, None) => true,
        _ => false,
    };
    Ok(is_right)
}

/// Whether the events cover what the sweep of the row leaves behind: an end moves to its point, or the
/// object is gone.
fn is_cover(alloc: Global, row: &Row, events: &[Event]) -> Result<bool, AllocError> {
    let mut log = Log::new(alloc);
    log.add(match row.4 {
        Some((x, _)) if row.3 => Event::Raise(A, 0, x),
        Some((x, _)) => Event::Lower(A, 0, x),
        None => Event::Gone(A),
    })?;
    log.add(Event::Cover(1))?;
    for e in events {
        log.add(*e)?;
    }
    log.add(Event::EndCovers)?;
    // behind a bound that moves there is a second node, which fails
    let wanted = if row.4.is_some() { 2 } else { 0 };
    if row.4.is_some() {
        log.add(Event::Dead(1))?;
    }
    let list = conditions(alloc, row.0)?;
    Ok(verdict(alloc, &alone(alloc, row)?, &list, &log)? == Some(wanted))
}

#[test]
fn first_points_are_found_and_what_lies_before_is_covered(rt: HostRuntime) -> Result<(), Fail> {
    for (i, row) in ROWS.iter().enumerate() {
        let mut log = Log::new(rt.alloc());
        assert!(rt; is_found(rt.alloc(), row, &mut log)?, "row {i}");
        assert!(rt; is_found(rt.alloc(), row, &mut NoRecord::new())?, "row {i}");
        assert!(rt; is_cover(rt.alloc(), row, log.events())?, "row {i}");
    }
    Ok(())
}
