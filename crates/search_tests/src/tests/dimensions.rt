//! Sweeps in six dimensions, and prunings, each of which sweeps, settles and checks in five and six,
//! against what was worked out by hand.

ghost use Rattle.std.specs.Prelude.{◌<◌, ◌≤◌};
ghost use Rattle.geo_base.specs.Ways.{IsSmallPoint};
ghost use Rattle.geo_base.specs.declared.TheConstants.{MAX_DIMS};

use crate::tests::checking::verdict;
use crate::tests::events::record;
use crate::tests::indexicals::{cube, first_point, indexicals, is_at, is_box, pruned, settled};
use crate::tests::literals::{A, B, of_one, of_two, state};
use derivation::{Event, Log};
use geo_base::{KBox, Point, Way};
use geo_conditions::{Cond, Conds, State, all_fit};
use geo_state::{Trailed, is_small};
use std::alloc::{AllocError, Global};
use std::test::Fail;

/// All coordinates of A but one are at least 2, or all but one are at most 0.
fn all_but_one<const K: usize>(alloc: Global, least: bool) -> Result<Cond, AllocError>
    requires { (0 < K) × (K ≤ MAX_DIMS) }
{
    let mut parts = Conds::new(alloc);
    for d in 0..K {
        let part = if least {
            of_one(alloc, d, -1, 2)?
        } else {
            of_one(alloc, d, 1, 0)?
        };
        parts.push(part)?;
    }
    Ok(Cond::AtLeast(K as i64 - 1, parts))
}

/// A box with edges of 1 at A and one with edges of `size` at B do not overlap.
fn apart<const K: usize>(alloc: Global, size: i8) -> Result<Cond, AllocError> {
    let mut parts = Conds::new(alloc);
    for d in 0..K {
        parts.push(of_two(alloc, d, true, 1)?)?;
        parts.push(of_two(alloc, d, false, size)?)?;
    }
    Ok(Cond::AtLeast(1, parts))
}

/// The dimension that comes last in a way that begins with that one.
fn last<const K: usize>(lead: usize) -> usize
    requires { lead < K }
    ensures { result < K }
{
    if lead == 0 { K - 1 } else { lead - 1 }
}

/// Whether the sweep of a cube, with B fixed at a number, finds the point that has `other` in the dimension d and `each` in every
/// other one.
fn finds(
    alloc: Global,
    fixed: i64,
    c: Cond,
    region: &KBox<6>,
    way: &Way<6>,
    wanted: (i64, usize, i64),
) -> Result<bool, AllocError>
    requires small { IsSmallPoint 6 region.now.lo.coordinates
        × IsSmallPoint 6 region.now.hi.coordinates }
{
    let (each, d, other) = wanted;
    let s = state::<6>(alloc, &[(1, 0, 9), (1, fixed, fixed)])?;
    match first_point(&s, c, region, way)? {
        Some(p) => Ok(is_at(&p, each, d, other)),
        None => Ok(false),
    }
}

/// Whether the sweeps that begin with that dimension find their points. With all coordinates but one at an end, the one in the
/// lead stays where the sweep begins. Beside a box of size 2 only the last coordinate moves.
fn are_found(alloc: Global, lead: usize) -> Result<bool, AllocError>
    requires { lead < 6 }
{
    let up = Way::new(lead, true);
    let down = Way::new(lead, false);
    let end = last::<6>(lead);
    let small = cube::<6>(0, 2);
    let large = cube::<6>(0, 3);
    let high = all_but_one::<6>(alloc, true)?;
    let low = all_but_one::<6>(alloc, false)?;
    let two = apart::<6>(alloc, 2)?;
    let other = apart::<6>(alloc, 2)?;
    Ok(
        finds(alloc, 0, high, &small, &up, (2, lead, 0))?
            && finds(alloc, 0, low, &small, &down, (0, lead, 2))?
            && finds(alloc, 0, two, &large, &up, (0, end, 2))?
            && finds(alloc, 2, other, &large, &down, (3, end, 1))?,
    )
}

/// The same for each lead.
fn are_all_found(alloc: Global) -> Result<bool, AllocError> {
    for lead in 0..6 {
        if !are_found(alloc, lead)? {
            return Ok(false);
        }
    }
    Ok(true)
}

#[test]
fn sweeps_find_their_points(rt: HostRuntime) -> Result<(), Fail> {
    let alloc = rt.alloc();
    assert!(rt; are_all_found(alloc)?);
    Ok(())
}

/// Whether the pruning of A, in the range `each` but for the dimension d, where it is in `ends`, leaves it the ends `left` there.
/// B is a box of size 3 at a number in each dimension.
fn leaves<const K: usize>(
    alloc: Global,
    fixed: i64,
    each: (i64, i64),
    d: usize,
    ends: (i64, i64),
    left: (i64, i64),
) -> Result<bool, AllocError>
    requires k { (0 < K) × (K ≤ MAX_DIMS) }
    requires dimension { d < K }
{
    let mut s = State::<K>::new(alloc);
    let lo = Point::filled(each.0).with(d, ends.0);
    let hi = Point::filled(each.1).with(d, ends.1);
    s.add_object(1, KBox::new(lo, hi))?;
    s.add_object(1, KBox::new(Point::filled(fixed), Point::filled(fixed)))?;
    match pruned(alloc, s, apart::<K>(alloc, 3)?)? {
        Some(found) => Ok(is_box(&found, each, d, left)),
        None => Ok(false),
    }
}

/// Whether a box beside another one, which has room in one dimension alone, is pruned there.
fn are_pruned<const K: usize>(alloc: Global) -> Result<bool, AllocError>
    requires { (0 < K) × (K ≤ MAX_DIMS) }
{
    for d in 0..K {
        if !leaves::<K>(alloc, 0, (0, 2), d, (0, 9), (3, 9))?
            || !leaves::<K>(alloc, 5, (5, 7), d, (0, 7), (0, 4))?
            || !leaves::<K>(alloc, 5, (5, 7), d, (0, 9), (0, 9))?
        {
            return Ok(false);
        }
    }
    Ok(true)
}

#[test]
fn a_box_is_pruned_where_it_has_room(rt: HostRuntime) -> Result<(), Fail> {
    let alloc = rt.alloc();
    assert!(rt; are_pruned::<5>(alloc)? && are_pruned::<6>(alloc)?);
    Ok(())
}

/// In each dimension A is at most B with `gap` between their origins.
fn behind<const K: usize>(alloc: Global, gap: i8) -> Result<Vec<Cond>, AllocError> {
    let mut list = Vec::new(alloc);
    for d in 0..K {
        list.push(of_two(alloc, d, true, gap)?)?;
    }
    Ok(list)
}

/// What a settle leaves of A and B in 0 to 4 in each of so many dimensions, where A is before B with
/// `gap` between their origins in each, with its events; none where it leaves nothing or cannot begin.
macro_rules! settle {
    ($k:literal, $alloc:expr, $gap:expr, $rec:expr) => {{
        let s = state::<$k>($alloc, &[(1, 0, 4), (1, 0, 4)])?;
        let list = behind::<$k>($alloc, $gap)?;
        if !is_small(&s) || !all_fit(&list, &s) || list.len() > 1_000_000_000 {
            return Ok(None);
        }
        settled($alloc, s, indexicals($alloc, list)?, $rec)
    }};
}

fn settle_in_five(alloc: Global, gap: i8, rec: &mut Log) -> Result<Option<Trailed<5>>, AllocError> {
    settle!(5, alloc, gap, rec)
}

fn settle_in_six(alloc: Global, gap: i8, rec: &mut Log) -> Result<Option<Trailed<6>>, AllocError> {
    settle!(6, alloc, gap, rec)
}

/// Whether A is left in 0 to 2 and B in 2 to 4 in each dimension.
fn are_left_apart<const K: usize>(s: &State<K>) -> bool
    requires { K ≤ MAX_DIMS }
{
    s.objects() == 2
        && is_box(&s.region(A), (0, 2), 0, (0, 2))
        && is_box(&s.region(B), (2, 4), 0, (2, 4))
}

/// Whether the check of these events says that A and B find no room for a gap of 5.
fn have_no_room<const K: usize>(alloc: Global, log: &Log) -> Result<bool, AllocError>
    requires { (0 < K) × (K ≤ MAX_DIMS) }
{
    let s = state::<K>(alloc, &[(1, 0, 4), (1, 0, 4)])?;
    Ok(verdict(alloc, &s, &behind::<K>(alloc, 5)?, log)? == Some(0))
}

fn are_settled_in_five(alloc: Global) -> Result<bool, AllocError> {
    let mut log = Log::new(alloc);
    let apart = match settle_in_five(alloc, 2, &mut log)? {
        Some(t) => are_left_apart(t.state()),
        None => false,
    };
    let mut log = Log::new(alloc);
    let none = settle_in_five(alloc, 5, &mut log)?.is_none();
    Ok(apart && none && have_no_room::<5>(alloc, &log)?)
}

fn are_settled_in_six(alloc: Global) -> Result<bool, AllocError> {
    let mut log = Log::new(alloc);
    let apart = match settle_in_six(alloc, 2, &mut log)? {
        Some(t) => are_left_apart(t.state()),
        None => false,
    };
    let mut log = Log::new(alloc);
    let none = settle_in_six(alloc, 5, &mut log)?.is_none();
    Ok(apart && none && have_no_room::<6>(alloc, &log)?)
}

#[test]
fn settles_move_both_ends(rt: HostRuntime) -> Result<(), Fail> {
    let alloc = rt.alloc();
    assert!(rt; are_settled_in_five(alloc)? && are_settled_in_six(alloc)?);
    Ok(())
}

/// What the check says of a split of A in 0 to 9 at a number of a dimension, with an end for each of its parts, where the last
/// coordinate is at least 3 and at most 2.
fn split_at<const K: usize>(alloc: Global, d: u32, upto: i64) -> Result<Option<u64>, AllocError>
    requires { (0 < K) × (K ≤ MAX_DIMS) }
{
    let s = state::<K>(alloc, &[(1, 0, 9)])?;
    let mut list = Vec::new(alloc);
    list.push(of_one(alloc, K - 1, -1, 3)?)?;
    list.push(of_one(alloc, K - 1, 1, -2)?)?;
    let events = [Event::SplitUpto(A, d, upto), Event::Dead(1), Event::Dead(2)];
    verdict(alloc, &s, &list, &record(alloc, &events)?)
}

#[test]
fn splits_of_the_last_dimension_are_checked(rt: HostRuntime) -> Result<(), Fail> {
    let alloc = rt.alloc();
    assert!(rt; split_at::<5>(alloc, 4, 2)? == Some(0) && split_at::<6>(alloc, 5, 2)? == Some(0));
    assert!(rt; split_at::<5>(alloc, 4, 3)? == Some(2) && split_at::<6>(alloc, 5, 3)? == Some(2));
    assert!(rt; split_at::<5>(alloc, 4, 1)? == Some(3) && split_at::<6>(alloc, 4, 2)? == Some(2));
    assert!(rt; split_at::<5>(alloc, 5, 2)?.is_none() && split_at::<6>(alloc, 6, 2)?.is_none());
    Ok(())
}

#[test]
fn the_greatest_dimension_is_the_sixth(rt: HostRuntime) -> Result<(), Fail> {
    assert!(rt; geo_base::MAX_DIMS == 6);
    Ok(())
}
