//! A coordinate that is kept out of a hole is met by one known box.

ghost use Rattle.std.specs.Prelude.{◌<◌, ◌≤◌};
ghost use Rattle.geo_base.specs.declared.TheConstants.{MAX_DIMS};

use crate::tests::indexicals::{cube, first_point, is_at, is_box, pruned};
use crate::tests::literals::{A, of_one, state};
use geo_base::{KBox, Point, Way};
use geo_conditions::{Cond, Conds, State, fits};
use indexical::{AnyIndexical, ForbiddenPart, Indexical};
use std::alloc::{AllocError, Global};
use std::test::Fail;

/// The condition that the coordinate of A in the dimension d is at most 1 or at least 5.
fn hole(alloc: Global, d: usize) -> Result<Cond, AllocError> {
    let mut parts = Conds::new(alloc);
    parts.push(of_one(alloc, d, 1, -1)?)?;
    parts.push(of_one(alloc, d, -1, 5)?)?;
    Ok(Cond::AtLeast(1, parts))
}

/// A state of one object in 0 to 9 in each dimension.
fn alone<const K: usize>(alloc: Global) -> Result<State<K>, AllocError>
    requires { K ≤ MAX_DIMS }
{
    state(alloc, &[(1, 0, 9)])
}

/// What the hole in the dimension d forbids of the points with a coordinate in these ends there and in 0 to 9 elsewhere.
fn part<const K: usize>(
    alloc: Global,
    d: usize,
    ends: (i64, i64),
) -> Result<ForbiddenPart<K>, AllocError>
    requires k { K ≤ MAX_DIMS }
    requires dimension { d < K }
{
    let s = alone::<K>(alloc)?;
    let c = hole(alloc, d)?;
    if s.objects() == 0 || !fits(&c, &s) {
        return Ok(ForbiddenPart::Unknown);
    }
    let region = KBox::new(
        Point::filled(0).with(d, ends.0),
        Point::filled(9).with(d, ends.1),
    );
    let x = AnyIndexical::<K>::from_cond(c);
    Ok(x.forbidden_part(&s, A, 1, &region))
}

/// Whether the part is just the points with a coordinate in the wanted ends in the dimension d, or nothing.
fn is_part<const K: usize>(found: &ForbiddenPart<K>, d: usize, wanted: Option<(i64, i64)>) -> bool {
    match (found, wanted) {
        (ForbiddenPart::Exactly(b), Some(ends)) => is_box(b, (0, 9), d, ends),
        (ForbiddenPart::Nothing, None) => true,
        _ => false,
    }
}

/// The ends of a region in the dimension of the hole, and those of the hole's part of it.
const PARTS: &[((i64, i64), Option<(i64, i64)>)] = &[
    ((0, 9), Some((2, 4))),
    ((1, 5), Some((2, 4))),
    ((3, 3), Some((3, 3))),
    ((0, 2), Some((2, 2))),
    ((0, 3), Some((2, 3))),
    ((4, 9), Some((4, 4))),
    ((0, 1), None),
    ((5, 9), None),
    ((4, 3), None),
];

/// Whether each region has its part of the hole, in each dimension.
fn are_parts<const K: usize>(alloc: Global) -> Result<bool, AllocError>
    requires { K ≤ MAX_DIMS }
{
    for d in 0..K {
        for (ends, wanted) in PARTS {
            if !is_part(&part::<K>(alloc, d, *ends)?, d, *wanted) {
                return Ok(false);
            }
        }
    }
    Ok(true)
}

#[test]
fn a_hole_forbids_its_part_of_a_region(rt: HostRuntime) -> Result<(), Fail> {
    let alloc = rt.alloc();
    assert!(rt; are_parts::<1>(alloc)? && are_parts::<2>(alloc)?);
    assert!(rt; are_parts::<5>(alloc)? && are_parts::<6>(alloc)?);
    Ok(())
}

/// Whether sweeps over a hole in each dimension, upwards from 2 and downwards from 4, end beside it.
fn are_swept_over(alloc: Global) -> Result<bool, AllocError> {
    let s = alone::<6>(alloc)?;
    for d in 0..6 {
        for (low, high, up, other) in [(2, 9, true, 5), (0, 4, false, 1)] {
            let way = Way::new(d, up);
            let Some(p) = first_point(&s, hole(alloc, d)?, &cube::<6>(low, high), &way)? else {
                return Ok(false);
            };
            let each = if up { low } else { high };
            if !is_at(&p, i64::from(each), d, other) {
                return Ok(false);
            }
        }
    }
    Ok(true)
}

#[test]
fn sweeps_go_over_a_hole(rt: HostRuntime) -> Result<(), Fail> {
    let alloc = rt.alloc();
    assert!(rt; are_swept_over(alloc)?);
    Ok(())
}

/// The ends of an object's range, and those that a hole leaves of it.
const RANGES: &[((i64, i64), (i64, i64))] = &[
    ((2, 9), (5, 9)),
    ((0, 4), (0, 1)),
    ((1, 5), (1, 5)),
    ((0, 9), (0, 9)),
];

/// Whether the pruning by a hole leaves what it has to of each range.
fn are_pruned<const K: usize>(alloc: Global) -> Result<bool, AllocError>
    requires { (0 < K) × (K ≤ MAX_DIMS) }
{
    for d in 0..K {
        for (range, left) in RANGES {
            let s = state::<K>(alloc, &[(1, range.0, range.1)])?;
            let Some(found) = pruned(alloc, s, hole(alloc, d)?)? else {
                return Ok(false);
            };
            if !is_box(&found, *range, d, *left) {
                return Ok(false);
            }
        }
    }
    Ok(true)
}

#[test]
fn a_range_ends_beside_a_hole(rt: HostRuntime) -> Result<(), Fail> {
    let alloc = rt.alloc();
    assert!(rt; are_pruned::<6>(alloc)?);
    Ok(())
}
