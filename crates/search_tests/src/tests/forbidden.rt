//! Which conditions are met by two boxes, and the box that a condition forbids.

ghost use Rattle.std.specs.Prelude.{◌≡◌, ◌<◌, ◌≤◌, length};
ghost use Rattle.geo_base.specs.Boxes.{Has};
ghost use Rattle.geo_base.specs.declared.TheConstants.{MAX_DIMS};
ghost use Rattle.geo_conditions.specs.Conditions.{FitsIn};

use crate::tests::indexicals::cube;
use crate::tests::literals::{A, B, of_one, of_two, state};
use crate::tests::sweeping::corner;
use geo_base::{KBox, Point, Steps, Way};
use geo_conditions::{Cond, Conds, State, fits};
use indexical::{AnyIndexical, Indexical, TreeIndexical};
use std::alloc::{AllocError, Global};
use std::marker::Brand;
use std::sync::ledger::{Blank, Ledger};
use std::test::Fail;

/// The condition `a.x1 >= 3 or a.x2 >= 1`.
fn far_or_high(alloc: Global) -> Result<Cond, AllocError> {
    let mut parts = Conds::new(alloc);
    parts.push(of_one(alloc, 0, -1, 3)?)?;
    parts.push(of_one(alloc, 1, -1, 1)?)?;
    Ok(Cond::AtLeast(1, parts))
}

/// The condition of two boxes that do not overlap in the first dimensions, of the shapes at the places
/// 1 and 2. The first box has the offset -1 and the size 4 in the first dimension and 2 in the others,
/// the second one the offset 1 and the size 3.
fn apart(alloc: Global, dimensions: usize, leaves: (bool, bool)) -> Result<Cond, AllocError> {
    let mut parts = Conds::new(alloc);
    if leaves.0 {
        parts.push(Cond::NotShape(A, 1))?;
    }
    if leaves.1 {
        parts.push(Cond::NotShape(B, 2))?;
    }
    for d in 0..dimensions {
        let gap = if d == 0 { 2 } else { 0 };
        parts.push(of_two(alloc, d, true, gap)?)?;
        parts.push(of_two(alloc, d, false, 5)?)?;
    }
    Ok(Cond::AtLeast(1, parts))
}

/// Whether the condition of two boxes is met by them in K dimensions.
fn is_by_boxes<const K: usize>(alloc: Global, leaves: (bool, bool)) -> Result<bool, AllocError>
    requires dimensions { (0 < K) × (K ≤ MAX_DIMS) }
{
    Ok(AnyIndexical::<K>::from_cond(apart(alloc, K, leaves)?).has_boxes())
}

/// Each condition is tried with and without leaves.
#[test]
fn two_boxes_are_found_in_their_condition(rt: HostRuntime) -> Result<(), Fail> {
    let alloc = rt.alloc();
    for leaves in [(false, false), (true, false), (false, true), (true, true)] {
        assert!(rt; is_by_boxes::<1>(alloc, leaves)? && is_by_boxes::<2>(alloc, leaves)?);
        assert!(rt; is_by_boxes::<3>(alloc, leaves)? && is_by_boxes::<4>(alloc, leaves)?);
        assert!(rt; is_by_boxes::<5>(alloc, leaves)? && is_by_boxes::<6>(alloc, leaves)?);
    }
    assert!(rt; !AnyIndexical::<2>::from_cond(far_or_high(alloc)?).has_boxes());
    Ok(())
}

/// The box of the region that has c and that the condition forbids the first object, as it is asked
/// over this ledger.
fn forbid_with<L: Ledger>(
    blank: Blank,
    x: &AnyIndexical<2>,
    s: &State<2>,
    c: &Point<2>,
    region: &KBox<2>,
) -> Option<KBox<2>>
    requires name { blank.name ≡ L.name }
    requires parts { blank.parts ≡ L.parts }
    requires some { 0 < blank.parts }
    requires fits { FitsIn x.now.cond s.now }
    requires object { 0 < length s.now }
    requires inside { Has 2 region.now.lo.coordinates region.now.hi.coordinates c.now.coordinates }
{
    let mut steps = Steps::<L>::new(blank);
    x.forbid(s, A, 1, c, region, &Way::new(0, true), &mut steps)
}

/// The same.
fn forbidden(x: &AnyIndexical<2>, s: &State<2>, c: &Point<2>, region: &KBox<2>) -> Option<KBox<2>>
    requires fits { FitsIn x.now.cond s.now }
    requires object { 0 < length s.now }
    requires inside { Has 2 region.now.lo.coordinates region.now.hi.coordinates c.now.coordinates }
{
    forbid_with::<Brand>(Blank::new(1), x, s, c, region)
}

/// The corners of a box of a plane.
fn corners(b: &KBox<2>) -> ((i64, i64), (i64, i64)) {
    ((b.lo.get(0), b.lo.get(1)), (b.hi.get(0), b.hi.get(1)))
}

/// The corners of what `far_or_high` forbids of the points from (0, 0) to (3, 1), at one of them.
fn forbidden_at(
    alloc: Global,
    c: &Point<2>,
) -> Result<Option<((i64, i64), (i64, i64))>, AllocError> {
    let s = state::<2>(alloc, &[(1, 0, 3)])?;
    let condition = far_or_high(alloc)?;
    let region = KBox::new(corner(0, 0), corner(3, 1));
    if s.objects() == 0 || !fits(&condition, &s) || !region.has(c) {
        return Ok(None);
    }
    let x = AnyIndexical::<2>::from_cond(condition);
    match forbidden(&x, &s, c, &region) {
        Some(b) => Ok(Some(corners(&b))),
        None => Ok(None),
    }
}

#[test]
fn a_disjunction_forbids_its_whole_part(rt: HostRuntime) -> Result<(), Fail> {
    let alloc = rt.alloc();
    assert!(rt; forbidden_at(alloc, &corner(0, 0))? == Some(((0, 0), (2, 0))));
    assert!(rt; forbidden_at(alloc, &corner(2, 0))? == Some(((0, 0), (2, 0))));
    assert!(rt; forbidden_at(alloc, &corner(3, 0))?.is_none());
    Ok(())
}

/// Whether both boxes are the same, or there is none.
fn are_same<const K: usize>(first: &Option<KBox<K>>, second: &Option<KBox<K>>) -> bool {
    match (first, second) {
        (Some(b), Some(other)) => {
            let mut same = true;
            for d in 0..K {
                same &= b.lo.get(d) == other.lo.get(d) && b.hi.get(d) == other.hi.get(d);
            }
            same
        }
        (None, None) => true,
        _ => false,
    }
}

/// Whether the condition of two boxes forbids as two boxes what it forbids as a tree, at points with
/// `each` in all dimensions but the first. The second object lies in 3 to 5 in each dimension.
fn is_as_tree<const K: usize, L: Ledger>(
    alloc: Global,
    each: i64,
    up: bool,
    steps: &mut Steps<L>,
) -> Result<bool, AllocError>
    requires dimensions { (0 < K) × (K ≤ MAX_DIMS) }
{
    let s = state::<K>(alloc, &[(1, 0, 9), (1, 3, 5)])?;
    let one = apart(alloc, K, (true, true))?;
    let other = apart(alloc, K, (true, true))?;
    if s.objects() == 0 || !fits(&one, &s) || !fits(&other, &s) {
        return Ok(false);
    }
    let boxes = AnyIndexical::<K>::from_cond(one);
    let tree = TreeIndexical::new(other);
    let region = cube::<K>(0, 9);
    let way = Way::new(0, up);
    for x in 0..10 {
        let c = Point::filled(each).with(0, x);
        if region.has(&c) {
            let first = boxes.forbid(&s, A, 1, &c, &region, &way, steps);
            if !are_same(&first, &tree.forbid(&s, A, 1, &c, &region, &way, steps)) {
                return Ok(false);
            }
        }
    }
    Ok(true)
}

/// The same at each point.
fn are_as_trees<const K: usize, L: Ledger>(
    alloc: Global,
    steps: &mut Steps<L>,
) -> Result<bool, AllocError>
    requires dimensions { (0 < K) × (K ≤ MAX_DIMS) }
{
    for each in 0..10 {
        let up = is_as_tree::<K, L>(alloc, each, true, steps)?;
        if !up || !is_as_tree::<K, L>(alloc, each, false, steps)? {
            return Ok(false);
        }
    }
    Ok(true)
}

/// The same in one to four dimensions, over this ledger.
fn agree_with<L: Ledger>(blank: Blank, alloc: Global) -> Result<bool, AllocError>
    requires name { blank.name ≡ L.name }
    requires parts { blank.parts ≡ L.parts }
    requires some { 0 < blank.parts }
{
    let mut steps = Steps::<L>::new(blank);
    let low = are_as_trees::<1, L>(alloc, &mut steps)? && are_as_trees::<2, L>(alloc, &mut steps)?;
    let high = are_as_trees::<3, L>(alloc, &mut steps)? && are_as_trees::<4, L>(alloc, &mut steps)?;
    Ok(low && high)
}

/// The same.
fn agree(alloc: Global) -> Result<bool, AllocError> {
    agree_with::<Brand>(Blank::new(1), alloc)
}

#[test]
fn two_boxes_forbid_what_their_tree_does(rt: HostRuntime) -> Result<(), Fail> {
    assert!(rt; agree(rt.alloc())?);
    Ok(())
}
