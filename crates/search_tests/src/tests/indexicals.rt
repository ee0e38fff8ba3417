//! Conditions as indexicals, what a sweep makes of them in six dimensions, and a pruning and a settle in any.

ghost use Rattle.std.specs.Prelude.{◌≡◌, ◌≤◌, ◌<◌, pos, negsuc, ◌≤ℤ◌, IfOk, length, map};
ghost use Rattle.geo_base.specs.Ways.{IsSmallPoint};
ghost use Rattle.geo_base.specs.declared.TheConstants.{MAX_DIMS};
ghost use Rattle.geo_conditions.specs.Conditions.{AllFit, FitsIn};
ghost use Rattle.geo_state.specs.Trail.{HasSmallIntervals};

use crate::tests::literals::A;
use derivation::{Log, NoRecord, Recorder};
use fixpoint::Fixpoint;
use geo_base::{KBox, Point, Steps, Way};
use geo_conditions::{Cond, State, fits};
use geo_state::{Propagate, Settled, Trailed, is_small};
use indexical::AnyIndexical;
use object_pruning::prune_object;
use std::alloc::{AllocError, Global};
use std::marker::Brand;
use std::sync::ledger::{Blank, Ledger};
use sweep::sweep;

/// The indexicals of the conditions.
pub fn indexicals<const K: usize>(
    alloc: Global,
    conditions: Vec<Cond>,
) -> Result<Vec<AnyIndexical<K>>, AllocError>
    ensures { IfOk result (λ v. map (λ x. x.cond) v.items ≡ conditions.items) }
{
    let mut list = Vec::new(alloc);
    for c in conditions {
        list.push(AnyIndexical::from_cond(c))?;
    }
    Ok(list)
}

/// What the queue leaves of the state, with its events; none where it leaves nothing.
pub fn settled<const K: usize>(
    alloc: Global,
    s: State<K>,
    list: Vec<AnyIndexical<K>>,
    rec: &mut Log,
) -> Result<Option<Trailed<K>>, AllocError>
    requires k { (0 < K) × (K ≤ MAX_DIMS) }
    requires few { length list.items ≤ 1000000000 }
    requires fits { AllFit (map (λ x. x.cond) list.items) s }
    requires small { HasSmallIntervals s }
{
    let mut queue = Fixpoint::<K>::start(alloc, list, s.objects())?;
    let mut t = Trailed::start(alloc, s, 0)?;
    match queue.settle(&mut t, rec)? {
        Settled::Kept => Ok(Some(t)),
        Settled::Dead => Ok(None),
    }
}

/// An indexical that fits the state, alone.
fn only<const K: usize>(c: Cond, _s: &State<K>) -> [AnyIndexical<K>; 1]
    requires { FitsIn c _s.now }
    ensures { AllFit (map (λ x. x.cond) result) _s.now }
{
    [AnyIndexical::from_cond(c)]
}

/// The points whose coordinates all lie between the ends.
pub fn cube<const K: usize>(low: i8, high: i8) -> KBox<K>
    ensures lo { IsSmallPoint K result.lo.coordinates }
    ensures hi { IsSmallPoint K result.hi.coordinates }
{
    KBox::new(
        Point::filled(i64::from(low)),
        Point::filled(i64::from(high)),
    )
}

fn sweep_with<L: Ledger>(
    blank: Blank,
    s: &State<6>,
    list: &[AnyIndexical<6>; 1],
    region: &KBox<6>,
    way: &Way<6>,
) -> Result<Option<Point<6>>, AllocError>
    requires name { blank.name ≡ L.name }
    requires parts { blank.parts ≡ L.parts }
    requires some { 0 < blank.parts }
    requires fits { AllFit (map (λ x. x.cond) list.now) s.now }
    requires object { 0 < length s.now }
    requires small { IsSmallPoint 6 region.now.lo.coordinates
        × IsSmallPoint 6 region.now.hi.coordinates }
{
    let mut steps = Steps::<L>::new(blank);
    sweep(
        s,
        A,
        1,
        region,
        list,
        &[1],
        way,
        &mut NoRecord::new(),
        &mut steps,
    )
}

fn swept(
    s: &State<6>,
    list: &[AnyIndexical<6>; 1],
    region: &KBox<6>,
    way: &Way<6>,
) -> Result<Option<Point<6>>, AllocError>
    requires fits { AllFit (map (λ x. x.cond) list.now) s.now }
    requires object { 0 < length s.now }
    requires small { IsSmallPoint 6 region.now.lo.coordinates
        × IsSmallPoint 6 region.now.hi.coordinates }
{
    sweep_with::<Brand>(Blank::new(1), s, list, region, way)
}

/// The first point of the region at which the condition lets the first object stand, in the way's order; none where it cannot
/// be asked.
pub fn first_point(
    s: &State<6>,
    c: Cond,
    region: &KBox<6>,
    way: &Way<6>,
) -> Result<Option<Point<6>>, AllocError>
    requires small { IsSmallPoint 6 region.now.lo.coordinates
        × IsSmallPoint 6 region.now.hi.coordinates }
{
    if s.objects() == 0 || !fits(&c, s) {
        return Ok(None);
    }
    let list = only(c, s);
    swept(s, &list, region, way)
}

/// The region that the pruning by the condition leaves to the first object; none where it cannot be pruned.
pub fn pruned<const K: usize>(
    alloc: Global,
    s: State<K>,
    c: Cond,
) -> Result<Option<KBox<K>>, AllocError>
    requires k { (0 < K) × (K ≤ MAX_DIMS) }
{
    if s.objects() == 0 || !is_small(&s) || !fits(&c, &s) {
        return Ok(None);
    }
    let list = only(c, &s);
    let mut t = Trailed::start(alloc, s, 0)?;
    prune_object(&mut t, A, &list, &[1], &mut NoRecord::new())?;
    Ok(region_of_first(t.state()))
}

/// The region of the first object, if there is one.
pub fn region_of_first<const K: usize>(s: &State<K>) -> Option<KBox<K>>
    requires { K ≤ MAX_DIMS }
{
    if s.objects() == 0 {
        None
    } else {
        Some(s.region(A))
    }
}

/// Whether the point has the number `other` in the dimension d, and `each` in every other one.
pub fn is_at<const K: usize>(point: &Point<K>, each: i64, d: usize, other: i64) -> bool {
    let mut same = true;
    for e in 0..K {
        same &= point.get(e) == if e == d { other } else { each };
    }
    same
}

/// Whether the box has these ends in the dimension d, and the ends `each` in every other one.
pub fn is_box<const K: usize>(
    found: &KBox<K>,
    each: (i64, i64),
    d: usize,
    ends: (i64, i64),
) -> bool {
    is_at(&found.lo, each.0, d, ends.0) && is_at(&found.hi, each.1, d, ends.1)
}
