//! A condition of any kind behind one type, so that a list of them lies flat and a sweep over it
//! needs no pointer to code.

ghost use Rattle.std.specs.Prelude.{◌≡◌, ◌<◌, ◌≤◌, not, is_some, true, length, IfSome, IsTrue, MatchOption};
ghost use Rattle.std.specs.Option.{ForSome};
ghost use Rattle.geo_base.specs.Boxes.{Has};
ghost use Rattle.geo_conditions.specs.Reach.{with_at, just};
ghost use Rattle.geo_conditions.specs.Regions.{region_of};
ghost use Rattle.geo_conditions.specs.Conditions.{possible, FitsIn};
ghost use Rattle.indexical.specs.Apart.{SaysApart};
ghost use Rattle.indexical.specs.Bound.{SaysBound};
ghost use Rattle.indexical.specs.Faces.{Faces};
ghost use Rattle.indexical.specs.Forbidden.{Forbids, IsForbiddenBox};
ghost use Rattle.indexical.specs.Free.{LeavesFree, SparesAnywhere};
ghost use Rattle.indexical.specs.Names.{IsFirstBefore, MarksThose, names};
ghost use Rattle.indexical.specs.Nearness.{IsRefutedNear};

use crate::apart::ApartIndexical;
use crate::bound::BoundIndexical;
use crate::facing::{Facing, facing_of_tree};
use crate::first_named::first_in_tree;
use crate::forbidden::{ForbiddenPart, box_with, exactly};
use crate::indexical::Indexical;
use crate::named_marks::mark_tree;
use crate::nearness::Nearness;
use crate::point::tree_possible_at;
use crate::single_bound::bound_of;
use crate::spared::is_named;
use crate::tree::{forbid_tree, tree_part};
use crate::two_boxes::two_boxes;
use crate::unspared::{has_many_parts, unspared_object};
use crate::watched::{Watched, tree_spares_watched};
use geo_base::{KBox, MAX_DIMS, Point, Steps, Way};
use geo_conditions::{Cond, MAX_OBJECTS, ObjId, State, refuted};
use std::cell::Cell;
use std::sync::ledger::Ledger;

/// A condition of any kind. One that says that two boxes do not overlap is met by its boxes, one on a single coordinate of an
/// object by its bound, and each other one by its tree.
pub struct AnyIndexical<const K: usize> {
    cond: Cond,
    boxes: Option<ApartIndexical<K>>,
    bound: Option<BoundIndexical<K>>,
    // an object that the condition spares on no state, as far as one was found
    unspared: Option<ObjId>,
    // the index of a part that spared an object last, which is asked before it is trusted
    spared_by: Cell<u16>,
    ghost bounds: { ForSome bound (λ x. SaysBound x cond) },
    ghost says: { ForSome boxes (λ x. SaysApart x.first x.second x.short cond) },
}

/// Written out, since a derived one, with those of all parts, is made and proved anew in each crate that drops one.
impl<const K: usize> Drop for AnyIndexical<K> {
    fn drop(self) {
        let AnyIndexical {
            cond: _cond,
            boxes: _boxes,
            bound: _bound,
            unspared: _unspared,
            spared_by: _spared_by,
        } = self;
    }
}

impl<const K: usize> AnyIndexical<K> {
    /// The indexical of that condition. It takes no memory.
    pub fn from_cond(c: Cond) -> AnyIndexical<K>
        ensures { result.cond ≡ c }
    {
        match two_boxes(&c) {
            Some(boxes) => AnyIndexical {
                cond: c,
                boxes: Some(boxes),
                bound: None,
                unspared: None,
                spared_by: Cell::new(0),
            },
            None => single_of(c),
        }
    }

    /// The condition.
    pub fn cond(&self) -> &Cond
        ensures { result.now ≡ self.now.cond }
    {
        &self.cond
    }

    /// The condition alone.
    pub fn into_cond(self) -> Cond
        ensures { result ≡ self.entry.cond }
    {
        let AnyIndexical {
            cond,
            boxes: _boxes,
            bound: _bound,
            unspared: _unspared,
            spared_by: _spared_by,
        } = self;
        cond
    }

    /// Whether the condition is met by two boxes.
    pub fn has_boxes(&self) -> bool
        ensures { result ≡ is_some self.now.boxes }
    {
        self.boxes.is_some()
    }

    /// Whether the condition names the object.
    pub fn names(&self, o: ObjId) -> bool
        ensures { result ≡ names o.0 self.now.cond }
    {
        match &self.boxes {
            Some(boxes) => boxes.is_of(o),
            None => is_named(&self.cond, o),
        }
    }

    /// The first object that the condition names, of those from `from` on and before `end`.
    pub fn first_named(&self, from: usize, end: usize) -> Option<ObjId>
        requires { end ≤ MAX_OBJECTS }
        ensures { IsFirstBefore (λ o. names o self.now.cond) from end result }
    {
        match &self.boxes {
            Some(boxes) => {
                let o = boxes.first_from(from)?;
                if usize::from(o.0) < end {
                    Some(o)
                } else {
                    None
                }
            }
            None => first_single(self, from, end),
        }
    }

    /// Whether the condition has many parts, so that it takes less to mark all objects that it names than to find one after another.
    pub fn has_many_parts(&self) -> bool {
        !self.has_boxes() && has_many_parts(&self.cond)
    }

    /// Marks the objects that the condition names, as far as there are marks for them.
    pub fn mark_named(&self, marks: &mut [bool])
        ensures { MarksThose (λ o. names o self.now.cond) marks.old marks.new }
    {
        mark_tree(&self.cond, marks);
    }

    /// Whether the object u, as the state has it, surely leaves the others free: the condition is
    /// possible wherever one of the others that it names is put. It is told of conditions that are
    /// met by two boxes, one of them u's, and is false for each other one.
    pub fn surely_leaves_free(&self, s: &State<K>, u: ObjId) -> bool
        requires fits { FitsIn self.now.cond s.now }
        ensures { IsTrue result → LeavesFree self.now.cond s.now u.0 }
    {
        match &self.boxes {
            Some(boxes) => boxes.surely_leaves_free(s, u),
            None => false,
        }
    }

    /// Whether the condition surely spares the object at any place: it is possible wherever the object
    /// is put. It is told of conditions that are not met by two boxes, and is false for each other one.
    /// What is watched of the condition is asked first, and may change.
    pub fn surely_spares_watched(&self, s: &State<K>, o: ObjId, watched: &mut Watched) -> bool
        requires k { K ≤ MAX_DIMS }
        requires fits { FitsIn self.now.cond s.now }
        ensures { IsTrue result → SparesAnywhere self.now.cond s.now o.0 }
    {
        !self.has_boxes() && tree_spares_watched(&self.cond, s, o, watched)
    }

    /// What the condition asks of places before it can be in the object's way. Of conditions that are met by two boxes, one of
    /// them the object's, it is told of both objects; of each other one, which place a part says that the object has not.
    pub fn facing(&self, o: ObjId) -> Facing
        ensures { Faces self.now.cond o.0 result }
    {
        match &self.boxes {
            Some(boxes) => boxes.facing(o),
            None => facing_of_tree(&self.cond, o),
        }
    }

    /// How near the object and another one are where the condition is refuted. It is told of
    /// conditions that are met by two boxes, one of them the object's.
    pub fn nearness(&self, o: ObjId) -> Option<Nearness<K>>
        ensures { IfSome result (λ r.
            IsRefutedNear K self.now.cond o.0 r.other.0 r.ahead.coordinates r.behind.coordinates) }
    {
        match &self.boxes {
            Some(boxes) => boxes.nearness(o),
            None => None,
        }
    }

    /// Whether the condition is refuted on the state, which has all objects and dimensions that it
    /// names.
    pub fn refuted(&self, s: &State<K>) -> bool
        requires k { K ≤ MAX_DIMS }
        requires fits { FitsIn self.now.cond s.now }
        ensures { result ≡ not (possible self.now.cond s.now) }
    {
        refuted(&self.cond, s)
    }
}

/// The indexical of a condition that is not met by two boxes.
fn single_of<const K: usize>(c: Cond) -> AnyIndexical<K>
    ensures { result.cond ≡ c }
{
    let bound = bound_of(&c);
    let unspared = unspared_object(&c);
    AnyIndexical {
        cond: c,
        boxes: None,
        bound,
        unspared,
        spared_by: Cell::new(0),
    }
}

/// The bound of the object that the condition is, if it is one.
#[inline(always)]
fn bound_on<const K: usize>(x: &AnyIndexical<K>, o: ObjId) -> Option<&BoundIndexical<K>>
    ensures { IfSome result (λ b. (b.now.object.0 ≡ o.0) × SaysBound b.now x.now.cond) }
{
    match &x.bound {
        Some(b) if b.is_of(o) => Some(b),
        _ => None,
    }
}

/// Whether the object is one that the condition was found to spare on no state.
#[inline(always)]
fn is_unspared<const K: usize>(x: &AnyIndexical<K>, o: ObjId) -> bool {
    match x.unspared {
        Some(u) => u.0 == o.0,
        None => false,
    }
}

/// The first object that a condition names which is not met by two boxes, of those from `from` on and before `end`.
fn first_single<const K: usize>(x: &AnyIndexical<K>, from: usize, end: usize) -> Option<ObjId>
    requires { end ≤ MAX_OBJECTS }
    ensures { IsFirstBefore (λ o. names o x.now.cond) from end result }
{
    match &x.bound {
        Some(bound) => bound.object_within(from, end),
        None => first_in_tree(&x.cond, from, end),
    }
}

/// The forbidden box of a condition that is not met by two boxes.
fn forbid_single<const K: usize>(
    x: &AnyIndexical<K>,
    s: &State<K>,
    o: ObjId,
    place: u8,
    c: &Point<K>,
    region: &KBox<K>,
    way: &Way<K>,
) -> Option<KBox<K>>
    requires fits { FitsIn x.now.cond s.now }
    requires object { o.0 < length s.now }
    requires inside { Has K region.now.lo.coordinates region.now.hi.coordinates c.now.coordinates }
    ensures { MatchOption result
        (possible x.now.cond (with_at s.now o.0 place (just c.now.coordinates)) ≡ true)
        (λ b. IsForbiddenBox K x.now.cond s.now o.0 place c.now.coordinates
        (region_of region.now) (region_of b)) }
{
    match bound_on(x, o) {
        Some(bound) => box_with(bound.broken_part(place, region), c),
        None => forbid_tree(&x.cond, s, o, place, c, region, way),
    }
}

/// The forbidden box of a condition of any kind.
fn forbid_any<const K: usize>(
    x: &AnyIndexical<K>,
    s: &State<K>,
    o: ObjId,
    place: u8,
    c: &Point<K>,
    region: &KBox<K>,
    way: &Way<K>,
) -> Option<KBox<K>>
    requires fits { FitsIn x.now.cond s.now }
    requires object { o.0 < length s.now }
    requires inside { Has K region.now.lo.coordinates region.now.hi.coordinates c.now.coordinates }
    ensures { MatchOption result
        (possible x.now.cond (with_at s.now o.0 place (just c.now.coordinates)) ≡ true)
        (λ b. IsForbiddenBox K x.now.cond s.now o.0 place c.now.coordinates
        (region_of region.now) (region_of b)) }
{
    match &x.boxes {
        Some(boxes) => box_with(boxes.overlap_part(s, o, place, region), c),
        None => forbid_single(x, s, o, place, c, region, way),
    }
}

/// Whether a condition that is not met by two boxes is possible with the object at that place and point.
fn single_possible_at<const K: usize>(
    x: &AnyIndexical<K>,
    s: &State<K>,
    o: ObjId,
    place: u8,
    c: &Point<K>,
) -> bool
    requires k { K ≤ MAX_DIMS }
    requires fits { FitsIn x.now.cond s.now }
    requires object { o.0 < length s.now }
    ensures { result ≡ possible x.now.cond (with_at s.now o.0 place (just c.now.coordinates)) }
{
    match bound_on(x, o) {
        Some(bound) => !bound.is_broken_at(place, c),
        None => tree_possible_at(&x.cond, s, o, place, c),
    }
}

/// Whether a condition of any kind is possible with the object at that place and point.
fn any_possible_at<const K: usize>(
    x: &AnyIndexical<K>,
    s: &State<K>,
    o: ObjId,
    place: u8,
    c: &Point<K>,
) -> bool
    requires k { K ≤ MAX_DIMS }
    requires fits { FitsIn x.now.cond s.now }
    requires object { o.0 < length s.now }
    ensures { result ≡ possible x.now.cond (with_at s.now o.0 place (just c.now.coordinates)) }
{
    match &x.boxes {
        Some(boxes) => !boxes.must_overlap_at(s, o, place, c),
        None => single_possible_at(x, s, o, place, c),
    }
}

/// What a condition that is not met by two boxes forbids of the region with the object at that place.
fn single_part<const K: usize>(
    x: &AnyIndexical<K>,
    s: &State<K>,
    o: ObjId,
    place: u8,
    region: &KBox<K>,
) -> ForbiddenPart<K>
    requires k { K ≤ MAX_DIMS }
    requires fits { FitsIn x.now.cond s.now }
    requires object { o.0 < length s.now }
    ensures { Forbids K x.now.cond s.now o.0 place (region_of region.now) result }
{
    match bound_on(x, o) {
        Some(bound) => exactly(bound.broken_part(place, region)),
        None if is_unspared(x, o) => ForbiddenPart::Unknown,
        None => tree_part(&x.cond, s, o, place, region, &x.spared_by),
    }
}

/// What a condition of any kind forbids of the region with the object at that place.
fn any_part<const K: usize>(
    x: &AnyIndexical<K>,
    s: &State<K>,
    o: ObjId,
    place: u8,
    region: &KBox<K>,
) -> ForbiddenPart<K>
    requires k { K ≤ MAX_DIMS }
    requires fits { FitsIn x.now.cond s.now }
    requires object { o.0 < length s.now }
    ensures { Forbids K x.now.cond s.now o.0 place (region_of region.now) result }
{
    match &x.boxes {
        Some(boxes) => exactly(boxes.overlap_part(s, o, place, region)),
        None => single_part(x, s, o, place, region),
    }
}

impl<const K: usize> Indexical<K> for AnyIndexical<K> {
    ghost cond = { λ x. x.cond };

    fn forbid<L: Ledger>(
        &self,
        s: &State<K>,
        o: ObjId,
        place: u8,
        c: &Point<K>,
        region: &KBox<K>,
        way: &Way<K>,
        steps: &mut Steps<L>,
    ) -> Option<KBox<K>> {
        steps.tick();
        forbid_any(self, s, o, place, c, region, way)
    }

    fn is_possible_at(&self, s: &State<K>, o: ObjId, place: u8, c: &Point<K>) -> bool {
        any_possible_at(self, s, o, place, c)
    }

    fn forbidden_part(
        &self,
        s: &State<K>,
        o: ObjId,
        place: u8,
        region: &KBox<K>,
    ) -> ForbiddenPart<K> {
        any_part(self, s, o, place, region)
    }
}
