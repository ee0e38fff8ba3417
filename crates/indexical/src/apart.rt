//! The condition that two boxes do not overlap, met by the ends of the boxes and without its tree:
//! it is most of what problems ask.

ghost use Rattle.std.specs.Prelude.{ℕ, ◌<◌, ◌≤◌, ◌^◌, length};
ghost use Rattle.geo_base.specs.declared.TheConstants.{MAX_DIMS};
ghost use Rattle.indexical.specs.Apart.{AreGaps, apart_parts};

use crate::facing::{Facing, facing_beside};
use crate::nearness::Nearness;
use crate::overlap::{covers_some, gaps, must_overlap, must_overlap_beside, overlap_beside};
use crate::placed::PlacedBox;
use geo_base::{KBox, MAX_DIMS, Point};
use geo_conditions::{ObjId, State};

/// The condition that two boxes do not overlap: an object has another shape than its box, where its
/// box has a leaf, or in some dimension one box ends before the other begins. The object with the
/// lesser number comes first.
#[derive(Clone, Copy)]
pub struct ApartIndexical<const K: usize> {
    first: PlacedBox<K>,
    second: PlacedBox<K>,
    // how far before the second box's origin the first one's has to lie for the first to end where the second begins
    ahead: Point<K>,
    // the same the other way round
    behind: Point<K>,
    ghost gaps: { AreGaps first second ahead.coordinates × AreGaps second first behind.coordinates },
    ghost in_order: { first.object.0 < second.object.0 },
    ghost some: { 0 < K },
    ghost few: { K ≤ MAX_DIMS },
    ghost short: { length (apart_parts first second) < 2 ^ 63 },
}

impl<const K: usize> ApartIndexical<K> {
    ghost use Rattle.std.specs.Prelude.{◌≡◌, ◌≢◌, ◌↔◌, ◌||◌, ◌==◌, IfSome, IsTrue, true, nat_lt, if◌then◌else◌, List, ℤ, MatchOption};
    ghost use Rattle.geo_base.specs.Boxes.{Has};
    ghost use Rattle.geo_conditions.specs.Reach.{with_at, just};
    ghost use Rattle.geo_conditions.specs.declared.cond.Cond.{Cond};
    ghost use Rattle.geo_conditions.specs.Conditions.{FitsIn};
    ghost use Rattle.geo_conditions.specs.Regions.{region_of};
    ghost use Rattle.indexical.specs.Apart.{apart, MustOverlap, NeedNotOverlap, IsOverlapPart, SaysApart};
    ghost use Rattle.indexical.specs.Disjunctions.{IsDisjunction};
    ghost use Rattle.indexical.specs.Faces.{Faces};
    ghost use Rattle.indexical.specs.Names.{IsFirst};
    ghost use Rattle.indexical.specs.Nearness.{IsRefutedNear};

    // The condition for two boxes, that of the object with the lesser number first.
    fn of_ordered(first: PlacedBox<K>, second: PlacedBox<K>) -> ApartIndexical<K>
        requires in_order { first.object.0 < second.object.0 }
        requires some { 0 < K }
        requires few { K ≤ MAX_DIMS }
        ensures first { result.first ≡ first.entry }
        ensures second { result.second ≡ second.entry }
        ensures disjunction { (o : ℕ)
            → IsDisjunction o (apart result.first result.second result.short) }
    {
        let ahead = gaps(&first, &second);
        let behind = gaps(&second, &first);
        ApartIndexical {
            first,
            second,
            ahead,
            behind,
        }
    }

    /// The condition for two boxes of different objects. It takes no memory.
    pub fn new(a: PlacedBox<K>, b: PlacedBox<K>) -> ApartIndexical<K>
        requires objects { a.object.0 ≢ b.object.0 }
        requires some { 0 < K }
        requires few { K ≤ MAX_DIMS }
        ensures first { result.first
            ≡ (if nat_lt a.entry.object.0 b.entry.object.0 then a.entry else b.entry) }
        ensures second { result.second
            ≡ (if nat_lt a.entry.object.0 b.entry.object.0 then b.entry else a.entry) }
        ensures disjunction { (o : ℕ)
            → IsDisjunction o (apart result.first result.second result.short) }
    {
        if a.object().0 < b.object().0 {
            ApartIndexical::of_ordered(a, b)
        } else {
            ApartIndexical::of_ordered(b, a)
        }
    }

    /// Whether the condition fits the state: both objects are there.
    pub fn fits(&self, s: &State<K>) -> bool
        ensures { IsTrue result
            ↔ FitsIn (apart self.now.first self.now.second self.now.short) s.now }
    {
        let objects = s.objects();
        let first = usize::from(self.first.object().0);
        let second = usize::from(self.second.object().0);
        first < objects && second < objects
    }

    /// Whether the condition names the object.
    pub fn is_of(&self, o: ObjId) -> bool
        ensures { result
            ≡ (self.now.first.object.0 == o.0) || (self.now.second.object.0 == o.0) }
    {
        self.first.object().0 == o.0 || self.second.object().0 == o.0
    }

    /// The first of the two objects, of those from `from` on.
    pub fn first_from(&self, from: usize) -> Option<ObjId>
        ensures { IsFirst (λ o. (self.now.first.object.0 == o)
            || (self.now.second.object.0 == o)) from result }
    {
        let first = self.first.object();
        let second = self.second.object();
        if from <= usize::from(first.0) {
            Some(first)
        } else if from <= usize::from(second.0) {
            Some(second)
        } else {
            None
        }
    }

    /// What the condition asks of places before it can be in o's way. Nothing is told where neither box is o's.
    pub fn facing(&self, o: ObjId) -> Facing
        ensures { (c : Cond) → SaysApart self.now.first self.now.second self.now.short c
            → Faces c o.0 result }
    {
        if self.first.object().0 == o.0 {
            facing_beside(&self.first, &self.second)
        } else if self.second.object().0 == o.0 {
            facing_beside(&self.second, &self.first)
        } else {
            Facing::unknown()
        }
    }

    /// How near o and the other object are where the condition is refuted. Nothing is told where
    /// neither box is o's.
    pub fn nearness(&self, o: ObjId) -> Option<Nearness<K>>
        ensures { (c : Cond) → SaysApart self.now.first self.now.second self.now.short c
            → IfSome result (λ r.
            IsRefutedNear K c o.0 r.other.0 r.ahead.coordinates r.behind.coordinates) }
    {
        if self.first.object().0 == o.0 {
            Some(Nearness {
                other: self.second.object(),
                ahead: self.ahead,
                behind: self.behind,
            })
        } else if self.second.object().0 == o.0 {
            Some(Nearness {
                other: self.first.object(),
                ahead: self.behind,
                behind: self.ahead,
            })
        } else {
            None
        }
    }

    /// Whether the object u, as the state has it, surely leaves the other object free: the boxes
    /// need not overlap wherever that one is put. It is false where neither box is u's.
    pub fn surely_leaves_free(&self, s: &State<K>, u: ObjId) -> bool
        requires first { self.now.first.object.0 < length s.now }
        requires second { self.now.second.object.0 < length s.now }
        ensures { IsTrue result → (o place : ℕ) (p : List ℤ) → o ≢ u.0
            → ((self.now.first.object.0 == o) || (self.now.second.object.0 == o)) ≡ true
            → MustOverlap self.now.first self.now.second (with_at s.now o place (just p)) → ⊥ }
    {
        if self.first.object().0 == u.0 {
            !covers_some(&self.second, &self.first, &self.behind, &self.ahead, s)
        } else if self.second.object().0 == u.0 {
            !covers_some(&self.first, &self.second, &self.ahead, &self.behind, s)
        } else {
            false
        }
    }

    /// Whether the boxes must overlap with the object o at that place and point.
    pub fn must_overlap_at(&self, s: &State<K>, o: ObjId, place: u8, c: &Point<K>) -> bool
        requires first { self.now.first.object.0 < length s.now }
        requires second { self.now.second.object.0 < length s.now }
        ensures { IsTrue result ↔ MustOverlap self.now.first self.now.second
            (with_at s.now o.0 place (just c.now.coordinates)) }
    {
        if self.first.object().0 == o.0 {
            must_overlap_beside(
                &self.first,
                &self.second,
                &self.ahead,
                &self.behind,
                s,
                place,
                c,
            )
        } else if self.second.object().0 == o.0 {
            must_overlap_beside(
                &self.second,
                &self.first,
                &self.behind,
                &self.ahead,
                s,
                place,
                c,
            )
        } else {
            must_overlap(&self.first, &self.second, &self.ahead, &self.behind, s)
        }
    }

    /// The part of the region in which the boxes must overlap with the object o at that place, if there is one.
    pub fn overlap_part(
        &self,
        s: &State<K>,
        o: ObjId,
        place: u8,
        region: &KBox<K>,
    ) -> Option<KBox<K>>
        requires first { self.now.first.object.0 < length s.now }
        requires second { self.now.second.object.0 < length s.now }
        ensures { MatchOption result
            (NeedNotOverlap self.now.first self.now.second s.now o.0 place (region_of region.now))
            (λ r. IsOverlapPart self.now.first self.now.second s.now o.0 place
            (region_of region.now) (region_of r)) }
    {
        if self.first.object().0 == o.0 {
            overlap_beside(
                &self.first,
                &self.second,
                &self.ahead,
                &self.behind,
                s,
                place,
                region,
            )
        } else if self.second.object().0 == o.0 {
            overlap_beside(
                &self.second,
                &self.first,
                &self.behind,
                &self.ahead,
                s,
                place,
                region,
            )
        } else if region.is_empty() {
            None
        } else if must_overlap(&self.first, &self.second, &self.ahead, &self.behind, s) {
            Some(*region)
        } else {
            None
        }
    }
}
