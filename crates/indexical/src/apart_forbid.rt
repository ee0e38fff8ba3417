//! What the condition of two boxes forbids: the origins at which the one box must overlap with the
//! other, wherever the state lets that one stand. It is one box, known by two numbers a dimension.

ghost use Rattle.std.specs.Prelude.{◌≡◌, ℕ, ◌<◌, true, length, MatchOption};
ghost use Rattle.geo_base.specs.Boxes.{Has};
ghost use Rattle.geo_conditions.specs.Reach.{with_at, just};
ghost use Rattle.geo_conditions.specs.Conditions.{possible, FitsIn};
ghost use Rattle.geo_conditions.specs.Regions.{region_of};
ghost use Rattle.indexical.specs.Apart.{apart};
ghost use Rattle.indexical.specs.Forbidden.{Forbids, IsForbiddenBox};

use crate::apart::ApartIndexical;
use crate::forbidden::{ForbiddenPart, box_with, exactly};
use crate::indexical::Indexical;
use geo_base::{KBox, Point, Steps, Way};
use geo_conditions::{ObjId, State};
use std::sync::ledger::Ledger;

/// The forbidden box of the condition of two boxes.
fn forbid_apart<const K: usize>(
    x: &ApartIndexical<K>,
    s: &State<K>,
    o: ObjId,
    place: u8,
    c: &Point<K>,
    region: &KBox<K>,
    _way: &Way<K>,
) -> Option<KBox<K>>
    requires fits { FitsIn (apart x.now.first x.now.second x.now.short) s.now }
    requires object { o.0 < length s.now }
    requires inside { Has K region.now.lo.coordinates region.now.hi.coordinates c.now.coordinates }
    ensures { let cond = apart x.now.first x.now.second x.now.short in MatchOption result
        (possible cond (with_at s.now o.0 place (just c.now.coordinates)) ≡ true)
        (λ b. IsForbiddenBox K cond s.now o.0 place c.now.coordinates
        (region_of region.now) (region_of b)) }
{
    box_with(x.overlap_part(s, o, place, region), c)
}

/// Whether the condition of two boxes is possible with the object at that place and point.
fn apart_possible_at<const K: usize>(
    x: &ApartIndexical<K>,
    s: &State<K>,
    o: ObjId,
    place: u8,
    c: &Point<K>,
) -> bool
    requires fits { FitsIn (apart x.now.first x.now.second x.now.short) s.now }
    ensures { result ≡ possible (apart x.now.first x.now.second x.now.short)
        (with_at s.now o.0 place (just c.now.coordinates)) }
{
    !x.must_overlap_at(s, o, place, c)
}

/// What the condition of two boxes forbids of the region with the object at that place.
fn apart_part<const K: usize>(
    x: &ApartIndexical<K>,
    s: &State<K>,
    o: ObjId,
    place: u8,
    region: &KBox<K>,
) -> ForbiddenPart<K>
    requires fits { FitsIn (apart x.now.first x.now.second x.now.short) s.now }
    ensures { Forbids K (apart x.now.first x.now.second x.now.short) s.now o.0 place
        (region_of region.now) result }
{
    exactly(x.overlap_part(s, o, place, region))
}

impl<const K: usize> Indexical<K> for ApartIndexical<K> {
    ghost use Rattle.indexical.specs.Apart.{apart};

    ghost cond = { λ x. apart x.first x.second x.short };

    fn forbid<L: Ledger>(
        &self,
        s: &State<K>,
        o: ObjId,
        place: u8,
        c: &Point<K>,
        region: &KBox<K>,
        way: &Way<K>,
        steps: &mut Steps<L>,
    ) -> Option<KBox<K>> {
        steps.tick();
        forbid_apart(self, s, o, place, c, region, way)
    }

    fn is_possible_at(&self, s: &State<K>, o: ObjId, place: u8, c: &Point<K>) -> bool {
        apart_possible_at(self, s, o, place, c)
    }

    fn forbidden_part(
        &self,
        s: &State<K>,
        o: ObjId,
        place: u8,
        region: &KBox<K>,
    ) -> ForbiddenPart<K> {
        apart_part(self, s, o, place, region)
    }
}
