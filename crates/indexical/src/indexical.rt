//! What a sweep asks a condition: for a forbidden box around a point, for the forbidden part of a
//! region, and whether a point is possible. The two laws of `forbid` are all that a sweep rests
//! on.

ghost use Rattle.std.specs.Prelude.{◌≡◌, ℕ, ◌+◌, ◌<◌, ◌≤◌, true, List, length, ℤ, IfSome, IfNone};
ghost use Rattle.geo_base.specs.Boxes.{Has};
ghost use Rattle.geo_conditions.specs.Reach.{with_at, just};
ghost use Rattle.geo_conditions.specs.Conditions.{possible, FitsIn, IsRefuted};
ghost use Rattle.geo_conditions.specs.Regions.{region_of};
ghost use Rattle.indexical.specs.Disjunctions.{IsDisjunction};
ghost use Rattle.indexical.specs.Forbidden.{Forbids};

use crate::forbidden::ForbiddenPart;
use geo_base::{KBox, MAX_DIMS, Point, Steps, Way};
use geo_conditions::{ObjId, State};
use std::sync::ledger::Ledger;

/// A condition that can be asked for a forbidden box. The word and the idea are those of the
/// indexicals of finite domain solvers, which narrow the region of one object by the regions of the
/// others.
pub trait Indexical<const K: usize> {
    ghost use Rattle.geo_conditions.specs.declared.cond.Cond.{Cond};

    // the condition that it stands for
    ghost cond: { Self → Cond };

    /// A box of the region that has c, and in which the object cannot be at that place: with it
    /// there, the condition is refuted. None where it is not refuted with the object at c alone.
    /// Where the condition is a disjunction of literals that name at most one coordinate of the
    /// object each, the box has each point of the region at which it is refuted. One call counts as
    /// one question. It takes no memory.
    fn forbid<L: Ledger>(
        &self,
        s: &State<K>,
        o: ObjId,
        place: u8,
        c: &Point<K>,
        region: &KBox<K>,
        way: &Way<K>,
        steps: &mut Steps<L>,
    ) -> Option<KBox<K>>
        requires fits { FitsIn (cond self.now) s.now }
        requires object { o.0 < length s.now }
        requires inside { Has K region.now.lo.coordinates region.now.hi.coordinates
            c.now.coordinates }
        ensures has { IfSome result (λ b.
            Has K b.lo.coordinates b.hi.coordinates c.now.coordinates) }
        ensures within { IfSome result (λ b.
            Has K region.now.lo.coordinates region.now.hi.coordinates b.lo.coordinates
            × Has K region.now.lo.coordinates region.now.hi.coordinates b.hi.coordinates) }
        ensures refuted { IfSome result (λ b.
            IsRefuted (cond self.now) (with_at s.now o.0 place (region_of b))) }
        ensures whole { IfSome result (λ b. IsDisjunction o.0 (cond self.now) → (q : List ℤ)
            → Has K region.now.lo.coordinates region.now.hi.coordinates q
            → IsRefuted (cond self.now) (with_at s.now o.0 place (just q))
            → Has K b.lo.coordinates b.hi.coordinates q) }
        ensures none { IfNone result
            (possible (cond self.now) (with_at s.now o.0 place (just c.now.coordinates)) ≡ true) }
        ensures asked { steps.new ≡ steps.old + 1 };

    /// Whether the condition is possible with the object at that place and point. It takes no memory.
    fn is_possible_at(&self, s: &State<K>, o: ObjId, place: u8, c: &Point<K>) -> bool
        requires k { K ≤ MAX_DIMS }
        requires fits { FitsIn (cond self.now) s.now }
        requires object { o.0 < length s.now }
        ensures { result
            ≡ possible (cond self.now) (with_at s.now o.0 place (just c.now.coordinates)) };

    /// What the condition forbids of the region with the object at that place, as the state has the others. It takes no memory.
    fn forbidden_part(
        &self,
        s: &State<K>,
        o: ObjId,
        place: u8,
        region: &KBox<K>,
    ) -> ForbiddenPart<K>
        requires k { K ≤ MAX_DIMS }
        requires fits { FitsIn (cond self.now) s.now }
        requires object { o.0 < length s.now }
        ensures { Forbids K (cond self.now) s.now o.0 place (region_of region.now) result };
}
