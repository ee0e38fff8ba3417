//! What a condition forbids an object of a region.

ghost use Rattle.std.specs.Prelude.{◌≡◌, Some, IfNone, IfSome, MatchOption};
ghost use Rattle.geo_base.specs.Boxes.{Has};
ghost use Rattle.geo_conditions.specs.Conditions.{FitsIn};
ghost use Rattle.geo_conditions.specs.Regions.{region_of};
ghost use Rattle.indexical.specs.Forbidden.{Forbids};

use geo_base::{KBox, Point};

/// What a condition forbids an object that is put at a place, of a region.
#[derive(Clone, Copy)]
pub enum ForbiddenPart<const K: usize> {
    /// It is possible at each point.
    Nothing,
    /// It is refuted at the points of this box of the region, and at no other point.
    Exactly(KBox<K>),
    /// Nothing is known.
    Unknown,
}

/// The forbidden part that is the box, or nothing where there is none.
#[inline(always)]
pub fn exactly<const K: usize>(part: Option<KBox<K>>) -> ForbiddenPart<K>
    ensures { MatchOption part.entry (result ≡ ForbiddenPart.Nothing)
        (λ b. result ≡ ForbiddenPart.Exactly b) }
{
    match part {
        Some(b) => ForbiddenPart::Exactly(b),
        None => ForbiddenPart::Nothing,
    }
}

/// The box, if there is one and it has the point.
#[inline(always)]
pub fn box_with<const K: usize>(part: Option<KBox<K>>, c: &Point<K>) -> Option<KBox<K>>
    ensures some { IfSome result (λ b. (part.entry ≡ Some b)
        × Has K b.lo.coordinates b.hi.coordinates c.now.coordinates) }
    ensures none { IfNone result (IfSome part.entry (λ b.
        Has K b.lo.coordinates b.hi.coordinates c.now.coordinates → ⊥)) }
{
    match part {
        Some(b) if b.has(c) => Some(b),
        _ => None,
    }
}
