//! Boxes that are still to be covered.

ghost use Rattle.std.specs.Prelude.{◌≡◌, ◌+ℤ◌, ◌≤◌, pos, negsuc};
ghost use Rattle.geo_conditions.specs.Regions.{region_of};
ghost use Rattle.derivation.specs.Cuts.{near, far, is_empty};
ghost use Rattle.derivation.specs.Covers.{IsCut};
ghost use Rattle.derivation_check.specs.Fits.{IsLimited};

use derivation::Side;
use geo_base::{KBox, MAX_DIMS};
use std::marker::Model;

/// A box that is to be covered. It is seen as a region.
#[derive(Clone, Copy)]
pub struct OpenBox<const K: usize> {
    ends: KBox<K>,
}

impl<const K: usize> Model for OpenBox<K> {
    ghost use Rattle.std.specs.Prelude.{◌≡◌, length};
    ghost use Rattle.geo_conditions.specs.Reach.{Region};
    ghost use Rattle.geo_conditions.specs.Regions.{region_of};

    ghost Value = { Region };

    ghost view = { λ b. region_of b.ends };

    ghost invariant = { λ b.
        (length b.ends.lo.coordinates ≡ K) × (length b.ends.hi.coordinates ≡ K) };

    ghost inverse = { λ r. record {
      ends = record { lo = record { coordinates = r.lo }; hi = record { coordinates = r.hi } };
    } };
}

/// One more than a number within the limits of a derivation.
fn above(v: i64) -> i64
    requires { IsLimited v }
    ensures { result ≡ v +ℤ pos 1 }
{
    v + 1
}

/// One less.
fn below(v: i64) -> i64
    requires { IsLimited v }
    ensures { result ≡ v +ℤ negsuc 0 }
{
    v - 1
}

impl<const K: usize> OpenBox<K> {
    /// The box between these ends.
    pub fn new(ends: KBox<K>) -> OpenBox<K>
        requires k { K ≤ MAX_DIMS }
        ensures { result ≡ region_of ends.entry }
    {
        OpenBox { ends }
    }

    /// Its ends.
    pub fn ends(&self) -> KBox<K>
        ensures { region_of result ≡ self.now }
    {
        self.ends
    }

    /// The part of it on a side.
    pub fn near(&self, side: Side) -> OpenBox<K>
        requires k { K ≤ MAX_DIMS }
        requires side { IsCut K side }
        ensures { result ≡ near side self.now }
    {
        let lo = self.ends.lo();
        let hi = self.ends.hi();
        let ends = match side {
            Side::Upto(d, v) => {
                let d = d as usize;
                KBox::new(lo, hi.with(d, hi.get(d).min(v)))
            }
            Side::From(d, v) => {
                let d = d as usize;
                KBox::new(lo.with(d, lo.get(d).max(v)), hi)
            }
        };
        OpenBox { ends }
    }

    /// The rest of it.
    pub fn far(&self, side: Side) -> OpenBox<K>
        requires k { K ≤ MAX_DIMS }
        requires side { IsCut K side }
        ensures { result ≡ far side self.now }
    {
        let lo = self.ends.lo();
        let hi = self.ends.hi();
        let ends = match side {
            Side::Upto(d, v) => {
                let d = d as usize;
                KBox::new(lo.with(d, lo.get(d).max(above(v))), hi)
            }
            Side::From(d, v) => {
                let d = d as usize;
                KBox::new(lo, hi.with(d, hi.get(d).min(below(v))))
            }
        };
        OpenBox { ends }
    }

    /// Whether it has no point.
    pub fn is_empty(&self) -> bool
        requires k { K ≤ MAX_DIMS }
        ensures { result ≡ is_empty self.now }
    {
        let lo = self.ends.lo();
        let hi = self.ends.hi();
        for d in 0..K {
            if hi.get(d) < lo.get(d) {
                return true;
            }
        }
        false
    }
}
