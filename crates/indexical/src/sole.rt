//! What a form that has one coordinate of an object comes to with the object at a point: what the
//! other terms come to, and its factor times that coordinate. No other term is asked at the point.

ghost use Rattle.std.specs.Prelude.{◌+◌, ◌*◌, ◌<◌};
ghost use Rattle.geo_base.specs.declared.TheConstants.{MAX_DIMS};
ghost use Rattle.geo_conditions.specs.declared.object.TheConstants.{MAX_OBJECTS};
ghost use Rattle.geo_conditions.specs.Form.{IsBounded};
ghost use Rattle.geo_conditions.specs.Sums.{InSum};

use crate::least::product;
use geo_base::Point;

/// What a form comes to with an object at a point: a number, and a factor times one coordinate of
/// the point.
#[derive(Clone, Copy)]
pub struct SoleTerm<const K: usize> {
    rest: i128,
    factor: i64,
    dimension: usize,
    ghost inside: { dimension < K },
    ghost bounded: { IsBounded factor },
    ghost small: { InSum (MAX_OBJECTS * MAX_DIMS + 2) rest },
}

impl<const K: usize> SoleTerm<K> {
    ghost use Rattle.std.specs.Prelude.{◌≡◌, ◌+◌, ◌*◌, ◌<◌, ◌<ℤ◌, ◌↔◌, IsTrue, pos};
    ghost use lib.Signed.{le_z};
    ghost use Rattle.geo_base.specs.declared.TheConstants.{MAX_DIMS};
    ghost use Rattle.geo_conditions.specs.declared.object.TheConstants.{MAX_OBJECTS};
    ghost use Rattle.geo_conditions.specs.Form.{IsBounded};
    ghost use Rattle.geo_conditions.specs.Sums.{InSum};
    ghost use Rattle.indexical.specs.Sole.{value_with};

    /// What comes to that number, and the factor times the coordinate in that dimension.
    pub fn new(rest: i128, factor: i64, dimension: usize) -> SoleTerm<K>
        requires inside { dimension < K }
        requires bounded { IsBounded factor }
        requires small { InSum (MAX_OBJECTS * MAX_DIMS + 2) rest }
        ensures rest { result.rest ≡ rest }
        ensures factor { result.factor ≡ factor }
        ensures dimension { result.dimension ≡ dimension }
    {
        SoleTerm {
            rest,
            factor,
            dimension,
        }
    }

    /// What the form comes to with the object at the point.
    #[inline(always)]
    pub fn value_at(&self, c: &Point<K>) -> i128
        ensures { result ≡ value_with self.now c.now.coordinates }
    {
        self.rest + product(self.factor, c.get(self.dimension))
    }

    /// Whether the form is possible with the object at the point.
    #[inline(always)]
    pub fn is_possible_at(&self, c: &Point<K>) -> bool
        ensures { result ≡ le_z (value_with self.now c.now.coordinates) (pos 0) }
    {
        self.value_at(c) <= 0
    }

    /// Whether the form falls as the coordinate rises.
    #[inline(always)]
    pub fn is_falling(&self) -> bool
        ensures { IsTrue result ↔ (self.now.factor <ℤ pos 0) }
    {
        self.factor < 0
    }

    /// The dimension of the coordinate.
    #[inline(always)]
    pub fn dimension(&self) -> usize
        ensures { result ≡ self.now.dimension }
    {
        self.dimension
    }
}
