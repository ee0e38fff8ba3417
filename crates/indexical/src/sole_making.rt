//! Forms that have one coordinate of an object.

ghost use Rattle.std.specs.Prelude.{◌≡◌, ◌+◌, ◌*◌, ◌<◌, ◌≤◌, length, IfSome};
ghost use Rattle.std.specs.List.{All};
ghost use Rattle.geo_base.specs.declared.TheConstants.{MAX_DIMS};
ghost use Rattle.geo_conditions.specs.declared.object.TheConstants.{MAX_OBJECTS};
ghost use Rattle.geo_conditions.specs.Conditions.{least_value, least_product};
ghost use Rattle.geo_conditions.specs.Form.{IsBounded};
ghost use Rattle.geo_conditions.specs.Reach.{Exists, high, low};
ghost use Rattle.geo_conditions.specs.Sums.{InSum};
ghost use Rattle.indexical.specs.Sole.{IsSole};

use crate::cut::own_dimension;
use crate::form::factor_of;
use crate::least::{least_term_of, least_value_of};
use crate::sole::SoleTerm;
use geo_base::MAX_DIMS;
use geo_conditions::{Form, ObjId, State, Term};

/// The least value of a factor times a coordinate of the object.
#[inline(always)]
fn least_own<const K: usize>(factor: i64, s: &State<K>, o: ObjId, d: usize) -> i128
    requires k { K ≤ MAX_DIMS }
    requires bounded { IsBounded factor }
    requires object { o.0 < length s.now }
    requires dimension { d < K }
    ensures value { result ≡ least_product factor (low s.now o.0 d) (high s.now o.0 d) }
    ensures bound { InSum 1 result }
{
    let _objects = s.objects();
    let term = Term {
        object: o,
        dimension: d,
        factor,
    };
    least_term_of(&term, s)
}

/// What the form comes to with the object at a point, if it has one coordinate of it. It is told
/// the least value of the form on the state.
pub fn sole_of<const K: usize>(f: &Form, total: i128, s: &State<K>, o: ObjId) -> Option<SoleTerm<K>>
    requires k { K ≤ MAX_DIMS }
    requires fits { All (λ a. Exists s.now a.object.0 a.dimension) f.now.terms }
    requires object { o.0 < length s.now }
    requires total { total ≡ least_value f.now s.now }
    requires small { InSum (MAX_OBJECTS * MAX_DIMS + 1) total }
    ensures { IfSome result (IsSole f.now s.now o.0) }
{
    let _terms = f.terms();
    let own = own_dimension(f, s, o)?;
    let dimension = own?;
    let factor = factor_of(f, o, dimension);
    let rest = total - least_own(factor, s, o, dimension);
    Some(SoleTerm::new(rest, factor, dimension))
}

/// The same where the least value is not known.
pub fn sole_term<const K: usize>(f: &Form, s: &State<K>, o: ObjId) -> Option<SoleTerm<K>>
    requires k { K ≤ MAX_DIMS }
    requires fits { All (λ a. Exists s.now a.object.0 a.dimension) f.now.terms }
    requires object { o.0 < length s.now }
    ensures { IfSome result (IsSole f.now s.now o.0) }
{
    sole_of(f, least_value_of(f, s), s, o)
}
