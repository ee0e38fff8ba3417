//! A box that is cut down to a forbidden box of a linear form, in its place. Of a form with at most
//! one coordinate of the object one end moves, and no other.

ghost use Rattle.std.specs.Prelude.{◌≡◌, ℕ, suc, ◌<◌, ◌≤◌, true, false, Some, length, pos, IfSome};
ghost use Rattle.std.specs.List.{All};
ghost use Rattle.geo_base.specs.Boxes.{Has};
ghost use Rattle.geo_conditions.specs.declared.cond.Cond.{Cond};
ghost use Rattle.geo_conditions.specs.Reach.{Exists, with_at, just};
ghost use Rattle.geo_conditions.specs.Conditions.{least_value, possible};
ghost use Rattle.geo_conditions.specs.Regions.{region_of};
ghost use Rattle.indexical.specs.Forbidden.{Forbids, IsForbiddenBox};
ghost use Rattle.indexical.specs.Sole.{IsSole};
ghost use Rattle.indexical.specs.Widening.{BeginsAt};

use crate::forbidden::ForbiddenPart;
use crate::form::{factor_of, forbid_form, price_for, widen_at};
use crate::least::least_value_with;
use crate::sole::SoleTerm;
use crate::sole_making::sole_term;
use crate::spared::form_spares;
use geo_base::{KBox, MAX_DIMS, Point, Way};
use geo_conditions::{Form, ObjId, State};

/// The dimension in which the form has a coordinate of the object, if it has one; None where it has
/// several.
pub fn own_dimension<const K: usize>(f: &Form, s: &State<K>, o: ObjId) -> Option<Option<usize>>
    requires fits { All (λ a. Exists s.now a.object.0 a.dimension) f.now.terms }
    ensures own { IfSome result (λ own.
        All (λ a. a.object.0 ≡ o.0 → own ≡ Some a.dimension) f.now.terms) }
    ensures dimension { IfSome result (λ own. IfSome own (λ d. d < K)) }
{
    let _objects = s.objects();
    let mut own = None;
    for term in f.terms() {
        if term.object.0 == o.0 {
            if own.is_some() {
                return None;
            }
            own = Some(term.dimension);
        }
    }
    Some(own)
}

/// Moves one end of the box in a dimension to the coordinate of the point.
#[inline(always)]
fn begin_at<const K: usize>(b: &mut KBox<K>, d: usize, high: bool, c: &Point<K>)
    requires dimension { d < K }
    ensures { BeginsAt high d c.now.coordinates (region_of b.old) (region_of b.new) }
{
    if high {
        b.hi.set(d, c.get(d));
    } else {
        b.lo.set(d, c.get(d));
    }
}

/// Cuts the box down by a form that is above 0 by one more than the purse with the object at c, and
/// has the coordinate `own` of the object, or none.
fn cut_by_sole<const K: usize>(
    f: &Form,
    s: &State<K>,
    o: ObjId,
    place: u8,
    c: &Point<K>,
    own: Option<usize>,
    mut purse: u128,
    b: &mut KBox<K>,
)
    requires object { o.0 < length s.now }
    requires inside { Has K b.old.lo.coordinates b.old.hi.coordinates c.now.coordinates }
    requires own { All (λ a. a.object.0 ≡ o.0 → own ≡ Some a.dimension) f.now.terms }
    requires dimension { IfSome own (λ d. d < K) }
    requires above { least_value f.now (with_at s.now o.0 place (just c.now.coordinates))
        ≡ pos (suc purse) }
    ensures { IsForbiddenBox K (Cond.Lin f.now) s.now o.0 place
        c.now.coordinates (region_of b.old) (region_of b.new) }
{
    let _terms = f.terms();
    let Some(d) = own else {
        return;
    };
    let region = *b;
    let factor = factor_of(f, o, d);
    let high = factor < 0;
    begin_at(b, d, high, c);
    widen_at(price_for(factor, high), d, high, &region, b, &mut purse);
}

/// The same for a form that has several coordinates of the object.
fn cut_by_several<const K: usize>(
    f: &Form,
    s: &State<K>,
    o: ObjId,
    place: u8,
    c: &Point<K>,
    way: &Way<K>,
    b: &mut KBox<K>,
) -> bool
    requires fits { All (λ a. Exists s.now a.object.0 a.dimension) f.now.terms }
    requires object { o.0 < length s.now }
    requires inside { Has K b.old.lo.coordinates b.old.hi.coordinates c.now.coordinates }
    ensures cut { result ≡ true → IsForbiddenBox K (Cond.Lin f.now) s.now o.0 place
        c.now.coordinates (region_of b.old) (region_of b.new) }
    ensures possible { result ≡ false → possible (Cond.Lin f.now)
        (with_at s.now o.0 place (just c.now.coordinates)) ≡ true }
    ensures same { result ≡ false → b.new ≡ b.old }
{
    match forbid_form(f, s, o, place, c, b, way) {
        Some(smaller) => {
            *b = smaller;
            true
        }
        None => false,
    }
}

/// Cuts a box that has the point c down to a forbidden box of the form, and says whether the form
/// is refuted with the object at c. Where it is not, the box stays as it was.
#[inline(never)]
pub fn cut_form<const K: usize>(
    f: &Form,
    s: &State<K>,
    o: ObjId,
    place: u8,
    c: &Point<K>,
    way: &Way<K>,
    b: &mut KBox<K>,
) -> bool
    requires fits { All (λ a. Exists s.now a.object.0 a.dimension) f.now.terms }
    requires object { o.0 < length s.now }
    requires inside { Has K b.old.lo.coordinates b.old.hi.coordinates c.now.coordinates }
    ensures cut { result ≡ true → IsForbiddenBox K (Cond.Lin f.now) s.now o.0 place
        c.now.coordinates (region_of b.old) (region_of b.new) }
    ensures possible { result ≡ false → possible (Cond.Lin f.now)
        (with_at s.now o.0 place (just c.now.coordinates)) ≡ true }
    ensures same { result ≡ false → b.new ≡ b.old }
{
    let least = least_value_with(f, s, o, c);
    if least <= 0 {
        return false;
    }
    match own_dimension(f, s, o) {
        Some(own) => {
            cut_by_sole(f, s, o, place, c, own, (least - 1) as u128, b);
            true
        }
        None => cut_by_several(f, s, o, place, c, way, b),
    }
}

/// What a form with one coordinate of the object forbids of the region: a side of it. The form is
/// greatest at one of the two corners, and is cut down from there.
fn side_part<const K: usize>(
    f: &Form,
    sole: &SoleTerm<K>,
    s: &State<K>,
    o: ObjId,
    place: u8,
    region: &KBox<K>,
) -> ForbiddenPart<K>
    requires object { o.0 < length s.now }
    requires sole { IsSole f.now s.now o.0 sole.now }
    ensures { Forbids K (Cond.Lin f.now) s.now o.0 place (region_of region.now) result }
{
    let _terms = f.terms();
    if region.is_empty() {
        return ForbiddenPart::Nothing;
    }
    let corner = if sole.is_falling() {
        region.lo
    } else {
        region.hi
    };
    let greatest = sole.value_at(&corner);
    if greatest <= 0 {
        return ForbiddenPart::Nothing;
    }
    let mut b = *region;
    let own = Some(sole.dimension());
    cut_by_sole(f, s, o, place, &corner, own, (greatest - 1) as u128, &mut b);
    ForbiddenPart::Exactly(b)
}

/// What a form forbids of the region with the object at that place. It is known where the form has
/// one coordinate of the object.
pub fn form_part<const K: usize>(
    f: &Form,
    s: &State<K>,
    o: ObjId,
    place: u8,
    region: &KBox<K>,
) -> ForbiddenPart<K>
    requires k { K ≤ MAX_DIMS }
    requires fits { All (λ a. Exists s.now a.object.0 a.dimension) f.now.terms }
    requires object { o.0 < length s.now }
    ensures { Forbids K (Cond.Lin f.now) s.now o.0 place (region_of region.now) result }
{
    match sole_term(f, s, o) {
        Some(sole) => side_part(f, &sole, s, o, place, region),
        None if form_spares(f, s, o) => ForbiddenPart::Nothing,
        None => ForbiddenPart::Unknown,
    }
}
