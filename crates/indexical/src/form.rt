//! The forbidden box of one linear form: the box of the point is widened, one end after another, as
//! far as the form stays above 0.

ghost use Rattle.std.specs.Prelude.{◌≡◌, ◌≢◌, ℕ, suc, ◌+◌, ◌*◌, ◌<◌, ◌≤◌, true, Bool, List, length, ℤ, pos, IfSome, IfNone, ◌+ℤ◌, ◌≤ℤ◌};
ghost use Rattle.std.specs.List.{All};
ghost use Rattle.geo_base.specs.Boxes.{Has};
ghost use Rattle.geo_conditions.specs.declared.cond.Cond.{Cond};
ghost use Rattle.geo_conditions.specs.Form.{IsForm};
ghost use Rattle.geo_conditions.specs.Reach.{Exists, with_at, just};
ghost use Rattle.geo_conditions.specs.Conditions.{possible, IsRefuted};
ghost use Rattle.geo_conditions.specs.Regions.{region_of};
ghost use Rattle.indexical.specs.Disjunctions.{IsDisjunction};
ghost use Rattle.indexical.specs.Widening.{factor_at, cost, outer, Widens, WidensFrom};

use geo_base::{KBox, Point, Way};
use geo_conditions::{Form, ObjId, State, least_value_at};

/// The factor of that coordinate in the form; 0 where it has none.
pub fn factor_of(f: &Form, o: ObjId, d: usize) -> i64
    ensures { result ≡ factor_at f.now.terms o.0 d }
{
    for term in f.terms() {
        if term.object.0 == o.0 && term.dimension == d {
            return term.factor;
        }
    }
    0
}

/// How much the least value of a form falls where an end of a coordinate with that factor moves
/// outwards by one.
pub fn price_for(factor: i64, high: bool) -> u64
    ensures { result ≡ cost high factor }
{
    if high == (factor < 0) {
        factor.unsigned_abs()
    } else {
        0
    }
}

/// The same for that coordinate of an object.
fn price_of(f: &Form, o: ObjId, d: usize, high: bool) -> u64
    ensures { result ≡ cost high (factor_at f.now.terms o.0 d) }
{
    price_for(factor_of(f, o, d), high)
}

/// Buys units, at most so many, as long as the purse pays for them.
fn buy(purse: &mut u128, price: u64, most: u64) -> u64
    ensures most { result ≤ most }
    ensures paid { purse.new + price * result ≡ purse.old }
    ensures empty { result < most → purse.new < price }
{
    if price == 0 {
        return most;
    }
    if price == 1 {
        let units = (*purse).min(u128::from(most));
        *purse -= units;
        return units as u64;
    }
    let price = u128::from(price);
    let units = (*purse / price).min(u128::from(most));
    *purse -= units * price;
    units as u64
}

/// How far apart two numbers are.
fn distance(low: i64, high: i64) -> u64
    requires { low ≤ℤ high }
    ensures { low +ℤ pos result ≡ high }
{
    high.abs_diff(low)
}

/// The number so many units above `end`, at most the limit.
fn up_by(end: i64, units: u64, limit: i64) -> i64
    requires { (end +ℤ pos units) ≤ℤ limit }
    ensures { result ≡ end +ℤ pos units }
{
    (i128::from(end) + i128::from(units)) as i64
}

/// The number so many units below `end`, at least the limit.
fn down_by(end: i64, units: u64, limit: i64) -> i64
    requires { (limit +ℤ pos units) ≤ℤ end }
    ensures { result +ℤ pos units ≡ end }
{
    (i128::from(end) - i128::from(units)) as i64
}

/// Moves one end of the box in the dimension d outwards, towards that of the region, as far as the
/// purse pays that price for each unit.
pub fn widen_at<const K: usize>(
    price: u64,
    d: usize,
    high: bool,
    region: &KBox<K>,
    b: &mut KBox<K>,
    purse: &mut u128,
)
    requires dimension { d < K }
    requires inside { outer high (region_of b.old) d ≤ℤ outer high (region_of region.now) d }
    ensures { Widens high d price (region_of region.now)
        (region_of b.old) (region_of b.new) purse.old purse.new }
{
    if high {
        let end = b.hi.get(d);
        let limit = region.hi.get(d);
        let units = buy(purse, price, distance(end, limit));
        b.hi.set(d, up_by(end, units, limit));
    } else {
        let end = b.lo.get(d);
        let limit = region.lo.get(d);
        let units = buy(purse, price, distance(limit, end));
        b.lo.set(d, down_by(end, units, limit));
    }
}

/// The same at the price that the form sets.
fn widen<const K: usize>(
    f: &Form,
    o: ObjId,
    d: usize,
    high: bool,
    region: &KBox<K>,
    b: &mut KBox<K>,
    purse: &mut u128,
)
    requires dimension { d < K }
    requires inside { outer high (region_of b.old) d ≤ℤ outer high (region_of region.now) d }
    ensures { Widens high d (cost high (factor_at f.now.terms o.0 d)) (region_of region.now)
        (region_of b.old) (region_of b.new) purse.old purse.new }
{
    widen_at(price_of(f, o, d, high), d, high, region, b, purse);
}

/// Moves each end of the box on one side outwards, the least significant dimension first.
fn widen_all<const K: usize>(
    f: &Form,
    o: ObjId,
    high: bool,
    region: &KBox<K>,
    way: &Way<K>,
    b: &mut KBox<K>,
    purse: &mut u128,
)
    requires form { IsForm f.now.terms f.now.constant }
    requires inside { (d : ℕ) → d < K →
        outer high (region_of b.old) d ≤ℤ outer high (region_of region.now) d }
    ensures { WidensFrom K way.now.lead 0 f.now o.0 high (region_of region.now)
        (region_of b.old) (region_of b.new) purse.old purse.new }
{
    for j in (0..K).rev() {
        widen(f, o, way.dimension(j), high, region, b, purse);
    }
}

/// The forbidden box of a form: what lies ahead in the way comes first, the least significant
/// dimension before the others.
pub fn forbid_form<const K: usize>(
    f: &Form,
    s: &State<K>,
    o: ObjId,
    place: u8,
    c: &Point<K>,
    region: &KBox<K>,
    way: &Way<K>,
) -> Option<KBox<K>>
    requires fits { All (λ a. Exists s.now a.object.0 a.dimension) f.now.terms }
    requires object { o.0 < length s.now }
    requires inside { Has K region.now.lo.coordinates region.now.hi.coordinates c.now.coordinates }
    ensures has { IfSome result (λ b. Has K b.lo.coordinates b.hi.coordinates c.now.coordinates) }
    ensures within { IfSome result (λ b.
        Has K region.now.lo.coordinates region.now.hi.coordinates b.lo.coordinates
        × Has K region.now.lo.coordinates region.now.hi.coordinates b.hi.coordinates) }
    ensures refuted { IfSome result (λ b.
        IsRefuted (Cond.Lin f.now) (with_at s.now o.0 place (region_of b))) }
    ensures whole { IfSome result (λ b. IsDisjunction o.0 (Cond.Lin f.now) → (q : List ℤ)
        → Has K region.now.lo.coordinates region.now.hi.coordinates q
        → IsRefuted (Cond.Lin f.now) (with_at s.now o.0 place (just q))
        → Has K b.lo.coordinates b.hi.coordinates q) }
    ensures none { IfNone result
        (possible (Cond.Lin f.now) (with_at s.now o.0 place (just c.now.coordinates)) ≡ true) }
{
    let _terms = f.terms();
    let mut b = KBox::new(*c, *c);
    let least = least_value_at(f, s, o, place, &b);
    if least <= 0 {
        return None;
    }
    let mut purse = (least - 1) as u128;
    let up = way.up();
    widen_all(f, o, up, region, way, &mut b, &mut purse);
    widen_all(f, o, !up, region, way, &mut b, &mut purse);
    Some(b)
}
