//! What a cut leaves of an object, and which place comes next.

ghost use Rattle.std.specs.Prelude.{◌≡◌, ◌≤◌, ◌<◌, length};
ghost use Rattle.derivation.specs.declared.half.Half.TheVariants.{OfSide};
ghost use Rattle.derivation.specs.Covers.{IsCut};
ghost use Rattle.derivation.specs.PlaceCovers.{next_place};
ghost use Rattle.derivation.specs.Valid.{alone, first_part, second_part, change};
ghost use Rattle.derivation_check.specs.Fits.{HalfFits};
ghost use Rattle.derivation.specs.Fits.{IsPlace};

use derivation::{Half, Side};
use geo_base::MAX_DIMS;
use geo_conditions::{MAX_SHAPES, ObjId, ShapeSet, State};

/// Of these places the given one alone, where it is there.
fn alone(places: ShapeSet, place: u8) -> ShapeSet
    requires place { IsPlace place }
    requires whole { length places ≡ MAX_SHAPES }
    ensures { result ≡ alone place places }
{
    let mut left = ShapeSet::up_to(0);
    left.set(place, places.has(place));
    left
}

/// The first place from `from` on that is there.
pub fn next_there(places: &ShapeSet, from: u8) -> Option<u8>
    requires from { 1 ≤ from }
    requires whole { length places.now ≡ MAX_SHAPES }
    ensures { result ≡ next_place from places.now }
{
    for place in from..MAX_SHAPES as u8 + 1 {
        if places.has(place) {
            return Some(place);
        }
    }
    None
}

fn keep_near<const K: usize>(s: &mut State<K>, o: ObjId, side: Side)
    requires k { K ≤ MAX_DIMS }
    requires object { o.0 < length s.old }
    requires side { IsCut K side }
    ensures { s.new ≡ change (first_part (OfSide side)) s.old o.0 }
{
    match side {
        Side::Upto(d, v) => {
            let d = d as usize;
            let now = s.interval(o, d);
            s.set_high(o, d, now.hi.min(v));
        }
        Side::From(d, v) => {
            let d = d as usize;
            let now = s.interval(o, d);
            s.set_low(o, d, now.lo.max(v));
        }
    }
}

fn keep_far<const K: usize>(s: &mut State<K>, o: ObjId, side: Side)
    requires k { K ≤ MAX_DIMS }
    requires object { o.0 < length s.old }
    requires side { IsCut K side }
    ensures { s.new ≡ change (second_part (OfSide side)) s.old o.0 }
{
    match side {
        Side::Upto(d, v) => {
            let d = d as usize;
            let now = s.interval(o, d);
            s.set_low(o, d, now.lo.max(v + 1));
        }
        Side::From(d, v) => {
            let d = d as usize;
            let now = s.interval(o, d);
            s.set_high(o, d, now.hi.min(v - 1));
        }
    }
}

/// Leaves the first part of what is left to an object.
pub fn keep_first<const K: usize>(s: &mut State<K>, o: ObjId, half: Half)
    requires k { K ≤ MAX_DIMS }
    requires object { o.0 < length s.old }
    requires half { HalfFits K half }
    ensures { s.new ≡ change (first_part half) s.old o.0 }
{
    match half {
        Half::OfPlace(place) => {
            let left = alone(s.places(o), place);
            s.set_places(o, left);
        }
        Half::OfSide(side) => keep_near(s, o, side),
    }
}

/// Leaves the second part of it.
pub fn keep_second<const K: usize>(s: &mut State<K>, o: ObjId, half: Half)
    requires k { K ≤ MAX_DIMS }
    requires object { o.0 < length s.old }
    requires half { HalfFits K half }
    ensures { s.new ≡ change (second_part half) s.old o.0 }
{
    match half {
        Half::OfPlace(place) => s.drop_shape(o, place),
        Half::OfSide(side) => keep_far(s, o, side),
    }
}
