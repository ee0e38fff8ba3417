//! Forms with at most one coordinate. Most sides of comparisons are such; they take no memory.

ghost use Rattle.std.specs.Prelude.{◌∷◌, [], negsuc, pos};
ghost use Rattle.std.specs.Int.{int_div_euclid, int_rem_euclid};
ghost use Rattle.geo_conditions.specs.Form.{Sum};
ghost use Rattle.linear_conditions.specs.Faults.{GivesShort};
ghost use Rattle.linear_conditions.specs.Sums.{add_sums, constant_sum, fits_sum, scale, term, times_sum};
ghost use Rattle.linear_conditions.specs.Views.{atom_view, short_view};

use crate::wide::{Atom, is_within};
use geo_conditions::ObjId;
use rule_values::floor::{floor_quotient, floor_remainder};

/// A form with at most one coordinate.
#[derive(Clone, Copy)]
pub enum Short {
    Number(i64),
    /// A coordinate of an object, with a number added.
    Shifted(ObjId, usize, i64),
}

/// A number, if it is within the bounds.
pub fn number(z: i128) -> Option<Short>
    ensures { GivesShort result (constant_sum z) (fits_sum (constant_sum z)) }
{
    if is_within(z) {
        Some(Short::Number(z as i64))
    } else {
        None
    }
}

/// A coordinate with a number added, if it is within the bounds.
fn shifted(object: ObjId, dimension: usize, z: i128) -> Option<Short>
    ensures { let f : Sum = record { terms = term object.0 dimension (pos 1) ∷ []; constant = z } in
        GivesShort result f (fits_sum f) }
{
    if is_within(z) {
        Some(Short::Shifted(object, dimension, z as i64))
    } else {
        None
    }
}

/// A number or a coordinate, if it is within the bounds.
pub fn of_atom(atom: Atom) -> Option<Short>
    ensures { GivesShort result (atom_view atom) (fits_sum (atom_view atom)) }
{
    match atom {
        Atom::Number(z) => number(z),
        Atom::Coordinate(object, dimension) => shifted(object, dimension, 0),
    }
}

/// A form with a number added.
fn raised(f: Short, z: i64) -> Option<Short>
    ensures { let g = add_sums (short_view f) (constant_sum z) in GivesShort result g (fits_sum g) }
{
    match f {
        Short::Number(x) => number(i128::from(x) + i128::from(z)),
        Short::Shifted(object, dimension, x) => {
            shifted(object, dimension, i128::from(x) + i128::from(z))
        }
    }
}

/// A number with a coordinate added; two coordinates make no short form.
fn moved(f: Short, object: ObjId, dimension: usize, z: i64) -> Option<Short>
    ensures { let t : Sum = record { terms = term object.0 dimension (pos 1) ∷ []; constant = z } in
        let g = add_sums (short_view f) t in
        GivesShort result g (fits_sum g) }
{
    match f {
        Short::Number(x) => shifted(object, dimension, i128::from(x) + i128::from(z)),
        Short::Shifted(_object, _dimension, _x) => None,
    }
}

/// The sum of two forms.
pub fn added(f: Short, g: Short) -> Option<Short>
    ensures { let h = add_sums (short_view f) (short_view g) in GivesShort result h (fits_sum h) }
{
    match g {
        Short::Number(z) => raised(f, z),
        Short::Shifted(object, dimension, z) => moved(f, object, dimension, z),
    }
}

/// A form less a number.
fn lowered(f: Short, z: i64) -> Option<Short>
    ensures { let g = add_sums (short_view f) (scale (negsuc 0) (constant_sum z)) in
        GivesShort result g (fits_sum g) }
{
    match f {
        Short::Number(x) => number(i128::from(x) - i128::from(z)),
        Short::Shifted(object, dimension, x) => {
            shifted(object, dimension, i128::from(x) - i128::from(z))
        }
    }
}

/// A form less another one, which has to be a number.
pub fn subtracted(f: Short, g: Short) -> Option<Short>
    ensures { let h = add_sums (short_view f) (scale (negsuc 0) (short_view g)) in
        GivesShort result h (fits_sum h) }
{
    match g {
        Short::Number(z) => lowered(f, z),
        Short::Shifted(_object, _dimension, _z) => None,
    }
}

/// A number with the other sign.
pub fn negated(f: Short) -> Option<Short>
    ensures { let g = scale (negsuc 0) (short_view f) in GivesShort result g (fits_sum g) }
{
    match f {
        Short::Number(z) => number(-i128::from(z)),
        Short::Shifted(_object, _dimension, _z) => None,
    }
}

/// A number that is multiplied.
fn scaled(x: i64, g: Short) -> Option<Short>
    ensures { let h = times_sum (constant_sum x) (short_view g) in
        GivesShort result h (fits_sum h) }
{
    match g {
        Short::Number(z) => number(i128::from(x) * i128::from(z)),
        Short::Shifted(_object, _dimension, _z) => None,
    }
}

/// The product of two numbers.
pub fn multiplied(f: Short, g: Short) -> Option<Short>
    ensures { let h = times_sum (short_view f) (short_view g) in GivesShort result h (fits_sum h) }
{
    match f {
        Short::Number(x) => scaled(x, g),
        Short::Shifted(_object, _dimension, _x) => None,
    }
}

/// How often a number goes into a form's, rounded down.
pub fn quotient(f: Short, n: u32) -> Option<Short>
    ensures { let g = constant_sum (int_div_euclid (short_view f).constant (pos n)) in
        GivesShort result g (fits_sum g) }
{
    match f {
        Short::Number(z) => number(floor_quotient(i128::from(z), n)),
        Short::Shifted(_object, _dimension, _z) => None,
    }
}

/// What is left of a form's number.
pub fn remainder(f: Short, n: u32) -> Option<Short>
    ensures { let g = constant_sum (int_rem_euclid (short_view f).constant (pos n)) in
        GivesShort result g (fits_sum g) }
{
    match f {
        Short::Number(z) => number(floor_remainder(i128::from(z), n)),
        Short::Shifted(_object, _dimension, _z) => None,
    }
}
