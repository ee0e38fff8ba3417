//! Division that rounds down.
//!
//! No text has the divisor 0. With it the quotient is 0, or -1 of a negative number, and nothing is left of a negative number.

ghost use Rattle.std.specs.Prelude.{◌≡◌, pos};
ghost use Rattle.std.specs.Int.{int_div_euclid, int_rem_euclid};

/// How often a number goes into another one, rounded down.
pub fn floor_quotient(z: i128, n: u32) -> i128
    ensures { result ≡ int_div_euclid z (pos n) }
{
    if n == 0 {
        return if z < 0 { -1 } else { 0 };
    }
    z.div_euclid(i128::from(n))
}

/// What is left; it is not negative, and below the divisor.
pub fn floor_remainder(z: i128, n: u32) -> i128
    ensures { result ≡ int_rem_euclid z (pos n) }
{
    if n == 0 {
        return if z < 0 { 0 } else { z };
    }
    z.rem_euclid(i128::from(n))
}
