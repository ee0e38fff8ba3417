//! How a case distinction cuts what is left to an object in two.

use crate::side::Side;

/// What splits the choices that are left to an object in two: a place and the others, or a side of a number and the rest.
#[derive(Clone, Copy)]
pub enum Half {
    OfPlace(u8),
    OfSide(Side),
}
