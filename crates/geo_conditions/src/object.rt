//! Objects by their numbers, and how many there may be.

/// An object, by its number from 0.
#[derive(Clone, Copy, Debug, Default, PartialEq, Eq)]
pub struct ObjId(pub u16);

/// The greatest number of objects.
pub const MAX_OBJECTS: usize = 200;

/// The greatest number of shapes of an object.
pub const MAX_SHAPES: usize = 16;
