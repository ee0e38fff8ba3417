//! A box of a shape, seen from the origin of the object that has it.

ghost use Rattle.std.specs.Prelude.{◌≡◌};
ghost use Rattle.indexical.specs.Limits.{IsWithinLimit};

use geo_base::Point;
use geo_conditions::ObjId;

/// A box of one of an object's shapes, placed by the object's origin.
#[derive(Clone, Copy)]
pub struct PlacedBox<const K: usize> {
    object: ObjId,
    place: u8,
    leaf: bool,
    offset: Point<K>,
    size: Point<K>,
    ghost bounded: { IsWithinLimit K offset.coordinates × IsWithinLimit K size.coordinates },
}

impl<const K: usize> PlacedBox<K> {
    /// A box of that offset and size of the shape at that place in the object's list. `leaf` tells
    /// whether conditions on the box spare the object at its other shapes. The numbers lie within
    /// -10^14 to 10^14.
    pub fn new(o: ObjId, place: u8, leaf: bool, offset: Point<K>, size: Point<K>) -> PlacedBox<K>
        requires offset { IsWithinLimit K offset.coordinates }
        requires size { IsWithinLimit K size.coordinates }
        ensures object { result.object ≡ o }
        ensures place { result.place ≡ place }
        ensures leaf { result.leaf ≡ leaf }
        ensures offset { result.offset ≡ offset.entry }
        ensures size { result.size ≡ size.entry }
    {
        PlacedBox {
            object: o,
            place,
            leaf,
            offset,
            size,
        }
    }

    /// The object whose box it is.
    #[inline(always)]
    pub fn object(&self) -> ObjId
        ensures { result ≡ self.now.object }
    {
        self.object
    }

    /// The place of the shape in the object's list, from 1.
    #[inline(always)]
    pub fn place(&self) -> u8
        ensures { result ≡ self.now.place }
    {
        self.place
    }

    /// Whether conditions on the box spare the object at its other shapes.
    #[inline(always)]
    pub fn leaf(&self) -> bool
        ensures { result ≡ self.now.leaf }
    {
        self.leaf
    }

    /// How far the box begins from the object's origin.
    #[inline(always)]
    pub fn offset(&self) -> &Point<K>
        ensures { result.now ≡ self.now.offset }
    {
        &self.offset
    }

    /// How long the box is in each dimension.
    #[inline(always)]
    pub fn size(&self) -> &Point<K>
        ensures { result.now ≡ self.now.size }
    {
        &self.size
    }
}
