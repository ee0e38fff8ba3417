//! Owners of cells, and their signs.

ghost use Rattle.std.specs.Prelude.{◌≡◌};

use geo_conditions::ObjId;

/// The signs of objects.
const SIGNS: [u8; 62] = *b"abcdefghijklmnopqrstuvwxyzABCDEFGHIJKLMNOPQRSTUVWXYZ0123456789";

/// Which objects have a cell.
#[derive(Clone, Copy)]
pub enum Owner {
    Nobody,
    One(ObjId),
    Several,
}

impl Owner {
    ghost use Rattle.layout_drawing.specs.Painting.{owner_sign, owner_with};

    /// The owner of a cell that this object has too.
    pub fn with(self, object: ObjId) -> Owner
        ensures { result ≡ owner_with self object }
    {
        match self {
            Owner::Nobody => Owner::One(object),
            Owner::One(first) => {
                if first.0 == object.0 {
                    self
                } else {
                    Owner::Several
                }
            }
            Owner::Several => Owner::Several,
        }
    }

    /// The sign of a cell.
    pub fn sign(self) -> u8
        ensures { result ≡ owner_sign self }
    {
        match self {
            Owner::Nobody => b'.',
            Owner::One(object) => SIGNS[object.0 as usize % SIGNS.len()],
            Owner::Several => b'#',
        }
    }
}
