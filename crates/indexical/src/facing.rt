//! What a condition asks of places before it can be in an object's way.

ghost use Rattle.std.specs.Prelude.{◌≡◌, ◌≢◌, ℕ, None, Some, true};
ghost use Rattle.geo_conditions.specs.declared.cond.Cond.{Cond};
ghost use Rattle.indexical.specs.Faces.{Faces};

use crate::placed::PlacedBox;
use crate::two_boxes::spared_place;
use geo_conditions::{Cond, ObjId};

/// What a condition asks of places before it can be in an object's way. Places count from 1; 0 stands where none is asked.
#[derive(Clone, Copy)]
pub struct Facing {
    /// The place that the object has to have.
    pub place: u8,
    /// The other object, where the condition names no third one.
    pub other: Option<ObjId>,
    /// The place that the other object has to have, and no other place.
    pub other_place: u8,
}

impl Facing {
    /// Nothing is known to be asked.
    pub fn unknown() -> Facing
        ensures { (c : Cond) (o : ℕ) → Faces c o result }
    {
        Facing::at(0)
    }

    /// The object has to have that place, if it is not 0. Nothing else is known to be asked.
    fn at(place: u8) -> Facing
        ensures place { result.place ≡ place }
        ensures other { result.other ≡ None }
    {
        Facing {
            place,
            other: None,
            other_place: 0,
        }
    }
}

/// What a condition asks of places by its tree: where one of its parts is enough, and one says that the object has another place
/// than some, the object has to have that one.
pub fn facing_of_tree(c: &Cond, o: ObjId) -> Facing
    ensures { Faces c.now o.0 result }
{
    let nothing = Facing::unknown();
    match c {
        Cond::AtLeast(n, children) => {
            if *n > 1 {
                return nothing;
            }
            for child in children.as_slice() {
                if let Some(place) = spared_place(child, o) {
                    return Facing::at(place);
                }
            }
            nothing
        }
        _ => nothing,
    }
}

// The place that the box's object has to have; 0 where none is asked.
fn asked_place<const K: usize>(b: &PlacedBox<K>) -> u8
    ensures { result ≢ 0 → (b.now.leaf ≡ true) × (b.now.place ≡ result) }
{
    if b.leaf() { b.place() } else { 0 }
}

/// What the condition that two boxes do not overlap asks before it can be in the way of the first one's object.
pub fn facing_beside<const K: usize>(own: &PlacedBox<K>, other: &PlacedBox<K>) -> Facing
    ensures place { result.place ≢ 0 → (own.now.leaf ≡ true) × (own.now.place ≡ result.place) }
    ensures other { result.other ≡ Some other.now.object }
    ensures other_place { result.other_place ≢ 0
        → (other.now.leaf ≡ true) × (other.now.place ≡ result.other_place) }
{
    Facing {
        place: asked_place(own),
        other: Some(other.object()),
        other_place: asked_place(other),
    }
}
