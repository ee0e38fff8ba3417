//! Objects whose shapes are fixed.

ghost use Rattle.std.specs.Prelude.{◌≡◌};
ghost use Rattle.linear_conditions.specs.Fixings.{fixed_place, place_of};
ghost use Rattle.linear_conditions.specs.Views.{fixings_view};

/// Objects with the places of their fixed shapes, the innermost first. Each link stands on the stack.
#[derive(Clone, Copy)]
pub enum Fixings<'a> {
    Nothing,
    /// One more: the object, by its position from 0, and the place of its shape in its own list, from 1.
    More(&'a Fixings<'a>, usize, u8),
}

/// An object's fixed place; 0 where none is fixed.
pub fn fixed_place(fixings: &Fixings, o: usize) -> u8
    ensures { result ≡ fixed_place (fixings_view fixings.now) o }
{
    match fixings {
        Fixings::Nothing => 0,
        Fixings::More(outer, object, place) => {
            if o == *object {
                *place
            } else {
                fixed_place(outer, o)
            }
        }
    }
}

/// The place that is taken for an object: the fixed one, else the first.
pub fn place_of(fixings: &Fixings, o: usize) -> u8
    ensures { result ≡ place_of (fixings_view fixings.now) o }
{
    let fixed = fixed_place(fixings, o);
    if fixed == 0 { 1 } else { fixed }
}
