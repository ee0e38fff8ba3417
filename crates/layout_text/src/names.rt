//! The shapes of an object by their names.

ghost use Rattle.std.specs.Prelude.{◌≡◌, ◌<◌, ◌≤◌, length, map, All};
ghost use Rattle.std.specs.List.{position_or_len};
ghost use Rattle.std.specs.Str.{bytes_eq};
ghost use Rattle.layout_text.specs.Faults.{name_of_shape, shape_names};

use geo_tokens::name::Name;
use problem_data::problem::{ObjectDef, Problem};

/// The name of a shape, by its position among all shapes.
fn name_of_shape(problem: &Problem, shape: u16) -> &Name
    requires { shape < length problem.now.shapes }
    ensures { result.now ≡ name_of_shape problem.now shape }
{
    problem.shapes()[shape as usize].name()
}

// The position of a name among the names of these shapes, or their number where it is none of them.
fn position_among(problem: &Problem, shapes: &[u16], name: &Name) -> usize
    requires { All (λ s. s < length problem.now.shapes) shapes.now }
    ensures value { result ≡ position_or_len (bytes_eq name.now)
        (map (name_of_shape problem.now) shapes.now) }
    ensures within { result ≤ length shapes.now }
{
    match shapes {
        [first, rest @ ..] => {
            if name == name_of_shape(problem, *first) {
                0
            } else {
                position_among(problem, rest, name) + 1
            }
        }
        [] => 0,
    }
}

/// The position of a name among the names of the object's shapes, or their number where it is none
/// of them.
pub fn shape_position(problem: &Problem, object: &ObjectDef, name: &Name) -> usize
    requires { All (λ s. s < length problem.now.shapes) object.now.shapes }
    ensures value { result ≡ position_or_len (bytes_eq name.now)
        (shape_names problem.now object.now) }
    ensures within { result ≤ length object.now.shapes }
{
    position_among(problem, object.shapes(), name)
}
