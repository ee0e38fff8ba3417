//! The forms of fields.

ghost use Rattle.std.specs.Prelude.{◌≡◌};
ghost use Rattle.linear_conditions.specs.Fixings.{place_of};
ghost use Rattle.linear_conditions.specs.Forms.{constant_sum, coordinate_sum, field_sum, object_sum};
ghost use Rattle.rule_values.specs.Shapes.{shape_number_at};
ghost use Rattle.linear_conditions.specs.Views.{atom_view, fixings_view};
ghost use Rattle.rule_values.specs.View.{thing_view};

use crate::fixings::{Fixings, place_of};
use crate::wide::Atom;
use geo_conditions::ObjId;
use geo_tokens::name::Name;
use problem_data::problem::Problem;
use rule_values::env::Thing;
use rule_values::fields::{ObjectField, box_field, object_field};
use rule_values::shapes::shape_number;

/// A coordinate of an object; 0 where the problem has no such object or dimension.
fn coordinate_sum(problem: &Problem, o: usize, d: usize) -> Atom
    ensures { atom_view result ≡ coordinate_sum problem.now o d }
{
    problem.is_said();
    if o < problem.objects().len() && d < problem.dims() {
        Atom::Coordinate(ObjId(o as u16), d)
    } else {
        Atom::Number(0)
    }
}

/// The number of an object's shape.
fn shape_sum(problem: &Problem, fixings: &Fixings, o: usize) -> Atom
    ensures { atom_view result
        ≡ constant_sum (shape_number_at problem.now o (place_of (fixings_view fixings.now) o)) }
{
    let number = shape_number(problem, o, place_of(fixings, o));
    Atom::Number(i128::from(number))
}

/// A field of an object.
fn object_sum(problem: &Problem, fixings: &Fixings, o: usize, name: &Name) -> Atom
    ensures { atom_view result ≡ object_sum problem.now (fixings_view fixings.now) o name.now }
{
    match object_field(problem, o, name) {
        ObjectField::Coordinate(d) => coordinate_sum(problem, o, d),
        ObjectField::Shape => shape_sum(problem, fixings, o),
        ObjectField::Constant(number) => Atom::Number(number),
    }
}

/// A field of what a variable stands for.
pub fn field_sum(problem: &Problem, fixings: &Fixings, name: &Name, thing: Thing) -> Atom
    ensures { atom_view result
        ≡ field_sum problem.now (fixings_view fixings.now) name.now (thing_view thing.entry) }
{
    match thing {
        Thing::Nothing => Atom::Number(0),
        Thing::Object(o) => object_sum(problem, fixings, o, name),
        Thing::Part(part) => Atom::Number(i128::from(box_field(part, name))),
    }
}
