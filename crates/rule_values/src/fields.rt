//! Fields of objects and boxes.

ghost use Rattle.std.specs.Prelude.{◌≡◌, List, codes, map, pos, slice_index_or};
ghost use Rattle.std.specs.Str.{bytes_eq};
ghost use Rattle.problem_data.specs.ProblemView.{attribute_data};
ghost use Rattle.problem_data.specs.Tuple.{Tuple};
ghost use Rattle.problem_data.specs.Value.{attribute_in, box_field, dimension_of, object_field};
ghost use Rattle.rule_values.specs.Fields.{attribute_at, field_at, field_on};

use geo_tokens::name::Name;
use problem_data::problem::{AttributeDef, BoxDef, Problem};

/// What a field of an object is.
#[derive(Clone, Copy, Debug)]
pub enum ObjectField {
    /// A coordinate of the object's origin, by its dimension from 0.
    Coordinate(usize),
    /// The number of the object's shape.
    Shape,
    /// A number that is the same on all tuples: the object's own number, or an attribute.
    Constant(i128),
}

/// The dimension, from 0, that a letter and a digit from 1 to 9 name.
fn dimension_of(letter: u8, name: &Name) -> Option<usize>
    ensures { result ≡ dimension_of letter name.now }
{
    match name.as_bytes() {
        [first, digit] => {
            if *first == letter && *digit >= b'1' && *digit <= b'9' {
                Some((*digit - b'1') as usize)
            } else {
                None
            }
        }
        _ => None,
    }
}

/// The attribute of this name in a list; 0 where it is not there.
fn attribute_in(attributes: &[AttributeDef], name: &Name) -> i64
    ensures { result ≡ attribute_in name.now (map attribute_data attributes.now) }
{
    for attribute in attributes {
        if *name == attribute.name {
            return attribute.value;
        }
    }
    0
}

/// The attribute of this name of an object; an object that is not there has none.
fn attribute_of(problem: &Problem, o: usize, name: &Name) -> i64
    ensures { result ≡ attribute_at problem.now o name.now }
{
    match problem.objects().get(o) {
        Some(object) => attribute_in(object.attributes(), name),
        None => 0,
    }
}

/// Whether the name is that of an object's own number.
fn is_id(name: &Name) -> bool
    ensures { result ≡ bytes_eq name.now (codes "id") }
{
    match name.as_bytes() {
        [first, second] => *first == b'i' && *second == b'd',
        _ => false,
    }
}

/// Whether the name is that of the number of an object's shape.
fn is_sid(name: &Name) -> bool
    ensures { result ≡ bytes_eq name.now (codes "sid") }
{
    match name.as_bytes() {
        [first, second, third] => *first == b's' && *second == b'i' && *third == b'd',
        _ => false,
    }
}

/// The field of an object, by its name.
pub fn object_field(problem: &Problem, o: usize, name: &Name) -> ObjectField
    ensures kind { result ≡ field_at problem.now o name.now }
    ensures value { (t : Tuple) → field_on problem.now t o result
        ≡ object_field problem.now t o name.now }
{
    if is_id(name) {
        return ObjectField::Constant(o as i128 + 1);
    }
    if is_sid(name) {
        return ObjectField::Shape;
    }
    match dimension_of(b'x', name) {
        Some(d) => ObjectField::Coordinate(d),
        None => ObjectField::Constant(i128::from(attribute_of(problem, o, name))),
    }
}

/// The number at a place of a list; 0 past its end.
fn number_at(numbers: &[i64], d: usize) -> i64
    ensures { result ≡ slice_index_or numbers.now d (pos 0) }
{
    match numbers.get(d) {
        Some(number) => *number,
        None => 0,
    }
}

/// The field of a box, by its name.
pub fn box_field(b: &BoxDef, name: &Name) -> i64
    ensures { result ≡ box_field b.now name.now }
{
    match dimension_of(b't', name) {
        Some(d) => number_at(b.offsets(), d),
        None => match dimension_of(b'l', name) {
            Some(d) => number_at(b.sizes(), d),
            None => 0,
        },
    }
}
