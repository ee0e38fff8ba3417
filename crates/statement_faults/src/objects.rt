//! Faults of the statements of objects.

ghost use Rattle.std.specs.Prelude.{◌≡◌, ◌↔◌, ◌≤◌, ◌∷◌, [], ℕ, map, IfOk, IsTrue};
ghost use Rattle.problem_data.specs.Limits.{IsFieldName};
ghost use Rattle.problem_data.specs.View.{object_view};
ghost use Rattle.problem_data.specs.Least.{IsLeast};
ghost use Rattle.problem_data.specs.Faults.{FieldFault, AttributesFault, AbsentFault, ObjectFault, ObjectsFault, Repeated};

use crate::each::{FindFault, TryFindFault, each_fault, try_each_fault};
use crate::names::{limited, names_fault, not_made};
use crate::pieces::origin_fault;
use geo_tokens::fault::FaultWord;
use problem_data::fault::{Fault, earlier, fault_if};
use problem_data::seen::SeenNames;
use problem_data::tree::{AttributeText, ObjectText};
use std::alloc::{AllocError, Global};

/// How many objects a problem may have.
const MOST_OBJECTS: usize = 200;

/// How many shapes an object may have.
const MOST_OBJECT_SHAPES: usize = 16;

/// How many attributes an object may have.
const MOST_ATTRIBUTES: usize = 32;

/// x1 to x9.
fn is_coordinate_name(name: &[u8]) -> bool
    ensures { IsTrue result ↔ ((d : ℕ) × (49 ≤ d) × (d ≤ 57) × (name.now ≡ 120 ∷ d ∷ [])) }
{
    match name {
        [first, digit] => *first == b'x' && b'1' <= *digit && *digit <= b'9',
        _ => false,
    }
}

/// The name of a field that each object has.
fn is_field_name(name: &[u8]) -> bool
    ensures { IsTrue result ↔ IsFieldName name.now }
{
    name == b"id".as_slice() || name == b"sid".as_slice() || is_coordinate_name(name)
}

fn field_fault(attribute: &AttributeText) -> Option<Fault>
    ensures { IsLeast (FieldFault attribute.now) result }
{
    let field = is_field_name(attribute.name.name.as_bytes());
    fault_if(field, attribute.name.place, FaultWord::Twice)
}

// Finds an attribute with the name of a field.
#[derive(Clone, Copy)]
struct FieldNames;

impl FindFault<AttributeText> for FieldNames {
    ghost IsFaultOf = { λ _. FieldFault };

    fn fault_of(&self, item: &AttributeText) -> Option<Fault> {
        field_fault(item)
    }
}

fn attributes_fault(
    alloc: Global,
    attributes: &[AttributeText],
) -> Result<Option<Fault>, AllocError>
    ensures { IfOk result (IsLeast (AttributesFault attributes.now)) }
{
    let names = names_fault(alloc, MOST_ATTRIBUTES, attributes)?;
    let each = each_fault(&FieldNames, attributes);
    Ok(earlier(names, each))
}

/// The word `absent` behind as many shapes as there may be.
fn absent_fault(object: &ObjectText) -> Option<Fault>
    ensures { IsLeast (AbsentFault (object_view object.now)) result }
{
    let full = object.shapes.len() >= MOST_OBJECT_SHAPES;
    match object.absent {
        Some(place) => fault_if(full, place, FaultWord::Limit),
        None => None,
    }
}

/// The first fault of an object by itself, where these are the names of the shapes.
fn object_fault(
    alloc: Global,
    k: usize,
    made: &SeenNames<'_>,
    object: &ObjectText,
) -> Result<Option<Fault>, AllocError>
    ensures { IfOk result (IsLeast (ObjectFault k made.now (object_view object.now))) }
{
    let shapes = object.shapes.as_slice();
    let names = names_fault(alloc, MOST_OBJECT_SHAPES, shapes)?;
    let unknown = not_made(made, shapes);
    let origin = origin_fault(k, object.pieces.as_slice());
    let attributes = attributes_fault(alloc, object.attributes.as_slice())?;
    let last = earlier(attributes, absent_fault(object));
    let lists = earlier(origin, last);
    let others = earlier(unknown, lists);
    Ok(earlier(names, others))
}

// Finds the first fault of an object, where there are so many dimensions and these are the names of the shapes.
#[derive(Clone, Copy)]
struct Objects<'a> {
    alloc: Global,
    k: usize,
    made: &'a SeenNames<'a>,
}

impl TryFindFault<ObjectText> for Objects<'_> {
    ghost IsFaultOf = { λ it o. ObjectFault it.k it.made.now (object_view o) };

    fn try_fault_of(&self, item: &ObjectText) -> Result<Option<Fault>, AllocError> {
        object_fault(self.alloc, self.k, self.made, item)
    }
}

/// The first fault of the statements of objects, where these are the names of the shapes and the first name of an object
/// that is repeated is known.
pub fn objects_fault(
    alloc: Global,
    k: usize,
    made: &SeenNames<'_>,
    objects: &[ObjectText],
    repeated: Option<Fault>,
) -> Result<Option<Fault>, AllocError>
    requires { IsLeast (Repeated (map (λ o. o.name) objects.now)) repeated }
    ensures { IfOk result (IsLeast (ObjectsFault k made.now (map object_view objects.now))) }
{
    let names = limited(MOST_OBJECTS, objects, repeated);
    let each = try_each_fault(&Objects { alloc, k, made }, objects)?;
    Ok(earlier(names, each))
}
