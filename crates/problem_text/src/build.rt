//! The problem that statements without a fault spell.

ghost use Rattle.std.specs.Prelude.{◌≡◌, ◌<◌, ◌≤◌, map, length, IfOk};
ghost use Rattle.problem_data.specs.View.{shape_view, object_view, order_view};
ghost use Rattle.problem_data.specs.Seen.{met};
ghost use Rattle.problem_data.specs.declared.fault.Fault.{Fault};
ghost use Rattle.problem_data.specs.Parts.{parts_view};
ghost use Rattle.problem_data.specs.Faults.{IsFault, shape_names, object_names, count_of};
ghost use Rattle.problem_data.specs.Accepted.{AreSaid};
ghost use Rattle.problem_data.specs.Meaning.{object_of, order_of, problem_of};

mod objects;
mod order;
mod rules;
mod shapes;

use crate::build::objects::build_objects;
use crate::build::order::{build_order, build_sides};
use crate::build::rules::{build_macros, build_rules};
use crate::build::shapes::build_shapes;
use problem_data::parts::Parts;
use problem_data::problem::{ObjectDef, Problem};
use problem_data::tree::{Int, ObjectText, OrderText, ShapeText};
use statement_faults::first::count_of;
use statement_faults::names::met_names;
use std::alloc::{AllocError, Global};
use std::rc::Rc;

/// The search order, where the names of the objects differ.
fn order_among(
    alloc: Global,
    objects: &[ObjectText],
    orders: &[OrderText],
) -> Result<Vec<u16>, AllocError>
    requires few { length objects.now ≤ 256 }
    requires differ { met (object_names (map object_view objects.now))
        ≡ object_names (map object_view objects.now) }
    ensures { IfOk result (λ v. v.items
        ≡ order_of (object_names (map object_view objects.now)) (map order_view orders.now)) }
{
    let (names, _) = met_names(alloc, objects)?;
    build_order(alloc, &names, orders)
}

/// The objects, where the names of the shapes differ.
fn objects_among(
    alloc: Global,
    shapes: &[ShapeText],
    objects: Vec<ObjectText>,
) -> Result<Vec<ObjectDef>, AllocError>
    requires few { length shapes.now ≤ 256 }
    requires differ { met (shape_names (map shape_view shapes.now))
        ≡ shape_names (map shape_view shapes.now) }
    ensures { IfOk result (λ v. v.items ≡ map (object_of (shape_names (map shape_view shapes.now)))
        (map object_view objects.items)) }
{
    let (names, _) = met_names(alloc, shapes)?;
    build_objects(alloc, &names, objects)
}

/// A list that problems share.
fn shared<T: Drop>(alloc: Global, list: Vec<T>) -> Result<Rc<Vec<T>>, AllocError>
    ensures { IfOk result (λ r. r.value ≡ list) }
{
    Ok(Rc::new(alloc, list)?)
}

/// The version that is stated, where it is small.
fn version_of(version: Int) -> u8
    requires { count_of version.value < 256 }
    ensures { result ≡ count_of version.value }
{
    count_of(version) as u8
}

/// The problem that the statements of a text spell.
pub fn build(alloc: Global, said: Parts) -> Result<Problem, AllocError>
    requires said { AreSaid (parts_view said) }
    requires right { (f : Fault) → IsFault (parts_view said) f → ⊥ }
    ensures { IfOk result (λ p. p ≡ problem_of (parts_view said)) }
{
    let Parts {
        version,
        dims,
        shapes,
        objects,
        orders,
        sides,
        macros,
        rules,
    } = said;
    let version = version_of(version);
    let k = count_of(dims);
    let order = order_among(alloc, objects.as_slice(), orders.as_slice())?;
    let objects = shared(alloc, objects_among(alloc, shapes.as_slice(), objects)?)?;
    let shapes = shared(alloc, build_shapes(alloc, shapes)?)?;
    let macros = shared(alloc, build_macros(alloc, macros)?)?;
    let rules = build_rules(alloc, rules)?;
    let sides = build_sides(alloc, k, sides.as_slice())?;
    Ok(Problem::new(version, k, shapes, objects, macros, rules, order, sides))
}
