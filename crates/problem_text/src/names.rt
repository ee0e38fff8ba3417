//! The names of a problem, as a table.

ghost use Rattle.std.specs.Prelude.{◌≡◌, ◌≤◌, ◌++◌, [], map, IfOk};
ghost use Rattle.std.specs.List.{list_any, Contains};
ghost use Rattle.geo_tokens.specs.declared.token.Keyword.TheVariants.{Absent};
ghost use Rattle.geo_tokens.specs.Class.{word_bytes};
ghost use Rattle.geo_tokens.specs.Names.{IsNameTable};
ghost use Rattle.problem_text.specs.NameTable.{shape_name, is_optional, absent_names, absent_positions, named_object, name_table};

use geo_tokens::names::Names;
use problem_data::problem::{ObjectDef, Problem, ShapeDef};
use std::alloc::{AllocError, Global};

/// Adds the shapes to a table without any.
fn add_shapes(shapes: &[ShapeDef], names: &mut Names) -> Result<(), AllocError>
    requires none { names.old.shapes ≡ [] }
    requires table { IsNameTable (record names.old { shapes = map shape_name shapes.now }) }
    ensures { IfOk result (λ _. names.new
        ≡ record names.old { shapes = map shape_name shapes.now }) }
{
    'shapes: for shape in shapes {
        names.add_shape(shape.name().as_bytes())?;
    }
    Ok(())
}

/// Some of the objects may be absent.
fn any_optional(objects: &[ObjectDef]) -> bool
    ensures { result ≡ list_any is_optional objects.now }
{
    match objects {
        [first, rest @ ..] => first.may_be_absent() || any_optional(rest),
        [] => false,
    }
}

/// Adds the word `absent` behind the shapes, where some object may be absent.
fn add_absent(optional: bool, names: &mut Names) -> Result<(), AllocError>
    requires new_name { Contains names.old.shapes (word_bytes Absent) → ⊥ }
    ensures { IfOk result (λ _. names.new
        ≡ record names.old { shapes = names.old.shapes ++ absent_names optional }) }
{
    if optional {
        names.add_shape(b"absent")?;
    }
    Ok(())
}

/// The positions of the names of an object's places, where there are so many shapes.
fn place_positions(alloc: Global, shapes: usize, object: &ObjectDef) -> Result<Vec<u16>, AllocError>
    requires { shapes ≤ 256 }
    ensures { IfOk result (λ v. v.items
        ≡ object.now.shapes ++ absent_positions object.now.may_be_absent shapes) }
{
    let mut places = Vec::from_slice(alloc, object.shapes())?;
    if object.may_be_absent() {
        places.push(shapes as u16)?;
    }
    Ok(places)
}

/// Adds the objects to a table without any, where there are so many shapes.
fn add_objects(
    alloc: Global,
    shapes: usize,
    objects: &[ObjectDef],
    names: &mut Names,
) -> Result<(), AllocError>
    requires few { shapes ≤ 256 }
    requires none { names.old.objects ≡ [] }
    requires table { IsNameTable
        (record names.old { objects = map (named_object shapes) objects.now }) }
    ensures { IfOk result (λ _. names.new
        ≡ record names.old { objects = map (named_object shapes) objects.now }) }
{
    'objects: for object in objects {
        let places = place_positions(alloc, shapes, object)?;
        names.add_object(object.name().as_bytes(), places.as_slice())?;
    }
    Ok(())
}

/// The number of dimensions of a problem, the names of its shapes, and the names of its objects
/// with the positions of their shapes, each list in file order; where some object may be absent,
/// with the word `absent` behind the shapes.
pub fn names(alloc: Global, problem: &Problem) -> Result<Names, AllocError>
    ensures { IfOk result (λ n. n ≡ name_table problem.now) }
{
    problem.is_said();
    let mut names = Names::new(alloc, problem.dims());
    let shapes = problem.shapes();
    let objects = problem.objects();
    add_shapes(shapes, &mut names)?;
    add_absent(any_optional(objects), &mut names)?;
    add_objects(alloc, shapes.len(), objects, &mut names)?;
    Ok(names)
}
