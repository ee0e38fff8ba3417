//! Where the names of a problem stand in its lists.

ghost use Rattle.std.specs.Prelude.{◌≡◌, ◌||◌, ℕ, List, IfOk, map};
ghost use Rattle.std.specs.List.{list_any};
ghost use Rattle.std.specs.Str.{bytes_eq};
ghost use Rattle.problem_data.specs.Seen.{met};
ghost use Rattle.rule_names.specs.Sight.{lists_attribute};
ghost use Rattle.rule_names.specs.Table.{found, AreTables};

use problem_data::problem::{MacroDef, ObjectDef, Problem, ShapeDef};
use problem_data::seen::SeenNames;
use std::alloc::{AllocError, Global};

/// The names of a problem's objects, shapes and macros, each in the order of the problem's list, and of all attributes.
pub struct Tables<'a> {
    pub objects: Box<SeenNames<'a>>,
    pub shapes: Box<SeenNames<'a>>,
    pub macros: Box<SeenNames<'a>>,
    pub attributes: Box<SeenNames<'a>>,
}

impl Drop for Tables<'_> {
    fn drop(self) {
        let Tables {
            objects: _objects,
            shapes: _shapes,
            macros: _macros,
            attributes: _attributes,
        } = self;
    }
}

// A part of a problem with a name of its own.
trait HasName {
    ghost own_name: { Self → List ℕ };

    fn own_name(&self) -> &[u8]
        ensures { result.now ≡ own_name self.now };
}

impl HasName for ObjectDef {
    ghost own_name = { λ o. o.name };

    fn own_name(&self) -> &[u8] {
        self.name().as_bytes()
    }
}

impl HasName for ShapeDef {
    ghost own_name = { λ s. s.name };

    fn own_name(&self) -> &[u8] {
        self.name().as_bytes()
    }
}

impl HasName for MacroDef {
    ghost own_name = { λ m. m.name };

    fn own_name(&self) -> &[u8] {
        self.name().as_bytes()
    }
}

/// The position of a name.
pub fn position_of(names: &SeenNames<'_>, name: &[u8]) -> Option<usize>
    ensures { result ≡ found names.now name.now }
{
    names.position(name)
}

// The names of the items.
fn names_of<'a, T: HasName>(alloc: Global, items: &'a [T]) -> Result<Box<SeenNames<'a>>, AllocError>
    ensures { IfOk result (λ names. names.value ≡ met (map T.own_name items.now)) }
{
    let mut names = Box::new(alloc, SeenNames::new(alloc))?;
    for item in items {
        let _is_new = names.meet(item.own_name())?;
    }
    Ok(names)
}

// Meets the names of an object's attributes.
fn add_attributes<'a>(names: &mut SeenNames<'a>, object: &'a ObjectDef) -> Result<(), AllocError>
    ensures { IfOk result (λ _. (n : List ℕ) → list_any (bytes_eq n) names.new
        ≡ (list_any (bytes_eq n) names.old || lists_attribute object.now n)) }
{
    let attributes = object.attributes();
    for attribute in attributes {
        let _is_new = names.meet(attribute.name.as_bytes())?;
    }
    Ok(())
}

// The names of all attributes.
fn attribute_names<'a>(
    alloc: Global,
    objects: &'a [ObjectDef],
) -> Result<Box<SeenNames<'a>>, AllocError>
    ensures { IfOk result (λ names. (n : List ℕ) → list_any (bytes_eq n) names.value
        ≡ list_any (λ o. lists_attribute o n) objects.now) }
{
    let mut names = Box::new(alloc, SeenNames::new(alloc))?;
    for object in objects {
        add_attributes(&mut names, object)?;
    }
    Ok(names)
}

/// The tables of a problem.
pub fn tables_of(alloc: Global, problem: &Problem) -> Result<Tables<'_>, AllocError>
    ensures { IfOk result (λ t. AreTables problem.now t) }
{
    problem.is_said();
    let object_names = names_of(alloc, problem.objects())?;
    let shape_names = names_of(alloc, problem.shapes())?;
    let macro_names = names_of(alloc, problem.macros())?;
    let attributes = attribute_names(alloc, problem.objects())?;
    Ok(Tables {
        objects: object_names,
        shapes: shape_names,
        macros: macro_names,
        attributes,
    })
}
