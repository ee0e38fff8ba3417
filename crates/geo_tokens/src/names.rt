//! The names of a problem: of its shapes, and of its objects with their lists of shapes.

ghost use Rattle.std.specs.Prelude.{◌≡◌, ◌≤◌, ◌<◌, ◌∷◌, [], ◌++◌, length, IfOk, OnOk, OnErr};
ghost use Rattle.std.specs.List.{Contains};
ghost use Rattle.geo_tokens.specs.Names.{NameTable, IsNameText, IsPlaceText, IsShapeList, IsNameTable, object_names};

use crate::name::Name;
use std::alloc::{AllocError, Global};
use std::marker::Model;

/// An object's name, and the positions of its shapes in the list of shapes. It is seen as this pair.
#[derive(Drop)]
pub struct NamedObject {
    name: Name,
    shapes: Vec<u16>,
}

impl Model for NamedObject {
    ghost use Rattle.std.specs.Prelude.{List, ℕ};

    ghost Value = { List ℕ × List ℕ };

    ghost view = { λ o. (o.name, o.shapes.items) };
}

impl NamedObject {
    /// The object's name.
    pub fn name(&self) -> &Name
        ensures { result.now ≡ self.now.0 }
    {
        &self.name
    }

    /// The positions of its shapes, from 0.
    pub fn shapes(&self) -> &[u16]
        ensures { result.now ≡ self.now.1 }
    {
        self.shapes.as_slice()
    }
}

/// The object of this name with this list of shapes.
fn named_object(alloc: Global, name: &[u8], shapes: &[u16]) -> Result<NamedObject, AllocError>
    ensures { IfOk result (λ o. o ≡ (name.now, shapes.now)) }
{
    let name = Name::new(alloc, name)?;
    Ok(NamedObject {
        name,
        shapes: Vec::from_slice(alloc, shapes)?,
    })
}

/// A table of names.
pub struct Names {
    alloc: Global,
    dims: usize,
    shapes: Vec<Name>,
    objects: Vec<NamedObject>,
}

/// Written out, since a derived one is made and proved anew wherever such a table is dropped.
impl Drop for Names {
    fn drop(self) {
        let Names {
            alloc: _,
            dims: _,
            shapes: _shapes,
            objects: _objects,
        } = self;
    }
}

impl Model for Names {
    ghost use Rattle.geo_tokens.specs.Names.{NameTable, IsNameTable};

    ghost Value = { NameTable };

    ghost view = { λ n.
        record { dims = n.dims; shapes = n.shapes.items; objects = n.objects.items } };

    ghost invariant = { λ n. IsNameTable
        (record { dims = n.dims; shapes = n.shapes.items; objects = n.objects.items }) };
}

impl Names {
    /// A table with no names, for this number of dimensions. Takes no memory.
    pub fn new(alloc: Global, dims: usize) -> Names
        requires { dims ≤ 1000000000 }
        ensures { result ≡ record { dims = dims; shapes = []; objects = [] } }
    {
        Names {
            alloc,
            dims,
            shapes: Vec::new(alloc),
            objects: Vec::new(alloc),
        }
    }

    /// The number of dimensions.
    pub fn dims(&self) -> usize
        ensures value { result ≡ self.now.dims }
        ensures whole { IsNameTable self.now }
    {
        self.dims
    }

    /// The names of the shapes.
    pub fn shapes(&self) -> &[Name]
        ensures value { result.now ≡ self.now.shapes }
        ensures whole { IsNameTable self.now }
    {
        self.shapes.as_slice()
    }

    /// The objects.
    pub fn objects(&self) -> &[NamedObject]
        ensures value { result.now ≡ self.now.objects }
        ensures whole { IsNameTable self.now }
    {
        self.objects.as_slice()
    }

    /// Appends a shape, or the word `absent`.
    pub fn add_shape(&mut self, name: &[u8]) -> Result<(), AllocError>
        requires text { IsPlaceText name.now }
        requires new_name { Contains self.old.shapes name.now → ⊥ }
        ensures ok { OnOk result
            (self.new ≡ record self.old { shapes = self.old.shapes ++ name.now ∷ [] }) }
        ensures err { OnErr result (self.new ≡ self.old) }
    {
        let name = Name::new(self.alloc, name)?;
        self.shapes.push(name)?;
        Ok(())
    }

    /// Appends an object with the positions of its shapes.
    pub fn add_object(&mut self, name: &[u8], shapes: &[u16]) -> Result<(), AllocError>
        requires text { IsNameText name.now }
        requires new_name { Contains (object_names self.old) name.now → ⊥ }
        requires room { length self.old.objects < 200 }
        requires list { IsShapeList (length self.old.shapes) shapes.now }
        ensures ok { OnOk result (self.new
            ≡ record self.old { objects = self.old.objects ++ (name.now, shapes.now) ∷ [] }) }
        ensures err { OnErr result (self.new ≡ self.old) }
    {
        let object = named_object(self.alloc, name, shapes)?;
        self.objects.push(object)?;
        Ok(())
    }
}
