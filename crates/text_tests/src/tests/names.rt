//! The names of a problem whose objects may be absent.

use geo_tokens::fault::TextFault;
use geo_tokens::name::Name;
use geo_tokens::names::NamedObject;
use problem_text::names::names;
use problem_text::read::read_problem;
use std::alloc::{AllocError, Global};
use std::test::Fail;

/// Two objects, of which the second one may be absent.
const OPTIONAL: &[u8] = b"geost 2 dims 1 shape s box 0 size 2 ; shape t box 0 size 3 ; \
    object a as t at 0..1 ; object b as s, absent at 0..1 ; end";

/// The same two objects, of which neither may be absent.
const PRESENT: &[u8] = b"geost 2 dims 1 shape s box 0 size 2 ; shape t box 0 size 3 ; \
    object a as t at 0..1 ; object b as s at 0..1 ; end";

/// The names of shapes, each with a space in front.
fn shape_names(alloc: Global, shapes: &[Name]) -> Result<Vec<u8>, AllocError> {
    let mut text = Vec::new(alloc);
    for shape in shapes {
        text.push(b' ')?;
        text.extend_from_slice(shape.as_bytes())?;
    }
    Ok(text)
}

/// The name of an object and the positions of its places, each with a space in front.
fn places(alloc: Global, object: &NamedObject) -> Result<Vec<u8>, AllocError> {
    let mut text = Vec::from_slice(alloc, object.name().as_bytes())?;
    for place in object.shapes() {
        text.extend_from_slice(format!(in alloc; " {place}")?.as_bytes())?;
    }
    Ok(text)
}

/// The table of names of a problem: its shapes, and a line for each object.
fn table(alloc: Global, problem: &[u8]) -> Result<Vec<u8>, TextFault> {
    let problem = read_problem(alloc, problem)?;
    let names = names(alloc, &problem)?;
    let mut text = shape_names(alloc, names.shapes())?;
    for object in names.objects() {
        text.push(b'\n')?;
        text.extend_from_slice(places(alloc, object)?.as_slice())?;
    }
    Ok(text)
}

#[test]
fn the_word_absent_stands_behind_the_shapes(rt: HostRuntime) -> Result<(), Fail> {
    let found = table(rt.alloc(), OPTIONAL)?;
    let wanted = b" s t absent\na 1\nb 0 2".as_slice();
    assert!(rt; found.as_slice() == wanted, "{found:?}");
    Ok(())
}

#[test]
fn without_such_objects_the_shapes_stand_alone(rt: HostRuntime) -> Result<(), Fail> {
    let found = table(rt.alloc(), PRESENT)?;
    let wanted = b" s t\na 1\nb 0".as_slice();
    assert!(rt; found.as_slice() == wanted, "{found:?}");
    Ok(())
}
