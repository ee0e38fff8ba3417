//! Layouts.

ghost use Rattle.std.specs.Prelude.{◌≡◌, ◌<◌, IfOk, length, map};
ghost use Rattle.std.specs.List.{range_with_len};
ghost use Rattle.std.specs.Str.{IsAscii};
ghost use Rattle.geo_base.specs.Tuple.{spot};
ghost use Rattle.serde_json.specs.View.{view};
ghost use Rattle.problem_data.specs.Cells.{IsTuple, IsShaped};
ghost use Rattle.problem_data.specs.Places.{is_absent_at};
ghost use Rattle.problem_data.specs.Tuple.{object_of};
ghost use Rattle.layout_text.specs.Block.{token_of};
ghost use Rattle.json_parts.specs.Form.{int_json, text_json, list_json};
ghost use Rattle.geo_json.specs.LayoutJson.{shape_word, place_json, layout_json};

use crate::names::shape_name;
use crate::problem::is_ascii;
use geo_chan::CleanSink;
use geo_conditions::{Layout, ObjId};
use geo_tokens::token::{Keyword, word_text};
use json_parts::{ToJson, text_to_json};
use layout_text::{print_token, shape_of};
use problem_data::problem::Problem;
use serde_json::{Value, json};
use std::alloc::{AllocError, Global};

// The tuple has the form of one, and its token is ASCII. It does nothing.
fn is_shaped(problem: &Problem, layout: &Layout)
    requires { IsTuple problem.now layout.now }
    ensures shaped { IsShaped problem.now layout.now }
    ensures ascii { IsAscii (token_of layout.now) }
{
    problem.is_said();
    let _ = layout;
}

// Whether the object is absent.
fn is_absent(problem: &Problem, layout: &Layout, o: ObjId) -> bool
    requires layout { IsShaped problem.now layout.now }
    requires object { o.0 < length problem.now.objects }
    ensures { result ≡ is_absent_at (object_of problem.now o.0) (spot layout.now o.0).place }
{
    problem.is_said();
    problem.objects()[o.0 as usize].is_absent_at(layout.place(o) as usize)
}

// The name of the object's shape, or the word `absent`.
fn shape_word<'a>(problem: &'a Problem, layout: &Layout, o: ObjId) -> &'a [u8]
    requires layout { IsShaped problem.now layout.now }
    requires object { o.0 < length problem.now.objects }
    ensures word { result.now ≡ shape_word problem.now layout.now o.0 }
    ensures ascii { IsAscii result.now }
{
    is_ascii(problem);
    if is_absent(problem, layout, o) {
        return word_text(Keyword::Absent);
    }
    match shape_of(problem, layout, o) {
        Some(shape) => shape_name(problem.shapes(), shape),
        None => b"",
    }
}

// The values of the object's coordinates.
fn coordinates(
    alloc: Global,
    problem: &Problem,
    layout: &Layout,
    o: ObjId,
) -> Result<Vec<Value>, AllocError>
    requires layout { IsShaped problem.now layout.now }
    requires object { o.0 < length problem.now.objects }
    ensures { IfOk result (λ v. map view v.items ≡ map int_json (spot layout.now o.0).origin) }
{
    let mut values = Vec::new(alloc);
    for d in 0..problem.dims() {
        values.push(layout.origin(o, d).to_json(alloc)?)?;
    }
    Ok(values)
}

// The value of where the object is put.
fn place_to_json(
    alloc: Global,
    problem: &Problem,
    layout: &Layout,
    o: ObjId,
) -> Result<Value, AllocError>
    requires layout { IsShaped problem.now layout.now }
    requires object { o.0 < length problem.now.objects }
    ensures { IfOk result (λ v. view v ≡ place_json problem.now layout.now o.0) }
{
    is_ascii(problem);
    let name = problem.objects()[o.0 as usize].name().to_json(alloc)?;
    let origin = Value::Array(coordinates(alloc, problem, layout, o)?);
    let shape = text_to_json(alloc, shape_word(problem, layout, o))?;
    json!(in alloc; {"name": name, "origin": origin, "shape": shape})
}

// The values of where the objects are put, in file order.
fn places(alloc: Global, problem: &Problem, layout: &Layout) -> Result<Vec<Value>, AllocError>
    requires { IsShaped problem.now layout.now }
    ensures { IfOk result (λ v. map view v.items
        ≡ map (place_json problem.now layout.now) (range_with_len 0 (length layout.now))) }
{
    problem.is_said();
    let mut values = Vec::new(alloc);
    for o in 0..layout.len() {
        values.push(place_to_json(alloc, problem, layout, ObjId(o as u16))?)?;
    }
    Ok(values)
}

// The value of the token.
fn token_to_json(alloc: Global, problem: &Problem, layout: &Layout) -> Result<Value, AllocError>
    requires shaped { IsShaped problem.now layout.now }
    requires ascii { IsAscii (token_of layout.now) }
    ensures { IfOk result (λ v. view v ≡ text_json (token_of layout.now)) }
{
    let mut token = CleanSink::new(alloc);
    match print_token(problem, layout, &mut token) {
        Ok(()) => text_to_json(alloc, token.bytes()),
        Err(_) => Err(AllocError),
    }
}

/// The layout as a value of JSON: an object with the keys `layout`, a list of what is put where in
/// file order, and `token`. An object is said by its `name`, its `origin` and its `shape`; one that
/// is absent has the shape `absent`. The error is want of memory.
pub fn layout_to_json(
    alloc: Global,
    problem: &Problem,
    layout: &Layout,
) -> Result<Value, AllocError>
    requires { IsTuple problem.now layout.now }
    ensures { IfOk result (λ v. view v ≡ layout_json problem.now layout.now) }
{
    is_shaped(problem, layout);
    let places = Value::Array(places(alloc, problem, layout)?);
    let token = token_to_json(alloc, problem, layout)?;
    json!(in alloc; {"layout": places, "token": token})
}
