//! The variables of a walk and the order of their values: for each object its place and then its
//! coordinates.

ghost use Rattle.std.specs.Prelude.{◌≡◌, ◌+◌, ◌<◌, ◌≤◌, ◌++◌, length, map, OnOk, IfOk, IsTrue, ◌↔◌, pos, ◌≤ℤ◌};
ghost use Rattle.std.specs.List.{All};
ghost use Rattle.geo_conditions.specs.Walk.{variables, variables_of, variables_in};
ghost use Rattle.geo_state.specs.Trail.{IsSmallEnd};
ghost use Rattle.trail_search.specs.Cursor.{after, bound_at, HasDimension, IsValueOf};
ghost use Rattle.trail_search.specs.Variables.{variable_of, split_of, IsAt};

use derivation::Event;
use geo_base::MAX_DIMS;
use geo_conditions::{ObjId, SearchOrder};
use std::alloc::{AllocError, Global};

/// A variable: the place of an object, or one of its coordinates, upwards or downwards.
#[derive(Clone, Copy)]
pub enum Variable {
    /// The place of the object.
    Place(ObjId),
    /// Its coordinate in that dimension; true: downwards.
    Coordinate(ObjId, usize, bool),
}

/// Appends the variables of an object.
fn push_variables(all: &mut Vec<Variable>, o: ObjId, down: &[bool]) -> Result<(), AllocError>
    ensures { OnOk result (map variable_of all.new.items
        ≡ map variable_of all.old.items ++ variables_of down.now o.0) }
{
    all.push(Variable::Place(o))?;
    for (d, b) in down.iter().enumerate() {
        all.push(Variable::Coordinate(o, d, *b))?;
    }
    Ok(())
}

/// The variables of the objects in that order, each its place first and then its coordinates.
pub fn list_variables(alloc: Global, order: &SearchOrder) -> Result<Vec<Variable>, AllocError>
    ensures { IfOk result (λ v. map variable_of v.items ≡ variables_in order.now) }
{
    let mut all = Vec::new(alloc);
    for o in order.objects() {
        push_variables(&mut all, *o, order.down())?;
    }
    Ok(all)
}

/// The number next to `v` in the order of the variable.
pub fn after(x: Variable, v: i64) -> i64
    requires small { IsSmallEnd v }
    ensures { result ≡ after (variable_of x) v }
{
    match x {
        Variable::Place(_) => v + 1,
        Variable::Coordinate(_, _, down) => { if down { v - 1 } else { v + 1 } }
    }
}

/// The bound that a token sets at the variable of that number: its own value, and past it at the
/// last variable.
pub fn token_bound(variables: &[Variable], t: &[i64], m: usize) -> i64
    requires lengths { length t.now ≡ length variables.now }
    requires number { m < length variables.now }
    requires small { All IsSmallEnd t.now }
    ensures { result ≡ bound_at (map variable_of variables.now) t.now m }
{
    if m + 1 < variables.len() {
        t[m]
    } else {
        after(variables[m], t[m])
    }
}

/// The event of two cases: the variable has its first value, or a later one.
pub fn split<const K: usize>(x: Variable, u: i64) -> Event
    requires k { K ≤ MAX_DIMS }
    requires dimension { HasDimension K (variable_of x) }
    requires value { IsValueOf (variable_of x) u }
    ensures { result ≡ split_of (variable_of x) u }
{
    match x {
        Variable::Place(o) => Event::SplitShape(o, u as u8),
        Variable::Coordinate(o, d, down) => {
            if down {
                Event::SplitFrom(o, d as u32, u)
            } else {
                Event::SplitUpto(o, d as u32, u)
            }
        }
    }
}

/// Whether the variable is the place of the object, or its coordinate in that dimension.
pub fn is_at(x: Variable, o: ObjId, d: Option<usize>) -> bool
    ensures { IsTrue result ↔ IsAt o.0 d (variable_of x) }
{
    match (x, d) {
        (Variable::Place(u), None) => u.0 == o.0,
        (Variable::Coordinate(u, e, _), Some(d)) => u.0 == o.0 && e == d,
        _ => false,
    }
}

/// The place of that number.
pub fn place_of(v: i64) -> u8
    requires from { pos 0 ≤ℤ v }
    requires to { v ≤ℤ pos 16 }
    ensures { pos result ≡ v }
{
    v as u8
}
