//! The first fault of statements.

ghost use Rattle.std.specs.Prelude.{◌≡◌, ◌↔◌, pos, IfOk, IsTrue};
ghost use Rattle.problem_data.specs.Limits.{IsVersion, most_dims_in};
ghost use Rattle.problem_data.specs.Parts.{parts_view};
ghost use Rattle.problem_data.specs.Least.{IsLeast};
ghost use Rattle.problem_data.specs.Faults.{VersionFault, IsDims, DimsFault, IsFault, count_of};
ghost use Rattle.statement_faults.specs.Groups.{HeadFault, ObjectOrOrderFault, NamingFault, TailFault};

use crate::names::met_names;
use crate::objects::objects_fault;
use crate::order::{orders_fault, sides_fault};
use crate::rules::{macros_fault, rules_fault};
use crate::shapes::shapes_fault;
use geo_tokens::fault::FaultWord;
use problem_data::fault::{Fault, earlier, fault_if};
use problem_data::parts::Parts;
use problem_data::seen::SeenNames;
use problem_data::tree::Int;
use std::alloc::{AllocError, Global};

/// How many dimensions a text may have.
const MOST_DIMS: i64 = 6;

/// How many dimensions a text of version 1 may have.
const MOST_FIRST_DIMS: i64 = 4;

/// The number of dimensions that is stated.
pub fn count_of(dims: Int) -> usize
    ensures { result ≡ count_of dims.value }
{
    if dims.value < 0 {
        0
    } else {
        dims.value as usize
    }
}

fn is_version(value: i64) -> bool
    ensures { IsTrue result ↔ IsVersion value }
{
    value == 1 || value == 2
}

fn version_fault(version: Int) -> Option<Fault>
    ensures { IsLeast (VersionFault version) result }
{
    let known = is_version(version.value);
    fault_if(!known, version.place, FaultWord::Limit)
}

fn most_dims(version: i64) -> i64
    ensures { result ≡ pos (most_dims_in (count_of version)) }
{
    if version == 2 {
        MOST_DIMS
    } else {
        MOST_FIRST_DIMS
    }
}

fn has_dims(version: i64, dims: i64) -> bool
    ensures { IsTrue result ↔ IsDims version dims }
{
    1 <= dims && dims <= most_dims(version)
}

fn dims_fault(version: Int, dims: Int) -> Option<Fault>
    ensures { IsLeast (DimsFault version dims) result }
{
    let right = has_dims(version.value, dims.value);
    fault_if(!right, dims.place, FaultWord::Limit)
}

// The first fault of the version and the number of dimensions.
fn head_fault(said: &Parts) -> Option<Fault>
    ensures { IsLeast (HeadFault (parts_view said.now)) result }
{
    let version = version_fault(said.version);
    let dims = dims_fault(said.version, said.dims);
    earlier(version, dims)
}

// The first fault of objects and orders, where these are the names of the shapes.
fn object_fault(
    alloc: Global,
    k: usize,
    made: &SeenNames<'_>,
    said: &Parts,
) -> Result<Option<Fault>, AllocError>
    ensures { IfOk result (IsLeast (ObjectOrOrderFault k made.now (parts_view said.now))) }
{
    let list = said.objects.as_slice();
    let (names, repeated) = met_names(alloc, list)?;
    let objects = objects_fault(alloc, k, made, list, repeated)?;
    let orders = orders_fault(alloc, &names, said.orders.as_slice())?;
    Ok(earlier(objects, orders))
}

// The first fault of shapes, objects and orders.
fn naming_fault(alloc: Global, k: usize, said: &Parts) -> Result<Option<Fault>, AllocError>
    ensures { IfOk result (IsLeast (NamingFault k (parts_view said.now))) }
{
    let list = said.shapes.as_slice();
    let (names, repeated) = met_names(alloc, list)?;
    let shapes = shapes_fault(k, list, repeated);
    let others = object_fault(alloc, k, &names, said)?;
    Ok(earlier(shapes, others))
}

// The first fault of sides, macros and rules.
fn tail_fault(alloc: Global, k: usize, said: &Parts) -> Result<Option<Fault>, AllocError>
    ensures { IfOk result (IsLeast (TailFault k (parts_view said.now))) }
{
    let sides = sides_fault(k, said.sides.as_slice());
    let macros = macros_fault(alloc, said.macros.as_slice())?;
    let rules = rules_fault(alloc, k, said.rules.as_slice())?;
    let others = earlier(macros, rules);
    Ok(earlier(sides, others))
}

/// The first fault of the statements.
pub fn first_fault(alloc: Global, said: &Parts) -> Result<Option<Fault>, AllocError>
    ensures { IfOk result (IsLeast (IsFault (parts_view said.now))) }
{
    let k = count_of(said.dims);
    let head = head_fault(said);
    let naming = naming_fault(alloc, k, said)?;
    let tail = tail_fault(alloc, k, said)?;
    let others = earlier(naming, tail);
    Ok(earlier(head, others))
}
