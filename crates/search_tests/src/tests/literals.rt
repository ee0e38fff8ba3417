//! Conditions on the coordinates of two objects, and states.

ghost use Rattle.std.specs.Prelude.{◌≢◌, ◌≤◌, pos};
ghost use Rattle.geo_base.specs.declared.TheConstants.{MAX_DIMS};

use geo_base::{KBox, Point};
use geo_conditions::{Cond, Form, ObjId, State};
use std::alloc::{AllocError, Global};

pub const A: ObjId = ObjId(0);

pub const B: ObjId = ObjId(1);

pub const C: ObjId = ObjId(2);

/// The literal `factor * a + constant <= 0` on a coordinate of the first object.
pub fn of_one(alloc: Global, d: usize, factor: i8, constant: i8) -> Result<Cond, AllocError>
    requires factor { factor ≢ pos 0 }
{
    let form = Form::new(alloc, &[(A, d, i64::from(factor))], i64::from(constant))?;
    Ok(Cond::Lin(form))
}

/// The literal `a - b + constant <= 0` on the coordinates of the two objects, or `b - a + constant <= 0`.
pub fn of_two(alloc: Global, d: usize, ahead: bool, constant: i8) -> Result<Cond, AllocError> {
    let factor = if ahead { 1 } else { -1 };
    let form = Form::new(
        alloc,
        &[(A, d, factor), (B, d, -factor)],
        i64::from(constant),
    )?;
    Ok(Cond::Lin(form))
}

/// A state of at most ten objects, each with the number of its shapes and its ranges, which are the same in each dimension.
pub fn state<const K: usize>(
    alloc: Global,
    objects: &[(u8, i64, i64)],
) -> Result<State<K>, AllocError>
    requires { K ≤ MAX_DIMS }
{
    let mut s = State::new(alloc);
    for (shapes, low, high) in objects {
        if s.objects() < 10 && 1 <= *shapes && *shapes <= 4 {
            s.add_object(
                *shapes,
                KBox::new(Point::filled(*low), Point::filled(*high)),
            )?;
        }
    }
    Ok(s)
}
