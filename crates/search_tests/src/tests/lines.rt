//! Objects on a line, and conditions on them.

use crate::tests::literals::{A, B, C};
use geo_base::{KBox, Point};
use geo_conditions::{Cond, Conds, Form, ObjId, State};
use std::alloc::{AllocError, Global};

/// An object of one shape for each of the ranges.
pub fn line(alloc: Global, ranges: &[(i64, i64)]) -> Result<State<1>, AllocError> {
    let mut s = State::new(alloc);
    for range in ranges {
        if s.objects() < 10 {
            s.add_object(1, KBox::new(Point::filled(range.0), Point::filled(range.1)))?;
        }
    }
    Ok(s)
}

/// The coordinate of one object minus that of another one is at most 0 when this is added.
pub type Literal = (ObjId, ObjId, i8);

/// One of the literals of each list is true. Nothing makes an empty one true.
pub type Rules = &'static [&'static [Literal]];

pub const FREE: Rules = &[];

pub const FALSE: Rules = &[&[]];

/// The first is less than the second, and that less than the third.
pub const CHAIN: Rules = &[&[(A, B, 1)], &[(B, C, 1)]];

/// The first two, each two long, do not overlap.
pub const TWO_APART: Rules = &[&[(A, B, 2), (B, A, 2)]];

/// The first three, each two long, do not overlap: the first and the third, the second and the third, the first and the second.
pub const THREE_APART: Rules = &[
    &[(A, C, 2), (C, A, 2)],
    &[(B, C, 2), (C, B, 2)],
    &[(A, B, 2), (B, A, 2)],
];

/// The condition of one of them.
pub fn difference(alloc: Global, (a, b, constant): Literal) -> Result<Cond, AllocError> {
    let constant = i64::from(constant);
    let form = if a.0 < b.0 {
        Form::new(alloc, &[(a, 0, 1), (b, 0, -1)], constant)?
    } else if b.0 < a.0 {
        Form::new(alloc, &[(b, 0, -1), (a, 0, 1)], constant)?
    } else {
        Form::new(alloc, &[], constant)?
    };
    Ok(Cond::Lin(form))
}

/// One of the literals is true.
fn condition(alloc: Global, literals: &[Literal]) -> Result<Cond, AllocError> {
    if let [only] = literals {
        return difference(alloc, *only);
    }
    let mut parts = Conds::new(alloc);
    for one in literals {
        parts.push(difference(alloc, *one)?)?;
    }
    Ok(Cond::AtLeast(1, parts))
}

/// The conditions of the rules.
pub fn conditions(alloc: Global, rules: Rules) -> Result<Vec<Cond>, AllocError> {
    let mut list = Vec::new(alloc);
    for literals in rules {
        list.push(condition(alloc, literals)?)?;
    }
    Ok(list)
}
