//! Conditions that no box ends beyond a number.

use crate::tests::problems::{NO_BOX, OPTIONAL, TWO_BOXES};
use extent_caps::caps;
use geo_conditions::{Cond, Form};
use geo_tokens::fault::TextFault;
use problem_text::read::read_problem;
use std::alloc::{AllocError, Global};
use std::test::Fail;

/// Appends the constant, and each factor with its coordinate, the object's number first.
fn push_form(alloc: Global, f: &Form, out: &mut String) -> Result<(), AllocError> {
    out.push_str(format!(in alloc; "{}", f.constant())?.as_str())?;
    for term in f.terms() {
        let (factor, object, dimension) = (term.factor, term.object.0, term.dimension);
        let line = format!(in alloc; " {factor}*x({object}, {dimension})")?;
        out.push_str(line.as_str())?;
    }
    Ok(())
}

/// Appends a form, or an object with a place that it has or has not.
fn push_leaf(alloc: Global, c: &Cond, out: &mut String) -> Result<(), AllocError> {
    match c {
        Cond::Lin(f) => push_form(alloc, f, out),
        Cond::Shape(o, s) => out.push_str(format!(in alloc; "{} is {s}", o.0)?.as_str()),
        Cond::NotShape(o, s) => out.push_str(format!(in alloc; "{} is not {s}", o.0)?.as_str()),
        Cond::AtLeast(n, _) => out.push_str(format!(in alloc; "{n} of some")?.as_str()),
    }
}

/// Appends a leaf, or the number of a node with the leaves below it.
fn push_condition(alloc: Global, c: &Cond, out: &mut String) -> Result<(), AllocError> {
    let Cond::AtLeast(n, children) = c else {
        return push_leaf(alloc, c, out);
    };
    out.push_str(format!(in alloc; "{n} of")?.as_str())?;
    for child in children.as_slice() {
        out.push_str(" [")?;
        push_leaf(alloc, child, out)?;
        out.push_str("]")?;
    }
    Ok(())
}

/// The caps, one behind the other; nothing, where the problem has not the dimension or no box can
/// end there.
fn shown_caps(alloc: Global, problem: &[u8], d: usize, e: i64) -> Result<String, TextFault> {
    let problem = read_problem(alloc, problem)?;
    let mut shown = String::new(alloc);
    if problem.dims() <= d || e < -2_000_001 || 3_000_000 < e {
        return Ok(shown);
    }
    for c in caps(alloc, &problem, d, e)?.as_slice() {
        push_condition(alloc, c, &mut shown)?;
        shown.push_str("; ")?;
    }
    Ok(shown)
}

/// An object with two places, and one of two boxes with one place.
const SHAPES: &[u8] = b"geost 1 dims 2 shape s box 0 0 size 3 1 ; shape t box 0 0 size 2 5 ; \
    shape v box 4 -1 size 1 1 box -7 0 size 1 9 ; \
    object a as s, t at 0..5 0..5 ; object b as v at 0..5 0..5 ; end";

/// A problem, a dimension from 0, a number, and the caps there.
type Row = (&'static [u8], usize, i64, &'static str);

const ROWS: &[Row] = &[
    // 0 + 2 - 3
    (TWO_BOXES, 0, 3, "-1 1*x(0, 0); -1 1*x(1, 0); "),
    (TWO_BOXES, 0, -4, "6 1*x(0, 0); 6 1*x(1, 0); "),
    // 0 + 3 - 3 and 0 + 2 - 3, each at its place; 4 + 1 - 3 and -7 + 1 - 3
    (
        SHAPES,
        0,
        3,
        "1 of [0 is not 1] [0 1*x(0, 0)]; 1 of [0 is not 2] [-1 1*x(0, 0)]; \
        2 1*x(1, 0); -9 1*x(1, 0); ",
    ),
    // 0 + 1 - 8 and 0 + 5 - 8; -1 + 1 - 8 and 0 + 9 - 8
    (
        SHAPES,
        1,
        8,
        "1 of [0 is not 1] [-7 1*x(0, 1)]; 1 of [0 is not 2] [-3 1*x(0, 1)]; \
        -8 1*x(1, 1); 1 1*x(1, 1); ",
    ),
    // an object that may be absent has another place, at which no box ends
    (
        OPTIONAL,
        0,
        3,
        "-1 1*x(0, 0); 1 of [1 is not 1] [-1 1*x(1, 0)]; ",
    ),
    (NO_BOX, 0, 2, "1 of [0 is not 1] [0 1*x(0, 0)]; "),
    (b"geost 1 dims 1 end", 0, 7, ""),
];

#[test]
fn each_box_has_its_cap(rt: HostRuntime) -> Result<(), Fail> {
    for (problem, d, e, wanted) in ROWS {
        let found = shown_caps(rt.alloc(), problem, *d, *e)?;
        assert!(rt; found.as_str() == *wanted, "{}", found.as_str());
    }
    Ok(())
}
