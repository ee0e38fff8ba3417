//! Grounding of objects that may be absent, against conditions by hand.

use crate::tests::push_form;
use geo_conditions::Cond;
use geo_tokens::fault::TextFault;
use problem_text::read::read_problem;
use rule_ground::ground::ground;
use std::alloc::{AllocError, Global};
use std::process::Abort;
use std::test::Fail;

/// Appends a form, or an object with a place that it has or has not.
fn push_leaf(alloc: Global, c: &Cond, out: &mut String) -> Result<(), AllocError> {
    match c {
        Cond::Lin(f) => push_form(alloc, f, out),
        Cond::Shape(o, s) => out.push_str(format!(in alloc; "{} is {s}", o.0)?.as_str()),
        Cond::NotShape(o, s) => out.push_str(format!(in alloc; "{} is not {s}", o.0)?.as_str()),
        Cond::AtLeast(n, _) => out.push_str(format!(in alloc; "{n} of some")?.as_str()),
    }
}

/// Appends a leaf, or the number of a node with the leaves below it.
fn push_low(alloc: Global, c: &Cond, out: &mut String) -> Result<(), AllocError> {
    let Cond::AtLeast(n, children) = c else {
        return push_leaf(alloc, c, out);
    };
    out.push_str(format!(in alloc; "{n} of")?.as_str())?;
    for child in children.as_slice() {
        out.push_str(" [")?;
        push_leaf(alloc, child, out)?;
        out.push_str("]")?;
    }
    Ok(())
}

/// Appends a leaf, or a node with two rows below it.
fn push_middle(alloc: Global, c: &Cond, out: &mut String) -> Result<(), AllocError> {
    let Cond::AtLeast(n, children) = c else {
        return push_leaf(alloc, c, out);
    };
    out.push_str(format!(in alloc; "{n} of")?.as_str())?;
    for child in children.as_slice() {
        out.push_str(" [")?;
        push_low(alloc, child, out)?;
        out.push_str("]")?;
    }
    Ok(())
}

/// Appends a leaf, or a node with three rows below it.
fn push_high(alloc: Global, c: &Cond, out: &mut String) -> Result<(), AllocError> {
    let Cond::AtLeast(n, children) = c else {
        return push_leaf(alloc, c, out);
    };
    out.push_str(format!(in alloc; "{n} of")?.as_str())?;
    for child in children.as_slice() {
        out.push_str(" [")?;
        push_middle(alloc, child, out)?;
        out.push_str("]")?;
    }
    Ok(())
}

/// The conditions of a problem, one behind the other.
fn conditions(alloc: Global, text: &[u8]) -> Result<String, TextFault> {
    let problem = read_problem(alloc, text)?;
    let list = ground(alloc, &problem)?;
    let mut shown = String::new(alloc);
    for c in list.as_slice() {
        push_high(alloc, c, &mut shown)?;
        shown.push_str("; ")?;
    }
    Ok(shown)
}

/// The problem of two texts one behind the other has these conditions.
fn has(
    rt: &impl Abort,
    alloc: Global,
    front: &[u8],
    rules: &[u8],
    wanted: &str,
) -> Result<(), Fail> {
    let mut text = Vec::from_slice(alloc, front)?;
    text.extend_from_slice(rules)?;
    let found = match conditions(alloc, &text) {
        Ok(shown) => shown,
        Err(fault) => format!(in alloc; "{fault:?}")?,
    };
    assert!(rt; found.as_str() == wanted, "{}", found.as_str());
    Ok(())
}

/// One object that may be absent, at its place 2, and one that is always there. The first one's
/// origin has the first condition.
const OPTIONAL: &[u8] =
    b"geost 2 dims 1 shape s box 0 size 2 ; object b as s, absent at 0..1 ; object c as s at 0..1 ; rule q : ";

/// The same with nothing but objects in front of the rules.
const RULES: &[u8] =
    b"geost 2 dims 1 shape s box 0 size 2 ; object a as s at 0..1 ; object b as s, absent at 0..1 ; ";

/// A range with a hole, and values that are tried from the high end down.
const DOWN: &[u8] =
    b"geost 2 dims 1 shape s box 0 size 2 ; object b as s, absent at 0..1, 5..6 ; sides high ; ";

/// Problems in two texts, with their conditions.
const ROWS: &[(&[u8], &[u8], &str)] = &[
    // the origin of an absent object, `apart`, and a quantifier over it alone
    (
        RULES,
        b"rule r : apart ; rule q : exists p in objects (b) : true ; end",
        "1 of [1 is not 2] [0 1*x1]; 1 of [1 is not 1] [2 1*x0 -1*x1] [2 -1*x0 1*x1]; 1 is not 2; ",
    ),
    // holes come before the origin, which is at the high end
    (
        DOWN,
        b"end",
        "1 of [-1 1*x0] [5 -1*x0]; 1 of [0 is not 2] [6 -1*x0]; ",
    ),
    // not fixed, and the shape is not asked for
    (
        OPTIONAL,
        b"forall p in objects (b) : p.x1 <= 0 ; end",
        "1 of [0 is not 2] [0 1*x0]; 1 of [0 is 2] [0 1*x0]; ",
    ),
    (
        OPTIONAL,
        b"not exists p in objects (b) : p.x1 >= 1 ; end",
        "1 of [0 is not 2] [0 1*x0]; 1 of [0 is 2] [0 1*x0]; ",
    ),
    (
        OPTIONAL,
        b"exists p in objects (b, c) : p.x1 <= 0 ; end",
        "1 of [0 is not 2] [0 1*x0]; 1 of [2 of [0 is not 2] [0 1*x0]] [0 1*x1]; ",
    ),
    (
        OPTIONAL,
        b"not forall p in objects (b, c) : p.x1 >= 1 ; end",
        "1 of [0 is not 2] [0 1*x0]; 1 of [2 of [0 is not 2] [0 1*x0]] [0 1*x1]; ",
    ),
    (
        OPTIONAL,
        b"atleast 1 p in objects (b, c) : p.x1 <= 0 ; end",
        "1 of [0 is not 2] [0 1*x0]; 1 of [2 of [0 is not 2] [0 1*x0]] [0 1*x1]; ",
    ),
    (
        OPTIONAL,
        b"atmost 1 p in objects (b, c) : p.x1 >= 1 ; end",
        "1 of [0 is not 2] [0 1*x0]; 1 of [1 of [0 is 2] [0 1*x0]] [0 1*x1]; ",
    ),
    // fixed to its shape, and then to be absent: the rule names its shape
    (
        OPTIONAL,
        b"b.sid >= 0 and forall p in objects (b) : p.x1 <= 0 ; end",
        "1 of [0 is not 2] [0 1*x0]; 1 of [0 is not 1] [0 1*x0]; ",
    ),
    (
        OPTIONAL,
        b"b.sid >= 0 and exists p in objects (b) : p.x1 <= 0 ; end",
        "1 of [0 is not 2] [0 1*x0]; 1 of [0 is not 1] [0 1*x0]; 0 is not 2; ",
    ),
    (
        OPTIONAL,
        b"b.sid >= 0 and atleast 1 p in objects (b, c) : p.x1 <= 0 ; end",
        "1 of [0 is not 2] [0 1*x0]; 1 of [0 is not 1] [1 of [0 1*x0] [0 1*x1]]; 1 of [0 is not 2] [0 1*x1]; ",
    ),
    (
        OPTIONAL,
        b"b.sid >= 0 and atmost 1 p in objects (b, c) : p.x1 >= 1 ; end",
        "1 of [0 is not 2] [0 1*x0]; 1 of [0 is not 1] [1 of [0 1*x0] [0 1*x1]]; ",
    ),
    // split over its shape
    (
        OPTIONAL,
        b"forall p in objects (b) : [p.sid >= 2 or p.x1 <= 0] ; end",
        "1 of [0 is not 2] [0 1*x0]; 1 of [0 is not 1] [0 1*x0]; ",
    ),
    (
        OPTIONAL,
        b"exists p in objects (b, c) : [p.sid <= 1 and p.x1 <= 0] ; end",
        "1 of [0 is not 2] [0 1*x0]; 1 of [2 of [0 is 1] [0 1*x0]] [0 1*x1]; ",
    ),
    (
        OPTIONAL,
        b"atleast 1 p in objects (b, c) : [p.sid <= 1 and p.x1 <= 0] ; end",
        "1 of [0 is not 2] [0 1*x0]; 1 of [2 of [0 is 1] [0 1*x0]] [0 1*x1]; ",
    ),
    (
        OPTIONAL,
        b"atmost 1 p in objects (b, c) : [p.sid <= 1 and p.x1 >= 1] ; end",
        "1 of [0 is not 2] [0 1*x0]; 1 of [1 of [2 of [0 is 1] [0 1*x0]] [0 is 2]] [0 1*x1]; ",
    ),
    // a name's own places, and its number where it is absent
    (
        OPTIONAL,
        b"b.sid = 0 ; end",
        "1 of [0 is not 2] [0 1*x0]; 0 is not 1; ",
    ),
];

#[test]
fn absent_objects_give_their_conditions(rt: HostRuntime) -> Result<(), Fail> {
    for (front, rules, wanted) in ROWS {
        has(&rt, rt.alloc(), front, rules, wanted)?;
    }
    Ok(())
}
