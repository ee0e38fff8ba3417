//! Grounding and judging, against conditions and rules by hand.

use geo_conditions::{Cond, Form, ObjId};
use geo_meaning::{Judged, judge};
use geo_tokens::fault::TextFault;
use layout_text::read_layout;
use problem_generator::make_problem;
use problem_text::read::read_problem;
use rule_ground::ground::ground;
use rule_ground::start::start_state;
use std::alloc::{AllocError, Global};
use std::process::Abort;
use std::test::Fail;

/// Appends the constant, and each factor with its object's number.
pub fn push_form(alloc: Global, f: &Form, out: &mut String) -> Result<(), AllocError> {
    out.push_str(format!(in alloc; "{}", f.constant())?.as_str())?;
    for term in f.terms() {
        out.push_str(format!(in alloc; " {}*x{}", term.factor, term.object.0)?.as_str())?;
    }
    Ok(())
}

/// Appends a form, or the number of a node with the forms below it.
fn push_condition(alloc: Global, c: &Cond, out: &mut String) -> Result<(), AllocError> {
    match c {
        Cond::Lin(f) => push_form(alloc, f, out)?,
        Cond::AtLeast(n, children) => {
            out.push_str(format!(in alloc; "{n} of")?.as_str())?;
            for child in children.as_slice() {
                if let Cond::Lin(f) = child {
                    out.push_str(" [")?;
                    push_form(alloc, f, out)?;
                    out.push_str("]")?;
                }
            }
        }
        _ => out.push_str("a shape")?,
    }
    out.push_str("; ")
}

/// The conditions of a problem, one behind the other.
fn conditions(alloc: Global, text: &[u8]) -> Result<String, TextFault> {
    let problem = read_problem(alloc, text)?;
    let list = ground(alloc, &problem)?;
    let mut shown = String::new(alloc);
    for c in list.as_slice() {
        push_condition(alloc, c, &mut shown)?;
    }
    Ok(shown)
}

/// The problem of two texts one behind the other has these conditions, or that fault.
fn has(
    rt: &impl Abort,
    alloc: Global,
    front: &[u8],
    rules: &[u8],
    wanted: &str,
) -> Result<(), Fail> {
    let mut text = Vec::from_slice(alloc, front)?;
    text.extend_from_slice(rules)?;
    let found = match conditions(alloc, &text) {
        Ok(shown) => shown,
        Err(fault) => format!(in alloc; "{fault:?}")?,
    };
    assert!(rt; found.as_str() == wanted, "{}", found.as_str());
    Ok(())
}

/// One object of one cell. The rules stand at place 62.
const ONE: &[u8] = b"geost 1 dims 1 shape s box 0 size 1 ; object a as s at 0..9 ; ";

/// Two objects of one cell.
const TWO: &[u8] =
    b"geost 1 dims 1 shape a box 0 size 1 ; object o as a at 0..3 ; object u as a at 0..3 ; rule r : ";

/// Two objects, of which the first one has two shapes. The rule's name stands at place 117.
const SHAPES: &[u8] =
    b"geost 1 dims 1 shape s box 0 size 1 ; shape t box 0 size 2 ; object a as t, s at 0..9 ; object b as s at 0..9 ; rule r : ";

/// An object of two cells whose range has three pieces, and one in a single piece.
const HOLES: &[u8] =
    b"geost 2 dims 1 shape s box 0 size 2 ; object a as s at 0..1, 5..6, 9..9 ; object b as s at 0..1 ; ";

/// Two objects in two dimensions: the first has a hole in each, the second in the second alone.
const HOLES_IN_THE_PLANE: &[u8] =
    b"geost 2 dims 2 shape s box 0 0 size 1 1 ; object a as s at 0..0, 2..2 0..1, 4..4 ; object b as s at 7..7 0..1, 3..3 ; ";

/// Problems in two texts, with their conditions or their first fault.
const ROWS: &[(&[u8], &[u8], &str)] = &[
    // rules that are too large, and one whose argument is not used
    (
        ONE,
        b"macro v(n : int) is n + n ; rule r : $v($v($v($v($v($v($v($v($v($v($v($v($v($v(1)))))))))))))) <= a.x1 ; end",
        "At(95, Expand)",
    ),
    (
        ONE,
        b"rule r : a.x1 * 0 * a.x1 <= 4 ; end",
        "At(67, Product)",
    ),
    (
        ONE,
        b"macro z(n : int) is 1 ; rule r : $z(a.x1 * a.x1) <= a.x1 ; end",
        "1 -1*x0; ",
    ),
    // holes stand before the rules, by object, by dimension and from the least number on
    (
        HOLES,
        b"end",
        "1 of [-1 1*x0] [5 -1*x0]; 1 of [-6 1*x0] [9 -1*x0]; ",
    ),
    (
        HOLES,
        b"rule r : apart ; end",
        "1 of [-1 1*x0] [5 -1*x0]; 1 of [-6 1*x0] [9 -1*x0]; 1 of [2 1*x0 -1*x1] [2 -1*x0 1*x1]; ",
    ),
    (
        HOLES_IN_THE_PLANE,
        b"rule r : a.x1 <= 1 ; end",
        "1 of [0 1*x0] [2 -1*x0]; 1 of [-1 1*x0] [4 -1*x0]; 1 of [-1 1*x1] [3 -1*x1]; -1 1*x0; ",
    ),
    // formulas
    (TWO, b"true ; end", ""),
    (TWO, b"o.x1 <= 1 ; end", "-1 1*x0; "),
    (TWO, b"o.x1 = 1 ; end", "-1 1*x0; 1 -1*x0; "),
    (
        TWO,
        b"forall p in objects : p.x1 <= 1 ; end",
        "-1 1*x0; -1 1*x1; ",
    ),
    (
        TWO,
        b"exists p in objects : p.x1 <= 1 ; end",
        "1 of [-1 1*x0] [-1 1*x1]; ",
    ),
    // comparisons
    (SHAPES, b"a.x1 >= 3 ; end", "3 -1*x0; "),
    (SHAPES, b"a.x1 < b.x1 ; end", "1 1*x0 -1*x1; "),
    (
        SHAPES,
        b"b.x1 - a.x1 = 2 ; end",
        "-2 -1*x0 1*x1; 2 1*x0 -1*x1; ",
    ),
    (
        SHAPES,
        b"a.x1 != b.x1 ; end",
        "1 of [1 1*x0 -1*x1] [1 -1*x0 1*x1]; ",
    ),
    (SHAPES, b"a.x1 - a.x1 < 1 ; end", ""),
    (SHAPES, b"a.x1 - a.x1 > 0 ; end", "1 of; "),
    (SHAPES, b"(0 - 7) div 2 = 0 - 4 ; end", ""),
    (SHAPES, b"min(2, 5) * a.x1 <= max(2, 5) ; end", "-5 2*x0; "),
    (SHAPES, b"0 * a.x1 >= 1 ; end", "1 of; "),
    // forms are tested where they are complete
    (
        SHAPES,
        b"1000000000 * 1000001 >= a.x1 ; end",
        "At(117, Overflow)",
    ),
    (
        SHAPES,
        b"1000000000 * 1000000 >= a.x1 ; end",
        "-1000000000000000 1*x0; ",
    ),
    (
        SHAPES,
        b"1000000000 * 1000000 < a.x1 ; end",
        "At(117, Overflow)",
    ),
    (SHAPES, b"1000000000 * 1000000 < 0 ; end", "1 of; "),
    (
        SHAPES,
        b"1000000000 * 1000000 + 1000000000 * 1000000 - 1000000000 * 1000000 >= a.x1 ; end",
        "-1000000000000000 1*x0; ",
    ),
];

#[test]
fn rules_give_their_conditions(rt: HostRuntime) -> Result<(), Fail> {
    for (front, rules, wanted) in ROWS {
        has(&rt, rt.alloc(), front, rules, wanted)?;
    }
    Ok(())
}

/// Each macro calls the one before it twice and hands its argument on: as many calls as 2 to the
/// power of 50, and one node.
#[test]
fn a_tower_of_macros_takes_no_longer_than_its_text(rt: HostRuntime) -> Result<(), Fail> {
    let mut rules = Vec::from_slice(rt.alloc(), b"macro m0(n : int) is n ; ")?;
    for i in 0..50u32 {
        let line = format!(in rt.alloc(); "macro m{}(n : int) is $m{i}($m{i}(n)) ; ", i + 1)?;
        rules.extend_from_slice(line.as_bytes())?;
    }
    rules.extend_from_slice(b"rule r : $m50(a.x1) <= 4 ; end")?;
    has(&rt, rt.alloc(), ONE, &rules, "-4 1*x0; ")
}

/// Each of 80 shapes stays in the rack at two ends of three dimensions, and each two of 40 objects
/// lie apart, whichever of their two shapes they have: 80 * 6 + 780 * 4.
#[test]
fn the_rules_of_made_problems_give_3600_conditions(rt: HostRuntime) -> Result<(), Fail> {
    for seed in [0, 1, 2_147_483_647] {
        let shown = conditions(rt.alloc(), &make_problem(rt.alloc(), seed)?)?;
        let mut number: usize = 0;
        for byte in shown.as_bytes() {
            number = number.saturating_add(usize::from(*byte == b';'));
        }
        assert!(rt; number == 3600);
    }
    Ok(())
}

/// The intervals in which a search begins, of a problem in one dimension.
fn hulls(alloc: Global, text: &[u8]) -> Result<String, TextFault> {
    let problem = read_problem(alloc, text)?;
    let mut shown = String::new(alloc);
    if problem.dims() != 1 {
        return Ok(shown);
    }
    let state = start_state::<1>(alloc, &problem)?;
    if state.objects() != 2 {
        return Ok(shown);
    }
    for o in [ObjId(0), ObjId(1)] {
        let region = state.region(o);
        let line = format!(in alloc; "{}..{}; ", region.lo.get(0), region.hi.get(0))?;
        shown.push_str(line.as_str())?;
    }
    Ok(shown)
}

/// A search begins with the hulls of all pieces.
#[test]
fn a_search_begins_with_hulls(rt: HostRuntime) -> Result<(), Fail> {
    let mut text = Vec::from_slice(rt.alloc(), HOLES)?;
    text.extend_from_slice(b"end")?;
    let shown = hulls(rt.alloc(), &text)?;
    assert!(rt; shown.as_str() == "0..9; 0..1; ", "{}", shown.as_str());
    Ok(())
}

/// Shape t leaves its second cell free. Shape s is the second of object a.
const JUDGED: &[u8] =
    b"geost 1 dims 1 shape s box 0 size 2 ; shape t box 0 size 1 box 2 size 1 ; object a as t, s at 0..7 ; object b as s at 0..7 ; rule f : apart ; rule w : within 0..6 ; rule o : a.x1 < b.x1 or a.sid = 1 ; end";

/// Layouts, with the number of the first rule that each breaks; 0 where there is none.
const LAYOUTS: &[(&[u8], u16)] = &[
    (b"layout\na as t at 0\nb as s at 3\n", 0),
    // b begins on the last cell of a
    (b"layout\na as t at 0\nb as s at 2\n", 1),
    // b ends at 8
    (b"layout\na as t at 0\nb as s at 6\n", 2),
    (b"layout\na as t at 0\nb as s at 5\n", 0),
    // a stands behind b
    (b"layout\na as t at 4\nb as s at 1\n", 3),
    (b"layout\na as s at 4\nb as s at 1\n", 0),
];

fn broken(alloc: Global, layout: &[u8]) -> Result<u16, TextFault> {
    let problem = read_problem(alloc, JUDGED)?;
    let _conditions = ground(alloc, &problem)?;
    let layout = read_layout(alloc, &problem, layout, 0)?;
    match judge(alloc, &problem, &layout)? {
        Judged::Good => Ok(0),
        Judged::Broken(number) => Ok(number),
    }
}

#[test]
fn the_first_broken_rule_is_named(rt: HostRuntime) -> Result<(), Fail> {
    for (layout, wanted) in LAYOUTS {
        assert!(rt; broken(rt.alloc(), layout)? == *wanted);
    }
    Ok(())
}
