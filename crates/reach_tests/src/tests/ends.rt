//! Where tuples end.

use crate::tests::problems::{DIAGONALS, NO_BOX, OPTIONAL, TWO_BOXES};
use extent_caps::end_of;
use geo_tokens::fault::TextFault;
use layout_text::read_layout;
use problem_text::read::read_problem;
use std::alloc::Global;
use std::test::Fail;

/// A shape of two boxes, the first of which ends last in the first dimension, and another one.
const TWO_SHAPES: &[u8] = b"geost 1 dims 2 shape s box 3 0 size 2 1 box 0 1 size 4 7 ; \
    shape t box 0 0 size 1 1 ; object a as s, t at -9..9 -9..9 ; end";

/// A problem and a layout of it, a dimension from 0, and the end there.
type Row = (&'static [u8], &'static [u8], usize, Option<i64>);

const ROWS: &[Row] = &[
    (TWO_BOXES, b"layout a as s at 0 b as s at 2", 0, Some(4)),
    (TWO_BOXES, b"layout a as s at 3 b as s at 1", 0, Some(5)),
    // no rule has to hold
    (TWO_BOXES, b"layout a as s at 1 b as s at 1", 0, Some(3)),
    // the box that ends last need not stand last, and the dimension counts
    (TWO_SHAPES, b"layout a as s at -9 2", 0, Some(-4)),
    (TWO_SHAPES, b"layout a as s at -9 2", 1, Some(10)),
    (TWO_SHAPES, b"layout a as t at -9 -1", 0, Some(-8)),
    (TWO_SHAPES, b"layout a as t at -9 -1", 1, Some(0)),
    (DIAGONALS, b"layout a as d at 0 0 b as e at 0 0", 1, Some(2)),
    // an object that is absent has no box, and none may be left
    (OPTIONAL, b"layout a as s at 1 b absent", 0, Some(3)),
    (NO_BOX, b"layout a absent", 0, None),
    (b"geost 1 dims 1 end", b"layout", 0, None),
];

/// Where the layout ends; none, where the problem has not the dimension.
fn end(alloc: Global, problem: &[u8], layout: &[u8], d: usize) -> Result<Option<i64>, TextFault> {
    let problem = read_problem(alloc, problem)?;
    let layout = read_layout(alloc, &problem, layout, 0)?;
    problem.is_said();
    if problem.dims() <= d {
        return Ok(None);
    }
    Ok(end_of(&problem, &layout, d))
}

#[test]
fn layouts_have_their_ends(rt: HostRuntime) -> Result<(), Fail> {
    for (problem, layout, d, wanted) in ROWS {
        let found = end(rt.alloc(), problem, layout, *d)?;
        assert!(rt; found == *wanted, "{found:?}");
    }
    Ok(())
}
