//! Which object blocks which, and the order in which they come in.

ghost use Rattle.std.specs.Prelude.{◌<◌, length};
ghost use Rattle.problem_data.specs.Cells.{IsShaped};

use crate::tests::problems::{DIAGONALS, OPTIONAL, TWO_BOXES};
use geo_conditions::{Layout, ObjId};
use geo_load::{Loading, ObjList, blocks, load};
use geo_tokens::fault::TextFault;
use layout_text::read_layout;
use problem_data::problem::Problem;
use problem_text::read::read_problem;
use std::alloc::{AllocError, Global};
use std::test::Fail;

/// Three boxes of two cells each.
const THREE_BOXES: &[u8] = b"geost 1 dims 1 shape s box 0 size 2 ; \
    object a as s at 0..9 ; object b as s at 0..9 ; object c as s at 0..9 ; end";

/// Three cells, and a lid over three columns.
const LID: &[u8] = b"geost 1 dims 2 shape u box 0 0 size 1 1 ; shape w box 0 0 size 3 1 ; \
    object a as u at 0..9 0..9 ; object b as u at 0..9 0..9 ; object c as w at 0..9 0..9 ; \
    object d as u at 0..9 0..9 ; end";

/// The first cell stands over the lid, the second under it, and the third beside both.
const UNDER_THE_LID: &[u8] = b"layout a as u at 0 5 b as u at 2 0 c as w at 0 3 d as u at 5 9";

/// A problem and a layout of it, a dimension from 0, which object blocks which, and what comes of
/// loading. Objects have their numbers, from 0.
type Row = (
    &'static [u8],
    &'static [u8],
    usize,
    &'static str,
    &'static str,
);

const ROWS: &[Row] = &[
    (
        TWO_BOXES,
        b"layout a as s at 0 b as s at 2",
        0,
        "1 blocks 0; ",
        "order 0 1",
    ),
    (
        TWO_BOXES,
        b"layout a as s at 2 b as s at 0",
        0,
        "0 blocks 1; ",
        "order 1 0",
    ),
    (
        TWO_BOXES,
        b"layout a as s at 0 b as s at 1",
        0,
        "0 blocks 1; 1 blocks 0; ",
        "cycle 0 1",
    ),
    // each of the two has a cell beyond one of the other, in every dimension
    (
        DIAGONALS,
        b"layout a as d at 0 0 b as e at 0 0",
        0,
        "0 blocks 1; 1 blocks 0; ",
        "cycle 0 1",
    ),
    (
        DIAGONALS,
        b"layout a as d at 0 0 b as e at 0 0",
        1,
        "0 blocks 1; 1 blocks 0; ",
        "cycle 0 1",
    ),
    (
        LID,
        UNDER_THE_LID,
        1,
        "0 blocks 2; 2 blocks 1; ",
        "order 1 2 0 3",
    ),
    // no two of them have a row in common
    (LID, UNDER_THE_LID, 0, "", "order 0 1 2 3"),
    // the first one is left and blocks another one, and stands in no cycle
    (
        THREE_BOXES,
        b"layout a as s at 5 b as s at 0 c as s at 1",
        0,
        "0 blocks 1; 0 blocks 2; 1 blocks 2; 2 blocks 1; ",
        "cycle 1 2",
    ),
    // an object that is absent blocks none, and does not come in
    (OPTIONAL, b"layout a as s at 0 b absent", 0, "", "order 0"),
    (b"geost 1 dims 1 end", b"layout", 0, "", "order"),
];

/// Appends each other object that the object blocks.
fn push_blocked(
    alloc: Global,
    problem: &Problem,
    layout: &Layout,
    i: u16,
    d: usize,
    out: &mut String,
) -> Result<(), AllocError>
    requires layout { IsShaped problem.now layout.now }
    requires i { i < length problem.now.objects }
    requires d { d < problem.now.dims }
{
    problem.is_said();
    let count = problem.objects().len() as u16;
    for j in 0..count {
        if j != i && blocks(problem, layout, ObjId(i), ObjId(j), d) {
            out.push_str(format!(in alloc; "{i} blocks {j}; ")?.as_str())?;
        }
    }
    Ok(())
}

/// Which object blocks which.
fn shown_pairs(
    alloc: Global,
    problem: &Problem,
    layout: &Layout,
    d: usize,
) -> Result<String, AllocError>
    requires layout { IsShaped problem.now layout.now }
    requires d { d < problem.now.dims }
{
    problem.is_said();
    let count = problem.objects().len() as u16;
    let mut shown = String::new(alloc);
    for i in 0..count {
        push_blocked(alloc, problem, layout, i, d, &mut shown)?;
    }
    Ok(shown)
}

/// The word and the objects.
fn shown_list(alloc: Global, word: &str, objects: &ObjList) -> Result<String, AllocError> {
    let mut shown = String::from_str(alloc, word)?;
    for k in 0..objects.len() {
        shown.push_str(format!(in alloc; " {}", objects.at(k).0)?.as_str())?;
    }
    Ok(shown)
}

/// What comes of loading.
fn shown_loading(
    alloc: Global,
    problem: &Problem,
    layout: &Layout,
    d: usize,
) -> Result<String, AllocError>
    requires layout { IsShaped problem.now layout.now }
    requires d { d < problem.now.dims }
{
    match load(alloc, problem, layout, d)? {
        Loading::Order(order) => shown_list(alloc, "order", &order),
        Loading::Cycle(cycle) => shown_list(alloc, "cycle", &cycle),
    }
}

/// Which object blocks which, and what comes of loading; nothing, where the problem has not the
/// dimension.
fn shown(
    alloc: Global,
    problem: &[u8],
    layout: &[u8],
    d: usize,
) -> Result<(String, String), TextFault> {
    let problem = read_problem(alloc, problem)?;
    let layout = read_layout(alloc, &problem, layout, 0)?;
    if problem.dims() <= d {
        return Ok((String::new(alloc), String::new(alloc)));
    }
    let pairs = shown_pairs(alloc, &problem, &layout, d)?;
    let loading = shown_loading(alloc, &problem, &layout, d)?;
    Ok((pairs, loading))
}

#[test]
fn objects_come_in_where_none_blocks_them(rt: HostRuntime) -> Result<(), Fail> {
    for (problem, layout, d, pairs, loading) in ROWS {
        let (found, order) = shown(rt.alloc(), problem, layout, *d)?;
        assert!(rt; found.as_str() == *pairs, "{}", found.as_str());
        assert!(rt; order.as_str() == *loading, "{}", order.as_str());
    }
    Ok(())
}
