//! Words that are tokens of tuples, and words that are not.

ghost use Rattle.problem_data.specs.Cells.{IsShaped};

use geo_chan::CleanSink;
use geo_conditions::Layout;
use geo_tokens::fault::TextFault;
use layout_text::{TokenFault, print_layout, read_token};
use problem_data::problem::Problem;
use problem_text::read::read_problem;
use std::alloc::{AllocError, Global};
use std::test::Fail;

/// Two objects of one shape on a line.
const LINE: &[u8] = b"geost 1 dims 1 shape s box 0 size 2 ; \
    object a as s at 0..3 ; object b as s at 0..3 ; rule r : apart ; end";

/// Two objects in the plane, of which the second one has two shapes.
const PLANE: &[u8] = b"geost 1 dims 2 shape flat box 0 0 size 2 1 ; shape tall box 0 0 size 1 2 ; \
    object a as flat at 0..5 -9..-1 ; object b as flat, tall at -20..20 0..0 ; end";

/// Two objects on a line, of which the second one may be absent.
const OPTIONAL: &[u8] = b"geost 2 dims 1 shape s box 0 size 2 ; \
    object a as s at 0..1 ; object b as s, absent at 0..1, 5..6 ; end";

/// The same, with values tried from the high end down.
const DOWNWARDS: &[u8] = b"geost 2 dims 1 shape s box 0 size 2 ; \
    object a as s at 0..1 ; object b as s, absent at 0..1, 5..6 ; sides high ; end";

const EMPTY: &[u8] = b"geost 1 dims 1 end";

/// A problem and a word, with the layout block of the tuple that the word stands for, or its fault.
type Row = (&'static [u8], &'static [u8], &'static [u8]);

const ROWS: &[Row] = &[
    // an absent object has the place behind those of its shapes, and its first values
    (
        OPTIONAL,
        b"1,0/2,0",
        b"layout\na as s at 0\nb absent\ntoken 1,0/2,0\n",
    ),
    (OPTIONAL, b"1,0/2,1", b"BadToken"),
    (OPTIONAL, b"1,0/2,6", b"BadToken"),
    (OPTIONAL, b"1,0/3,0", b"BadToken"),
    (OPTIONAL, b"2,0/1,0", b"BadToken"),
    (
        DOWNWARDS,
        b"1,1/2,6",
        b"layout\na as s at 1\nb absent\ntoken 1,1/2,6\n",
    ),
    (DOWNWARDS, b"1,1/2,0", b"BadToken"),
    (
        LINE,
        b"1,0/1,2",
        b"layout\na as s at 0\nb as s at 2\ntoken 1,0/1,2\n",
    ),
    (
        LINE,
        b"1,3/1,3",
        b"layout\na as s at 3\nb as s at 3\ntoken 1,3/1,3\n",
    ),
    // a number has one spelling
    (LINE, b"1,00/1,2", b"BadToken"),
    (LINE, b"1,0/1,02", b"BadToken"),
    (LINE, b"01,0/1,2", b"BadToken"),
    (LINE, b"1,-0/1,2", b"BadToken"),
    (LINE, b"1,+0/1,2", b"BadToken"),
    (LINE, b"1,18446744073709551616/1,2", b"BadToken"),
    // a range, a place, a number of groups and one of coordinates
    (LINE, b"1,4/1,2", b"BadToken"),
    (LINE, b"1,0/1,-1", b"BadToken"),
    (LINE, b"2,0/1,2", b"BadToken"),
    (LINE, b"0,0/1,2", b"BadToken"),
    (LINE, b"1,0", b"BadToken"),
    (LINE, b"1,0/1,2/1,0", b"BadToken"),
    (LINE, b"1/1,2", b"BadToken"),
    (LINE, b"1,0,0/1,2", b"BadToken"),
    (LINE, b"-", b"BadToken"),
    (LINE, b"", b"BadToken"),
    // nothing stands around it or in it
    (LINE, b"/1,0/1,2", b"BadToken"),
    (LINE, b"1,0/1,2/", b"BadToken"),
    (LINE, b"1,0/1,2\n", b"BadToken"),
    (LINE, b" 1,0/1,2", b"BadToken"),
    (LINE, b"1, 0/1,2", b"BadToken"),
    (LINE, b"1,0/1,2#", b"BadToken"),
    (LINE, b"token 1,0/1,2", b"BadToken"),
    (LINE, b"1,0/1,2?", b"BadToken"),
    (
        PLANE,
        b"1,5,-9/2,-20,0",
        b"layout\na as flat at 5 -9\nb as tall at -20 0\ntoken 1,5,-9/2,-20,0\n",
    ),
    (
        PLANE,
        b"1,0,-1/1,20,0",
        b"layout\na as flat at 0 -1\nb as flat at 20 0\ntoken 1,0,-1/1,20,0\n",
    ),
    (PLANE, b"1,0,1/1,20,0", b"BadToken"),
    (PLANE, b"1,0,-10/1,20,0", b"BadToken"),
    (PLANE, b"1,0,- 1/1,20,0", b"BadToken"),
    (PLANE, b"1,0,--1/1,20,0", b"BadToken"),
    (PLANE, b"1,0,-1/3,20,0", b"BadToken"),
    (PLANE, b"1,0,-1/1,20,-0", b"BadToken"),
    (EMPTY, b"-", b"layout\ntoken -\n"),
    (EMPTY, b"", b"BadToken"),
    (EMPTY, b"- ", b"BadToken"),
    (EMPTY, b"-0", b"BadToken"),
    (EMPTY, b"1,0", b"BadToken"),
];

/// The layout block of a tuple.
fn block_of(alloc: Global, problem: &Problem, layout: &Layout) -> Result<Vec<u8>, AllocError>
    requires { IsShaped problem.now layout.now }
{
    let mut sink = CleanSink::new(alloc);
    let _done = print_layout(problem, layout, &mut sink);
    Vec::from_slice(alloc, sink.bytes())
}

/// The word for a fault.
fn fault_text(alloc: Global, fault: TokenFault) -> Result<Vec<u8>, AllocError> {
    Ok(format!(in alloc; "{fault:?}")?.into_bytes())
}

/// The layout block of the tuple of which the word is the token, or the fault.
fn block(alloc: Global, problem: &[u8], word: &[u8]) -> Result<Vec<u8>, TextFault> {
    let problem = read_problem(alloc, problem)?;
    match read_token(alloc, &problem, word) {
        Ok(layout) => Ok(block_of(alloc, &problem, &layout)?),
        Err(fault) => Ok(fault_text(alloc, fault)?),
    }
}

/// The first word that has another block or fault than its row says.
fn wrong_word(alloc: Global, rows: &'static [Row]) -> Result<Option<&'static [u8]>, TextFault> {
    for (problem, word, wanted) in rows {
        let found = block(alloc, problem, word)?;
        if found.as_slice() != *wanted {
            return Ok(Some(word));
        }
    }
    Ok(None)
}

#[test]
fn a_token_is_read_in_its_one_spelling(rt: HostRuntime) -> Result<(), Fail> {
    let wrong = wrong_word(rt.alloc(), ROWS)?;
    assert!(rt; wrong.is_none(), "{wrong:?}");
    Ok(())
}
