//! What `first` writes where there is no layout.
use crate::answers::asked;
use crate::checking::{CHAIN, FALSE, HALVES, NARROW};
use crate::ends::{Outside, ends};
use geost_run::Status;
use std::alloc::{AllocError, Global};
use std::test::Fail;

// Three boxes of size 1 on two cells, of which any two have room.
const THREE_IN_TWO: &[u8] =
    b"geost 1 dims 1 shape u box 0 size 1 ; object a as u at 0..1 ; object b as u at 0..1 ; object c as u at 0..1 ; rule r : apart ; end";

// Two shapes, of which one rule asks for the first and another for the second.
const TWO_SHAPES: &[u8] =
    b"geost 1 dims 1 shape u box 0 size 1 ; shape w box 0 size 2 ; object a as u, w at 0..9 ; rule p : a.sid = shape u ; rule q : a.sid = shape w ; end";

// A board of 3 by 3 cells without the one in the middle of an edge, for four boxes of two cells
// each.
const BOARD: &[u8] =
    b"geost 1 dims 2 shape post box 0 0 size 1 1 ; shape flat box 0 0 size 2 1 ; shape tall box 0 0 size 1 2 ; object p as post at 1..1 0..0 ; object a as flat, tall at 0..2 0..2 ; object b as flat, tall at 0..2 0..2 ; object c as flat, tall at 0..2 0..2 ; object d as flat, tall at 0..2 0..2 ; rule board : within 0..2 0..2 ; rule free : apart ; end";

// Its last line is a comment that no line feed ends.
const COMMENTED: &[u8] =
    b"geost 1 dims 1 shape s box 0 size 3 ; object a as s at 0..2 ; rule r : within 0..1 ; end # none, then";

// Whether `none` and a derivation are written, and `check` says yes to them behind the problem and
// a line feed.
fn is_shown(alloc: Global, problem: &[u8]) -> Result<bool, AllocError> {
    let (status, text) = asked(alloc, &["first", "1000"], problem)?;
    let mut both = Vec::from_slice(alloc, problem)?;
    both.extend_from_slice(b"\n")?;
    both.extend_from_slice(&text)?;
    let (verdict, said) = asked(alloc, &["check"], &both)?;
    let is_none = status == Status::No && text.starts_with(b"none\n") && text.ends_with(b"\nqed\n");
    Ok(is_none && verdict == Status::Answered && said.as_slice() == b"yes\n".as_slice())
}

#[test]
fn a_derivation_is_written_that_is_valid(rt: HostRuntime) -> Result<(), Fail> {
    let problems = [
        FALSE,
        NARROW,
        CHAIN,
        HALVES,
        THREE_IN_TWO,
        TWO_SHAPES,
        BOARD,
        COMMENTED,
    ];
    for problem in problems {
        assert!(rt; is_shown(rt.alloc(), problem)?, "{problem:?}");
    }
    Ok(())
}

// The problem has no objects, and the one condition of its rule is false.
const SHOWN_FALSE: &[u8] = b"none\ndead 1\nqed\n";

#[test]
fn a_false_rule_is_dead(rt: HostRuntime) -> Result<(), Fail> {
    let (status, text) = asked(rt.alloc(), &["first", "1"], FALSE)?;
    assert!(rt; status == Status::No && text.as_slice() == SHOWN_FALSE);
    Ok(())
}

// The sink takes a byte at a time.
#[test]
fn a_sink_that_fails_has_a_front_part_of_it(rt: HostRuntime) -> Result<(), Fail> {
    for taken in 0..SHOWN_FALSE.len() {
        let asked = (["first", "1"].as_slice(), FALSE);
        let failing = [taken as u64 + 1];
        let outside: Outside<'_> = ((4096, &[]), (1, &failing));
        let fault = (Status::WriteFault, &SHOWN_FALSE[..taken]);
        assert!(rt; ends(rt.alloc(), asked, outside, fault)?, "{taken} bytes");
    }
    Ok(())
}
