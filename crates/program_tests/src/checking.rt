//! What `check` answers to problems with derivations behind them, which were worked out by hand.
use crate::answers::TWO_BOXES;
use crate::ends::{Outside, ends};
use geost_run::Status;
use std::alloc::{AllocError, Global};
use std::test::Fail;

const CLEAN: Outside<'_> = ((4096, &[]), (4096, &[]));

// Whether the check of a derivation behind a problem ends so and has this text written.
fn checks(
    alloc: Global,
    (problem, derivation): (&[u8], &[u8]),
    outside: Outside<'_>,
    answer: (Status, &[u8]),
) -> Result<bool, AllocError> {
    let mut input = Vec::from_slice(alloc, problem)?;
    input.extend_from_slice(derivation)?;
    ends(alloc, (&["check"], input.as_slice()), outside, answer)
}

// Two boxes of size 2 on the cells 0 to 2.
pub const NARROW: &[u8] =
    b"geost 1 dims 1 shape s box 0 size 2 ; object a as s at 0..1 ; object b as s at 0..1 ; rule r : apart ; end";

pub const FALSE: &[u8] = b"geost 1 dims 1 rule f : false ; end";

// a before b before c, and c ends before a has begun.
pub const CHAIN: &[u8] =
    b"geost 1 dims 1 shape u box 0 size 1 ; object a as u at 4..9 ; object b as u at 0..9 ; object c as u at 0..5 ; rule p : a.x1 < b.x1 ; rule q : b.x1 < c.x1 ; end";

// One cell between two boxes that leave none.
pub const HALVES: &[u8] =
    b"geost 1 dims 1 shape u box 0 size 1 ; shape w box 0 size 500000 ; object a as u at 0..999999 ; object b as w at 0..0 ; object c as w at 500000..500000 ; rule r : apart ; end";

// A problem and a derivation behind it, with the status and the text.
const ROWS: &[(&[u8], &[u8], Status, &[u8])] = &[
    (FALSE, b" dead 1 qed", Status::Answered, b"yes\n"),
    (NARROW, b" dead 1 qed", Status::Answered, b"yes\n"),
    (NARROW, b" none dead 1 qed", Status::Answered, b"yes\n"),
    (NARROW, b" dead 1 qed?", Status::Answered, b"yes\n"),
    (TWO_BOXES, b" dead 1 qed", Status::No, b"no 1\n"),
    (TWO_BOXES, b" dead 1 qed ? ? ?", Status::No, b"no 1\n"),
    (
        CHAIN,
        b" raise b 1 5 [ u by 1 ] dead 2 qed",
        Status::Answered,
        b"yes\n",
    ),
    (
        CHAIN,
        b" raise b 1 6 [ u by 1 ] dead 2 qed",
        Status::No,
        b"no 1\n",
    ),
    (
        HALVES,
        b" gone a [ u cut 1 499999 by 1 by 2 ] qed",
        Status::Answered,
        b"yes\n",
    ),
    (
        HALVES,
        b" gone a [ u cut 1 500000 by 1 by 2 ] qed",
        Status::No,
        b"no 1\n",
    ),
    (
        TWO_BOXES,
        b" split a 1 upto 1 dead 1 dead 1 qed",
        Status::No,
        b"no 2\n",
    ),
    (
        TWO_BOXES,
        b" dead x qed",
        Status::Refused,
        b"refused 112 syntax\n",
    ),
    (
        TWO_BOXES,
        b" gone c [ ] qed",
        Status::Refused,
        b"refused 112 unknown\n",
    ),
    (
        TWO_BOXES,
        b" by 1 qed",
        Status::Refused,
        b"refused 107 syntax\n",
    ),
    (
        TWO_BOXES,
        b" split a 1 upto 0 dead 1",
        Status::Refused,
        b"refused 130 syntax\n",
    ),
    (
        TWO_BOXES,
        b" raise b 2 1 [ s by 1 ] dead 1 qed",
        Status::Refused,
        b"refused 115 unknown\n",
    ),
    (
        TWO_BOXES,
        b" dead 1000000001 qed",
        Status::Refused,
        b"refused 112 number\n",
    ),
    (
        b"geost 3 dims 1 end",
        b" dead 1 qed",
        Status::Refused,
        b"refused 6 limit\n",
    ),
    (b"", b"", Status::Refused, b"refused 0 syntax\n"),
];

#[test]
fn derivations_are_checked_in_any_pieces(rt: HostRuntime) -> Result<(), Fail> {
    for size in [1, 2, 7, 4096] {
        for (problem, derivation, status, text) in ROWS {
            let outside: Outside<'_> = ((size, &[]), (4096, &[]));
            let pair = (*problem, *derivation);
            let is_right = checks(rt.alloc(), pair, outside, (*status, *text))?;
            assert!(rt; is_right, "pieces of {size}: {text:?}");
        }
    }
    Ok(())
}

// The problem and its derivation have 117 bytes, which come in twelve pieces.
#[test]
fn a_source_that_fails_leaves_nothing_written(rt: HostRuntime) -> Result<(), Fail> {
    let pair = (TWO_BOXES, b" dead 1 qed".as_slice());
    for call in 1..13 {
        let failing = [call];
        let outside: Outside<'_> = ((10, &failing), (4096, &[]));
        let fault = (Status::ReadFault, b"".as_slice());
        assert!(rt; checks(rt.alloc(), pair, outside, fault)?, "call {call}");
    }
    Ok(())
}

#[test]
fn a_sink_that_fails_has_a_front_part(rt: HostRuntime) -> Result<(), Fail> {
    let pair = (TWO_BOXES, b" dead 1 qed".as_slice());
    for (call, front) in [
        (1, b"".as_slice()),
        (2, b"n"),
        (3, b"no"),
        (4, b"no "),
        (5, b"no 1"),
    ] {
        let failing = [call];
        let outside: Outside<'_> = ((4096, &[]), (1, &failing));
        let fault = (Status::WriteFault, front);
        assert!(rt; checks(rt.alloc(), pair, outside, fault)?, "call {call}");
    }
    Ok(())
}

// Nodes inside each other, the last of which fails where another condition is named.
fn nested(alloc: Global, splits: usize, last: &[u8]) -> Result<Vec<u8>, AllocError> {
    let mut text = Vec::from_slice(alloc, b"\n")?;
    for _ in 0..splits {
        text.extend_from_slice(b"split a 1 upto 9\n")?;
    }
    for _ in 0..splits {
        text.extend_from_slice(b"dead 1\n")?;
    }
    text.extend_from_slice(last)?;
    text.extend_from_slice(b"qed\n")?;
    Ok(text)
}

const ONE_FALSE: &[u8] =
    b"geost 1 dims 1 shape s box 0 size 1 ; object a as s at 0..9 ; rule r : false ; end";

#[test]
fn a_hundred_thousand_splits_inside_each_other(rt: HostRuntime) -> Result<(), Fail> {
    let alloc = rt.alloc();
    let right = nested(alloc, 100_000, b"dead 1\n")?;
    let wrong = nested(alloc, 100_000, b"dead 2\n")?;
    let yes = (Status::Answered, b"yes\n".as_slice());
    let no = (Status::No, b"no 200001\n".as_slice());
    assert!(rt; checks(alloc, (ONE_FALSE, right.as_slice()), CLEAN, yes)?);
    assert!(rt; checks(alloc, (ONE_FALSE, wrong.as_slice()), CLEAN, no)?);
    Ok(())
}
