//! What is answered about least ends, rules that refuse together and orders of loading.
use crate::answers::{
    FIRST_OF_TWO_BOXES, FITTING, FROM_ABOVE, KIND, OUTSIDE, OVERLAPPING, Row, SIX_DIMENSIONS,
    TWO_BOXES, asked,
};
use crate::checking::{CHAIN, FALSE, NARROW};
use geost_run::Status;
use std::alloc::{AllocError, Global};
use std::test::Fail;

// The name of the first object is given twice, at place 69.
const TWICE: &[u8] =
    b"geost 1 dims 1 shape s box 0 size 2 ; object a as s at 0..3 ; object a as s at 0..3 ; rule r : apart ; end";

// A box that has to be absent, since its range ends before 5.
const NO_BOX: &[u8] =
    b"geost 2 dims 1 shape s box 0 size 2 ; object a as s, absent at 0..1 ; rule q : forall p in objects : p.x1 >= 5 ; end";

pub const BEST: &[Row] = &[
    (
        &["best", "1", "3"],
        TWO_BOXES,
        Status::Budget,
        b"budget 3\n",
    ),
    (
        &["best", "2", "4"],
        TWO_BOXES,
        Status::BadDimension,
        b"bad dimension\n",
    ),
    (
        &["best", "1", "100"],
        NO_BOX,
        Status::Answered,
        b"best -\nlayout\na absent\ntoken 2,0\n",
    ),
    (
        &["best", "1", "1"],
        FALSE,
        Status::No,
        b"none\ndead 1\nqed\n",
    ),
    // a refusal comes before the dimension
    (
        &["best", "2", "4"],
        TWICE,
        Status::Refused,
        b"refused 69 twice\n",
    ),
    (
        &["best", "1", "1"],
        KIND,
        Status::Refused,
        b"refused 75 kind\n",
    ),
];

// The first condition is that of the rule, and the caps of both boxes stand behind it.
const CAPPED: &[u8] =
    b"geost 1 dims 1 shape s box 0 size 2 ; object a as s at 0..3 ; object b as s at 0..3 ; rule r : apart ; end lower a 1 1 [ s by 2 ] lower b 1 1 [ s by 3 ] dead 1 qed";

// The rule alone is possible.
const RULE_IS_DEAD: &[u8] =
    b"geost 1 dims 1 shape s box 0 size 2 ; object a as s at 0..3 ; object b as s at 0..3 ; rule r : apart ; end dead 1 qed";

const CAP_IS_DEAD: &[u8] =
    b"geost 1 dims 1 shape s box 0 size 2 ; object a as s at 0..3 ; object b as s at 0..3 ; rule r : apart ; end dead 2 qed";

const NO_NUMBER: &[u8] =
    b"geost 1 dims 1 shape s box 0 size 2 ; object a as s at 0..3 ; object b as s at 0..3 ; rule r : apart ; end dead x qed";

const NO_TOKENS: &[u8] =
    b"geost 1 dims 1 shape s box 0 size 2 ; object a as s at 0..3 ; object b as s at 0..3 ; rule r : apart ; end ? ? ?";

// One cap for the first shape, and two for the boxes of the second one.
const TWO_SHAPES: &[u8] =
    b"geost 1 dims 1 shape s box 0 size 3 ; shape t box 0 size 2 box 1 size 1 ; object a as s, t at 0..5 ; end drop a s by 1 lower a 1 -1 [ t by 2 ] gone a [ t by 99 ] qed";

// To end by -9 it would have to begin at -10.
const BELOW_ZERO: &[u8] =
    b"geost 1 dims 1 shape s box 0 size 1 ; object a as s at -9..9 ; rule r : a.x1 >= -9 ; end lower a 1 -10 [ s by 2 ] gone a [ s by 7 ] qed";

pub const BEST_CHECKS: &[Row] = &[
    (
        &["check_best", "1", "4"],
        CAPPED,
        Status::Answered,
        b"yes\n",
    ),
    // a layout ends at 4
    (&["check_best", "1", "5"], CAPPED, Status::No, b"no 1\n"),
    (
        &["check_best", "1", "4"],
        RULE_IS_DEAD,
        Status::No,
        b"no 1\n",
    ),
    (
        &["check_best", "1", "2"],
        TWO_SHAPES,
        Status::Answered,
        b"yes\n",
    ),
    (
        &["check_best", "1", "-8"],
        BELOW_ZERO,
        Status::Answered,
        b"yes\n",
    ),
    (
        &["check_best", "1", "-2000000"],
        CAP_IS_DEAD,
        Status::Answered,
        b"yes\n",
    ),
    (
        &["check_best", "1", "3000000"],
        CAP_IS_DEAD,
        Status::No,
        b"no 1\n",
    ),
    (
        &["check_best", "1", "4"],
        NO_NUMBER,
        Status::Refused,
        b"refused 112 syntax\n",
    ),
    // the dimension comes before the derivation, and a refusal of the problem before both
    (
        &["check_best", "2", "4"],
        NO_TOKENS,
        Status::BadDimension,
        b"bad dimension\n",
    ),
    (
        &["check_best", "2", "4"],
        TWICE,
        Status::Refused,
        b"refused 69 twice\n",
    ),
];

const RIGHT_THEN_LEFT: &[u8] =
    b"geost 1 dims 1 shape s box 0 size 2 ; object a as s at 0..3 ; object b as s at 0..3 ; rule r : apart ; end layout a as s at 2 b as s at 0";

// Two diagonals that cross, and have no cell in common.
const DIAGONALS: &[u8] =
    b"geost 1 dims 2 shape d box 0 1 size 1 1 box 1 0 size 1 1 ; shape e box 0 0 size 1 1 box 1 1 size 1 1 ; object a as d at 0..0 0..0 ; object b as e at 0..0 0..0 ; rule r : apart ; end layout a as d at 0 0 b as e at 0 0";

// The first cell stands over a lid, the second under it, and the last one beside both.
const LID: &[u8] =
    b"geost 1 dims 2 shape u box 0 0 size 1 1 ; shape w box 0 0 size 3 1 ; object a as u at 0..9 0..9 ; object b as u at 0..9 0..9 ; object c as w at 0..9 0..9 ; object d as u at 0..9 0..9 ; end layout a as u at 0 5 b as u at 2 0 c as w at 0 3 d as u at 5 9";

const ABSENT: &[u8] =
    b"geost 2 dims 1 shape s box 0 size 2 ; object a as s, absent at 0..1 ; end layout a absent";

pub const LOADS: &[Row] = &[
    (&["load", "1"], FITTING, Status::Answered, b"order\na\nb\n"),
    (
        &["load", "1"],
        RIGHT_THEN_LEFT,
        Status::Answered,
        b"order\nb\na\n",
    ),
    // no rule has to hold
    (&["load", "1"], OVERLAPPING, Status::No, b"cycle\na\nb\n"),
    (&["judge"], DIAGONALS, Status::Answered, b"good\n"),
    (&["load", "1"], DIAGONALS, Status::No, b"cycle\na\nb\n"),
    (&["load", "2"], DIAGONALS, Status::No, b"cycle\na\nb\n"),
    (
        &["load", "2"],
        LID,
        Status::Answered,
        b"order\nb\nc\na\nd\n",
    ),
    (
        &["load", "1"],
        LID,
        Status::Answered,
        b"order\na\nb\nc\nd\n",
    ),
    (&["load", "1"], ABSENT, Status::Answered, b"order\n"),
    (
        &["load", "1"],
        OUTSIDE,
        Status::Refused,
        b"refused 136 range\n",
    ),
    // the dimension comes before the layout, and a refusal of the problem before both
    (
        &["load", "2"],
        NO_TOKENS,
        Status::BadDimension,
        b"bad dimension\n",
    ),
    (
        &["load", "2"],
        TWICE,
        Status::Refused,
        b"refused 69 twice\n",
    ),
];

pub const CORES: &[Row] = &[
    (&["why", "4"], TWO_BOXES, Status::No, FIRST_OF_TWO_BOXES),
    (&["why", "3"], TWO_BOXES, Status::Budget, b"budget 3\n"),
    // without the second rule the walk has six members
    (&["why", "5"], CHAIN, Status::Budget, b"budget 5\n"),
    (
        &["why", "9"],
        b"geost 1 dims 1 shape u box 0 size 1 ; object a as u at 2..9 ; end",
        Status::No,
        b"layout\na as u at 2\ntoken 1,2\n",
    ),
    (
        &["why", "1"],
        FALSE,
        Status::Answered,
        b"core 1\nrule f\nwithout f\nlayout\ntoken -\nnone\ndead 1\nqed\n",
    ),
    (&["why", "4"], TWICE, Status::Refused, b"refused 69 twice\n"),
];

// Numbers that are past their bounds or have another spelling, and words that are too few or too
// many.
pub const WORDS: &[&[&str]] = &[
    &["best"],
    &["best", "1"],
    &["best", "0", "4"],
    &["best", "7", "1"],
    &["best", "01", "4"],
    &["best", "1", "0"],
    &["best", "1", "1000000000001"],
    &["best", "1", "4", "4"],
    &["check_best", "1"],
    &["check_best", "7", "4"],
    &["check_best", "1", "-0"],
    &["check_best", "1", "-04"],
    &["check_best", "1", "-"],
    &["check_best", "1", "+4"],
    &["check_best", "1", "-2000001"],
    &["check_best", "1", "3000001"],
    &["load"],
    &["load", "0"],
    &["load", "7"],
    &["load", "01"],
    &["load", "1", "1"],
    &["why"],
    &["why", "0"],
    &["why", "04"],
    &["why", "4", "4"],
    &["why", "1000000000001"],
];

// Words and a problem, with the status, what stands in front of the derivation, and the words of
// its check.
type Shown = (
    &'static [&'static str],
    &'static [u8],
    Status,
    &'static [u8],
    &'static [&'static str],
);

const SHOWN: &[Shown] = &[
    (
        &["best", "1", "4"],
        TWO_BOXES,
        Status::Answered,
        b"best 4\nlayout\na as s at 0\nb as s at 2\ntoken 1,0/1,2\n",
        &["check_best", "1", "4"],
    ),
    (
        &["best", "1", "100"],
        FROM_ABOVE,
        Status::Answered,
        b"best 4\nlayout\na as s at 2\nb as s at 0\ntoken 1,2/1,0\n",
        &["check_best", "1", "4"],
    ),
    // the second object leaves the sixth dimension for the fifth
    (
        &["best", "6", "14"],
        SIX_DIMENSIONS,
        Status::Answered,
        b"best 1\nlayout\na as u at 0 0 0 0 0 0\nb as u at 0 0 0 0 1 0\ntoken 1,0,0,0,0,0,0/1,0,0,0,0,1,0\n",
        &["check_best", "6", "1"],
    ),
    (&["best", "1", "10"], NARROW, Status::No, b"", &["check"]),
    (
        &["why", "6"],
        CHAIN,
        Status::Answered,
        b"core 2\nrule p\nrule q\nwithout p\nlayout\na as u at 4\nb as u at 0\nc as u at 1\ntoken 1,4/1,0/1,1\nwithout q\nlayout\na as u at 4\nb as u at 5\nc as u at 0\ntoken 1,4/1,5/1,0\n",
        &["check"],
    ),
];

// Whether `none` and a derivation stand behind those lines, and the check says yes to them behind
// the problem and a line feed.
fn is_shown(alloc: Global, row: &Shown) -> Result<bool, AllocError> {
    let (list, problem, status, head, check) = row;
    let (ended, text) = asked(alloc, list, problem)?;
    let (front, rest) = text.split_at(head.len().min(text.len()));
    let mut both = Vec::from_slice(alloc, problem)?;
    both.extend_from_slice(b"\n")?;
    both.extend_from_slice(rest)?;
    let (verdict, said) = asked(alloc, check, &both)?;
    let is_none = ended == *status && front == *head && rest.starts_with(b"none\n");
    Ok(is_none && verdict == Status::Answered && said.as_slice() == b"yes\n".as_slice())
}

#[test]
fn derivations_are_checked_by_other_words(rt: HostRuntime) -> Result<(), Fail> {
    for row in SHOWN {
        assert!(rt; is_shown(rt.alloc(), row)?, "{:?}", row.0);
    }
    Ok(())
}
