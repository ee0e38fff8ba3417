//! What `all` writes, page by page. The six layouts of the two boxes were listed by hand.
use crate::answers::{FIRST_OF_TWO_BOXES, HOLE, Row, TWO_BOXES};
use crate::ends::{Outside, ends};
use geost_run::Status;
use std::test::Fail;

const TWO: &[u8] =
    b"layout\na as s at 0\nb as s at 2\ntoken 1,0/1,2\nlayout\na as s at 0\nb as s at 3\ntoken 1,0/1,3\nmore\n";

const NEXT_TWO: &[u8] =
    b"layout\na as s at 1\nb as s at 3\ntoken 1,1/1,3\nlayout\na as s at 2\nb as s at 0\ntoken 1,2/1,0\nmore\n";

const LAST: &[u8] = b"layout\na as s at 3\nb as s at 1\ntoken 1,3/1,1\nend\n";

const ONE_WITHIN_FOUR: &[u8] = b"layout\na as s at 0\nb as s at 2\ntoken 1,0/1,2\nbudget 4\n";

pub const PAGES: &[Row] = &[
    (
        &["all", "1", "100", "1,5/1,0"],
        HOLE,
        Status::Answered,
        b"layout\na as s at 5\nb as s at 1\ntoken 1,5/1,1\nmore\n",
    ),
    (
        &["all", "1", "100", "1,2/1,0"],
        HOLE,
        Status::BadToken,
        b"bad token\n",
    ),
    (&["all", "2", "5"], TWO_BOXES, Status::Answered, TWO),
    (
        &["all", "2", "4"],
        TWO_BOXES,
        Status::Budget,
        ONE_WITHIN_FOUR,
    ),
    (
        &["all", "2", "100", "1,0/1,3"],
        TWO_BOXES,
        Status::Answered,
        NEXT_TWO,
    ),
    (
        &["all", "2", "100", "1,3/1,0"],
        TWO_BOXES,
        Status::Answered,
        LAST,
    ),
    (
        &["all", "1", "100", "1,3/1,1"],
        TWO_BOXES,
        Status::Answered,
        b"end\n",
    ),
    (
        &["all", "1", "1", "-"],
        b"geost 1 dims 1 end",
        Status::Answered,
        b"end\n",
    ),
];

// A token has one spelling.
pub const TOKENS: &[Row] = &[
    (
        &["all", "2", "100", "1,00/1,2"],
        TWO_BOXES,
        Status::BadToken,
        b"bad token\n",
    ),
    (
        &["all", "2", "100", "1,0/1,4"],
        TWO_BOXES,
        Status::BadToken,
        b"bad token\n",
    ),
    (
        &["all", "2", "100", "1,0"],
        TWO_BOXES,
        Status::BadToken,
        b"bad token\n",
    ),
    (
        &["all", "2", "100", "2,0/1,2"],
        TWO_BOXES,
        Status::BadToken,
        b"bad token\n",
    ),
    (
        &["all", "2", "100", "1,0/1,2/1,3"],
        TWO_BOXES,
        Status::BadToken,
        b"bad token\n",
    ),
    (
        &["all", "2", "100", "-"],
        TWO_BOXES,
        Status::BadToken,
        b"bad token\n",
    ),
    (
        &["all", "2", "100", ""],
        TWO_BOXES,
        Status::BadToken,
        b"bad token\n",
    ),
    (
        &["all", "2", "100", " 1,0/1,2"],
        TWO_BOXES,
        Status::BadToken,
        b"bad token\n",
    ),
    (
        &["all", "2", "100", "1,00"],
        b"geost 1",
        Status::Refused,
        b"refused 7 syntax\n",
    ),
];

// Counts that are past their bounds, and words that are too few or too many.
pub const COUNTS: &[&[&str]] = &[
    &["all"],
    &["all", "2"],
    &["all", "0", "5"],
    &["all", "1000001", "5"],
    &["all", "02", "5"],
    &["all", "2", "0"],
    &["all", "2", "1000000000001"],
    &["all", "2", "5", "-", "-"],
];

// The sink takes one byte at a time. A fault in the first block, at its end, in the second block
// and in the last line leaves what was written before.
#[test]
fn a_fault_leaves_a_front_part(rt: HostRuntime) -> Result<(), Fail> {
    let first = FIRST_OF_TWO_BOXES.len();
    for written in [1, 20, first, first + 9, TWO.len() - 1] {
        let asked = (["all", "2", "5"].as_slice(), TWO_BOXES);
        let failing = [written as u64 + 1];
        let outside: Outside<'_> = ((4096, &[]), (1, &failing));
        let fault = (Status::WriteFault, &TWO[..written]);
        assert!(rt; ends(rt.alloc(), asked, outside, fault)?, "{written}");
    }
    Ok(())
}
