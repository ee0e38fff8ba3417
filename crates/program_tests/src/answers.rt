//! What words and an input are answered with, against texts that were worked out by hand.
use crate::listing::{COUNTS, PAGES, TOKENS};
use crate::making::{BUDGET, FORMS, SEEDS};
use crate::reach::{BEST, BEST_CHECKS, CORES, LOADS, WORDS};
use geo_chan::{CleanSink, CleanSource, Source};
use geost_run::{Status, run};
use std::alloc::{AllocError, Global};
use std::test::Fail;

// Words and an input, with the status and the text.
pub type Row = (
    &'static [&'static str],
    &'static [u8],
    Status,
    &'static [u8],
);

// Two boxes of size 2 on the cells 0 to 4.
pub const TWO_BOXES: &[u8] =
    b"geost 1 dims 1 shape s box 0 size 2 ; object a as s at 0..3 ; object b as s at 0..3 ; rule r : apart ; end";

pub const FIRST_OF_TWO_BOXES: &[u8] = b"layout\na as s at 0\nb as s at 2\ntoken 1,0/1,2\n";

pub fn words(alloc: Global, list: &[&str]) -> Result<Vec<String>, AllocError> {
    let mut all = Vec::new(alloc);
    for word in list {
        all.push(String::from_str(alloc, word)?)?;
    }
    Ok(all)
}

// The status and the text that the words have for an input.
pub fn asked(alloc: Global, list: &[&str], input: &[u8]) -> Result<(Status, Vec<u8>), AllocError> {
    let words = words(alloc, list)?;
    let mut source = CleanSource::new(Vec::from_slice(alloc, input)?);
    let mut sink = CleanSink::new(alloc);
    let ended = run(alloc, &words, &mut source, &mut sink);
    Ok((ended, Vec::from_slice(alloc, sink.bytes())?))
}

// Whether the words have that status and that text for an input, and leave so many of its first 200
// bytes, where that is asked.
fn answers(
    alloc: Global,
    (list, input): (&[&str], &[u8]),
    (status, text): (Status, &[u8]),
    left: Option<usize>,
) -> Result<bool, AllocError> {
    let words = words(alloc, list)?;
    let mut source = CleanSource::new(Vec::from_slice(alloc, input)?);
    let mut sink = CleanSink::new(alloc);
    let ended = run(alloc, &words, &mut source, &mut sink);
    let rest = source.take(&mut [0; 200]).unwrap_or(0);
    Ok(ended == status && sink.bytes() == text && left.unwrap_or(rest) == rest)
}

const TWO_SHAPES: &[u8] =
    b"geost 1 dims 2 shape flat box 0 0 size 2 1 ; shape tall box 0 0 size 1 2 ; object a as flat, tall at 0..5 0..5 ; rule w : within 0..0 0..9 ; end";

pub const FROM_ABOVE: &[u8] =
    b"geost 1 dims 1 shape s box 0 size 2 ; object a as s at 0..3 ; object b as s at 0..3 ; sides high ; rule r : apart ; end";

const FORMULA: &[u8] =
    b"geost 1 dims 1 shape s box 0 size 1 ; object a as s at 0..9 ; rule r : a.x1 > 3 ; end";

pub const FITTING: &[u8] =
    b"geost 1 dims 1 shape s box 0 size 2 ; object a as s at 0..3 ; object b as s at 0..3 ; rule r : apart ; end layout a as s at 0 b as s at 2";

pub const OVERLAPPING: &[u8] =
    b"geost 1 dims 1 shape s box 0 size 2 ; object a as s at 0..3 ; object b as s at 0..3 ; rule r : apart ; end layout a as s at 0 b as s at 1";

pub const OUTSIDE: &[u8] =
    b"geost 1 dims 1 shape s box 0 size 2 ; object a as s at 0..3 ; object b as s at 0..3 ; rule r : apart ; end layout a as s at 0 b as s at 4";

// A million cells and one from the first to the last.
const FAR: &[u8] =
    b"geost 1 dims 1 shape s box 0 size 1 ; object a as s at 0..9 ; object b as s at 0..1000000 ; end layout a as s at 0 b as s at 1000000";

const LAYERS: &[u8] =
    b"geost 1 dims 3 shape u box 0 0 0 size 1 1 1 ; shape v box 0 0 0 size 2 1 2 ; object a as u at -9..9 -9..9 -9..9 ; object b as v at -9..9 -9..9 -9..9 ; end layout a as u at 0 1 -1 b as v at 0 0 0";

pub const KIND: &[u8] =
    b"geost 1 dims 1 shape s box 0 size 1 ; object a as s at 0..9 ; rule r : 3 < a ; end";

const PRODUCT: &[u8] =
    b"geost 1 dims 1 shape s box 0 size 1 ; object a as s at 0..9 ; rule r : a.x1 * 0 * a.x1 <= 4 ; end";

/// Two boxes, one of which may stand at 0, 1, 5 or 6.
pub const HOLE: &[u8] =
    b"geost 2 dims 1 shape s box 0 size 2 ; object a as s at 0..1,5..6 ; object b as s at 0..1 ; rule r : apart ; end";

const IN_THE_HOLE: &[u8] =
    b"geost 2 dims 1 shape s box 0 size 2 ; object a as s at 0..1,5..6 ; object b as s at 0..1 ; rule r : apart ; end layout a as s at 2 b as s at 0";

pub const SIX_DIMENSIONS: &[u8] =
    b"geost 2 dims 6 shape u box 0 0 0 0 0 0 size 1 1 1 1 1 1 ; object a as u at 0..1 0..1 0..1 0..1 0..1 0..1 ; object b as u at 0..1 0..1 0..1 0..1 0..1 0..1 ; rule r : apart ; end";

const ROWS: &[Row] = &[
    (
        &["first", "4"],
        TWO_BOXES,
        Status::Answered,
        FIRST_OF_TWO_BOXES,
    ),
    (&["first", "3"], TWO_BOXES, Status::Budget, b"budget 3\n"),
    (&["first", "1"], b"", Status::Refused, b"refused 0 syntax\n"),
    (
        &["first", "3"],
        TWO_SHAPES,
        Status::Answered,
        b"layout\na as tall at 0 0\ntoken 2,0,0\n",
    ),
    (
        &["first", "4"],
        FROM_ABOVE,
        Status::Answered,
        b"layout\na as s at 3\nb as s at 1\ntoken 1,3/1,1\n",
    ),
    (&["first", "1"], FORMULA, Status::Budget, b"budget 1\n"),
    (
        &["first", "2"],
        FORMULA,
        Status::Answered,
        b"layout\na as s at 4\ntoken 1,4\n",
    ),
    (
        &["show"],
        TWO_BOXES,
        Status::Answered,
        b"geost 1 dims 1\nshape s box 0 size 2 ;\nobject a as s at 0..3 ;\nobject b as s at 0..3 ;\nrule r : apart ;\nend\n",
    ),
    (&["judge"], FITTING, Status::Answered, b"good\n"),
    (&["judge"], OVERLAPPING, Status::No, b"broken r\n"),
    (&["judge"], OUTSIDE, Status::Refused, b"refused 136 range\n"),
    (&["draw"], FITTING, Status::Answered, b"box 0..3\naabb\n"),
    (&["draw"], OVERLAPPING, Status::Answered, b"box 0..2\na#b\n"),
    (
        &["draw"],
        LAYERS,
        Status::Answered,
        b"box 0..1 0..1 -1..1\nlayer -1\na.\n..\nlayer 0\n..\nbb\nlayer 1\n..\nbb\n",
    ),
    (&["draw"], FAR, Status::No, b"large\n"),
    (&["draw"], OUTSIDE, Status::Refused, b"refused 136 range\n"),
    (
        &["first", "4"],
        HOLE,
        Status::Answered,
        b"layout\na as s at 5\nb as s at 0\ntoken 1,5/1,0\n",
    ),
    (&["first", "3"], HOLE, Status::Budget, b"budget 3\n"),
    (
        &["show"],
        HOLE,
        Status::Answered,
        b"geost 2 dims 1\nshape s box 0 size 2 ;\nobject a as s at 0..1, 5..6 ;\nobject b as s at 0..1 ;\nrule r : apart ;\nend\n",
    ),
    (
        &["judge"],
        IN_THE_HOLE,
        Status::Refused,
        b"refused 129 range\n",
    ),
    (
        &["first", "14"],
        SIX_DIMENSIONS,
        Status::Answered,
        b"layout\na as u at 0 0 0 0 0 0\nb as u at 0 0 0 0 0 1\ntoken 1,0,0,0,0,0,0/1,0,0,0,0,0,1\n",
    ),
    (
        &["first", "13"],
        SIX_DIMENSIONS,
        Status::Budget,
        b"budget 13\n",
    ),
];

// Each command refuses a wrong rule.
const WRONG_RULES: &[Row] = &[
    (&["first", "1"], KIND, Status::Refused, b"refused 75 kind\n"),
    (
        &["first", "1"],
        PRODUCT,
        Status::Refused,
        b"refused 67 product\n",
    ),
    (&["show"], KIND, Status::Refused, b"refused 75 kind\n"),
    (&["show"], PRODUCT, Status::Refused, b"refused 67 product\n"),
    (&["judge"], KIND, Status::Refused, b"refused 75 kind\n"),
    (
        &["judge"],
        PRODUCT,
        Status::Refused,
        b"refused 67 product\n",
    ),
    (&["draw"], KIND, Status::Refused, b"refused 75 kind\n"),
    (&["draw"], PRODUCT, Status::Refused, b"refused 67 product\n"),
];

const BAD_WORDS: &[&[&str]] = &[
    &["first", "0"],
    &["first", "01"],
    &["first", "x"],
    &["first"],
    &[],
];

// The first words that have another answer than their row says.
fn wrong_words(
    alloc: Global,
    rows: &'static [Row],
) -> Result<Option<&'static [&'static str]>, AllocError> {
    for (list, input, status, text) in rows {
        if !answers(alloc, (list, input), (*status, text), None)? {
            return Ok(Some(list));
        }
    }
    Ok(None)
}

// The first words that have another answer than this one, or for which something of the input is
// taken.
fn wrong_list(
    alloc: Global,
    lists: &'static [&'static [&'static str]],
    (status, text): (Status, &[u8]),
) -> Result<Option<&'static [&'static str]>, AllocError> {
    let left = Some(TWO_BOXES.len());
    for list in lists {
        if !answers(alloc, (list, TWO_BOXES), (status, text), left)? {
            return Ok(Some(list));
        }
    }
    Ok(None)
}

#[test]
fn words_have_their_answers(rt: HostRuntime) -> Result<(), Fail> {
    for rows in [
        ROWS,
        WRONG_RULES,
        PAGES,
        TOKENS,
        BEST,
        BEST_CHECKS,
        LOADS,
        CORES,
    ] {
        let wrong = wrong_words(rt.alloc(), rows)?;
        assert!(rt; wrong.is_none(), "{wrong:?}");
    }
    Ok(())
}

#[test]
fn nothing_is_taken_for_words_of_no_form_and_by_make(rt: HostRuntime) -> Result<(), Fail> {
    let bad: (Status, &[u8]) = (Status::BadWords, b"bad words\n");
    let budget: (Status, &[u8]) = (Status::Budget, BUDGET);
    for (lists, answer) in [
        (BAD_WORDS, bad),
        (COUNTS, bad),
        (FORMS, bad),
        (WORDS, bad),
        (SEEDS, budget),
    ] {
        let wrong = wrong_list(rt.alloc(), lists, answer)?;
        assert!(rt; wrong.is_none(), "{wrong:?}");
    }
    Ok(())
}
