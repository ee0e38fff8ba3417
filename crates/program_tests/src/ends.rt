//! How a run ends where the outside fails, and that the size of pieces makes no difference.
use crate::answers::{FIRST_OF_TWO_BOXES, TWO_BOXES, words};
use geo_chan::{MemSink, MemSource};
use geost_run::{Status, run};
use std::alloc::{AllocError, Global};
use std::test::Fail;

// What is asked of a run: the greatest piece and the calls that fail, of the source and of the
// sink.
pub type Outside<'a> = ((usize, &'a [u64]), (usize, &'a [u64]));

// Whether the words end so for an input and have this text written.
pub fn ends(
    alloc: Global,
    (list, input): (&[&str], &[u8]),
    (from, to): Outside<'_>,
    (status, text): (Status, &[u8]),
) -> Result<bool, AllocError> {
    let words = words(alloc, list)?;
    let input = Vec::from_slice(alloc, input)?;
    let mut source = MemSource::new(input, from.0.max(1), Vec::from_slice(alloc, from.1)?);
    let mut sink = MemSink::new(alloc, to.0.max(1), Vec::from_slice(alloc, to.1)?);
    let ended = run(alloc, &words, &mut source, &mut sink);
    Ok(ended == status && sink.bytes() == text)
}

// The second call of the source fails; the third or the first call of a sink that takes a byte at a
// time; and no call, with pieces of every size on both sides.
const ROWS: &[(Outside<'_>, Status, &[u8])] = &[
    (((50, &[2]), (4096, &[])), Status::ReadFault, b""),
    (((100, &[2]), (4096, &[])), Status::ReadFault, b""),
    (((4096, &[]), (1, &[3])), Status::WriteFault, b"la"),
    (((4096, &[]), (1, &[1])), Status::WriteFault, b""),
    (((1, &[]), (1, &[])), Status::Answered, FIRST_OF_TWO_BOXES),
    (((2, &[]), (2, &[])), Status::Answered, FIRST_OF_TWO_BOXES),
    (((3, &[]), (3, &[])), Status::Answered, FIRST_OF_TWO_BOXES),
    (((7, &[]), (7, &[])), Status::Answered, FIRST_OF_TWO_BOXES),
    (((50, &[]), (50, &[])), Status::Answered, FIRST_OF_TWO_BOXES),
    (
        ((105, &[]), (105, &[])),
        Status::Answered,
        FIRST_OF_TWO_BOXES,
    ),
    (
        ((106, &[]), (106, &[])),
        Status::Answered,
        FIRST_OF_TWO_BOXES,
    ),
    (
        ((107, &[]), (107, &[])),
        Status::Answered,
        FIRST_OF_TWO_BOXES,
    ),
    (
        ((4096, &[]), (4096, &[])),
        Status::Answered,
        FIRST_OF_TWO_BOXES,
    ),
];

#[test]
fn a_run_ends_as_the_outside_has_it(rt: HostRuntime) -> Result<(), Fail> {
    for (outside, status, text) in ROWS {
        let asked = (["first", "4"].as_slice(), TWO_BOXES);
        let is_right = ends(rt.alloc(), asked, *outside, (*status, text))?;
        assert!(rt; is_right, "{outside:?}");
    }
    Ok(())
}
