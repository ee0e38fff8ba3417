//! What is written into a sink that has taken all its memory beforehand.
use crate::answers::{TWO_BOXES, words};
use geo_chan::{CleanSource, RoomSink};
use geost_run::{Status, run};
use std::alloc::{AllocError, Global};
use std::test::Fail;

const SIX: &[u8] =
    b"layout\na as s at 0\nb as s at 2\ntoken 1,0/1,2\nlayout\na as s at 0\nb as s at 3\ntoken 1,0/1,3\nlayout\na as s at 1\nb as s at 3\ntoken 1,1/1,3\nlayout\na as s at 2\nb as s at 0\ntoken 1,2/1,0\nlayout\na as s at 3\nb as s at 0\ntoken 1,3/1,0\nlayout\na as s at 3\nb as s at 1\ntoken 1,3/1,1\nmore\n";

// Whether the words on two boxes end so, with this text written into so much room.
fn ends(
    alloc: Global,
    list: &[&str],
    room: usize,
    (status, text): (Status, &[u8]),
) -> Result<bool, AllocError> {
    let words = words(alloc, list)?;
    let mut source = CleanSource::new(Vec::from_slice(alloc, TWO_BOXES)?);
    let mut sink = RoomSink::start(alloc, room)?;
    let ended = run(alloc, &words, &mut source, &mut sink);
    Ok(ended == status && sink.bytes() == text)
}

#[test]
fn a_sink_is_filled_up_to_its_room(rt: HostRuntime) -> Result<(), Fail> {
    let all: &[&str] = &["all", "6", "100"];
    let bad: &[&str] = &["first", "0"];
    let rows: &[(&[&str], usize, Status, &[u8])] = &[
        (all, 1000, Status::Answered, SIX),
        (all, SIX.len(), Status::Answered, SIX),
        (all, 3, Status::WriteFault, b"lay"),
        (all, 0, Status::WriteFault, b""),
        (bad, 10, Status::BadWords, b"bad words\n"),
        (bad, 9, Status::WriteFault, b"bad words"),
    ];
    for (list, room, status, text) in rows {
        let is_right = ends(rt.alloc(), list, *room, (*status, text))?;
        assert!(rt; is_right, "{list:?} in {room} bytes");
    }
    Ok(())
}
