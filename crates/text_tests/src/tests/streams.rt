//! Sources and sinks over std, and a source that never fails.

use geo_chan::{CleanSource, PutFault, Sink, Source, StdSink, StdSource, write_all_bytes};
use std::io::{self, Read, Write};
use std::test::Fail;

/// A reader and a writer that fail at every third call and move at most two bytes in any other.
#[derive(Drop)]
struct Halting<T> {
    inner: T,
    calls: u8,
}

impl<T> Halting<T> {
    fn turn(&mut self, len: usize) -> io::Result<usize> {
        self.calls = self.calls % 3 + 1;
        if self.calls == 3 {
            return Err(io::Error::from(io::ErrorKind::Interrupted));
        }
        Ok(len.min(2))
    }
}

impl<T: Read> Read for Halting<T> {
    fn read(&mut self, into: &mut [u8]) -> io::Result<usize> {
        let len = self.turn(into.len())?.min(into.len());
        self.inner.read(&mut into[..len])
    }
}

impl<T: Write> Write for Halting<T> {
    fn write(&mut self, piece: &[u8]) -> io::Result<usize> {
        let len = self.turn(piece.len())?.min(piece.len());
        self.inner.write(&piece[..len])
    }

    fn flush(&mut self) -> io::Result<()> {
        Ok(())
    }
}

/// Whether calls give these numbers of bytes, or none where they fail, and leave these bytes in the
/// buffer.
fn gives<S: Source>(source: &mut S, into: &mut [u8], rows: &[(Option<usize>, &[u8])]) -> bool {
    for (count, wanted) in rows {
        let found = source.take(into).ok();
        if found != *count || &*into != *wanted {
            return false;
        }
    }
    true
}

#[test]
fn each_error_of_a_reader_is_a_fault(rt: HostRuntime) {
    let inner = Halting {
        inner: b"abcdef".as_slice(),
        calls: 0,
    };
    let rows: &[(Option<usize>, &[u8])] = &[
        (Some(2), b"ab.."),
        (Some(2), b"cd.."),
        (None, b"cd.."),
        (Some(2), b"ef.."),
        (Some(0), b"ef.."),
        (None, b"ef.."),
    ];
    assert!(rt; gives(&mut StdSource::new(inner), &mut [b'.'; 4], rows));
}

#[test]
fn a_clean_source_gives_its_bytes(rt: HostRuntime) -> Result<(), Fail> {
    let mut source = CleanSource::new(Vec::from_slice(rt.alloc(), b"abc")?);
    let rows: &[(Option<usize>, &[u8])] = &[(Some(2), b"ab"), (Some(1), b"cb"), (Some(0), b"cb")];
    assert!(rt; gives(&mut source, &mut [b'.'; 2], rows));
    Ok(())
}

/// Whether the pieces are written whole, where that is wanted, and fail otherwise, but not for want
/// of memory.
fn writes<W: Sink>(sink: &mut W, rows: &[(&[u8], bool)]) -> bool {
    for (piece, wanted) in rows {
        let done = match write_all_bytes(sink, piece) {
            Ok(()) => true,
            Err(PutFault::Failed) => false,
            Err(PutFault::Memory) => return false,
        };
        if done != *wanted {
            return false;
        }
    }
    true
}

/// Writes into a halting writer over this room, once past its fault.
fn writes_past_a_fault(room: &mut [u8]) -> bool {
    let mut sink = StdSink::new(Halting {
        inner: room,
        calls: 0,
    });
    writes(
        &mut sink,
        &[(b"abc", true), (b"def", false), (b"def", true)],
    )
}

#[test]
fn a_short_or_failing_write_loses_nothing(rt: HostRuntime) {
    let mut room = [b'.'; 6];
    assert!(rt; writes_past_a_fault(&mut room) && room.as_slice() == b"abcdef".as_slice());
}

#[test]
fn a_writer_that_takes_nothing_is_a_fault(rt: HostRuntime) {
    let mut room = [b'.'; 3];
    assert!(rt; writes(&mut StdSink::new(room.as_mut_slice()), &[(b"abcd", false)]));
}
