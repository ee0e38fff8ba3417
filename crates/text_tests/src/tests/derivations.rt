//! Derivations that are read in pieces and printed, and their first faults.

use derivation::{Event, Log, Recorder};
use derivation_reading::{Feeder, read_derivation};
use derivation_text::{all_named, print_derivation};
use geo_chan::CleanSink;
use geo_conditions::ObjId;
use geo_tokens::fault::FaultWord::{self, Byte, Name, Number, Syntax, Unknown};
use geo_tokens::fault::TextFault;
use geo_tokens::names::Names;
use std::alloc::{AllocError, Global};
use std::test::Fail;

/// Two dimensions, and two objects, of which one has the name of a word of derivations.
fn table(alloc: Global) -> Result<Names, AllocError> {
    let mut names = Names::new(alloc, 2);
    names.add_shape(b"s")?;
    names.add_shape(b"t")?;
    names.add_object(b"a", &[0, 1])?;
    names.add_object(b"split", &[0])?;
    Ok(names)
}

/// The lines of the derivation that stands at the place 100 of an input and comes in pieces of this
/// size.
fn lines(alloc: Global, names: &Names, text: &[u8], size: usize) -> Result<Vec<u8>, TextFault> {
    let mut log = Log::new(alloc);
    let mut feeder = Feeder::start(alloc, names, 100);
    for piece in text.chunks(size.max(1)) {
        feeder.feed(piece, &mut log)?;
    }
    feeder.finish(&mut log)?;
    let mut sink = CleanSink::new(alloc);
    if all_named(names, log.events()) {
        print_derivation(names, &log, &mut sink).ok();
    }
    Ok(Vec::from_slice(alloc, sink.bytes())?)
}

const SIZES: &[usize] = &[1, 2, 7, 1000];

/// All kinds of nodes and covers.
const LINES: &[u8] =
    b"split a shape s\nsplit a 1 upto 4\nsplit a 2 from -3\ndrop a t\nby 1\nraise a 1 2 [\ns\ncut 1 3\nby 1\nby 2\n]\nlower split 2 7 [\ns\nfrom 2 -1\nby 3\nby 4\n]\ndead 5\ngone a [\ns\nby 1\nt\nby 2\n]\ndead 2\ndead 3\nqed\n";

/// The same derivation, spelled in another way.
const SPELLED: &[u8] =
    b" none split a shape s # the first case\nsplit a 01 upto 4 split a 2 from - 3 drop a t by 001 raise a 1 2[s cut 1 3 by 1 by 2]lower split 2 7[s from 2 -1 by 3 by 4]\tdead 5 gone a[s by 1 t by 2]dead 2\r\ndead 0003 qed ? not looked at";

/// Texts with their first fault, and its place in the text.
const FAULTS: &[(&[u8], u64, FaultWord)] = &[
    (b" by 1 qed", 1, Syntax),
    (b"", 0, Syntax),
    (b" split a 1 upto 0 dead 1", 24, Syntax),
    (b"dead 1", 6, Syntax),
    (b"dead - 1 qed", 5, Syntax),
    (b"dead 1 dead 1 qed", 7, Syntax),
    (b"split a 1 upto - - 1 dead 1 dead 1 qed", 17, Syntax),
    (b"raise a 3 1 [ s by 1 ] dead 1 qed", 8, Unknown),
    (b"split a 0 upto 1 dead 1 dead 1 qed", 8, Unknown),
    (b"gone b [ ] qed", 5, Unknown),
    (b"gone split [ t by 1 ] qed", 13, Unknown),
    (b"drop split t by 1 dead 1 qed", 11, Unknown),
    (b"gone b ? ] qed", 5, Unknown),
    (b"dead 1000000001 qed", 5, Number),
    (b"dead 1x qed", 5, Number),
    (b"dead 1 ? qed", 7, Byte),
    (b"dead 1 ! qed", 7, Byte),
    (
        b"dead 1 abcdefghijklmnopqrstuvwxyzabcdefghijklmno qed",
        7,
        Name,
    ),
    (b"dead 1 qed1 qed", 7, Syntax),
];

/// Whether a text has the lines of the two above, or its first fault.
fn is_right(read: Result<Vec<u8>, TextFault>, fault: Option<(u64, FaultWord)>) -> bool {
    match (read, fault) {
        (Ok(text), None) => text.as_slice() == LINES,
        (Err(TextFault::At(found, word)), Some((place, wanted))) => {
            found == place.saturating_add(100) && word == wanted
        }
        _ => false,
    }
}

/// Whether all texts are read right where they come in pieces of this size.
fn are_read(alloc: Global, names: &Names, size: usize) -> bool {
    for text in [LINES, SPELLED] {
        if !is_right(lines(alloc, names, text, size), None) {
            return false;
        }
    }
    for (text, place, word) in FAULTS {
        if !is_right(lines(alloc, names, text, size), Some((*place, *word))) {
            return false;
        }
    }
    true
}

/// The first size of pieces in which a text is read wrong.
fn wrong_size(alloc: Global) -> Result<Option<usize>, AllocError> {
    let names = table(alloc)?;
    for size in SIZES {
        if !are_read(alloc, &names, *size) {
            return Ok(Some(*size));
        }
    }
    Ok(None)
}

#[test]
fn derivations_are_read_in_any_pieces(rt: HostRuntime) -> Result<(), Fail> {
    let wrong = wrong_size(rt.alloc())?;
    assert!(rt; wrong.is_none(), "pieces of {wrong:?}");
    Ok(())
}

/// A hundred thousand splits of the first object inside each other, and the ends of their parts.
fn splits(alloc: Global) -> Result<Log, AllocError> {
    let mut log = Log::new(alloc);
    for i in 0..200_001u32 {
        log.add(if i < 100_000 {
            Event::SplitUpto(ObjId(0), 1, 4)
        } else {
            Event::Dead(1)
        })?;
    }
    Ok(log)
}

/// The lines of these.
fn lines_of_splits(alloc: Global) -> Result<Vec<u8>, AllocError> {
    let mut text = Vec::new(alloc);
    for i in 0..200_001u32 {
        text.extend_from_slice(if i < 100_000 {
            b"split a 2 upto 4\n"
        } else {
            b"dead 1\n"
        })?;
    }
    text.extend_from_slice(b"qed\n")?;
    Ok(text)
}

#[test]
fn a_hundred_thousand_splits_inside_each_other_are_printed(rt: HostRuntime) -> Result<(), Fail> {
    let alloc = rt.alloc();
    let names = table(alloc)?;
    let log = splits(alloc)?;
    let mut sink = CleanSink::new(alloc);
    if all_named(&names, log.events()) {
        print_derivation(&names, &log, &mut sink).ok();
    }
    assert!(rt; sink.bytes() == lines_of_splits(alloc)?.as_slice());
    Ok(())
}

/// What is answered to each of the pieces, with the number of the events so far.
fn answers(alloc: Global, names: &Names, pieces: &[&[u8]]) -> Result<String, AllocError> {
    let mut log = Log::new(alloc);
    let mut feeder = Feeder::start(alloc, names, 0);
    let mut shown = String::new(alloc);
    for piece in pieces {
        let answer = feeder.feed(piece, &mut log);
        let one = format!(in alloc; "{answer:?} {}, ", log.events().len())?;
        shown.push_str(one.as_str())?;
    }
    Ok(shown)
}

/// Pieces, and what is answered to them.
type Row = (&'static [&'static [u8]], &'static str);

/// A token is whole with the byte behind it, a byte that can begin no token at once.
const PIECES: &[Row] = &[
    (
        &[b"dead 1", b" ", b"qed", b" ", b"?"],
        "Ok(false) 0, Ok(false) 1, Ok(false) 1, Ok(true) 1, Ok(true) 1, ",
    ),
    (
        &[b"dead 1 ", b"?", b" qed "],
        "Ok(false) 1, Err(At(7, Byte)) 1, Err(At(7, Byte)) 1, ",
    ),
    (
        &[b"dead 1 ", b"!", b" qed "],
        "Ok(false) 1, Ok(false) 1, Err(At(7, Byte)) 1, ",
    ),
    (
        &[b"dead 1 que", b"d", b" "],
        "Ok(false) 1, Ok(false) 1, Err(At(7, Syntax)) 1, ",
    ),
    (
        &[b"dead 12345678901", b" "],
        "Ok(false) 0, Err(At(5, Number)) 0, ",
    ),
];

/// What the first row wants whose pieces are answered with something else.
fn wrong_answer(alloc: Global, rows: &'static [Row]) -> Result<Option<&'static str>, AllocError> {
    let names = table(alloc)?;
    for (pieces, wanted) in rows {
        let shown = answers(alloc, &names, pieces)?;
        if shown.as_str() != *wanted {
            return Ok(Some(wanted));
        }
    }
    Ok(None)
}

#[test]
fn answers_come_with_the_piece_that_completes_them(rt: HostRuntime) -> Result<(), Fail> {
    let wrong = wrong_answer(rt.alloc(), PIECES)?;
    assert!(rt; wrong.is_none(), "{wrong:?}");
    Ok(())
}

/// Texts with their events by the grammar, or their first fault, where they begin at the place 100.
const EVENTS: &[(&[u8], &str)] = &[
    (
        b"none raise a 2 -3 [ s by 1 t cut 1 0 by 2 from 2 7 by 3 by 4 ] split a shape t dead 5 drop split s by 6 gone a [ ] qed",
        "Raise 0 1 -3, Cover 1, By 1, Cover 2, Cut 0 0, By 2, CutFrom 1 7, By 3, By 4, EndCovers, SplitShape 0 2, Dead 5, Drop 1 1, By 6, Gone 0, EndCovers, ",
    ),
    (
        b"lower split 1 7 [ s by 1 ] split a 1 upto 4 split a 2 from - 3 dead 1 dead 2 dead 3 qed dead",
        "Lower 1 0 7, Cover 1, By 1, EndCovers, SplitUpto 0 0 4, SplitFrom 0 1 -3, Dead 1, Dead 2, Dead 3, ",
    ),
    (b"drop a absent by 1 dead 1 qed", "At(107, Unknown)"),
    (b"split a 3 upto 0 dead 1 dead 2 qed", "At(108, Unknown)"),
    (b"none dead 1", "At(111, Syntax)"),
];

/// An event with its numbers.
fn shown(alloc: Global, event: Event) -> Result<String, AllocError> {
    match event {
        Event::SplitShape(o, s) => format!(in alloc; "SplitShape {} {s}, ", o.0),
        Event::SplitUpto(o, d, v) => format!(in alloc; "SplitUpto {} {d} {v}, ", o.0),
        Event::SplitFrom(o, d, v) => format!(in alloc; "SplitFrom {} {d} {v}, ", o.0),
        Event::Drop(o, s) => format!(in alloc; "Drop {} {s}, ", o.0),
        Event::Raise(o, d, v) => format!(in alloc; "Raise {} {d} {v}, ", o.0),
        Event::Lower(o, d, v) => format!(in alloc; "Lower {} {d} {v}, ", o.0),
        Event::Gone(o) => format!(in alloc; "Gone {}, ", o.0),
        Event::Dead(i) => format!(in alloc; "Dead {i}, "),
        Event::Cover(s) => format!(in alloc; "Cover {s}, "),
        Event::EndCovers => String::from_str(alloc, "EndCovers, "),
        Event::By(i) => format!(in alloc; "By {i}, "),
        Event::Cut(d, v) => format!(in alloc; "Cut {d} {v}, "),
        Event::CutFrom(d, v) => format!(in alloc; "CutFrom {d} {v}, "),
    }
}

/// What a whole text is read as.
fn read_whole(alloc: Global, names: &Names, text: &[u8]) -> Result<String, AllocError> {
    let mut said = String::new(alloc);
    match read_derivation(alloc, names, text, 100) {
        Ok(log) => {
            for event in log.events() {
                said.push_str(shown(alloc, *event)?.as_str())?;
            }
        }
        Err(fault) => said.push_str(format!(in alloc; "{fault:?}")?.as_str())?,
    }
    Ok(said)
}

/// Whether the text is read as is wanted.
fn is_read_as(alloc: Global, names: &Names, text: &[u8], wanted: &str) -> Result<bool, AllocError> {
    let said = read_whole(alloc, names, text)?;
    Ok(said.as_str() == wanted)
}

/// The number, from 0, of the first row whose text is read as something else.
fn wrong_events(alloc: Global) -> Result<Option<usize>, AllocError> {
    let names = table(alloc)?;
    for (number, (text, wanted)) in EVENTS.iter().enumerate() {
        if !is_read_as(alloc, &names, text, wanted)? {
            return Ok(Some(number));
        }
    }
    Ok(None)
}

#[test]
fn a_whole_derivation_has_the_events_of_its_lines(rt: HostRuntime) -> Result<(), Fail> {
    let wrong = wrong_events(rt.alloc())?;
    assert!(rt; wrong.is_none(), "{wrong:?}");
    Ok(())
}
