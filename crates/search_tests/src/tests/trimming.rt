//! What is left out of a derivation, and how its covers become simpler.

ghost use Rattle.std.specs.Prelude.{◌<◌};
ghost use Rattle.geo_conditions.specs.Conditions.{AllFit};

use crate::tests::events::{are_same, many_splits, record};
use crate::tests::lines::line;
use crate::tests::literals::{A, B, C};
use derivation::{Event, Log};
use derivation_check::is_derivation;
use derivation_trim::shortened;
use geo_conditions::{Cond, Conds, Form, ObjId, State, all_fit};
use std::alloc::{AllocError, Global};
use std::test::Fail;

/// The object a is less than b.
fn less(alloc: Global, a: ObjId, b: ObjId) -> Result<Cond, AllocError>
    requires order { a.0 < b.0 }
{
    Ok(Cond::Lin(Form::new(alloc, &[(a, 0, 1), (b, 0, -1)], 1)?))
}

/// At least so many of these are true: A is less than B, and B is less than C.
fn some_less(alloc: Global, least: i64) -> Result<Cond, AllocError> {
    let mut parts = Conds::new(alloc);
    for (lesser, greater) in [(A, B), (B, C)] {
        parts.push(less(alloc, lesser, greater)?)?;
    }
    Ok(Cond::AtLeast(least, parts))
}

/// Twice B is at most A and 4 more.
fn half(alloc: Global) -> Result<Cond, AllocError> {
    Ok(Cond::Lin(Form::new(alloc, &[(A, 0, -1), (B, 0, 2)], -4)?))
}

/// A is less than B, B is less than C, what never holds, one of the first two, both of them, and B
/// is small.
fn condition(alloc: Global, number: u32) -> Result<Cond, AllocError> {
    match number {
        1 => less(alloc, A, B),
        2 => less(alloc, B, C),
        3 => Ok(Cond::AtLeast(1, Conds::new(alloc))),
        4 => some_less(alloc, 1),
        5 => some_less(alloc, 2),
        _ => half(alloc),
    }
}

/// The six conditions.
fn conditions(alloc: Global) -> Result<Vec<Cond>, AllocError> {
    let mut list = Vec::new(alloc);
    for number in 1..=6 {
        list.push(condition(alloc, number)?)?;
    }
    Ok(list)
}

/// Whether the events are shortened to those that are wanted, and are a derivation before and behind that, or neither time.
fn are_shortened(
    alloc: Global,
    list: &[Cond],
    s: &State<1>,
    log: &Log,
    wanted: &[Event],
    are_derivations: bool,
) -> Result<bool, AllocError>
    requires { AllFit list.now s.now }
{
    let shorter = shortened(alloc, list, s, log)?;
    Ok(
        are_same(shorter.events(), wanted)
            && is_derivation(alloc, list, s, log)? == are_derivations
            && is_derivation(alloc, list, s, &shorter)? == are_derivations,
    )
}

/// Whether the events on objects in those ranges are shortened so.
fn is_right(
    alloc: Global,
    ranges: &[(i64, i64)],
    log: &Log,
    wanted: &[Event],
    are_derivations: bool,
) -> Result<bool, AllocError> {
    let s = line(alloc, ranges)?;
    let list = conditions(alloc)?;
    Ok(all_fit(&list, &s) && are_shortened(alloc, &list, &s, log, wanted, are_derivations)?)
}

/// A derivation on objects in those ranges, and what it is shortened to.
struct Row {
    ranges: &'static [(i64, i64)],
    events: &'static [Event],
    wanted: &'static [Event],
}

/// Events of objects and dimensions that are not there, and not those of one tree.
const NO_DERIVATION: &[Event] = &[
    Event::Gone(ObjId(7)),
    Event::EndCovers,
    Event::Cut(3, 0),
    Event::Raise(A, 5, 1),
];

const ROWS: &[Row] = &[
    // the first condition is refuted from the start, and says nothing of C
    Row {
        ranges: &[(2, 3), (0, 2), (0, 2)],
        events: &[
            Event::Raise(C, 0, 1),
            Event::Cover(1),
            Event::By(2),
            Event::EndCovers,
            Event::Dead(1),
        ],
        wanted: &[Event::Dead(1)],
    },
    // neither part of a split of C needs it
    Row {
        ranges: &[(2, 3), (0, 2), (0, 9)],
        events: &[Event::SplitUpto(C, 0, 4), Event::Dead(1), Event::Dead(1)],
        wanted: &[Event::Dead(1)],
    },
    // the second part does not
    Row {
        ranges: &[(2, 3), (0, 2), (0, 9)],
        events: &[Event::SplitUpto(C, 0, 0), Event::Dead(2), Event::Dead(1)],
        wanted: &[Event::Dead(1)],
    },
    // the first part does not, and the second has a link of its own
    Row {
        ranges: &[(2, 3), (0, 2), (0, 9)],
        events: &[
            Event::SplitUpto(C, 0, 8),
            Event::Dead(1),
            Event::Raise(C, 0, 9),
            Event::Cover(1),
            Event::By(1),
            Event::EndCovers,
            Event::Dead(1),
        ],
        wanted: &[Event::Dead(1)],
    },
    // both parts need the split
    Row {
        ranges: &[(0, 1), (0, 1), (0, 1)],
        events: &[Event::SplitUpto(B, 0, 0), Event::Dead(1), Event::Dead(2)],
        wanted: &[Event::SplitUpto(B, 0, 0), Event::Dead(1), Event::Dead(2)],
    },
    // the low end of B is needed, and the high end is not
    Row {
        ranges: &[(0, 1), (0, 9), (0, 1)],
        events: &[
            Event::Lower(B, 0, 0),
            Event::Cover(1),
            Event::By(2),
            Event::EndCovers,
            Event::Raise(B, 0, 1),
            Event::Cover(1),
            Event::By(1),
            Event::EndCovers,
            Event::Gone(C),
            Event::Cover(1),
            Event::By(2),
            Event::EndCovers,
        ],
        wanted: &[
            Event::Raise(B, 0, 1),
            Event::Cover(1),
            Event::By(1),
            Event::EndCovers,
            Event::Gone(C),
            Event::Cover(1),
            Event::By(2),
            Event::EndCovers,
        ],
    },
    // C has no point behind B, at 0 and at 1 for one reason
    Row {
        ranges: &[(0, 1), (0, 1), (0, 1)],
        events: &[
            Event::Raise(B, 0, 1),
            Event::Cover(1),
            Event::By(1),
            Event::EndCovers,
            Event::Gone(C),
            Event::Cover(1),
            Event::Cut(0, 0),
            Event::By(2),
            Event::By(2),
            Event::EndCovers,
        ],
        wanted: &[
            Event::Raise(B, 0, 1),
            Event::Cover(1),
            Event::By(1),
            Event::EndCovers,
            Event::Gone(C),
            Event::Cover(1),
            Event::By(2),
            Event::EndCovers,
        ],
    },
    // B is not behind A up to 2, and not before C from 3 on: two pieces do for four
    Row {
        ranges: &[(2, 3), (0, 9), (0, 3)],
        events: &[
            Event::Gone(B),
            Event::Cover(1),
            Event::Cut(0, 0),
            Event::By(1),
            Event::Cut(0, 1),
            Event::By(1),
            Event::Cut(0, 2),
            Event::By(1),
            Event::By(2),
            Event::EndCovers,
        ],
        wanted: &[
            Event::Gone(B),
            Event::Cover(1),
            Event::Cut(0, 2),
            Event::By(1),
            Event::By(2),
            Event::EndCovers,
        ],
    },
    // the same from the other end
    Row {
        ranges: &[(2, 3), (0, 9), (0, 3)],
        events: &[
            Event::Gone(B),
            Event::Cover(1),
            Event::CutFrom(0, 9),
            Event::By(2),
            Event::CutFrom(0, 4),
            Event::By(2),
            Event::CutFrom(0, 3),
            Event::By(2),
            Event::By(1),
            Event::EndCovers,
        ],
        wanted: &[
            Event::Gone(B),
            Event::Cover(1),
            Event::CutFrom(0, 3),
            Event::By(2),
            Event::By(1),
            Event::EndCovers,
        ],
    },
    // a cut outside the box leaves one part empty, and what is dropped stands in the last list
    Row {
        ranges: &[(0, 1), (0, 2), (0, 1)],
        events: &[
            Event::Drop(B, 1),
            Event::CutFrom(0, 5),
            Event::By(1),
            Event::CutFrom(0, 1),
            Event::By(2),
            Event::By(1),
            Event::Gone(B),
            Event::EndCovers,
        ],
        wanted: &[
            Event::Gone(B),
            Event::Cover(1),
            Event::CutFrom(0, 1),
            Event::By(2),
            Event::By(1),
            Event::EndCovers,
        ],
    },
    // one of two orders of B holds below 3 and above 5, and B is small up to 5
    Row {
        ranges: &[(5, 6), (3, 9), (0, 3)],
        events: &[
            Event::Gone(B),
            Event::Cover(1),
            Event::Cut(0, 3),
            Event::By(4),
            Event::Cut(0, 5),
            Event::By(4),
            Event::Cut(0, 7),
            Event::By(6),
            Event::By(6),
            Event::EndCovers,
        ],
        wanted: &[
            Event::Gone(B),
            Event::Cover(1),
            Event::Cut(0, 5),
            Event::By(4),
            Event::By(6),
            Event::EndCovers,
        ],
    },
    // the same from the other end
    Row {
        ranges: &[(5, 6), (3, 9), (0, 3)],
        events: &[
            Event::Gone(B),
            Event::Cover(1),
            Event::CutFrom(0, 8),
            Event::By(6),
            Event::CutFrom(0, 6),
            Event::By(6),
            Event::By(4),
            Event::EndCovers,
        ],
        wanted: &[
            Event::Gone(B),
            Event::Cover(1),
            Event::CutFrom(0, 6),
            Event::By(6),
            Event::By(4),
            Event::EndCovers,
        ],
    },
    // both orders of B do not hold up to 5, and from 3 on, but on the whole they may
    Row {
        ranges: &[(5, 6), (0, 9), (0, 3)],
        events: &[
            Event::Gone(B),
            Event::Cover(1),
            Event::Cut(0, 2),
            Event::By(5),
            Event::Cut(0, 6),
            Event::By(5),
            Event::By(5),
            Event::EndCovers,
        ],
        wanted: &[
            Event::Gone(B),
            Event::Cover(1),
            Event::Cut(0, 5),
            Event::By(5),
            Event::By(5),
            Event::EndCovers,
        ],
    },
    // what is no derivation stays as it is
    Row {
        ranges: &[(0, 1), (0, 1), (0, 1)],
        events: NO_DERIVATION,
        wanted: NO_DERIVATION,
    },
];

#[test]
fn what_no_step_leans_on_is_left_out(rt: HostRuntime) -> Result<(), Fail> {
    for (i, row) in ROWS.iter().enumerate() {
        let log = record(rt.alloc(), row.events)?;
        let are_derivations = i + 1 < ROWS.len();
        assert!(rt;
            is_right(rt.alloc(), row.ranges, &log, row.wanted, are_derivations)?,
            "row {i}"
        );
    }
    Ok(())
}

#[test]
fn a_derivation_of_any_depth_is_shortened(rt: HostRuntime) -> Result<(), Fail> {
    let log = many_splits(rt.alloc(), 0, 3, 3)?;
    assert!(rt; is_right(rt.alloc(), &[(0, 1); 3], &log, &[Event::Dead(3)], true)?);
    Ok(())
}
