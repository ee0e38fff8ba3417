//! What the queue records while it settles.

use crate::tests::events::parts;
use crate::tests::indexicals::{indexicals, settled};
use crate::tests::lines::{FALSE, Rules, THREE_APART, conditions, line};
use crate::tests::literals::{B, C};
use derivation::{Event, Log};
use geo_conditions::all_fit;
use geo_state::is_small;
use std::alloc::{AllocError, Global};
use std::test::Fail;

/// Whether the queue leaves something of objects in those ranges, with its events; none where they cannot be settled.
fn recorded(
    alloc: Global,
    ranges: &[(i64, i64)],
    rules: Rules,
    rec: &mut Log,
) -> Result<Option<bool>, AllocError> {
    let s = line(alloc, ranges)?;
    let list = conditions(alloc, rules)?;
    if !is_small(&s) || !all_fit(&list, &s) || list.len() > 1_000_000_000 {
        return Ok(None);
    }
    let list = indexicals(alloc, list)?;
    Ok(Some(settled(alloc, s, list, rec)?.is_some()))
}

/// Whether a record has so many events, and these at their places.
fn has(events: &[Event], number: usize, rows: &[(usize, Event)]) -> bool {
    let mut same = events.len() == number;
    for (i, wanted) in rows {
        same &= *i < events.len() && parts(&events[*i]) == parts(wanted);
    }
    same
}

/// The ranges of objects, what has to hold of them, whether the queue leaves something, how many events it records, and some of
/// them with their numbers.
type Row = (
    &'static [(i64, i64)],
    Rules,
    bool,
    usize,
    &'static [(usize, Event)],
);

/// The first condition names A and C, and the third one A and B. First B goes behind A, then C.
const MOVES: &[(usize, Event)] = &[
    (0, Event::Raise(B, 0, 2)),
    (1, Event::Cover(1)),
    (2, Event::Cut(0, 1)),
    (3, Event::By(3)),
    (5, Event::EndCovers),
    (6, Event::Raise(C, 0, 2)),
    (9, Event::By(1)),
];

/// Here B goes behind A. Then C has no point: in 1 to 3 by the second condition, of B and C, and at 0 by the first one, of A and C.
const DEAD_END: &[(usize, Event)] = &[
    (0, Event::Raise(B, 0, 2)),
    (6, Event::Drop(C, 1)),
    (7, Event::CutFrom(0, 1)),
    (8, Event::By(2)),
    (9, Event::CutFrom(0, 0)),
    (10, Event::By(1)),
    (12, Event::Gone(C)),
    (13, Event::EndCovers),
];

const ROWS: &[Row] = &[
    (&[(0, 0), (0, 4), (0, 4)], THREE_APART, true, 12, MOVES),
    (&[(0, 0), (0, 2), (0, 3)], THREE_APART, false, 14, DEAD_END),
    (&[(0, 4)], FALSE, false, 1, &[(0, Event::Dead(1))]),
];

#[test]
fn a_settle_is_recorded(rt: HostRuntime) -> Result<(), Fail> {
    for (ranges, rules, wanted, number, rows) in ROWS {
        let mut rec = Log::new(rt.alloc());
        let kept = recorded(rt.alloc(), ranges, rules, &mut rec)?;
        assert!(rt; kept == Some(*wanted) && has(rec.events(), *number, rows));
    }
    Ok(())
}
