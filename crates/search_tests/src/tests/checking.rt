//! Derivations, and what the check says of them.

ghost use Rattle.std.specs.Prelude.{◌≤◌};
ghost use Rattle.geo_base.specs.declared.TheConstants.{MAX_DIMS};

use crate::tests::events::{many_splits, record};
use crate::tests::lines::{CHAIN, FALSE, FREE, Rules, TWO_APART, conditions, line};
use crate::tests::literals::{A, B, C};
use derivation::{Event, Log};
use derivation_check::{Checked, all_fit as events_fit, check};
use geo_conditions::{Cond, State, all_fit};
use std::alloc::{AllocError, Global};
use std::test::Fail;

/// What the check says of the events: 0 where they are valid, else the number of the first node that fails; none where they cannot
/// be given.
pub fn verdict<const K: usize>(
    alloc: Global,
    s: &State<K>,
    list: &[Cond],
    log: &Log,
) -> Result<Option<u64>, AllocError>
    requires { K ≤ MAX_DIMS }
{
    let few = log.events().len() < 1_000_000_000;
    if !few || !all_fit(list, s) || !events_fit::<K>(log.events(), s.objects()) {
        return Ok(None);
    }
    match check(alloc, list, s, log)? {
        Checked::Yes => Ok(Some(0)),
        Checked::No(n) => Ok(Some(n)),
    }
}

/// What the check says of the events, on objects in those ranges.
fn checked(
    alloc: Global,
    ranges: &[(i64, i64)],
    rules: Rules,
    log: &Log,
) -> Result<Option<u64>, AllocError> {
    verdict(
        alloc,
        &line(alloc, ranges)?,
        &conditions(alloc, rules)?,
        log,
    )
}

/// Each row: the ranges of the objects, what has to hold of them, the events, and the answer.
const DERIVATIONS: &[(&[(i64, i64)], Rules, &[Event], u64)] = &[
    // a condition that never holds, and none
    (&[(0, 4)], FALSE, &[Event::Dead(1)], 0),
    (&[(0, 4)], FREE, &[Event::Dead(1)], 1),
    (&[(0, 4)], FALSE, &[Event::Dead(2)], 1),
    // both parts of a split, and the first node that fails
    (
        &[(0, 4)],
        FALSE,
        &[Event::SplitUpto(A, 0, 2), Event::Dead(1), Event::Dead(1)],
        0,
    ),
    (
        &[(0, 4)],
        FALSE,
        &[Event::SplitUpto(A, 0, 2), Event::Dead(1), Event::Dead(2)],
        3,
    ),
    (
        &[(0, 4)],
        FALSE,
        &[Event::SplitUpto(A, 0, 2), Event::Dead(2), Event::Dead(2)],
        2,
    ),
    // two boxes of length 2 have no room where both begin at 0 or 1; where the first may begin at 2 they have
    (&[(0, 1), (0, 1)], TWO_APART, &[Event::Dead(1)], 0),
    (&[(0, 2), (0, 1)], TWO_APART, &[Event::Dead(1)], 1),
    (
        &[(0, 2), (0, 1)],
        TWO_APART,
        &[Event::SplitUpto(A, 0, 1), Event::Dead(1), Event::Dead(1)],
        3,
    ),
    // what a first part cut is put back for the second one, of another object too
    (
        &[(0, 2), (0, 1)],
        TWO_APART,
        &[
            Event::SplitFrom(A, 0, 2),
            Event::SplitUpto(B, 0, 0),
            Event::Dead(1),
            Event::Dead(1),
            Event::Dead(1),
        ],
        3,
    ),
    // one behind the other in 0 to 2: the second begins at 1 or later, as a cover of what is below it shows
    (
        &[(0, 2), (0, 2), (0, 2)],
        CHAIN,
        &[
            Event::Raise(B, 0, 1),
            Event::Cover(1),
            Event::By(1),
            Event::EndCovers,
            Event::Dead(1),
        ],
        2,
    ),
    // the cover is missing, names another place, or names a condition that is not refuted there
    (
        &[(0, 2), (0, 2), (0, 2)],
        CHAIN,
        &[Event::Raise(B, 0, 1), Event::EndCovers, Event::Dead(1)],
        1,
    ),
    (
        &[(0, 2), (0, 2), (0, 2)],
        CHAIN,
        &[
            Event::Raise(B, 0, 1),
            Event::Cover(2),
            Event::By(1),
            Event::EndCovers,
            Event::Dead(1),
        ],
        1,
    ),
    (
        &[(0, 2), (0, 2), (0, 2)],
        CHAIN,
        &[
            Event::Raise(B, 0, 1),
            Event::Cover(1),
            Event::By(2),
            Event::EndCovers,
            Event::Dead(1),
        ],
        1,
    ),
    // three in 0 to 1 do not fit one behind the other: the second and then the third move up, and the third has no point left
    (
        &[(0, 1), (0, 1), (0, 1)],
        CHAIN,
        &[
            Event::Raise(B, 0, 1),
            Event::Cover(1),
            Event::By(1),
            Event::EndCovers,
            Event::Gone(C),
            Event::Cover(1),
            Event::Cut(0, 0),
            Event::By(2),
            Event::By(2),
            Event::EndCovers,
        ],
        0,
    ),
    // a place is dropped with a cover of two boxes; with the leaves exchanged neither is refuted
    (
        &[(0, 1), (0, 2), (0, 1)],
        CHAIN,
        &[
            Event::Drop(B, 1),
            Event::CutFrom(0, 1),
            Event::By(2),
            Event::By(1),
            Event::Gone(B),
            Event::EndCovers,
        ],
        0,
    ),
    (
        &[(0, 1), (0, 2), (0, 1)],
        CHAIN,
        &[
            Event::Drop(B, 1),
            Event::CutFrom(0, 1),
            Event::By(1),
            Event::By(2),
            Event::Gone(B),
            Event::EndCovers,
        ],
        1,
    ),
];

#[test]
fn the_first_node_that_fails_is_named(rt: HostRuntime) -> Result<(), Fail> {
    let alloc = rt.alloc();
    for (ranges, rules, events, wanted) in DERIVATIONS {
        let log = record(alloc, events)?;
        assert!(rt; checked(alloc, ranges, rules, &log)? == Some(*wanted));
    }
    Ok(())
}

#[test]
fn a_derivation_may_be_as_deep_as_it_is_long(rt: HostRuntime) -> Result<(), Fail> {
    for (last, wanted) in [(1, 0), (2, 200_001)] {
        let log = many_splits(rt.alloc(), 9, 1, last)?;
        assert!(rt; checked(rt.alloc(), &[(0, 9)], FALSE, &log)? == Some(wanted));
    }
    Ok(())
}
