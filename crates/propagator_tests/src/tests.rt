//! Both propagators, against each other and against layouts that are listed by judging.

ghost use Rattle.std.specs.Prelude.{◌≡◌, ◌<◌, ◌≤◌, map};
ghost use Rattle.geo_base.specs.declared.TheConstants.{MAX_DIMS};
ghost use Rattle.rule_expand.specs.Rules.{plain_rule_data};
ghost use Rattle.propagator_tests.specs.Ready.{IsReady};

mod answers;
mod cubes;
mod propagators;
mod task;
mod tuples;

use answers::{Answers, MOST_LAYOUTS, has_tuple, is_same_state};
use geo_base::MAX_DIMS;
use geo_tokens::fault::TextFault;
use problem_data::problem::Problem;
use propagators::{plain_answers, queued_answers};
use rule_expand::plain::PlainRule;
use std::alloc::Global;
use std::test::Fail;
use task::read_task;
use tuples::{Put, keys_of, layouts, number_of_tuples};

/// How many tuples a problem may have whose layouts are listed.
const MOST_TUPLES: u32 = 10_000;

const TWO_BOXES: &[u8] =
    b"geost 1 dims 1 shape s box 0 size 2 ; object a as s at 0..3 ; object b as s at 0..3 ; rule r : apart ; end";

const TWO_BOXES_DOWNWARDS: &[u8] =
    b"geost 1 dims 1 shape s box 0 size 2 ; object a as s at 0..3 ; object b as s at 0..3 ; sides high ; rule r : apart ; end";

/// The object a can be at 0, 1, 5 or 6, and only the last two leave room for b.
const ROOM_BEHIND_A_HOLE: &[u8] =
    b"geost 2 dims 1 shape s box 0 size 2 ; object a as s at 0..1, 5..6 ; object b as s at 0..1 ; rule r : apart ; end";

const ROOM_BEHIND_A_HOLE_DOWNWARDS: &[u8] =
    b"geost 2 dims 1 shape s box 0 size 2 ; object a as s at 0..1, 5..6 ; object b as s at 0..1 ; sides high ; rule r : apart ; end";

/// Numbers 0, 1, 3, 4 and 8 by 0, 2 and 3: 3 + 3, 4 + 2, 4 + 3 and 8 with each.
const SUM_WITH_HOLES: &[u8] =
    b"geost 2 dims 2 shape u box 0 0 size 1 1 ; object a as u at 0..1, 3..4, 8..8 0..0, 2..3 ; rule r : a.x1 + a.x2 >= 6 ; end";

/// The sum lies between the pieces.
const SUM_IN_A_HOLE: &[u8] =
    b"geost 2 dims 1 shape u box 0 size 1 ; object a as u at 0..3, 7..9 ; rule r : a.x1 >= 4 and a.x1 <= 6 ; end";

/// There is room for one of them, and a has to be there.
const LEFT_OUT: &[u8] =
    b"geost 2 dims 1 shape s box 0 size 2 ; object a as s at 0..1 ; object b as s, absent at 0..1 ; rule r : apart ; end";

const LEFT_OUT_DOWNWARDS: &[u8] =
    b"geost 2 dims 1 shape s box 0 size 2 ; object a as s at 0..1 ; object b as s, absent at 0..1 ; sides high ; rule r : apart ; end";

/// Two cells hold two of three objects, in two ways.
const TWO_OF_THREE: &[u8] =
    b"geost 2 dims 1 shape u box 0 size 1 ; object a as u, absent at 0..1 ; object b as u, absent at 0..1 ; object c as u, absent at 0..1 ; rule r : apart ; rule q : atleast 2 p in objects : true ; end";

/// Only a, in 3 places with each of 2 shapes; only b, in 3 places; none of them.
const ONE_OF_TWO: &[u8] =
    b"geost 2 dims 1 shape u box 0 size 1 ; shape v box 0 size 2 ; object a as u, v, absent at 0..2 ; object b as u, absent at 0..2 ; rule q : atmost 1 p in objects : p.sid >= 1 ; end";

/// Each of them is absent, at 2 or at 3, and one is at 2.
const THOSE_PRESENT: &[u8] =
    b"geost 2 dims 1 shape u box 0 size 1 ; object a as u, absent at 0..3 ; object b as u, absent at 0..3 ; rule f : forall p in objects : p.x1 >= 2 ; rule e : exists p in objects : p.x1 <= 2 ; end";

const NOTHING: &[u8] = b"geost 1 dims 1 end";

const FALSE_RULE: &[u8] = b"geost 1 dims 1 rule f : false ; end";

const NO_ROOM: &[u8] =
    b"geost 1 dims 1 shape s box 0 size 2 ; object a as s at 0..1 ; object b as s at 0..1 ; rule r : apart ; end";

const CHAIN: &[u8] =
    b"geost 1 dims 1 shape u box 0 size 1 ; object a as u at 4..9 ; object b as u at 0..9 ; object c as u at 0..5 ; rule p : a.x1 < b.x1 ; rule q : b.x1 < c.x1 ; end";

const SECOND_SHAPE: &[u8] =
    b"geost 1 dims 2 shape flat box 0 0 size 2 1 ; shape tall box 0 0 size 1 2 ; object a as flat, tall at 0..5 0..5 ; rule w : within 0..0 0..9 ; end";

const SUM: &[u8] =
    b"geost 1 dims 2 shape u box 0 0 size 1 1 ; object a as u at 0..9 0..3 ; rule r : a.x1 + 2 * a.x2 >= 11 ; end";

const CARRY: &[u8] =
    b"geost 1 dims 2 shape u box 0 0 size 1 1 ; object a as u at 0..3 0..1 ; rule p : a.x1 >= 3 or a.x2 >= 1 ; rule q : a.x1 >= 1 or a.x2 <= 0 ; end";

const HEAVY_ON_LIGHT: &[u8] =
    b"geost 1 dims 2 shape u box 0 0 size 1 1 ; object a as u at 0..0 0..1 with weight = 9 ; object b as u at 0..0 0..1 with weight = 1 ; order b, a ; macro on(p : object, q : object) means exists s in boxes of p : exists t in boxes of q : [ p.x2 + s.t2 = q.x2 + t.t2 + t.l2 and p.x1 + s.t1 < q.x1 + t.t1 + t.l1 and q.x1 + t.t1 < p.x1 + s.t1 + s.l1 ] ; rule f : apart ; rule h : forall p in objects : forall q in objects : [ p.weight > q.weight implies not @on(p, q) ] ; end";

const BOUND_NAME: &[u8] =
    b"geost 1 dims 1 shape u box 0 size 1 ; object a as u at 0..1 ; object b as u at 0..1 ; macro m(p : object) means exists a in objects : a.x1 > p.x1 ; rule r : forall a in objects : [ a.id = 1 implies @m(a) ] ; end";

const LONGER_LINE: &[u8] =
    b"geost 1 dims 1 shape s box 0 size 2 ; object a as s at 0..9 ; object b as s at 0..9 ; rule r : apart ; end";

const TWO_CUBES: &[u8] =
    b"geost 1 dims 3 shape s box 0 0 0 size 3 3 3 ; object a as s at 0..3 0..3 0..1 ; object b as s at 0..3 0..3 0..1 ; rule r : apart ; end";

const TURNED_CRATES: &[u8] =
    b"geost 1 dims 2 shape flat box 0 0 size 2 1 ; shape tall box 0 0 size 1 2 ; object a as flat, tall at 0..2 0..1 with weight = 2 ; object b as tall, flat at 0..2 0..1 with weight = 1 ; macro on(p : object, q : object) means exists s in boxes of p : exists t in boxes of q : [ p.x2 + s.t2 = q.x2 + t.t2 + t.l2 and p.x1 + s.t1 < q.x1 + t.t1 + t.l1 and q.x1 + t.t1 < p.x1 + s.t1 + s.l1 ] ; rule f : apart ; rule h : forall p in objects : forall q in objects : [ p.weight > q.weight implies not @on(p, q) ] ; rule s : forall p in objects : [ p.x2 = 0 or exists q in objects : @on(p, q) ] ; end";

/// What each propagator answers, where K is the number of dimensions.
fn answers_in<const K: usize>(
    alloc: Global,
    problem: &Problem,
    rules: &[PlainRule],
) -> Result<Vec<Answers>, TextFault>
    requires k { (0 < K) × (K ≤ MAX_DIMS) }
    requires dims { problem.now.dims ≡ K }
    requires ready { IsReady problem.now (map plain_rule_data rules.now) }
{
    let mut all = Vec::new(alloc);
    all.push(plain_answers::<K>(alloc, problem, rules)?)?;
    all.push(queued_answers::<K>(alloc, problem, rules)?)?;
    Ok(all)
}

/// What each propagator answers, in as many dimensions as the problem has.
fn all_answers(
    alloc: Global,
    problem: &Problem,
    rules: &[PlainRule],
) -> Result<Vec<Answers>, TextFault>
    requires ready { IsReady problem.now (map plain_rule_data rules.now) }
{
    match problem.dims() {
        1 => answers_in::<1>(alloc, problem, rules),
        2 => answers_in::<2>(alloc, problem, rules),
        3 => answers_in::<3>(alloc, problem, rules),
        _ => Ok(Vec::new(alloc)),
    }
}

/// Whether the lists have the same keys.
fn are_same(keys: &[Vec<i64>], others: &[Vec<i64>]) -> bool {
    if keys.len() != others.len() {
        return false;
    }
    for (key, other) in keys.iter().zip(others) {
        if key.as_slice() != other.as_slice() {
            return false;
        }
    }
    true
}

/// Whether each layout lies inside what the first settle left, which is dead only where there is
/// none.
fn keeps(given: &Answers, layouts: &[Vec<Put>]) -> bool {
    let Some(state) = &given.state else {
        return layouts.is_empty();
    };
    for puts in layouts {
        if !has_tuple(state.as_slice(), puts.as_slice()) {
            return false;
        }
    }
    true
}

/// What is wrong with an answer, given the layouts of the problem and their keys.
fn fault(
    given: &Answers,
    found: &[Vec<i64>],
    layouts: &[Vec<Put>],
    keys: &[Vec<i64>],
) -> Option<&'static str> {
    let most = keys.get(..MOST_LAYOUTS).unwrap_or(keys);
    if !are_same(found, most) {
        return Some("others are found");
    }
    if given.ended != (keys.len() < MOST_LAYOUTS) {
        return Some("the end is elsewhere");
    }
    if !keeps(given, layouts) {
        return Some("layouts are lost");
    }
    None
}

/// What two answers differ in.
fn difference(given: &Answers, other: &Answers) -> Option<&'static str> {
    if !is_same_state(&given.state, &other.state) {
        return Some("the states differ");
    }
    if given.ended != other.ended {
        return Some("the ends differ");
    }
    None
}

/// Whether all propagators find the layouts that are listed, and leave the same state.
fn verdict(alloc: Global, text: &[u8], number: usize) -> Result<&'static str, TextFault> {
    let task = read_task(alloc, text)?;
    let problem = &task.problem;
    let rules = task.rules.as_slice();
    let tuples = number_of_tuples(problem);
    if tuples > MOST_TUPLES {
        return Ok("too many tuples");
    }
    let layouts = layouts(alloc, problem, rules, tuples)?;
    if layouts.len() != number {
        return Ok("another number of layouts");
    }
    let mut keys = keys_of(alloc, problem, layouts.as_slice())?;
    keys.sort()?;
    let all = all_answers(alloc, problem, rules)?;
    judge_all(
        alloc,
        problem,
        all.as_slice(),
        layouts.as_slice(),
        keys.as_slice(),
    )
}

/// The first fault of the answers.
fn judge_all(
    alloc: Global,
    problem: &Problem,
    all: &[Answers],
    layouts: &[Vec<Put>],
    keys: &[Vec<i64>],
) -> Result<&'static str, TextFault> {
    for given in all {
        let found = keys_of(alloc, problem, given.layouts.as_slice())?;
        if let Some(fault) = fault(given, found.as_slice(), layouts, keys) {
            return Ok(fault);
        }
        if let Some(difference) = difference(given, &all[0]) {
            return Ok(difference);
        }
    }
    Ok("agreed")
}

/// The problems whose layouts are listed, and how many they have.
const PROBLEMS: &[(&[u8], usize)] = &[
    (TWO_BOXES, 6),
    (TWO_BOXES_DOWNWARDS, 6),
    (ROOM_BEHIND_A_HOLE, 4),
    (ROOM_BEHIND_A_HOLE_DOWNWARDS, 4),
    (SUM_WITH_HOLES, 6),
    (SUM_IN_A_HOLE, 0),
    (LEFT_OUT, 2),
    (LEFT_OUT_DOWNWARDS, 2),
    (TWO_OF_THREE, 6),
    (ONE_OF_TWO, 10),
    (THOSE_PRESENT, 5),
    (NOTHING, 1),
    (FALSE_RULE, 0),
    (NO_ROOM, 0),
    (CHAIN, 0),
    (SECOND_SHAPE, 6),
    (SUM, 9),
    (CARRY, 4),
    (HEAVY_ON_LIGHT, 1),
    (BOUND_NAME, 1),
    (LONGER_LINE, 72),
    (TWO_CUBES, 240),
    (TURNED_CRATES, 28),
];

#[test]
fn propagators_agree_with_the_listing(rt: HostRuntime) -> Result<(), Fail> {
    for (text, layouts) in PROBLEMS {
        let verdict = verdict(rt.alloc(), text, *layouts)?;
        assert!(rt; verdict == "agreed", "{layouts} layouts: {verdict}");
    }
    Ok(())
}
