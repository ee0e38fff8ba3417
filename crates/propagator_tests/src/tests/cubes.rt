//! Thirty cubes in a larger one, whose layouts are too many to be listed.

ghost use Rattle.std.specs.Prelude.{map};
ghost use Rattle.rule_expand.specs.Rules.{plain_rule_data};
ghost use Rattle.propagator_tests.specs.Ready.{IsReady};

use crate::tests::answers::{Answers, MOST_LAYOUTS};
use crate::tests::task::read_task;
use crate::tests::tuples::{Put, is_layout, keys_of};
use crate::tests::{all_answers, are_same, difference};
use geo_tokens::fault::TextFault;
use problem_data::problem::Problem;
use rule_expand::plain::PlainRule;
use std::alloc::{AllocError, Global};
use std::test::Fail;

/// How many cubes there are.
const CUBES: u8 = 30;

/// The text of the problem: cubes of edge 3, whose origins lie in 0 to 10 in each dimension and
/// whose cells so lie in a cube of edge 13.
fn cubes_text(alloc: Global) -> Result<Vec<u8>, AllocError> {
    let mut text = Vec::from_slice(alloc, b"geost 1 dims 3 shape s box 0 0 0 size 3 3 3 ; ")?;
    for i in 0..CUBES {
        let line = format!(in alloc; "object c{i} as s at 0..10 0..10 0..10 ; ")?;
        text.extend_from_slice(line.as_bytes())?;
    }
    text.extend_from_slice(b"rule r : apart ; end")?;
    Ok(text)
}

/// Whether the cubes stand in the first layout. There each cube takes the first origin at which it
/// meets none of those before it, since the layouts are compared cube by cube, and room is left for
/// the others. The first such origins are those of a grid of edge 3, coordinate by coordinate in 0,
/// 3, 6 and 9: an origin behind the n-th of them and before the next one lies in the cube of a grid
/// origin that is not behind it, and so is one of the first n. The grid has 64 cubes, which is room
/// for 30.
fn is_first(puts: &[Put]) -> bool {
    for (i, put) in (0..i64::from(CUBES)).zip(puts) {
        let origin = [i / 16 * 3, i / 4 % 4 * 3, i % 4 * 3];
        if put.place != 1 || put.origin.as_slice() != origin.as_slice() {
            return false;
        }
    }
    puts.len() == usize::from(CUBES)
}

/// Whether each list comes behind the one before it.
fn are_in_order(keys: &[Vec<i64>]) -> bool {
    let mut last: &[i64] = &[];
    for key in keys {
        if key.as_slice() <= last {
            return false;
        }
        last = key.as_slice();
    }
    true
}

/// Whether each of the tuples is a layout.
fn are_layouts(
    alloc: Global,
    problem: &Problem,
    rules: &[PlainRule],
    found: &[Vec<Put>],
) -> Result<bool, TextFault>
    requires { IsReady problem.now (map plain_rule_data rules.now) }
{
    for puts in found {
        if !is_layout(alloc, problem, rules, puts.as_slice())? {
            return Ok(false);
        }
    }
    Ok(true)
}

/// What is wrong with the layouts that a propagator finds.
fn fault_of(
    alloc: Global,
    problem: &Problem,
    rules: &[PlainRule],
    given: &Answers,
) -> Result<Option<&'static str>, TextFault>
    requires { IsReady problem.now (map plain_rule_data rules.now) }
{
    let found = given.layouts.as_slice();
    if found.len() != MOST_LAYOUTS {
        return Ok(Some("too few layouts"));
    }
    if !is_first(found[0].as_slice()) {
        return Ok(Some("another first layout"));
    }
    if !are_in_order(keys_of(alloc, problem, found)?.as_slice()) {
        return Ok(Some("another order"));
    }
    if !are_layouts(alloc, problem, rules, found)? {
        return Ok(Some("no layout"));
    }
    Ok(None)
}

/// Whether two answers have the same layouts, the same state and the same end.
fn agree(
    alloc: Global,
    problem: &Problem,
    given: &Answers,
    other: &Answers,
) -> Result<bool, TextFault> {
    let found = keys_of(alloc, problem, given.layouts.as_slice())?;
    let others = keys_of(alloc, problem, other.layouts.as_slice())?;
    Ok(are_same(found.as_slice(), others.as_slice()) && difference(given, other).is_none())
}

/// What is wrong with the answers of the propagators.
fn fault(alloc: Global) -> Result<Option<&'static str>, TextFault> {
    let text = cubes_text(alloc)?;
    let task = read_task(alloc, text.as_slice())?;
    let rules = task.rules.as_slice();
    let all = all_answers(alloc, &task.problem, rules)?;
    if all.len() != 2 {
        return Ok(Some("other dimensions"));
    }
    if !agree(alloc, &task.problem, &all[0], &all[1])? {
        return Ok(Some("the propagators differ"));
    }
    fault_of(alloc, &task.problem, rules, &all[0])
}

#[test]
fn thirty_cubes_are_placed(rt: HostRuntime) -> Result<(), Fail> {
    let fault = fault(rt.alloc())?;
    assert!(rt; fault.is_none(), "{}", fault.unwrap_or(""));
    Ok(())
}
