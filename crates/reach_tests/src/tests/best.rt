//! The layout that ends first, by rounds.

ghost use Rattle.geo_best.specs.Rounds.{PromisesLeast};

use crate::tests::problems::{NARROW, NO_BOX, OPTIONAL, TWO_BOXES};
use crate::tests::tokens::token;
use command_reply::{Accepted, read_accepted};
use geo_best::{Best, Rounds, find_best};
use geo_tokens::fault::TextFault;
use problem_data::problem::Problem;
use std::alloc::{AllocError, Global};
use std::test::Fail;

/// The two boxes, with values tried from the high end down.
const DOWNWARDS: &[u8] = b"geost 1 dims 1 shape s box 0 size 2 ; \
    object a as s at 0..3 ; object b as s at 0..3 ; sides high ; rule r : apart ; end";

/// A box whose shapes have the sizes 5 and 1, and which may begin at -9 at the earliest.
const NEGATIVE: &[u8] = b"geost 1 dims 1 shape s box 0 size 5 ; shape t box 0 size 1 ; \
    object a as s, t at -9..9 ; end";

/// A problem and a budget of members, and what comes of the rounds.
type Row = (&'static [u8], u64, &'static str);

const ROWS: &[Row] = &[
    // one condition of the rule, and a cap for each box
    (TWO_BOXES, 4, "4 at 1,0/1,2 by a record under 3"),
    (TWO_BOXES, 3, "spent"),
    (NARROW, 10, "refused by a record under 1"),
    (NO_BOX, 100, "bare 2,0"),
    // the first layout, 1,3/1,1, ends at 5
    (DOWNWARDS, 100, "4 at 1,2/1,0 by a record under 3"),
    // the last round is under conditions of where an absent object lies, of the rule, and two caps
    (OPTIONAL, 100, "2 at 1,0/2,0 by a record under 4"),
    // by the other shape
    (NEGATIVE, 100, "-8 at 2,-9 by a record under 2"),
    (b"geost 1 dims 1 end", 1, "bare -"),
];

/// What comes of the rounds.
fn shown_rounds(alloc: Global, problem: &Problem, rounds: &Rounds) -> Result<String, AllocError>
    requires { PromisesLeast problem.now 0 rounds.now.best }
{
    let under = rounds.conditions.len();
    match &rounds.best {
        Best::Refused(log) if !log.events().is_empty() => {
            format!(in alloc; "refused by a record under {under}")
        }
        Best::Budget => String::from_str(alloc, "spent"),
        Best::Bare(layout) => {
            format!(in alloc; "bare {}", token(alloc, problem, layout)?.as_str())
        }
        Best::Least(end, layout, log) if !log.events().is_empty() => {
            let found = token(alloc, problem, layout)?;
            format!(in alloc; "{end} at {} by a record under {under}", found.as_str())
        }
        _ => String::from_str(alloc, "no record"),
    }
}

/// What comes of the rounds in the first dimension of a problem that has one alone.
fn best(alloc: Global, text: &[u8], budget: u64) -> Result<String, TextFault> {
    let Accepted {
        problem,
        rules: _,
        conditions,
    } = read_accepted(alloc, text)?;
    if problem.dims() != 1 {
        return Ok(String::new(alloc));
    }
    let rounds = find_best::<1>(alloc, &problem, conditions, 0, budget)?;
    Ok(shown_rounds(alloc, &problem, &rounds)?)
}

#[test]
fn rounds_come_to_the_least_end(rt: HostRuntime) -> Result<(), Fail> {
    for (problem, budget, wanted) in ROWS {
        let found = best(rt.alloc(), problem, *budget)?;
        assert!(rt; found.as_str() == *wanted, "{}", found.as_str());
    }
    Ok(())
}
