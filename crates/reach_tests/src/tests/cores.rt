//! Rules that refuse together, by rounds.

ghost use Rattle.geo_core.specs.Refusing.{IsCore};

use crate::tests::problems::{CHAIN, NARROW, TWO_BOXES};
use crate::tests::tokens::token;
use command_reply::read_accepted;
use geo_conditions::Layout;
use geo_core::{Core, find_core};
use geo_tokens::fault::TextFault;
use problem_data::problem::Problem;
use std::alloc::{AllocError, Global};
use std::test::Fail;

/// The chain with a rule in front that is not needed.
const LONGER_CHAIN: &[u8] = b"geost 1 dims 1 shape u box 0 size 1 ; \
    object a as u at 4..9 ; object b as u at 0..9 ; object c as u at 0..5 ; \
    rule s : apart ; rule p : a.x1 < b.x1 ; rule q : b.x1 < c.x1 ; end";

/// The first rule and the last one refuse, the second and the third, and the last two.
const CONFLICTS: &[u8] = b"geost 1 dims 1 shape u box 0 size 1 ; object a as u at 0..9 ; \
    rule p : a.x1 >= 3 ; rule q : a.x1 <= 5 ; rule s : a.x1 >= 6 ; rule t : a.x1 <= 2 ; end";

/// Each of two rules refuses alone.
const FALSE_RULES: &[u8] = b"geost 1 dims 1 rule p : false ; rule q : false ; end";

/// The range leaves out the numbers from 2 to 5, and is no rule.
const HOLE: &[u8] = b"geost 2 dims 1 shape u box 0 size 1 ; object a as u at 0..1, 6..7 ; \
    rule p : a.x1 >= 2 ; rule o : true ; rule q : a.x1 <= 5 ; end";

/// A problem and a budget of members, and what comes of the rounds.
type Row = (&'static [u8], u64, &'static str);

const ROWS: &[Row] = &[
    (
        CHAIN,
        6,
        "without 1: 1,4/1,0/1,1; without 2: 1,4/1,5/1,0; a record",
    ),
    (CHAIN, 5, "spent"),
    (TWO_BOXES, 4, "found 1,0/1,2"),
    (TWO_BOXES, 3, "spent"),
    (NARROW, 100, "without 1: 1,0/1,0; a record"),
    // the first rule leaves, and the others keep their numbers
    (
        LONGER_CHAIN,
        100,
        "without 2: 1,4/1,0/1,1; without 3: 1,4/1,5/1,0; a record",
    ),
    // rules are left out in file order, so the last ones stay
    (CONFLICTS, 100, "without 3: 1,0; without 4: 1,6; a record"),
    (FALSE_RULES, 9, "without 2: -; a record"),
    (HOLE, 100, "without 1: 1,0; without 3: 1,6; a record"),
    (b"geost 1 dims 1 end", 1, "found -"),
];

/// The rules that are left, each with the layout without it.
#[tactic(auto, using(crate::proofs::Shaped::core_shaped, crate::proofs::Shaped::core_alike))]
fn shown_rules(
    alloc: Global,
    problem: &Problem,
    rules: &[u16],
    layouts: &[Layout],
) -> Result<String, AllocError>
    requires { IsCore problem.now rules.now layouts.now }
{
    let mut shown = String::new(alloc);
    for k in 0..rules.len() {
        let found = token(alloc, problem, &layouts[k])?;
        let line = format!(in alloc; "without {}: {}; ", rules[k], found.as_str())?;
        shown.push_str(line.as_str())?;
    }
    Ok(shown)
}

/// What comes of the rounds over a problem of one dimension.
fn core(alloc: Global, text: &[u8], budget: u64) -> Result<String, TextFault> {
    let accepted = read_accepted(alloc, text)?;
    let problem = &accepted.problem;
    if problem.dims() != 1 {
        return Ok(String::new(alloc));
    }
    match find_core::<1>(alloc, problem, budget)? {
        Core::Found(layout) => {
            let found = token(alloc, problem, &layout)?;
            Ok(format!(in alloc; "found {}", found.as_str())?)
        }
        Core::Budget => Ok(String::from_str(alloc, "spent")?),
        Core::Left(rules, layouts, log) => {
            let mut shown = shown_rules(alloc, problem, &rules, &layouts)?;
            if !log.events().is_empty() {
                shown.push_str("a record")?;
            }
            Ok(shown)
        }
    }
}

#[test]
fn rounds_leave_rules_that_refuse(rt: HostRuntime) -> Result<(), Fail> {
    for (problem, budget, wanted) in ROWS {
        let found = core(rt.alloc(), problem, *budget)?;
        assert!(rt; found.as_str() == *wanted, "{}", found.as_str());
    }
    Ok(())
}
