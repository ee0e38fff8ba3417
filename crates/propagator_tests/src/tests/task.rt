//! A problem that is read, with its rules and its conditions.

ghost use Rattle.std.specs.Prelude.{◌≡◌, IfOk, map};
ghost use Rattle.geo_conditions.specs.Conditions.{AllFit};
ghost use Rattle.problem_data.specs.Cells.{IsTuple};
ghost use Rattle.rule_expand.specs.Rules.{plain_rule_data};
ghost use Rattle.rule_ground.specs.Start.{first_state};
ghost use Rattle.propagator_tests.specs.Ready.{IsReady};

use geo_conditions::{Cond, Layout};
use geo_meaning::judging::{Judged, judge_rules};
use geo_tokens::fault::TextFault;
use problem_data::problem::Problem;
use problem_text::read::read_problem;
use rule_expand::plain::PlainRule;
use rule_expand::rules::expand_all;
use rule_ground::ground::ground_rules;
use std::alloc::Global;

/// A problem with its rules without macros.
pub struct Task {
    pub problem: Problem,
    pub rules: Vec<PlainRule>,
}

impl Drop for Task {
    fn drop(self) {
        let Task {
            problem: _problem,
            rules: _rules,
        } = self;
    }
}

/// Reads a problem whose rules can be judged.
pub fn read_task(alloc: Global, text: &[u8]) -> Result<Task, TextFault>
    ensures { IfOk result (λ a. IsReady a.problem (map plain_rule_data a.rules.items)) }
{
    let problem = read_problem(alloc, text)?;
    let rules = expand_all(alloc, &problem)?;
    match ground_rules(alloc, &problem, rules.as_slice()) {
        Ok(_conditions) => Ok(Task { problem, rules }),
        Err(fault) => Err(fault),
    }
}

/// The conditions of the problem.
pub fn conditions(
    alloc: Global,
    problem: &Problem,
    rules: &[PlainRule],
) -> Result<Vec<Cond>, TextFault>
    requires { IsReady problem.now (map plain_rule_data rules.now) }
    ensures { IfOk result (λ v. AllFit v.items (first_state problem.now)) }
{
    ground_rules(alloc, problem, rules)
}

/// Whether every rule holds on the tuple.
pub fn is_good(problem: &Problem, rules: &[PlainRule], layout: &Layout) -> bool
    requires ready { IsReady problem.now (map plain_rule_data rules.now) }
    requires tuple { IsTuple problem.now layout.now }
{
    match judge_rules(problem, rules, layout) {
        Judged::Good => true,
        Judged::Broken(_) => false,
    }
}
