//! The problem that a text spells, where all its rules are right.

ghost use Rattle.command_reply.specs.Accepted.{AnswersAccepted};

use geo_conditions::Cond;
use geo_tokens::fault::TextFault;
use problem_data::problem::Problem;
use problem_text::read::read_problem;
use rule_expand::plain::PlainRule;
use rule_expand::rules::expand_all;
use rule_ground::ground::ground_rules;
use rule_names::check::check_names;
use std::alloc::Global;

// A problem whose text has no fault, with its rules without macros and its conditions.
#[derive(Drop)]
pub struct Accepted {
    pub problem: Problem,
    pub rules: Vec<PlainRule>,
    pub conditions: Vec<Cond>,
}

// The problem that a text spells, or the first fault of the text: one of reading, else a wrong name
// or kind, else a rule that without macros is too large or multiplies coordinates, else one with
// which the conditions are too many or their numbers too large.
pub fn read_accepted(alloc: Global, text: &[u8]) -> Result<Accepted, TextFault>
    ensures { AnswersAccepted result text.now }
{
    let problem = read_problem(alloc, text)?;
    check_names(alloc, &problem)?;
    let rules = expand_all(alloc, &problem)?;
    let conditions = ground_rules(alloc, &problem, rules.as_slice())?;
    Ok(Accepted {
        problem,
        rules,
        conditions,
    })
}
