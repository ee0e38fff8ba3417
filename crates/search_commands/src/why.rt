//! `why`: which rules of a problem refuse together, and for each a layout without it.

ghost use Rattle.std.specs.Prelude.{◌≡◌, ℕ, List, IfOk};
ghost use Rattle.command_input.specs.declared.command.Status.{Status as StatusOf};
ghost use Rattle.command_reply.specs.Accepted.{HasRead};
ghost use Rattle.command_reply.specs.Question.{AnswersInput};
ghost use Rattle.fewer_rules.specs.Fewer.{HasConditions};
ghost use Rattle.geo_core.specs.Cores.{ComesTo, Refutes};
ghost use Rattle.geo_core.specs.Refusing.{IsCore, Refuse};
ghost use Rattle.problem_data.specs.SomeRules.{with_rules};
ghost use Rattle.search_commands.specs.Refuted.{is_search_ready, search_says};
ghost use Rattle.search_commands.specs.Why.{SaysCore, WhyAnswer, why_question};

use crate::blocks::headed;
use crate::budget::spent;
use crate::core_lines::core_lines;
use crate::refutation::refuted;
use crate::search_reply::SearchReply;
use command_input::{ReadFault, Status};
use command_reply::{Accepted, Deciding, refuse, take_problem};
use derivation::Log;
use fewer_rules::some_rules_ground;
use geo_chan::Source;
use geo_conditions::Layout;
use geo_core::{Core, conditions_of, find_core, rounds_are_one};
use layout_search::in_dimensions;
use problem_data::problem::{Problem, with_rules};
use rule_ground::conditions_are_meant;
use std::alloc::{AllocError, Global};

/// The command `why`.
#[derive(Clone, Copy)]
pub struct Why {
    /// Among how many members of its walk each round seeks a layout.
    pub most: u64,
}

impl Deciding for Why {
    type Answer = SearchReply;

    ghost question = { λ w. why_question w.most };

    fn decide<S: Source>(&self, alloc: Global, source: &mut S) -> Result<SearchReply, ReadFault> {
        match take_problem(alloc, source)? {
            Ok(accepted) => Ok(why_of(alloc, accepted, self.most)?),
            Err(fault) => Ok(SearchReply::Text(refuse(alloc, fault)?)),
        }
    }

    fn sound(&self) {
        rounds_are_one();
    }
}

// What is replied to a problem.
fn why_of(alloc: Global, accepted: Accepted, most: u64) -> Result<SearchReply, AllocError>
    requires { (input : List ℕ) × HasRead input accepted }
    ensures answers { IfOk result (λ reply. (input : List ℕ) → HasRead input accepted
        → AnswersInput (WhyAnswer most) input (search_says reply)) }
    ensures ready { IfOk result is_search_ready }
{
    let problem = &accepted.problem;
    match core_of(alloc, problem, most)? {
        Core::Found(layout) => {
            let block = headed(alloc, problem, &[], &layout, Status::No)?;
            Ok(SearchReply::Text(block))
        }
        Core::Budget => Ok(SearchReply::Text(spent(alloc, most)?)),
        Core::Left(rules, layouts, log) => left(alloc, problem, &rules, &layouts, log),
    }
}

// What the rounds come to, whatever the number of dimensions.
fn core_of(alloc: Global, problem: &Problem, most: u64) -> Result<Core, AllocError>
    requires grounds { HasConditions problem.now }
    ensures answer { IfOk result (ComesTo problem.now most) }
    ensures refuse { IfOk result (Refuse problem.now) }
{
    problem.is_said();
    in_dimensions!(problem.dims(), find_core::<>(alloc, problem, most))
}

// The rules that are left, the layouts without one of them, and the derivation that the search has
// recorded, or a shorter one.
fn left(
    alloc: Global,
    problem: &Problem,
    rules: &[u16],
    layouts: &[Layout],
    log: Log,
) -> Result<SearchReply, AllocError>
    requires grounds { HasConditions problem.now }
    requires core { IsCore problem.now rules.now layouts.now }
    requires refutes { Refutes (with_rules problem.now rules.now) log.events }
    ensures says { IfOk result (λ reply. (text : List ℕ) (status : StatusOf)
        → search_says reply text status
        → SaysCore problem.now rules.now layouts.now text × (status ≡ Status.Answered)) }
    ensures ready { IfOk result is_search_ready }
{
    some_rules_ground();
    let part = with_rules(alloc, problem, rules)?;
    part.is_said();
    conditions_are_meant(&part);
    let conditions = conditions_of(alloc, &part)?;
    let lines = core_lines(alloc, problem, rules, layouts)?;
    refuted(alloc, &part, conditions.as_slice(), log, lines)
}
