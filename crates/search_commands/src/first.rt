//! `first`: the first layout of a problem, or a derivation that shows that there is none.

ghost use Rattle.std.specs.Prelude.{◌≡◌, ℕ, List, IfOk};
ghost use Rattle.command_reply.specs.Accepted.{HasRead};
ghost use Rattle.command_reply.specs.Question.{AnswersInput};
ghost use Rattle.search_commands.specs.First.{FirstAnswer, first_question};
ghost use Rattle.search_commands.specs.Refuted.{is_search_ready, search_says};

use crate::blocks::headed;
use crate::budget::spent;
use crate::refutation::refuted;
use crate::search_reply::SearchReply;
use command_input::{ReadFault, Status};
use command_reply::{Accepted, Deciding, TextReply, refuse, take_problem};
use geo_chan::Source;
use layout_search::{Outcome, Searched, search_first};
use std::alloc::{AllocError, Global};
use std::mem::forget;

/// The command `first`.
#[derive(Clone, Copy)]
pub struct First {
    /// Among how many members of the walk the layout is sought.
    pub most: u64,
}

impl Deciding for First {
    type Answer = SearchReply;

    ghost question = { λ f. first_question f.most };

    fn decide<S: Source>(&self, alloc: Global, source: &mut S) -> Result<SearchReply, ReadFault> {
        match take_problem(alloc, source)? {
            Ok(accepted) => Ok(first_of(alloc, accepted, self.most)?),
            Err(fault) => Ok(SearchReply::Text(refuse(alloc, fault)?)),
        }
    }

    fn sound(&self) {}
}

// What is replied to a problem.
fn first_of(alloc: Global, accepted: Accepted, most: u64) -> Result<SearchReply, AllocError>
    requires { (input : List ℕ) × HasRead input accepted }
    ensures answers { IfOk result (λ reply. (input : List ℕ) → HasRead input accepted
        → AnswersInput (FirstAnswer most) input (search_says reply)) }
    ensures ready { IfOk result is_search_ready }
{
    let Accepted {
        problem,
        rules: _,
        conditions,
    } = accepted;
    let searched = search_first(alloc, &problem, conditions, most)?;
    let Searched {
        outcome,
        conditions,
    } = searched;
    match outcome {
        Outcome::Found(layout) => {
            let block = headed(alloc, &problem, &[], &layout, Status::Answered)?;
            // The program ends with its reply, so the conditions are not given back one by one.
            forget(conditions);
            Ok(SearchReply::Text(block))
        }
        Outcome::Nothing(log) => {
            let nothing = TextReply {
                status: Status::No,
                text: Vec::new(alloc),
            };
            refuted(alloc, &problem, conditions.as_slice(), log, nothing)
        }
        Outcome::OutOfBudget => Ok(SearchReply::Text(spent(alloc, most)?)),
    }
}
