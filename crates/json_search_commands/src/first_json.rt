//! `first_json`: the first layout of a problem in JSON, or a derivation that shows that there is
//! none.

ghost use Rattle.std.specs.Prelude.{◌≡◌, ℕ, List, IfOk};
ghost use Rattle.command_reply.specs.Accepted.{HasRead};
ghost use Rattle.json_commands.specs.Reading.{Replies};
ghost use Rattle.json_search_commands.specs.FirstJson.{FindsJson, first_json_question, layout_line};

use crate::lines::spent_reply;
use crate::refuted::refuted;
use command_input::{ReadFault, Status, read_first_text};
use command_reply::{Accepted, Deciding, TextReply, read_accepted, refuse};
use geo_chan::Source;
use geo_json::layout_json_line;
use json_commands::{Reading, read_json};
use layout_search::{Outcome, Searched, search_first};
use std::alloc::{AllocError, Global};

/// The command `first_json`.
#[derive(Clone, Copy)]
pub struct FirstJson {
    /// Among how many members of the walk the layout is sought.
    pub most: u64,
}

impl Deciding for FirstJson {
    type Answer = TextReply;

    ghost question = { λ f. first_json_question f.most };

    fn decide<S: Source>(&self, alloc: Global, source: &mut S) -> Result<TextReply, ReadFault> {
        let text = read_first_text(alloc, source)?;
        Ok(reply(alloc, text.as_slice(), self.most)?)
    }

    fn sound(&self) {}
}

// The reply to a text of JSON.
fn reply(alloc: Global, text: &[u8], most: u64) -> Result<TextReply, AllocError>
    ensures { IfOk result (λ reply.
        Replies (FindsJson most) text.now reply.text.items reply.status) }
{
    match read_json(alloc, text)? {
        Reading::Spelled(built) => reply_to_built(alloc, built.as_slice(), most),
        Reading::Refused(reply) => Ok(reply),
    }
}

// The reply to the text of statements that a value spells.
fn reply_to_built(alloc: Global, built: &[u8], most: u64) -> Result<TextReply, AllocError>
    ensures { IfOk result (λ reply. FindsJson most built.now reply.text.items reply.status) }
{
    match read_accepted(alloc, built) {
        Ok(accepted) => first_of(alloc, accepted, most),
        Err(fault) => refuse(alloc, fault),
    }
}

// What is replied to a problem.
fn first_of(alloc: Global, accepted: Accepted, most: u64) -> Result<TextReply, AllocError>
    requires { (input : List ℕ) × HasRead input accepted }
    ensures { IfOk result (λ reply. (input : List ℕ) → HasRead input accepted
        → FindsJson most input reply.text.items reply.status) }
{
    let Accepted {
        problem,
        rules: _,
        conditions,
    } = accepted;
    let searched = search_first(alloc, &problem, conditions, most)?;
    let Searched {
        outcome,
        conditions,
    } = searched;
    match outcome {
        Outcome::Found(layout) => Ok(TextReply {
            status: Status::Answered,
            text: layout_json_line(alloc, &problem, &layout)?,
        }),
        Outcome::Nothing(log) => refuted(alloc, &problem, conditions.as_slice(), log),
        Outcome::OutOfBudget => spent_reply(alloc, most),
    }
}
