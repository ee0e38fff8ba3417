//! `from_json`: the problem that a value of JSON spells, in its canonical spelling.

ghost use Rattle.std.specs.Prelude.{◌≡◌, IfOk};
ghost use Rattle.problem_text.specs.Canonical.{problem_text};
ghost use Rattle.json_commands.specs.Reading.{Replies};
ghost use Rattle.json_commands.specs.FromJson.{RepliesBuilt, from_json_question};

use crate::reading::{Reading, read_json};
use command_input::{ReadFault, Status, read_first_text};
use command_reply::{Deciding, TextReply, TextSink, read_accepted, refuse, spelled};
use geo_chan::Source;
use problem_data::problem::Problem;
use problem_text::print::print_problem;
use std::alloc::{AllocError, Global};

/// The command `from_json`.
#[derive(Clone, Copy)]
pub struct FromJson;

impl Deciding for FromJson {
    type Answer = TextReply;

    ghost question = { λ _. from_json_question };

    fn decide<S: Source>(&self, alloc: Global, source: &mut S) -> Result<TextReply, ReadFault> {
        let text = read_first_text(alloc, source)?;
        Ok(reply(alloc, text.as_slice())?)
    }

    fn sound(&self) {}
}

// The reply to a text of JSON.
fn reply(alloc: Global, text: &[u8]) -> Result<TextReply, AllocError>
    ensures { IfOk result (λ reply. Replies RepliesBuilt text.now reply.text.items reply.status) }
{
    match read_json(alloc, text)? {
        Reading::Spelled(built) => reply_to_built(alloc, built.as_slice()),
        Reading::Refused(reply) => Ok(reply),
    }
}

// The reply to the text of statements that a value spells.
fn reply_to_built(alloc: Global, built: &[u8]) -> Result<TextReply, AllocError>
    ensures { IfOk result (λ reply. RepliesBuilt built.now reply.text.items reply.status) }
{
    match read_accepted(alloc, built) {
        Ok(accepted) => shown(alloc, &accepted.problem),
        Err(fault) => refuse(alloc, fault),
    }
}

// The canonical text of a problem.
fn shown(alloc: Global, problem: &Problem) -> Result<TextReply, AllocError>
    ensures text { IfOk result (λ reply. reply.text.items ≡ problem_text problem.now) }
    ensures status { IfOk result (λ reply. reply.status ≡ Status.Answered) }
{
    let mut text = TextSink::new(alloc);
    spelled(print_problem(alloc, problem, &mut text))?;
    Ok(TextReply {
        status: Status::Answered,
        text: text.into_bytes(),
    })
}
