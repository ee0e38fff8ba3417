//! `to_json`: a problem as a value of JSON.

ghost use Rattle.std.specs.Prelude.{◌≡◌, IfOk};
ghost use Rattle.json_commands.specs.ToJson.{json_line, to_json_question};

use command_input::{ReadFault, Status};
use command_reply::{Deciding, TextReply, refuse, take_problem};
use geo_chan::Source;
use geo_json::problem_json_line;
use problem_data::problem::Problem;
use std::alloc::{AllocError, Global};

/// The command `to_json`.
#[derive(Clone, Copy)]
pub struct ToJson;

impl Deciding for ToJson {
    type Answer = TextReply;

    ghost question = { λ _. to_json_question };

    fn decide<S: Source>(&self, alloc: Global, source: &mut S) -> Result<TextReply, ReadFault> {
        match take_problem(alloc, source)? {
            Ok(accepted) => Ok(written(alloc, &accepted.problem)?),
            Err(fault) => Ok(refuse(alloc, fault)?),
        }
    }

    fn sound(&self) {}
}

// The problem's value as a line of text.
fn written(alloc: Global, problem: &Problem) -> Result<TextReply, AllocError>
    ensures text { IfOk result (λ reply. reply.text.items ≡ json_line problem.now) }
    ensures status { IfOk result (λ reply. reply.status ≡ Status.Answered) }
{
    Ok(TextReply {
        status: Status::Answered,
        text: problem_json_line(alloc, problem)?,
    })
}
