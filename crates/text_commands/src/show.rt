//! `show`: a problem in its canonical spelling.

ghost use Rattle.std.specs.Prelude.{◌≡◌, IfOk};
ghost use Rattle.problem_text.specs.Canonical.{problem_text};
ghost use Rattle.text_commands.specs.Show.{show_question};

use command_input::{ReadFault, Status};
use command_reply::{Deciding, TextReply, TextSink, refuse, spelled, take_problem};
use geo_chan::Source;
use problem_data::problem::Problem;
use problem_text::print::print_problem;
use std::alloc::{AllocError, Global};

/// The command `show`.
#[derive(Clone, Copy)]
pub struct Show;

impl Deciding for Show {
    type Answer = TextReply;

    ghost question = { λ _. show_question };

    fn decide<S: Source>(&self, alloc: Global, source: &mut S) -> Result<TextReply, ReadFault> {
        match take_problem(alloc, source)? {
            Ok(accepted) => Ok(shown(alloc, &accepted.problem)?),
            Err(fault) => Ok(refuse(alloc, fault)?),
        }
    }

    fn sound(&self) {}
}

// The canonical text of a problem.
fn shown(alloc: Global, problem: &Problem) -> Result<TextReply, AllocError>
    ensures text { IfOk result (λ reply. reply.text.items ≡ problem_text problem.now) }
    ensures status { IfOk result (λ reply. reply.status ≡ Status.Answered) }
{
    let mut text = TextSink::new(alloc);
    spelled(print_problem(alloc, problem, &mut text))?;
    Ok(TextReply {
        status: Status::Answered,
        text: text.into_bytes(),
    })
}
