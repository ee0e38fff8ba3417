//! `draw`: the cells of a layout, as rows of signs.

ghost use Rattle.std.specs.Prelude.{IfOk, ℕ, List};
ghost use Rattle.command_reply.specs.Given.{IsGiven};
ghost use Rattle.command_reply.specs.Question.{AnswersInput};
ghost use Rattle.command_reply.specs.Reply.{IsSaid};
ghost use Rattle.layout_commands.specs.Draw.{DrawAnswer, draw_question};

use command_input::{ReadFault, Status};
use command_reply::{Deciding, Given, TextReply, refuse, reply_of, take_given};
use geo_chan::{Piece, Source};
use layout_drawing::drawing;
use std::alloc::{AllocError, Global};

/// The command `draw`.
#[derive(Clone, Copy)]
pub struct Draw;

impl Deciding for Draw {
    type Answer = TextReply;

    ghost question = { λ _. draw_question };

    fn decide<S: Source>(&self, alloc: Global, source: &mut S) -> Result<TextReply, ReadFault> {
        match take_given(alloc, source)? {
            Ok(given) => Ok(drawn(alloc, &given)?),
            Err(fault) => Ok(refuse(alloc, fault)?),
        }
    }

    fn sound(&self) {}
}

// What is replied to a problem and a layout of it.
fn drawn(alloc: Global, given: &Given) -> Result<TextReply, AllocError>
    requires { (input : List ℕ) × IsGiven input given.now }
    ensures { IfOk result (λ reply. (input : List ℕ) → IsGiven input given.now
        → AnswersInput DrawAnswer input (IsSaid reply.text.items reply.status)) }
{
    match drawing(alloc, &given.accepted.problem, &given.layout)? {
        Some(text) => Ok(TextReply {
            status: Status::Answered,
            text,
        }),
        None => reply_of(alloc, Status::No, &[Piece::Bytes(b"large\n")]),
    }
}
