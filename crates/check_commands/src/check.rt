//! `check`: whether a derivation shows that a problem has no layout, else its first node that is
//! not valid.

ghost use Rattle.check_commands.specs.Check.{check_question};

use crate::front::take_front;
use crate::second::check_second;
use crate::verdicts::reply_to;
use command_input::ReadFault;
use command_reply::{Deciding, TextReply};
use geo_chan::Source;
use std::alloc::Global;

/// The command `check`.
#[derive(Clone, Copy)]
pub struct Check;

impl Deciding for Check {
    type Answer = TextReply;

    ghost question = { λ _. check_question };

    fn decide<S: Source>(&self, alloc: Global, source: &mut S) -> Result<TextReply, ReadFault> {
        let front = match take_front(alloc, source)? {
            Ok(front) => front,
            Err(fault) => return Ok(reply_to(alloc, Err(fault))?),
        };
        let accepted = &front.accepted;
        let conditions = accepted.conditions.as_slice();
        let found = check_second(alloc, &accepted.problem, conditions, &front.second, source)?;
        Ok(reply_to(alloc, found)?)
    }

    fn sound(&self) {}
}
