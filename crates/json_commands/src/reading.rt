//! The text of statements that a text of JSON spells.

ghost use Rattle.std.specs.Prelude.{◌≡◌, IfOk};
ghost use Rattle.json_commands.specs.Reading.{AnswersReading, no_form_text};

use command_input::Status;
use command_reply::{TextReply, refuse, reply_of};
use geo_chan::Piece;
use geo_tokens::fault::{FaultWord, TextFault};
use json_parts::JsonFault;
use json_sheets::built_of_text;
use std::alloc::{AllocError, Global};

/// The greatest number of bytes of a text.
const TEXT_BYTES: usize = 1_048_576;

/// What reading a text of JSON comes to.
#[derive(Drop)]
pub enum Reading {
    /// The text of statements that the text spells.
    Spelled(Vec<u8>),
    /// The text spells nothing, and is refused so.
    Refused(TextReply),
}

/// Reads a text of JSON: the text of statements that its value spells. A text of more than
/// 1,048,576 bytes, one that has no value, and one whose value has not the form of a problem, is
/// refused. The error is want of memory.
pub fn read_json(alloc: Global, text: &[u8]) -> Result<Reading, AllocError>
    ensures { IfOk result (AnswersReading text.now) }
{
    if text.len() > TEXT_BYTES {
        let fault = TextFault::At(TEXT_BYTES as u64, FaultWord::Long);
        return Ok(Reading::Refused(refuse(alloc, fault)?));
    }
    match built_of_text(alloc, text) {
        Ok(built) => Ok(Reading::Spelled(built)),
        Err(JsonFault::Form) => Ok(Reading::Refused(no_form(alloc)?)),
        Err(JsonFault::Memory) => Err(AllocError),
    }
}

// The reply to a text that has no value, or one that has not the form of a problem.
fn no_form(alloc: Global) -> Result<TextReply, AllocError>
    ensures text { IfOk result (λ reply. reply.text.items ≡ no_form_text) }
    ensures status { IfOk result (λ reply. reply.status ≡ Status.Refused) }
{
    reply_of(alloc, Status::Refused, &[Piece::Bytes(b"refused 0 json\n")])
}
