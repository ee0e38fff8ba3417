//! What is written where a walk goes on past its budget.

ghost use Rattle.std.specs.Prelude.{◌≡◌, IfOk};
ghost use Rattle.geo_chan.specs.Written.{Prints};
ghost use Rattle.search_commands.specs.First.{out_of_budget};

use command_input::Status;
use command_reply::{TextReply, TextSink, spelled};
use geo_chan::{Piece, PutFault, Sink, write_pieces};
use std::alloc::{AllocError, Global};

// Writes that a walk goes on past its budget.
pub fn write_budget<W: Sink>(sink: &mut W, most: u64) -> Result<(), PutFault>
    ensures { Prints W.written W.faults W.quiet sink.old sink.new result (out_of_budget most) }
{
    let pieces = [
        Piece::Bytes(b"budget "),
        Piece::Number(most as i128),
        Piece::Bytes(b"\n"),
    ];
    write_pieces(sink, &pieces)
}

// The reply that the walk goes on past so many members.
pub fn spent(alloc: Global, most: u64) -> Result<TextReply, AllocError>
    ensures text { IfOk result (λ reply. reply.text.items ≡ out_of_budget most) }
    ensures status { IfOk result (λ reply. reply.status ≡ Status.Budget) }
{
    let mut text = TextSink::new(alloc);
    spelled(write_budget(&mut text, most))?;
    Ok(TextReply {
        status: Status::Budget,
        text: text.into_bytes(),
    })
}
