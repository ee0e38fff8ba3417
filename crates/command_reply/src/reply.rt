//! What a command replies, and how that is written.

ghost use Rattle.std.specs.Prelude.{◌≡◌, Ok, ℕ, List, IfOk, IsErrOf, codes, true};
ghost use Rattle.geo_chan.specs.Piece.{pieces_text};
ghost use Rattle.geo_tokens.specs.declared.fault.FaultWord.{FaultWord as FaultWordOf};
ghost use Rattle.geo_tokens.specs.declared.fault.TextFault.TheVariants as faults;
ghost use Rattle.command_input.specs.declared.command.Status.{Status as StatusOf};
ghost use Rattle.command_reply.specs.Refusal.{refusal};
ghost use Rattle.command_reply.specs.Reply.{WritesReply};

use crate::TextSink;
use command_input::Status;
use geo_chan::{Piece, PutFault, Sink, write_all_bytes, write_pieces};
use geo_tokens::fault::{TextFault, fault_text};
use std::alloc::{AllocError, Global};

/// What is to be written.
pub trait Reply {
    /// The texts that it may come to, each with the status of a run that has written it.
    ghost says: { Self → List ℕ → StatusOf → Type 0 };

    /// That it can be written.
    ghost ready: { Self → Type 0 };

    /// Writes one of these texts, and gives its status. After a fault a front part of one was
    /// written. Over a quiet sink memory is wanted only where the sink is as it was.
    fn write<W: Sink>(self, alloc: Global, sink: &mut W) -> Result<Status, PutFault>
        requires { ready self }
        ensures reply { WritesReply (says self) (W.written sink.old) (W.written sink.new)
            (W.faults sink.old) (W.faults sink.new) (W.quiet sink.old) (W.quiet sink.new) result }
        ensures unwritten { W.quiet sink.old ≡ true → IsErrOf result PutFault.Memory
            → sink.new ≡ sink.old };
}

/// A text that was spelled whole, and its status.
#[derive(Drop)]
pub struct TextReply {
    pub status: Status,
    pub text: Vec<u8>,
}

impl Reply for TextReply {
    ghost use Rattle.command_reply.specs.Reply.{IsSaid};

    ghost says = { λ r. IsSaid r.text.items r.status };

    ghost ready = { λ _. Unit {0} };

    fn write<W: Sink>(self, _alloc: Global, sink: &mut W) -> Result<Status, PutFault> {
        write_all_bytes(sink, self.text.as_slice())?;
        Ok(self.status)
    }
}

/// The reply of these pieces.
pub fn reply_of(
    alloc: Global,
    status: Status,
    pieces: &[Piece<'_>],
) -> Result<TextReply, AllocError>
    ensures text { IfOk result (λ reply. reply.text.items ≡ pieces_text pieces.now) }
    ensures status { IfOk result (λ reply. reply.status ≡ status) }
{
    let mut text = TextSink::new(alloc);
    spelled(write_pieces(&mut text, pieces))?;
    Ok(TextReply {
        status,
        text: text.into_bytes(),
    })
}

/// What came of spelling into memory: a text in memory has no faults, so all that can stop it is
/// want of memory.
pub fn spelled(written: Result<(), PutFault>) -> Result<(), AllocError>
    ensures { IfOk result (λ done. written ≡ Ok done) }
{
    match written {
        Ok(()) => Ok(()),
        Err(_) => Err(AllocError),
    }
}

/// The reply to a problem that has not the dimension that is asked for.
pub fn bad_dimension(alloc: Global) -> Result<TextReply, AllocError>
    ensures text { IfOk result (λ reply. reply.text.items ≡ codes "bad dimension\n") }
    ensures status { IfOk result (λ reply. reply.status ≡ Status.BadDimension) }
{
    let pieces = [Piece::Bytes(b"bad dimension\n")];
    reply_of(alloc, Status::BadDimension, &pieces)
}

/// The reply to a text with that fault. Want of memory stays one.
pub fn refuse(alloc: Global, fault: TextFault) -> Result<TextReply, AllocError>
    ensures { IfOk result (λ reply. (place : ℕ) × (word : FaultWordOf)
        × (fault ≡ faults.At place word) × (reply.text.items ≡ refusal place word)
        × (reply.status ≡ Status.Refused)) }
{
    match fault {
        TextFault::At(place, word) => {
            let pieces = [
                Piece::Bytes(b"refused "),
                Piece::Number(place as i128),
                Piece::Bytes(b" "),
                Piece::Bytes(fault_text(word)),
                Piece::Bytes(b"\n"),
            ];
            reply_of(alloc, Status::Refused, &pieces)
        }
        TextFault::Memory => Err(AllocError),
    }
}
