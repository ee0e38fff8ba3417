//! What is replied to what a check found.

ghost use Rattle.std.specs.Prelude.{◌≡◌, IfOk};
ghost use Rattle.check_commands.specs.Checks.{IsReplyTo};

use command_input::Status;
use command_reply::{TextReply, refuse, reply_of};
use derivation_check::Checked;
use geo_chan::Piece;
use geo_tokens::fault::TextFault;
use std::alloc::{AllocError, Global};

/// The reply to what was found: `yes`, or the first node that is not valid, or the first fault of
/// the two texts.
pub fn reply_to(alloc: Global, found: Result<Checked, TextFault>) -> Result<TextReply, AllocError>
    ensures { IfOk result (λ reply. IsReplyTo found reply.text.items reply.status) }
{
    match found {
        Ok(Checked::Yes) => reply_of(alloc, Status::Answered, &[Piece::Bytes(b"yes\n")]),
        Ok(Checked::No(node)) => {
            let pieces = [
                Piece::Bytes(b"no "),
                Piece::Number(node as i128),
                Piece::Bytes(b"\n"),
            ];
            reply_of(alloc, Status::No, &pieces)
        }
        Err(fault) => refuse(alloc, fault),
    }
}
