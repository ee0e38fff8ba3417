//! The block of a layout as a text.

ghost use Rattle.std.specs.Prelude.{◌≡◌, ◌++◌, IfOk};
ghost use Rattle.geo_chan.specs.Piece.{pieces_text};
ghost use Rattle.layout_text.specs.Block.{block_of};
ghost use Rattle.problem_data.specs.Cells.{IsShaped};

use command_input::Status;
use command_reply::{TextReply, TextSink, spelled};
use geo_chan::{Piece, write_pieces};
use geo_conditions::Layout;
use layout_text::print_layout;
use problem_data::problem::Problem;
use std::alloc::{AllocError, Global};

// These pieces, and behind them the block of a layout.
pub fn headed(
    alloc: Global,
    problem: &Problem,
    head: &[Piece<'_>],
    layout: &Layout,
    status: Status,
) -> Result<TextReply, AllocError>
    requires { IsShaped problem.now layout.now }
    ensures text { IfOk result (λ reply. reply.text.items
        ≡ pieces_text head.now ++ block_of problem.now layout.now) }
    ensures status { IfOk result (λ reply. reply.status ≡ status) }
{
    let mut text = TextSink::new(alloc);
    spelled(write_pieces(&mut text, head))?;
    spelled(print_layout(problem, layout, &mut text))?;
    Ok(TextReply {
        status,
        text: text.into_bytes(),
    })
}
