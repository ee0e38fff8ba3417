//! The reply to a search: a text, or a text and a derivation behind it that shows that there is no
//! layout.

ghost use Rattle.search_commands.specs.Refuted.{is_search_ready, search_says};

use crate::refutation::{Refutation, write_refutation};
use command_input::Status;
use command_reply::{Reply, TextReply};
use geo_chan::{PutFault, Sink};
use std::alloc::Global;

/// What a search replies.
#[derive(Drop)]
pub enum SearchReply {
    /// A text.
    Text(TextReply),
    /// A text, and behind it `none` and a derivation.
    Refuted(TextReply, Refutation),
}

impl Reply for SearchReply {
    ghost says = { search_says };

    ghost ready = { is_search_ready };

    fn write<W: Sink>(self, alloc: Global, sink: &mut W) -> Result<Status, PutFault> {
        match self {
            SearchReply::Text(text) => text.write(alloc, sink),
            SearchReply::Refuted(text, refutation) => {
                let status = text.write(alloc, sink)?;
                write_refutation(&refutation, sink)?;
                Ok(status)
            }
        }
    }
}
