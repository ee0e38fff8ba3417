//! What the commands share: the problem and the layout that an input gives, what a command asks and
//! answers, and one way to carry any of them out.
#![tactic(auto)]

mod accepted;
mod deciding;
mod given;
mod reply;
mod taking;
mod text_sink;

pub use accepted::{Accepted, read_accepted};
pub use deciding::{Deciding, carry_out};
pub use given::Given;
pub use reply::{Reply, TextReply, bad_dimension, refuse, reply_of, spelled};
pub use taking::{take_given, take_given_in, take_problem};
pub use text_sink::TextSink;
