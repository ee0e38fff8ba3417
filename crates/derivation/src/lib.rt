//! The events of a derivation, and what takes them down.
#![tactic(auto)]

mod event;
mod half;
mod laws;
mod log;
mod recorder;
mod renumbering;
mod side;

pub use event::Event;
pub use half::Half;
pub use laws::covers_stay;
pub use log::Log;
pub use recorder::{NoRecord, Recorder};
pub use renumbering::Renumbering;
pub use side::Side;
