//! The command that searches for a layout of a problem in JSON: `first_json`.
#![tactic(auto)]

mod first_json;
mod lines;
mod refuted;

pub use first_json::FirstJson;
