//! The commands that read and write problems in JSON: `to_json` and `from_json`.
#![tactic(auto)]

mod from_json;
mod reading;
mod to_json;

pub use from_json::FromJson;
pub use reading::{Reading, read_json};
pub use to_json::ToJson;
