//! The parts of a problem as values of JSON, and read from them.
#![tactic(auto)]

mod fault;
mod line;
mod list;
mod members;
mod number;
mod object;
mod pair;
mod shape;
mod side;
mod text;
mod traits;

pub use fault::JsonFault;
pub use line::json_line;
pub use list::list_to_json;
pub use members::Members;
pub use pair::{pair_to_json, read_pair};
pub use text::{FreeText, text_to_json};
pub use traits::{FromJson, ToJson};
