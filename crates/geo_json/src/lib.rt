//! Problems and layouts as values of JSON.
#![tactic(auto)]

mod layout;
mod line;
mod names;
mod object;
mod problem;
mod texts;

pub use layout::layout_to_json;
pub use line::{layout_json_line, problem_json_line};
pub use problem::problem_to_json;
