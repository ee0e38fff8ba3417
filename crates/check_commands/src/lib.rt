//! The commands that judge a derivation behind a problem: `check` and `check_best`.
#![tactic(auto)]

mod check;
mod check_best;
mod front;
mod second;
mod verdicts;

pub use check::Check;
pub use check_best::CheckBest;
