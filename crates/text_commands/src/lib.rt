//! The commands that spell a problem in another way: `show`.
#![tactic(auto)]

mod show;

pub use show::Show;
