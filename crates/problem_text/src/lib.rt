//! Problems: from a text to the problem that it spells or to its first fault, and back to the
//! canonical text.
//!
//! A text is read in four steps: tokens, statements (`problem_syntax`), their first fault
//! (`statement_faults`), and the problem that they spell (`build`). `print` writes a problem.
#![tactic(auto)]

pub mod build;
pub mod names;
pub mod print;
pub mod read;
pub mod stated;

pub use problem_data::problem::with_rules;
