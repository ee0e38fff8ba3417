//! The names of a problem's formulas: whether each is known, and of the kind that stands where it stands.
//!
//! Each function walks over a part of a formula and gives the first mistake of that part. `check` goes over the macros and rules.
#![tactic(auto)]

pub mod calls;
pub mod check;
pub mod collections;
pub mod expressions;
pub mod fields;
pub mod formulas;
pub mod mistake;
pub mod scope;
pub mod table;
