//! Rules of a problem: their names and kinds, and the same rules without macros.
#![tactic(auto)]

mod degree;
pub mod expressions;
pub mod formulas;
mod handed;
pub mod limits;
mod make;
pub mod plain;
pub mod rules;
pub mod scope;
pub mod table;
