//! Problems whose texts have white space and comments behind them.
#![tactic(auto)]

mod laws;

pub use laws::{fronts_are_accepted, fronts_stay};
