//! The laws of the places of a problem: what its rules ask for does not depend on them, as long as
//! macros stand before the statements that call them.
#![tactic(auto)]

mod laws;

pub use laws::{
    macros_may_stand_first, order_matters, places_do_not_matter, texts_keep_conditions,
};
