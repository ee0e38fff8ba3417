//! What is written of a problem, in its canonical spelling and in JSON, does not depend on places;
//! and its value has the form.
#![tactic(auto)]

mod laws;

pub use laws::{
    lines_spell, places_are_not_written, problems_have_the_form, problems_return, sheets_read_back,
    sheets_state_all,
};
