//! Printed derivations: what is printed where a problem has no layout is read back as the
//! derivation that was found.
#![tactic(auto)]

mod laws;
mod printable;

pub use laws::{are_all_limited, are_all_named, is_read_back, is_read_back_behind};
pub use printable::is_printable;
