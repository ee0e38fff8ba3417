//! Reading the text of a derivation, in pieces.
#![tactic(auto)]

mod feeder;
mod laws;
mod names;
mod production;
mod symbol;

pub use feeder::{Feeder, Progress, read_derivation};
pub use laws::{table_reads_the_language, texts_have_one_tree};
pub use production::{Behind, Outcome, next};
pub use symbol::{Part, Sign, Symbol, Terminal, terminal_of};
