//! Shorter derivations: what no later step leans on is left out, and covers are cut into fewer
//! pieces.
//!
//! No clause says that what comes out is valid. Who prints it asks `is_derivation` of
//! `derivation_check`, whose yes is proved, and keeps the longer one where it says no.
#![tactic(auto)]

mod covers;
mod joins;
mod leans;
mod needed;
mod reach;
mod recalled;
mod refuted_boxes;
mod shorten;
mod walk;

pub use shorten::shortened;
