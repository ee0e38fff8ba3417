//! Tests that compare the propagators with each other and with a listing of all layouts.
//!
//! For each problem of a table all tuples are judged one by one. What is left after the first
//! settle and what a search finds has to agree with the layouts among them, whatever the
//! propagator. What is too large to be listed is judged, and its first layout is counted by hand.
#![tactic(auto)]

#[cfg(test)]
mod tests;
