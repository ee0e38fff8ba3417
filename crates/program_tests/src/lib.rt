//! Tests of the program: its answers to words and inputs, over sources and sinks of every kind.
#![tactic(auto)]

#[cfg(test)]
mod answers;
#[cfg(test)]
mod checking;
#[cfg(test)]
mod ends;
#[cfg(test)]
mod generated;
#[cfg(test)]
mod listing;
#[cfg(test)]
mod making;
#[cfg(test)]
mod nothing;
#[cfg(test)]
mod reach;
#[cfg(test)]
mod room;
