//! Ends and caps, rounds of searches, parts of a problem, and orders, against tables by hand.

mod best;
mod caps;
mod cores;
mod ends;
mod loads;
mod parts;
mod problems;
mod tokens;
