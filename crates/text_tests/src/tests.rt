//! Texts that are read, refused and written, against tables by hand.

mod answer;
mod boxes;
mod derivations;
mod drawings;
mod formulas;
mod mistakes;
mod names;
mod problems;
mod spellings;
mod statements;
mod streams;
mod tokens;
mod tuple_tokens;
