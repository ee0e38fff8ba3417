//! Tokens of a text, and reading lists of tokens by a grammar with one token of lookahead.
#![tactic(auto)]

pub mod fault;
pub mod first;
pub mod first_end;
pub mod front;
pub mod lexer;
pub mod lookup;
pub mod name;
pub mod names;
pub mod stop;
pub mod token;
