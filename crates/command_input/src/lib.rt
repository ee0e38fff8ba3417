//! What the program is called with: the words of a command, and the bounded reading of its texts.
#![tactic(auto)]

mod command;
mod read;
mod words;

pub use command::{BadWords, Command, PageRequest, Status};
pub use read::{MOST, ReadFault, read_first_text, read_two_texts, read_up_to, taken};
pub use words::read_words;
