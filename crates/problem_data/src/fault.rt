//! A fault of statements, and which of two faults comes first.

ghost use Rattle.std.specs.Prelude.{◌≡◌};
ghost use Rattle.problem_data.specs.Least.{word_rank, is_after, earlier, fault_if};

use geo_tokens::fault::FaultWord;
use geo_tokens::first::{self, InOrder};

/// What is wrong at a place. The place is how many bytes of the text stand before it.
#[derive(Clone, Copy)]
pub struct Fault {
    pub place: u64,
    pub word: FaultWord,
}

/// Where each word stands in the order in which the words of one place are taken, in the order of the words.
const RANKS: [u8; 19] = [
    6, 7, 8, 9, 10, 0, 1, 2, 3, 4, 5, 11, 12, 13, 14, 15, 16, 17, 18,
];

/// Where the word stands in the order in which the words of one place are taken.
fn word_rank(word: FaultWord) -> u8
    ensures { result ≡ word_rank word }
{
    RANKS[word as usize]
}

impl InOrder for Fault {
    ghost comes_after = { is_after };

    fn is_after(&self, other: &Fault) -> bool {
        self.place > other.place
            || self.place == other.place && word_rank(self.word) > word_rank(other.word)
    }
}

/// The one of two that comes first: at the lesser place, and at one place by the order of the words.
pub fn earlier(a: Option<Fault>, b: Option<Fault>) -> Option<Fault>
    ensures { result ≡ earlier a b }
{
    first::earlier(a, b)
}

/// The fault, where there is one.
pub fn fault_if(wrong: bool, place: u64, word: FaultWord) -> Option<Fault>
    ensures { result ≡ fault_if wrong place word }
{
    if wrong {
        Some(Fault { place, word })
    } else {
        None
    }
}
