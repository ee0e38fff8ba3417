//! A word that comes byte by byte.

ghost use Rattle.std.specs.List.{prefix_len};
ghost use Rattle.std.specs.Prelude.{◌≡◌, ℕ, ◌<◌, ◌≤◌, ◌++◌, ◌∷◌, List, [], length};
ghost use Rattle.geo_tokens.specs.Bytes.{is_word_byte};
ghost use Rattle.token_stream.specs.Ended.{WordEnds};
ghost use Rattle.token_stream.specs.Run.{IsWord};
ghost use Rattle.token_stream.specs.Word.{IsWordOf, kept_bytes};

use crate::run::Ended;
use geo_tokens::fault::FaultWord;
use geo_tokens::lookup::reserved_word;
use geo_tokens::token::Kind;

/// The greatest number of bytes of a name.
const NAME_BYTES: usize = 40;

/// How many bytes came of a word, and the first of them.
#[derive(Drop)]
pub struct Word {
    len: usize,
    bytes: [u8; 40],
}

impl Word {
    /// No byte yet.
    pub fn new() -> Word
        ensures { IsWordOf result [] }
    {
        Word {
            len: 0,
            bytes: [0; 40],
        }
    }

    /// One byte more.
    pub fn push(&mut self, byte: u8)
        ensures { (rest : List ℕ) → length rest < usize.MAX → IsWordOf self.old rest
            → IsWordOf self.new (rest ++ byte ∷ []) }
    {
        if self.len < NAME_BYTES {
            self.bytes[self.len] = byte;
        }
        self.len = self.len.saturating_add(1);
    }

    /// Is these bytes from now on, where they are a name.
    pub fn set(&mut self, bytes: &[u8])
        ensures { length bytes.now ≤ 40 → kept_bytes self.new ≡ bytes.now }
    {
        self.len = 0;
        for byte in bytes {
            self.push(*byte);
        }
    }

    /// The bytes that are kept.
    pub fn bytes(&self) -> &[u8]
        ensures { result.now ≡ kept_bytes self.now }
    {
        if self.len < NAME_BYTES {
            &self.bytes[..self.len]
        } else {
            &self.bytes
        }
    }

    /// What the whole word is: a name, a reserved word, or too long.
    pub fn ended(&self) -> Ended
        ensures { WordEnds self.now result }
    {
        if self.len > NAME_BYTES {
            return Ended::Bad(FaultWord::Name);
        }
        match reserved_word(self.bytes()) {
            Some(word) => Ended::Token(Kind::Word(word)),
            None => Ended::Token(Kind::Name),
        }
    }
}
