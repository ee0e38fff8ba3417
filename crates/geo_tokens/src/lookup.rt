//! Which reserved word or symbol some bytes spell.

ghost use Rattle.std.specs.Prelude.{◌≡◌, ◌∷◌, [], false, length, MatchOption};
ghost use Rattle.geo_tokens.specs.Class.{word_bytes, symbol_bytes};
ghost use Rattle.geo_tokens.specs.Spelled.{spelled_as, begins_word, long_symbols, short_symbols};
ghost use Rattle.geo_tokens.specs.declared.token.Keyword.{Keyword};

use crate::token::{Keyword, Sym, word_text};

/// The one of these reserved words that is spelled so.
fn word_among(words: &[Keyword], bytes: &[u8]) -> Option<Keyword>
    ensures { result ≡ spelled_as word_bytes words.now bytes.now }
{
    match words {
        [first, rest @ ..] => {
            if bytes == word_text(*first) {
                Some(*first)
            } else {
                word_among(rest, bytes)
            }
        }
        [] => None,
    }
}

/// The reserved words of two bytes, and those of three to seven.
const OF_TWO: [Keyword; 6] = [
    Keyword::As,
    Keyword::At,
    Keyword::Is,
    Keyword::Or,
    Keyword::In,
    Keyword::Of,
];

const OF_THREE: [Keyword; 12] = [
    Keyword::Box,
    Keyword::Low,
    Keyword::End,
    Keyword::Not,
    Keyword::And,
    Keyword::Iff,
    Keyword::Div,
    Keyword::Mod,
    Keyword::Min,
    Keyword::Max,
    Keyword::Int,
    Keyword::Qed,
];

const OF_FOUR: [Keyword; 6] = [
    Keyword::Dims,
    Keyword::Size,
    Keyword::With,
    Keyword::High,
    Keyword::Rule,
    Keyword::True,
];

const OF_FIVE: [Keyword; 10] = [
    Keyword::Geost,
    Keyword::Shape,
    Keyword::Order,
    Keyword::Sides,
    Keyword::Macro,
    Keyword::Means,
    Keyword::Apart,
    Keyword::False,
    Keyword::Boxes,
    Keyword::Token,
];

const OF_SIX: [Keyword; 7] = [
    Keyword::Object,
    Keyword::Within,
    Keyword::ForAll,
    Keyword::Exists,
    Keyword::AtMost,
    Keyword::Layout,
    Keyword::Absent,
];

const OF_SEVEN: [Keyword; 3] = [Keyword::Implies, Keyword::AtLeast, Keyword::Objects];

/// Whether a reserved word of so many bytes begins with this one.
fn begins_word(len: usize, first: u8) -> bool
    ensures { result ≡ begins_word len first }
{
    match len {
        2 => first == b'a' || first == b'i' || first == b'o',
        3 => {
            first == b'a'
                || first == b'b'
                || first == b'd'
                || first == b'e'
                || first == b'i'
                || first == b'l'
                || first == b'm'
                || first == b'n'
                || first == b'q'
        }
        4 => {
            first == b'd'
                || first == b'h'
                || first == b'r'
                || first == b's'
                || first == b't'
                || first == b'w'
        }
        5 => {
            first == b'a'
                || first == b'b'
                || first == b'f'
                || first == b'g'
                || first == b'm'
                || first == b'o'
                || first == b's'
                || first == b't'
        }
        6 => {
            first == b'a'
                || first == b'e'
                || first == b'f'
                || first == b'l'
                || first == b'o'
                || first == b'w'
        }
        7 => first == b'a' || first == b'i' || first == b'o',
        _ => false,
    }
}

/// Whether a word may be a reserved one, by its length and its first byte.
fn may_be_reserved(bytes: &[u8]) -> bool
    ensures { result ≡ false → (w : Keyword) → bytes.now ≡ word_bytes w → ⊥ }
{
    match bytes {
        [first, ..] => begins_word(bytes.len(), *first),
        [] => false,
    }
}

/// The one of the reserved words of so many bytes that is spelled so.
fn word_of_length(bytes: &[u8]) -> Option<Keyword>
    ensures { MatchOption result ((w : Keyword) → bytes.now ≡ word_bytes w → ⊥)
        (λ w. bytes.now ≡ word_bytes w) }
{
    match bytes.len() {
        2 => word_among(&OF_TWO, bytes),
        3 => word_among(&OF_THREE, bytes),
        4 => word_among(&OF_FOUR, bytes),
        5 => word_among(&OF_FIVE, bytes),
        6 => word_among(&OF_SIX, bytes),
        7 => word_among(&OF_SEVEN, bytes),
        _ => None,
    }
}

/// The reserved word that is spelled so.
pub fn reserved_word(bytes: &[u8]) -> Option<Keyword>
    ensures { MatchOption result ((w : Keyword) → bytes.now ≡ word_bytes w → ⊥)
        (λ w. bytes.now ≡ word_bytes w) }
{
    if may_be_reserved(bytes) {
        word_of_length(bytes)
    } else {
        None
    }
}

/// The symbol that these two bytes spell.
pub fn long_symbol(first: u8, second: u8) -> Option<Sym>
    ensures { result ≡ spelled_as symbol_bytes long_symbols (first ∷ second ∷ []) }
{
    if first == b'.' && second == b'.' {
        Some(Sym::DotDot)
    } else if first == b'<' && second == b'=' {
        Some(Sym::LessEqual)
    } else if first == b'>' && second == b'=' {
        Some(Sym::GreaterEqual)
    } else if first == b'!' && second == b'=' {
        Some(Sym::NotEqual)
    } else {
        None
    }
}

/// The symbol that this byte spells.
pub fn short_symbol(first: u8) -> Option<Sym>
    ensures { result ≡ spelled_as symbol_bytes short_symbols (first ∷ []) }
{
    if first == b'.' {
        Some(Sym::Dot)
    } else if first == b',' {
        Some(Sym::Comma)
    } else if first == b':' {
        Some(Sym::Colon)
    } else if first == b';' {
        Some(Sym::Semicolon)
    } else if first == b'(' {
        Some(Sym::ParenOpen)
    } else if first == b')' {
        Some(Sym::ParenClose)
    } else if first == b'[' {
        Some(Sym::BracketOpen)
    } else if first == b']' {
        Some(Sym::BracketClose)
    } else if first == b'+' {
        Some(Sym::Plus)
    } else if first == b'-' {
        Some(Sym::Minus)
    } else if first == b'*' {
        Some(Sym::Star)
    } else if first == b'/' {
        Some(Sym::Slash)
    } else if first == b'<' {
        Some(Sym::Less)
    } else if first == b'>' {
        Some(Sym::Greater)
    } else if first == b'=' {
        Some(Sym::Equal)
    } else if first == b'@' {
        Some(Sym::At)
    } else if first == b'$' {
        Some(Sym::Dollar)
    } else {
        None
    }
}
