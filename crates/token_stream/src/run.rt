//! The run of bytes at the end of what came, which the next byte may go on with.

ghost use Rattle.std.specs.Prelude.{◌≡◌, ℕ, ◌+◌, ◌-◌, ◌*◌, ◌++◌, ◌∷◌, List, [], length, slice_index, MatchOption, true};
ghost use Rattle.std.specs.List.{prefix_len};
ghost use Rattle.geo_tokens.specs.Bytes.{is_digit, value_of};
ghost use Rattle.token_stream.specs.Ended.{RunEnds};
ghost use Rattle.token_stream.specs.Run.{IsRun, EndsAt, GoesOn, BeginsNone, IsValue};

use geo_tokens::fault::FaultWord;
use geo_tokens::front::{is_digit, is_letter, is_white, is_word_byte};
use geo_tokens::lookup::{long_symbol, short_symbol};
use geo_tokens::token::{Kind, Sym};

/// The greatest value of a number.
const GREATEST: u64 = 1_000_000_000;

/// The byte that ends a comment.
const LINE_END: u8 = b'\n';

/// A run of bytes that may go on.
#[derive(Clone, Copy)]
pub enum Run {
    /// Nothing, or a byte of white space.
    Space,
    Comment,
    /// A name or a reserved word.
    Word,
    /// Digits, with their value, or another one that is too large where theirs is.
    Digits(u64),
    /// A byte that begins a symbol.
    Mark(u8),
    /// A symbol of two bytes.
    Pair(Sym),
}

/// What a run is, once it has ended.
pub enum Ended {
    /// White space, a comment, or nothing.
    Gap,
    Token(Kind),
    /// None of these, for this reason.
    Bad(FaultWord),
}

/// The value of digits with one digit more.
fn with_digit(value: u64, digit: u8) -> u64
    ensures { (x : ℕ) → IsValue value x → IsValue result (10 * x + (digit - 48)) }
{
    let ten = value.saturating_mul(10);
    ten.saturating_add(u64::from(digit.saturating_sub(b'0')))
}

/// What digits of this value are, in front of a byte that is none.
pub fn number_ended(value: u64, next: u8) -> Ended
    ensures end { RunEnds (Run.Digits value) result next }
    ensures no_name { result ≡ Ended.Token Kind.Name → ⊥ }
{
    if is_letter(next) || value > GREATEST {
        Ended::Bad(FaultWord::Number)
    } else {
        Ended::Token(Kind::Number(value as u32))
    }
}

/// What a byte is that begins a symbol, where no symbol of two bytes stands.
pub fn mark_ended(mark: u8) -> Ended
    ensures end { (next : ℕ) → RunEnds (Run.Mark mark) result next }
    ensures no_name { result ≡ Ended.Token Kind.Name → ⊥ }
{
    match short_symbol(mark) {
        Some(symbol) => Ended::Token(Kind::Symbol(symbol)),
        None => Ended::Bad(FaultWord::Byte),
    }
}

impl Run {
    /// The run that a byte begins.
    pub fn begin(byte: u8) -> Option<Run>
        ensures { MatchOption result (BeginsNone byte) (λ run. IsRun run (byte ∷ [])) }
    {
        if is_white(byte) {
            Some(Run::Space)
        } else if byte == b'#' {
            Some(Run::Comment)
        } else if is_letter(byte) {
            Some(Run::Word)
        } else if is_digit(byte) {
            Some(Run::Digits(with_digit(0, byte)))
        } else if byte == b'!' || short_symbol(byte).is_some() {
            Some(Run::Mark(byte))
        } else {
            None
        }
    }

    /// The run with the byte behind it, where it goes on.
    pub fn with(self, byte: u8) -> Option<Run>
        ensures { MatchOption result (EndsAt self byte) (λ run. GoesOn self run byte) }
    {
        match self {
            Run::Comment if byte != LINE_END => Some(Run::Comment),
            Run::Word if is_word_byte(byte) => Some(Run::Word),
            Run::Digits(value) if is_digit(byte) => Some(Run::Digits(with_digit(value, byte))),
            Run::Mark(first) => match long_symbol(first, byte) {
                Some(symbol) => Some(Run::Pair(symbol)),
                None => None,
            },
            _ => None,
        }
    }
}
