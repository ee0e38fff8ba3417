//! Where the first word `end` of an input ends: the first text goes up to there.

ghost use Rattle.std.specs.Prelude.{◌≡◌, ◌<◌, ◌≤◌, length, codes, MatchOption, IfSome};
ghost use Rattle.geo_tokens.specs.FirstEnd.{first_word, IsPassed, HasNoEnd, IsFirstEnd, IsOnlyEnd};

use crate::front::{after, line_len, word_len};

/// How many bytes are passed over at the front, where no word `end` stands there.
fn passed_len(bytes: &[u8]) -> Option<usize>
    requires { 0 < length bytes.now }
    ensures { MatchOption result (first_word bytes.now ≡ codes "end") (λ n. IsPassed n bytes.now) }
{
    let n = word_len(bytes);
    if n > 0 {
        if &bytes[..n] == b"end".as_slice() {
            None
        } else {
            Some(n)
        }
    } else if bytes[0] == b'#' {
        Some(line_len(bytes))
    } else {
        Some(1)
    }
}

/// The same, inside the bytes.
fn next_passed(bytes: &[u8]) -> Option<usize>
    requires { 0 < length bytes.now }
    ensures passed { MatchOption result (first_word bytes.now ≡ codes "end")
        (λ n. IsPassed n bytes.now) }
    ensures inside { MatchOption result (3 ≤ length bytes.now)
        (λ n. (0 < n) × (n ≤ length bytes.now)) }
{
    passed_len(bytes)
}

/// Passes over the text, up to a word `end`.
fn find_end(text: &[u8]) -> Option<usize>
    ensures value { MatchOption result (HasNoEnd text.now) (IsFirstEnd text.now) }
    ensures inside { IfSome result (λ e. e ≤ length text.now) }
{
    let mut rest = text;
    let mut place = 0usize;
    'pieces: while !rest.is_empty() {
        match next_passed(rest) {
            Some(n) => {
                place += n;
                rest = after(rest, n);
            }
            None => return Some(place + 3),
        }
    }
    None
}

/// Where the first word `end` of the text ends, counted in bytes; None where it has none. Takes no memory.
pub fn first_text_end(text: &[u8]) -> Option<usize>
    ensures value { MatchOption result (HasNoEnd text.now) (IsFirstEnd text.now) }
    ensures only { IsOnlyEnd result text.now }
    ensures inside { IfSome result (λ e. e ≤ length text.now) }
{
    find_end(text)
}
