//! The tokens of a text that comes byte by byte.

ghost use Rattle.std.specs.Prelude.{◌≡◌, ℕ, ◌+◌, ◌<◌, ◌≤◌, ◌++◌, ◌∷◌, List, [], length, take, IfSome, MatchOption, MatchBool, IsTrue, true, false};
ghost use Rattle.geo_tokens.specs.declared.token.Token.{Token};
ghost use Rattle.geo_tokens.specs.Bytes.{is_letter};
ghost use Rattle.token_stream.specs.declared.stream.Taken.TheVariants as takes;
ghost use Rattle.token_stream.specs.Ended.{StreamEnds};
ghost use Rattle.token_stream.specs.Run.{EndsAt, BeginsNone, is_word};
ghost use Rattle.token_stream.specs.Stream.{Has, HasRun, IsWhole, Takes, Finishes, name_of, token_at};
ghost use Rattle.token_stream.specs.Word.{IsWordOf};

use crate::run::{Ended, Run, mark_ended, number_ended};
use crate::word::Word;
use geo_tokens::fault::FaultWord;
use geo_tokens::front::{Front, is_white, next_front};
use geo_tokens::token::{Kind, Token};

/// What a byte, or the end of the text, completed.
#[derive(Clone, Copy)]
pub enum Taken {
    /// Nothing.
    Nothing,
    /// The token before the byte.
    Token(Token),
    /// What stands at this place is no token, for this reason.
    Fault(u64, FaultWord),
    /// The token before the byte; and the byte, at this place, begins none.
    TokenAndFault(Token, u64),
}

/// A text that comes byte by byte. Of the text only the run is kept that its last byte belongs to.
#[derive(Drop)]
pub struct TokenStream {
    count: u64,
    /// The place of the run.
    start: u64,
    run: Run,
    word: Word,
}

impl TokenStream {
    /// Before the first byte.
    pub fn start() -> TokenStream
        ensures { Has result [] [] }
    {
        TokenStream {
            count: 0,
            start: 0,
            run: Run::Space,
            word: Word::new(),
        }
    }

    /// How many bytes came.
    pub fn count(&self) -> u64
        ensures { result ≡ self.now.count }
    {
        self.count
    }

    /// The bytes of the name that was completed last.
    pub fn name(&self) -> &[u8]
        ensures { result.now ≡ name_of self.now }
    {
        self.word.bytes()
    }

    /// Takes the next byte.
    pub fn take(&mut self, byte: u8) -> Taken
        requires room { self.old.count < u64.MAX }
        ensures taken { (text : List ℕ) (ts : List Token) → Has self.old text ts
            → Takes self.new result (text ++ byte ∷ []) ts }
        ensures counted { self.new.count ≡ self.old.count + 1 }
    {
        if self.go_on(byte) {
            Taken::Nothing
        } else {
            self.turn(byte)
        }
    }

    /// Takes the token at the front of a piece and the byte behind it, and counts their bytes,
    /// where white space stands on both sides of it; else nothing.
    pub fn take_whole(&mut self, piece: &[u8]) -> Option<(usize, Token)>
        requires some { 0 < length piece.now }
        requires room { self.old.count + length piece.now ≤ u64.MAX }
        ensures taken { MatchOption result (self.new ≡ self.old) (λ t. (text : List ℕ)
            → (ts : List Token) → Has self.old text ts
            → Takes self.new (takes.Token t.1) (text ++ take t.0 piece.now) ts) }
        ensures bytes { IfSome result (λ t. (0 < t.0) × (t.0 ≤ length piece.now)) }
        ensures counted { IfSome result (λ t. self.new.count ≡ self.old.count + t.0) }
    {
        let (kind, n) = self.whole_token(piece)?;
        Some((n + 1, self.pass_over(kind, &piece[..n])))
    }

    /// The kind of the token at the front of a piece, and the number of its bytes, where white
    /// space stands on both sides of it.
    fn whole_token(&self, piece: &[u8]) -> Option<(Kind, usize)>
        requires some { 0 < length piece.now }
        ensures { IfSome result (λ t. IsWhole self.now t.0 t.1 piece.now) }
    {
        if let Run::Space = self.run {
            if let Front::Token(kind, n) = next_front(piece) {
                if n < piece.len() && is_white(piece[n]) {
                    return Some((kind, n));
                }
            }
        }
        None
    }

    /// Passes over the bytes of a token of this kind, and over the byte of white space behind them.
    fn pass_over(&mut self, kind: Kind, bytes: &[u8]) -> Token
        requires room { self.old.count + length bytes.now < u64.MAX }
        ensures token { result ≡ token_at kind self.old.count (self.old.count + length bytes.now) }
        ensures run { self.new.run ≡ Run.Space }
        ensures start { self.new.start ≡ self.old.count + length bytes.now }
        ensures count { self.new.count ≡ self.old.count + length bytes.now + 1 }
        ensures name { kind ≡ Kind.Name → length bytes.now ≤ 40 → name_of self.new ≡ bytes.now }
    {
        if let Kind::Name = kind {
            self.word.set(bytes);
        }
        let start = self.count;
        let end = start + bytes.len() as u64;
        self.run = Run::Space;
        self.start = end;
        self.count = end + 1;
        Token { kind, start, end }
    }

    /// The text has ended.
    pub fn finish(&self) -> Taken
        ensures { (text : List ℕ) (ts : List Token) → Has self.now text ts
            → Finishes self.now result text ts }
    {
        match self.ended(0) {
            Ended::Gap => Taken::Nothing,
            Ended::Token(kind) => Taken::Token(Token {
                kind,
                start: self.start,
                end: self.count,
            }),
            Ended::Bad(word) => Taken::Fault(self.start, word),
        }
    }

    /// The run is now this one, and the byte is its last one.
    fn put(&mut self, run: Run, byte: u8)
        requires room { self.old.count < u64.MAX }
        ensures run { self.new.run ≡ run }
        ensures start { self.new.start ≡ self.old.start }
        ensures counted { self.new.count ≡ self.old.count + 1 }
        ensures word { is_word run ≡ true → (rest : List ℕ) → length rest < u64.MAX
            → IsWordOf self.old.word rest → IsWordOf self.new.word (rest ++ byte ∷ []) }
        ensures no_word { is_word run ≡ false → self.new.word ≡ self.old.word }
    {
        self.run = run;
        self.count += 1;
        if let Run::Word = run {
            self.word.push(byte);
        }
    }

    /// Takes the byte where the run goes on with it.
    fn go_on(&mut self, byte: u8) -> bool
        requires room { self.old.count < u64.MAX }
        ensures start { self.new.start ≡ self.old.start }
        ensures on { IsTrue result → (rest : List ℕ) → HasRun self.old rest
            → HasRun self.new (rest ++ byte ∷ []) }
        ensures counted { IsTrue result → self.new.count ≡ self.old.count + 1 }
        ensures over { result ≡ false → EndsAt self.old.run byte }
        ensures same { result ≡ false → self.new ≡ self.old }
    {
        match self.run.with(byte) {
            Some(run) => {
                self.put(run, byte);
                true
            }
            None => false,
        }
    }

    /// The byte begins a run, unless it begins none.
    fn begin(&mut self, byte: u8) -> bool
        requires room { self.old.count < u64.MAX }
        ensures counted { self.new.count ≡ self.old.count + 1 }
        ensures begun { MatchBool result
            (HasRun self.new (byte ∷ []) × (self.new.start ≡ self.old.count)) (BeginsNone byte) }
        ensures word { is_letter byte ≡ false → self.new.word ≡ self.old.word }
    {
        match Run::begin(byte) {
            Some(run) => {
                self.start = self.count;
                if let Run::Word = run {
                    self.word = Word::new();
                }
                self.put(run, byte);
                true
            }
            None => {
                self.count += 1;
                false
            }
        }
    }

    /// What the run is, where it does not go on into the bytes behind it.
    /// The next of them is 0 where there is none.
    fn ended(&self, next: u8) -> Ended
        ensures end { StreamEnds self.now result next }
        ensures name { result ≡ Ended.Token Kind.Name → is_word self.now.run ≡ true }
    {
        match self.run {
            Run::Space | Run::Comment => Ended::Gap,
            Run::Word => self.word.ended(),
            Run::Digits(value) => number_ended(value, next),
            Run::Mark(byte) => mark_ended(byte),
            Run::Pair(symbol) => Ended::Token(Kind::Symbol(symbol)),
        }
    }

    /// Ends the run, and begins one with the byte.
    fn turn(&mut self, byte: u8) -> Taken
        requires room { self.old.count < u64.MAX }
        ensures taken { EndsAt self.old.run byte → (text : List ℕ) (ts : List Token)
            → Has self.old text ts → Takes self.new result (text ++ byte ∷ []) ts }
        ensures counted { self.new.count ≡ self.old.count + 1 }
    {
        let start = self.start;
        let end = self.count;
        match self.ended(byte) {
            Ended::Gap => {
                if self.begin(byte) {
                    Taken::Nothing
                } else {
                    Taken::Fault(end, FaultWord::Byte)
                }
            }
            Ended::Token(kind) => {
                let token = Token { kind, start, end };
                if self.begin(byte) {
                    Taken::Token(token)
                } else {
                    Taken::TokenAndFault(token, end)
                }
            }
            Ended::Bad(word) => {
                self.count += 1;
                Taken::Fault(start, word)
            }
        }
    }
}
