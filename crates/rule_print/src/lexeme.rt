//! Lexemes, and which of them stand close to each other.

ghost use Rattle.std.specs.Prelude.{◌≡◌, ◌++◌, ◌∷◌, [], IfOk, map, if◌then◌else◌};
ghost use Rattle.rule_print.specs.Canonical.{written, name, number, word, symbol, spelling, opens, closes, is_called, is_open, is_dot, is_name, close};

use geo_tokens::token::{Keyword, Sym, symbol_text, word_text};
use itoa::Buffer;
use rule_syntax::tree::PlacedName;
use std::alloc::AllocError;

/// A token as it is written.
#[derive(Clone, Copy)]
pub enum Lexeme<'a> {
    /// A name, by its bytes.
    Name(&'a [u8]),
    /// A number.
    Number(u64),
    /// A reserved word.
    Word(Keyword),
    /// A symbol.
    Symbol(Sym),
    /// The `-` of an int, which stands close to its number. The `-` of a formula is a symbol.
    Sign,
}

/// No space stands behind it, but for a `.`.
fn opens(lexeme: Lexeme<'_>) -> bool
    ensures { result ≡ opens (written lexeme.entry) }
{
    match lexeme {
        Lexeme::Symbol(Sym::DotDot) => true,
        Lexeme::Symbol(Sym::At) => true,
        Lexeme::Symbol(Sym::Dollar) => true,
        Lexeme::Symbol(Sym::ParenOpen) => true,
        Lexeme::Sign => true,
        _ => false,
    }
}

/// No space stands before it.
fn closes(lexeme: Lexeme<'_>) -> bool
    ensures { result ≡ closes (written lexeme.entry) }
{
    match lexeme {
        Lexeme::Symbol(Sym::DotDot) => true,
        Lexeme::Symbol(Sym::Dot) => true,
        Lexeme::Symbol(Sym::Comma) => true,
        Lexeme::Symbol(Sym::ParenClose) => true,
        _ => false,
    }
}

/// No space stands between it and a `(`.
fn is_called(lexeme: Lexeme<'_>) -> bool
    ensures { result ≡ is_called (written lexeme.entry) }
{
    match lexeme {
        Lexeme::Name(_) => true,
        Lexeme::Word(Keyword::Min) => true,
        Lexeme::Word(Keyword::Max) => true,
        _ => false,
    }
}

fn is_open(lexeme: Lexeme<'_>) -> bool
    ensures { result ≡ is_open (written lexeme.entry) }
{
    match lexeme {
        Lexeme::Symbol(Sym::ParenOpen) => true,
        _ => false,
    }
}

fn is_dot(lexeme: Lexeme<'_>) -> bool
    ensures { result ≡ is_dot (written lexeme.entry) }
{
    match lexeme {
        Lexeme::Symbol(Sym::Dot) => true,
        _ => false,
    }
}

fn is_name(lexeme: Lexeme<'_>) -> bool
    ensures { result ≡ is_name (written lexeme.entry) }
{
    match lexeme {
        Lexeme::Name(_) => true,
        _ => false,
    }
}

/// No space stands between the two.
pub fn is_close(before: Lexeme<'_>, behind: Lexeme<'_>) -> bool
    ensures { result ≡ close (written before.entry) (written behind.entry) }
{
    if is_dot(before) {
        is_name(behind)
    } else {
        opens(before) || closes(behind) || (is_called(before) && is_open(behind))
    }
}

/// Appends the bytes of a lexeme.
pub fn push_lexeme(lexeme: Lexeme<'_>, text: &mut Vec<u8>) -> Result<(), AllocError>
    ensures { IfOk result (λ _. text.new.items ≡ text.old.items
        ++ spelling (written lexeme.entry)) }
{
    match lexeme {
        Lexeme::Name(bytes) => text.extend_from_slice(bytes),
        Lexeme::Number(n) => text.extend_from_slice(Buffer::new().format(n).as_bytes()),
        Lexeme::Word(word) => text.extend_from_slice(word_text(word)),
        Lexeme::Symbol(symbol) => text.extend_from_slice(symbol_text(symbol)),
        Lexeme::Sign => text.extend_from_slice(symbol_text(Sym::Minus)),
    }
}

/// Appends a lexeme to a list.
pub fn push<'a>(lexeme: Lexeme<'a>, into: &mut Vec<Lexeme<'a>>) -> Result<(), AllocError>
    ensures { IfOk result (λ _. map written into.new.items ≡ map written into.old.items
        ++ written lexeme.entry ∷ []) }
{
    into.push(lexeme)?;
    Ok(())
}

/// Appends lexemes to a list.
pub fn push_all<'a>(lexemes: &[Lexeme<'a>], into: &mut Vec<Lexeme<'a>>) -> Result<(), AllocError>
    ensures { IfOk result (λ _. map written into.new.items ≡ map written into.old.items
        ++ map written lexemes.now) }
{
    into.extend_from_slice(lexemes)
}

/// The lexeme of a name.
pub fn name_lexeme<'a>(named: &'a PlacedName) -> Lexeme<'a>
    ensures { written result ≡ name named.now.name }
{
    Lexeme::Name(named.name.as_bytes())
}

/// The lexeme of a number.
pub fn number_lexeme<'a>(n: u32) -> Lexeme<'a>
    ensures { written result ≡ number n }
{
    Lexeme::Number(u64::from(n))
}

/// Appends a symbol.
pub fn push_symbol<'a>(mark: Sym, into: &mut Vec<Lexeme<'a>>) -> Result<(), AllocError>
    ensures { IfOk result (λ _. map written into.new.items ≡ map written into.old.items
        ++ symbol mark ∷ []) }
{
    push(Lexeme::Symbol(mark), into)
}

/// Appends a symbol where it is needed.
pub fn push_if<'a>(needed: bool, mark: Sym, into: &mut Vec<Lexeme<'a>>) -> Result<(), AllocError>
    ensures { IfOk result (λ _. map written into.new.items ≡ map written into.old.items
        ++ (if needed then symbol mark ∷ [] else [])) }
{
    if needed {
        push_symbol(mark, into)?;
    }
    Ok(())
}

/// Appends a reserved word.
pub fn push_word<'a>(keyword: Keyword, into: &mut Vec<Lexeme<'a>>) -> Result<(), AllocError>
    ensures { IfOk result (λ _. map written into.new.items ≡ map written into.old.items
        ++ word keyword ∷ []) }
{
    push(Lexeme::Word(keyword), into)
}

/// Appends a name.
pub fn push_name<'a>(named: &'a PlacedName, into: &mut Vec<Lexeme<'a>>) -> Result<(), AllocError>
    ensures { IfOk result (λ _. map written into.new.items ≡ map written into.old.items
        ++ name named.now.name ∷ []) }
{
    push(Lexeme::Name(named.name.as_bytes()), into)
}
