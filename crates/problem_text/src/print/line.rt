//! Lines of a canonical text.

ghost use Rattle.std.specs.Prelude.{◌≡◌, ◌++◌, ◌∷◌, [], IfOk, map};
ghost use Rattle.rule_print.specs.Canonical.{written, name};
ghost use Rattle.problem_text.specs.Canonical.{closed, line_text};

use geo_tokens::name::Name;
use geo_tokens::token::Sym;
use rule_print::lexeme::{Lexeme, push, push_symbol};
use rule_print::show::shown;
use std::alloc::{AllocError, Global};

/// Appends a line with these lexemes.
pub fn push_line(
    alloc: Global,
    lexemes: &[Lexeme<'_>],
    text: &mut Vec<u8>,
) -> Result<(), AllocError>
    ensures { IfOk result (λ _. text.new.items ≡ text.old.items
        ++ line_text (map written lexemes.now)) }
{
    let line = shown(alloc, lexemes)?;
    text.extend_from_slice(line.as_slice())?;
    text.push(b'\n')?;
    Ok(())
}

/// Appends a line with these lexemes and a semicolon behind them.
pub fn push_closed_line(
    alloc: Global,
    lexemes: Vec<Lexeme<'_>>,
    text: &mut Vec<u8>,
) -> Result<(), AllocError>
    ensures { IfOk result (λ _. text.new.items ≡ text.old.items
        ++ line_text (closed (map written lexemes.entry.items))) }
{
    let mut lexemes = lexemes;
    push_symbol(Sym::Semicolon, &mut lexemes)?;
    push_line(alloc, lexemes.as_slice(), text)
}

/// Appends a name to a list of lexemes.
pub fn push_name<'a>(own: &'a Name, into: &mut Vec<Lexeme<'a>>) -> Result<(), AllocError>
    ensures { IfOk result (λ _. map written into.new.items ≡ map written into.old.items
        ++ name own.now ∷ []) }
{
    push(Lexeme::Name(own.as_bytes()), into)
}
