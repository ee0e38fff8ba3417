//! From lexemes to bytes.

ghost use Rattle.std.specs.Prelude.{◌≡◌, ◌++◌, IfOk, map, Option, option_map};
ghost use Rattle.rule_print.specs.Canonical.{written, gap, shown};

use crate::lexeme::{Lexeme, is_close, push_lexeme};
use std::alloc::{AllocError, Global};

/// Appends the space between two lexemes, if one stands there.
fn push_gap(
    before: Option<Lexeme<'_>>,
    behind: Lexeme<'_>,
    text: &mut Vec<u8>,
) -> Result<(), AllocError>
    ensures { IfOk result (λ _. text.new.items ≡ text.old.items
        ++ gap (option_map written before.entry) (written behind.entry)) }
{
    if let Some(before) = before {
        if !is_close(before, behind) {
            text.push(b' ')?;
        }
    }
    Ok(())
}

/// The bytes that these lexemes are shown with.
pub fn shown(alloc: Global, lexemes: &[Lexeme<'_>]) -> Result<Vec<u8>, AllocError>
    ensures { IfOk result (λ v. v.items ≡ shown (map written lexemes.now)) }
{
    let mut text = Vec::new(alloc);
    let mut before = None;
    'lexemes: for lexeme in lexemes {
        push_gap(before, *lexeme, &mut text)?;
        push_lexeme(*lexeme, &mut text)?;
        before = Some(*lexeme);
    }
    Ok(text)
}
