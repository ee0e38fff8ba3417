//! What is said of a text, in a text that rows can give.

use crate::tests::formulas::{FORMULA_LEVELS, FORMULAS};
use crate::tests::mistakes::{KINDS, NAMES, RIGHT};
use crate::tests::problems::{CANONICAL_FORMULAS, PIECES, PROBLEMS};
use crate::tests::spellings::{EXPRESSIONS, SPELLED_FORMULAS};
use crate::tests::statements::{STATEMENT_LEVELS, STATEMENTS};
use crate::tests::tokens::{ENDS, TOKENS};
use geo_chan::CleanSink;
use geo_tokens::fault::TextFault;
use geo_tokens::first_end::first_text_end;
use geo_tokens::lexer::tokens;
use geo_tokens::token::{Kind, symbol_text, word_text};
use problem_syntax::syntax::read_statements;
use problem_text::print::print_problem;
use problem_text::read::read_problem;
use rule_names::check::check_names;
use rule_print::{print_expr, print_formula};
use rule_reading::read::{read_expr, read_formula};
use std::alloc::{AllocError, Global};
use std::test::Fail;

/// What is asked of a text.
#[derive(Clone, Copy)]
enum Part {
    /// The kinds and places of its tokens, one after another.
    Tokens,
    /// Where its first word `end` ends.
    End,
    /// The number of the token behind the formula that begins with the first one.
    Formula,
    /// The same, and behind that number the canonical spelling of the formula.
    SpelledFormula,
    /// The same of an expression.
    Expression,
    /// The number of its statements.
    Statements,
    /// The canonical text of the problem.
    Problem,
    /// The version of the problem, and behind it of each object the pieces of each of its ranges.
    Pieces,
    /// What is wrong with the names of these statements, in a problem of a shape `s` and an object
    /// `a`.
    Mistake,
}

/// A name's kind is `name`, a number its value, and a word or a symbol is spelled.
fn kind(alloc: Global, kind: Kind) -> Result<String, AllocError> {
    match kind {
        Kind::Name => String::from_str(alloc, "name"),
        Kind::Number(value) => format!(in alloc; "{value}"),
        Kind::Word(word) => text_of(alloc, word_text(word)),
        Kind::Symbol(symbol) => text_of(alloc, symbol_text(symbol)),
    }
}

fn cut(alloc: Global, text: &[u8]) -> Result<String, TextFault> {
    let list = tokens(alloc, text)?;
    let mut shown = String::new(alloc);
    for token in list.as_slice() {
        shown.push_str(kind(alloc, token.kind)?.as_str())?;
        shown.push_str(format!(in alloc; " {} {}, ", token.start, token.end)?.as_str())?;
    }
    Ok(shown)
}

fn formula(alloc: Global, text: &[u8]) -> Result<String, TextFault> {
    let list = tokens(alloc, text)?;
    let (_formula, behind) = read_formula(alloc, text, list.as_slice(), 0)?;
    Ok(format!(in alloc; "{behind}")?)
}

fn spelled_formula(alloc: Global, text: &[u8]) -> Result<String, TextFault> {
    let list = tokens(alloc, text)?;
    let (tree, behind) = read_formula(alloc, text, list.as_slice(), 0)?;
    let mut spelled = Vec::new(alloc);
    print_formula(alloc, &tree, &mut spelled)?;
    Ok(format!(in alloc; "{behind} {}", text_of(alloc, &spelled)?)?)
}

fn expression(alloc: Global, text: &[u8]) -> Result<String, TextFault> {
    let list = tokens(alloc, text)?;
    let (tree, behind) = read_expr(alloc, text, list.as_slice(), 0)?;
    let mut spelled = Vec::new(alloc);
    print_expr(alloc, &tree, &mut spelled)?;
    Ok(format!(in alloc; "{behind} {}", text_of(alloc, &spelled)?)?)
}

fn statements(alloc: Global, text: &[u8]) -> Result<String, TextFault> {
    let list = tokens(alloc, text)?;
    let said = read_statements(alloc, text, list.as_slice())?;
    Ok(format!(in alloc; "{}", said.statements.len())?)
}

/// A text of bytes that are all ASCII.
fn text_of(alloc: Global, bytes: &[u8]) -> Result<String, AllocError> {
    String::from_str(alloc, str::from_utf8(bytes).unwrap_or("?"))
}

fn problem(alloc: Global, text: &[u8]) -> Result<String, TextFault> {
    let problem = read_problem(alloc, text)?;
    let mut sink = CleanSink::new(alloc);
    let _done = print_problem(alloc, &problem, &mut sink);
    Ok(text_of(alloc, sink.bytes())?)
}

/// An object begins with a semicolon, and a range with a bar.
fn pieces(alloc: Global, text: &[u8]) -> Result<String, TextFault> {
    let problem = read_problem(alloc, text)?;
    let mut shown = format!(in alloc; "{}", problem.version())?;
    for object in problem.objects() {
        shown.push_str(" ;")?;
        for range in object.pieces() {
            shown.push_str(" |")?;
            for piece in range.ranges() {
                shown.push_str(format!(in alloc; " {}..{}", piece.low, piece.high)?.as_str())?;
            }
        }
    }
    Ok(shown)
}

/// The statements stand at place 62.
fn mistake(alloc: Global, statements: &[u8]) -> Result<String, TextFault> {
    let front = b"geost 1 dims 1 shape s box 0 size 1 ; object a as s at 0..9 ; ";
    let mut text = Vec::from_slice(alloc, front)?;
    text.extend_from_slice(statements)?;
    text.extend_from_slice(b" end")?;
    check_names(alloc, &read_problem(alloc, &text)?)?;
    Ok(String::from_str(alloc, "none")?)
}

fn answer(alloc: Global, part: Part, text: &[u8]) -> Result<String, TextFault> {
    match part {
        Part::Tokens => cut(alloc, text),
        Part::End => Ok(format!(in alloc; "{:?}", first_text_end(text))?),
        Part::Formula => formula(alloc, text),
        Part::SpelledFormula => spelled_formula(alloc, text),
        Part::Expression => expression(alloc, text),
        Part::Statements => statements(alloc, text),
        Part::Problem => problem(alloc, text),
        Part::Pieces => pieces(alloc, text),
        Part::Mistake => mistake(alloc, text),
    }
}

/// What the text says, or its fault.
fn said(alloc: Global, part: Part, text: &[u8]) -> Result<String, AllocError> {
    match answer(alloc, part, text) {
        Ok(shown) => Ok(shown),
        Err(fault) => format!(in alloc; "{fault:?}"),
    }
}

/// Whether that is what the text says, or its fault.
fn says(alloc: Global, part: Part, text: &[u8], wanted: &str) -> Result<bool, AllocError> {
    Ok(said(alloc, part, text)?.as_str() == wanted)
}

/// What the first row wants whose text says something else, if there is one.
fn wrong_row(
    alloc: Global,
    part: Part,
    rows: &'static [(&'static [u8], &'static str)],
) -> Result<Option<&'static str>, AllocError> {
    for (text, wanted) in rows {
        if !says(alloc, part, text, wanted)? {
            return Ok(Some(wanted));
        }
    }
    Ok(None)
}

#[test]
fn texts_say_what_is_wanted(rt: HostRuntime) -> Result<(), Fail> {
    for (part, rows) in [
        (Part::Tokens, TOKENS),
        (Part::End, ENDS),
        (Part::Formula, FORMULAS),
        (Part::Formula, FORMULA_LEVELS),
        (Part::SpelledFormula, SPELLED_FORMULAS),
        (Part::Expression, EXPRESSIONS),
        (Part::Statements, STATEMENTS),
        (Part::Statements, STATEMENT_LEVELS),
        (Part::Problem, PROBLEMS),
        (Part::Problem, CANONICAL_FORMULAS),
        (Part::Pieces, PIECES),
        (Part::Mistake, NAMES),
        (Part::Mistake, KINDS),
        (Part::Mistake, RIGHT),
    ] {
        let wrong = wrong_row(rt.alloc(), part, rows)?;
        assert!(rt; wrong.is_none(), "{wrong:?}");
    }
    Ok(())
}
