//! What is written and read, in a text that rows can give.

use crate::tests::rows::{LAYOUTS, SPELLED, VALUES};
use geo_json::{layout_json_line, problem_json_line};
use geo_tokens::fault::TextFault;
use json_parts::JsonFault;
use json_sheets::built_of_text;
use layout_text::{TokenFault, read_token};
use problem_text::read::read_problem;
use std::alloc::{AllocError, Global};
use std::test::Fail;

/// A text of bytes that are all ASCII.
fn text_of(alloc: Global, bytes: &[u8]) -> Result<String, AllocError> {
    String::from_str(alloc, str::from_utf8(bytes).unwrap_or("?"))
}

/// The problem's value as a line.
fn value(alloc: Global, text: &str) -> Result<String, TextFault> {
    let problem = read_problem(alloc, text.as_bytes())?;
    let line = problem_json_line(alloc, &problem)?;
    Ok(text_of(alloc, line.as_slice())?)
}

/// What the value spells, or `form`.
fn spelled(alloc: Global, text: &str) -> Result<String, AllocError> {
    match built_of_text(alloc, text.as_bytes()) {
        Ok(built) => text_of(alloc, built.as_slice()),
        Err(JsonFault::Form) => text_of(alloc, b"form"),
        Err(JsonFault::Memory) => Err(AllocError),
    }
}

/// The value of the layout that the token is of, as a line.
fn layout(alloc: Global, text: &str, token: &str) -> Result<String, TextFault> {
    let problem = read_problem(alloc, text.as_bytes())?;
    match read_token(alloc, &problem, token.as_bytes()) {
        Ok(layout) => {
            let line = layout_json_line(alloc, &problem, &layout)?;
            Ok(text_of(alloc, line.as_slice())?)
        }
        Err(TokenFault::BadToken) => Ok(text_of(alloc, b"no token")?),
        Err(TokenFault::Memory) => Err(TextFault::Memory),
    }
}

/// The text is the value, and a line feed behind it.
fn is_line(text: &str, value: &str) -> bool {
    text.strip_suffix("\n") == Some(value)
}

#[test]
fn problems_are_written(rt: HostRuntime) -> Result<(), Fail> {
    for (text, wanted) in VALUES {
        let written = value(rt.alloc(), text);
        let is_right = matches!(&written, Ok(line) if is_line(line.as_str(), wanted));
        assert!(rt; is_right, "{written:?}");
    }
    Ok(())
}

#[test]
fn values_are_read(rt: HostRuntime) -> Result<(), Fail> {
    for (text, wanted) in SPELLED {
        let read = spelled(rt.alloc(), text)?;
        assert!(rt; read.as_str() == *wanted, "{read}");
    }
    Ok(())
}

#[test]
fn layouts_are_written(rt: HostRuntime) -> Result<(), Fail> {
    for (text, token, wanted) in LAYOUTS {
        let written = layout(rt.alloc(), text, token);
        let is_right = matches!(&written, Ok(line) if is_line(line.as_str(), wanted));
        assert!(rt; is_right, "{written:?}");
    }
    Ok(())
}
