//! The problem and the layout of two texts.

ghost use Rattle.std.specs.Prelude.{◌≤◌, length};
ghost use Rattle.command_reply.specs.Dimension.{AnswersGivenIn};
ghost use Rattle.command_reply.specs.Given.{AnswersGiven};

use crate::accepted::{Accepted, read_accepted};
use geo_conditions::Layout;
use geo_tokens::fault::TextFault;
use geo_tokens::first_end::first_text_end;
use layout_text::read_layout;
use std::alloc::Global;

// A problem whose text has no fault, and a tuple of it that a second text gives.
#[derive(Drop)]
pub struct Given {
    pub accepted: Accepted,
    pub layout: Layout,
}

// The problem and the tuple that two texts give, or the first fault of the texts.
pub fn read_given(alloc: Global, text: &[u8]) -> Result<Given, TextFault>
    requires { length text.now ≤ 2097153 }
    ensures { AnswersGiven result text.now }
{
    let end = first_text_end(text).unwrap_or(text.len());
    let (first, second) = text.split_at(end);
    let accepted = read_accepted(alloc, first)?;
    let layout = read_layout(alloc, &accepted.problem, second, end as u64)?;
    Ok(Given { accepted, layout })
}

// What two texts give where the words name a dimension, counted from 1: none, where the problem has
// fewer, and then nothing is asked of the second text.
pub fn read_given_in(alloc: Global, text: &[u8], d: u8) -> Result<Option<Given>, TextFault>
    requires { length text.now ≤ 2097153 }
    ensures { AnswersGivenIn d result text.now }
{
    let end = first_text_end(text).unwrap_or(text.len());
    let (front, back) = text.split_at(end);
    let accepted = read_accepted(alloc, front)?;
    if accepted.problem.dims() < d as usize {
        return Ok(None);
    }
    let layout = read_layout(alloc, &accepted.problem, back, end as u64)?;
    Ok(Some(Given { accepted, layout }))
}
