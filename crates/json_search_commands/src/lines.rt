//! What is told in an object of one member: the lines of a derivation, and a budget.

ghost use Rattle.std.specs.Prelude.{◌≡◌, IfOk, codes};
ghost use Rattle.std.specs.Str.{IsAscii};
ghost use Rattle.serde_json.specs.View.{view};
ghost use Rattle.json_parts.specs.Form.{count_json, text_json};
ghost use Rattle.json_search_commands.specs.FirstJson.{budget_line, none_line, one_member};

use command_input::Status;
use command_reply::TextReply;
use json_parts::{json_line, text_to_json};
use serde_json::{Value, json};
use std::alloc::{AllocError, Global};

// The value of a derivation's lines.
fn none_to_json(alloc: Global, lines: &[u8]) -> Result<Value, AllocError>
    requires { IsAscii lines.now }
    ensures { IfOk result (λ v. view v ≡ one_member (codes "none") (text_json lines.now)) }
{
    let text = text_to_json(alloc, lines)?;
    json!(in alloc; {"none": text})
}

// The value of a budget.
fn budget_to_json(alloc: Global, most: u64) -> Result<Value, AllocError>
    ensures { IfOk result (λ v. view v ≡ one_member (codes "budget") (count_json most)) }
{
    json!(in alloc; {"budget": most})
}

// The reply that there is no layout, as a derivation with these lines shows.
pub fn none_reply(alloc: Global, lines: &[u8]) -> Result<TextReply, AllocError>
    requires { IsAscii lines.now }
    ensures text { IfOk result (λ reply. reply.text.items ≡ none_line lines.now) }
    ensures status { IfOk result (λ reply. reply.status ≡ Status.No) }
{
    let value = none_to_json(alloc, lines)?;
    Ok(TextReply {
        status: Status::No,
        text: json_line(alloc, &value)?,
    })
}

// The reply that the walk goes on past so many members.
pub fn spent_reply(alloc: Global, most: u64) -> Result<TextReply, AllocError>
    ensures text { IfOk result (λ reply. reply.text.items ≡ budget_line most) }
    ensures status { IfOk result (λ reply. reply.status ≡ Status.Budget) }
{
    let value = budget_to_json(alloc, most)?;
    Ok(TextReply {
        status: Status::Budget,
        text: json_line(alloc, &value)?,
    })
}
