//! The reply that a problem has no layout.

ghost use Rattle.std.specs.Prelude.{◌≡◌, ◌++◌, ◌∷◌, [], IfOk};
ghost use Rattle.std.specs.Str.{IsAscii};
ghost use Rattle.derivation_text.specs.Lines.{AreNamed, derivation_text};
ghost use Rattle.geo_conditions.specs.Conditions.{AllFit};
ghost use Rattle.printed_derivation.specs.Printable.{IsPrintable};
ghost use Rattle.rule_ground.specs.Start.{first_state};
ghost use Rattle.search_commands.specs.First.{ShowsNone};
ghost use Rattle.json_search_commands.specs.FirstJson.{SaysNoneJson};

use crate::lines::none_reply;
use command_input::Status;
use command_reply::{TextReply, TextSink, spelled};
use derivation::Log;
use derivation_text::print_derivation;
use geo_conditions::Cond;
use geo_tokens::names::Names;
use problem_data::problem::Problem;
use problem_text::names::names;
use search_commands::shorter;
use std::alloc::{AllocError, Global};

// The text of the derivation.
fn whole_text(alloc: Global, names: &Names, log: &Log) -> Result<Vec<u8>, AllocError>
    requires { AreNamed names.now 0 log.now.events }
    ensures { IfOk result (λ text. text.items ≡ derivation_text names.now log.now.events) }
{
    let mut text = TextSink::new(alloc);
    spelled(print_derivation(names, log, &mut text))?;
    Ok(text.into_bytes())
}

// The lines of the derivation, without the line feed that ends the last of them.
fn derivation_lines(alloc: Global, names: &Names, log: &Log) -> Result<Vec<u8>, AllocError>
    requires { IsPrintable names.now log.now.events }
    ensures lines { IfOk result (λ lines.
        derivation_text names.now log.now.events ≡ lines.items ++ 10 ∷ []) }
    ensures ascii { IfOk result (λ lines. IsAscii lines.items) }
{
    let _dims = names.dims();
    let mut text = whole_text(alloc, names, log)?;
    let _line_feed = text.pop();
    Ok(text)
}

// The reply that there is none: with the derivation that a search has recorded under these
// conditions, or a shorter one.
pub fn refuted(
    alloc: Global,
    problem: &Problem,
    conditions: &[Cond],
    log: Log,
) -> Result<TextReply, AllocError>
    requires fits { AllFit conditions.now (first_state problem.now) }
    requires shows { ShowsNone problem.now conditions.now log.events }
    ensures text { IfOk result (λ reply.
        SaysNoneJson problem.now conditions.now reply.text.items) }
    ensures status { IfOk result (λ reply. reply.status ≡ Status.No) }
{
    let names = names(alloc, problem)?;
    let log = shorter(alloc, problem, conditions, &names, log)?;
    let lines = derivation_lines(alloc, &names, &log)?;
    none_reply(alloc, lines.as_slice())
}
