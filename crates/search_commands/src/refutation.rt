//! A derivation that shows that a problem has no layout.

ghost use Rattle.std.specs.Prelude.{◌≡◌, ℕ, List, IfOk};
ghost use Rattle.command_input.specs.declared.command.Status.{Status as StatusOf};
ghost use Rattle.derivation_text.specs.Lines.{AreNamed};
ghost use Rattle.geo_chan.specs.Written.{Prints};
ghost use Rattle.geo_conditions.specs.Conditions.{AllFit};
ghost use Rattle.printed_derivation.specs.Laws.{printed};
ghost use Rattle.rule_ground.specs.Start.{first_state};
ghost use Rattle.search_commands.specs.First.{IsNoneBehind, ShowsNone};
ghost use Rattle.search_commands.specs.Refuted.{is_search_ready, search_says};

use crate::search_reply::SearchReply;
use crate::shortening::shorter;
use command_reply::TextReply;
use derivation::Log;
use derivation_text::print_derivation;
use geo_chan::{PutFault, Sink, write_all_bytes};
use geo_conditions::Cond;
use geo_tokens::names::Names;
use problem_data::problem::Problem;
use problem_text::names::names;
use std::alloc::{AllocError, Global};

/// A derivation that there is no layout, over these names.
#[derive(Drop)]
pub struct Refutation {
    pub names: Names,
    pub log: Log,
}

// Writes the word `none` and the lines of the derivation.
pub fn write_refutation<W: Sink>(refutation: &Refutation, sink: &mut W) -> Result<(), PutFault>
    requires { AreNamed refutation.now.names 0 refutation.now.log.events }
    ensures { Prints W.written W.faults W.quiet sink.old sink.new result
        (printed refutation.now.names refutation.now.log.events) }
{
    write_all_bytes(sink, b"none\n")?;
    print_derivation(&refutation.names, &refutation.log, sink)
}

// That there is none, behind a text: with the derivation that a search has recorded under these
// conditions, or a shorter one.
pub fn refuted(
    alloc: Global,
    problem: &Problem,
    conditions: &[Cond],
    log: Log,
    text: TextReply,
) -> Result<SearchReply, AllocError>
    requires fits { AllFit conditions.now (first_state problem.now) }
    requires shows { ShowsNone problem.now conditions.now log.events }
    ensures says { IfOk result (λ reply. (all : List ℕ) (status : StatusOf)
        → search_says reply all status
        → IsNoneBehind problem.now conditions.now text.text.items all
        × (status ≡ text.status)) }
    ensures ready { IfOk result is_search_ready }
{
    let names = names(alloc, problem)?;
    let log = shorter(alloc, problem, conditions, &names, log)?;
    Ok(SearchReply::Refuted(text, Refutation { names, log }))
}
