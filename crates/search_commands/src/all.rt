//! `all`: the layouts of a problem by pages. Each block is written as soon as its layout is found.

ghost use Rattle.std.specs.Prelude.{◌≡◌, ℕ, List, IfOk, IfSome, IsErrOf, true};
ghost use Rattle.std.specs.Option.{option_copied};
ghost use Rattle.geo_chan.specs.Written.{Prints};
ghost use Rattle.layout_search.specs.FirstLayout.{walk_after};
ghost use Rattle.layout_search.specs.Page.{word_of};
ghost use Rattle.problem_data.specs.Cells.{IsTuple};
ghost use Rattle.command_reply.specs.Accepted.{HasRead};
ghost use Rattle.command_reply.specs.Question.{AnswersInput};
ghost use Rattle.command_reply.specs.Reply.{WritesReply};
ghost use Rattle.search_commands.specs.All.{AllAnswer, SaysListing, all_question, last_line, last_status};
ghost use Rattle.search_commands.specs.Listing.{CanList, IsListingOf, is_listing_ready, listing_says};

use crate::budget::write_budget;
use crate::listing::Listing;
use command_input::{PageRequest, ReadFault, Status};
use command_reply::{Accepted, Deciding, Reply, TextReply, refuse, reply_of, take_problem};
use geo_chan::{Piece, PutFault, Sink, Source, write_all_bytes};
use geo_conditions::Layout;
use layout_search::{Ending, write_listing};
use layout_text::{TokenFault, read_token};
use std::alloc::{AllocError, Global};

/// The command `all`.
#[derive(Clone, Copy)]
pub struct All<'a> {
    /// What it is asked for.
    pub request: PageRequest<'a>,
}

impl<'a> Deciding for All<'a> {
    type Answer = ListingReply;

    ghost question = { λ a. all_question a.request.most a.request.budget
        (option_copied a.request.token) };

    fn decide<S: Source>(&self, alloc: Global, source: &mut S) -> Result<ListingReply, ReadFault> {
        match take_problem(alloc, source)? {
            Ok(accepted) => Ok(listing_of(alloc, accepted, self.request)?),
            Err(fault) => Ok(ListingReply::Text(refuse(alloc, fault)?)),
        }
    }

    fn sound(&self) {}
}

/// What `all` replies.
#[derive(Drop)]
pub enum ListingReply {
    /// The text is refused, or the token is bad.
    Text(TextReply),
    /// Layouts are listed.
    Listing(Listing),
}

// What is replied to a problem.
fn listing_of(
    alloc: Global,
    accepted: Accepted,
    request: PageRequest<'_>,
) -> Result<ListingReply, AllocError>
    requires { (input : List ℕ) × HasRead input accepted }
    ensures answers { IfOk result (λ reply. (input : List ℕ) → HasRead input accepted
        → AnswersInput (AllAnswer request.entry.most request.entry.budget
        (option_copied request.entry.token)) input (listing_says reply)) }
    ensures ready { IfOk result is_listing_ready }
{
    let Some(word) = request.token else {
        return Ok(list_behind(accepted, None, request.most, request.budget));
    };
    match read_token(alloc, &accepted.problem, word.as_bytes()) {
        Ok(layout) => Ok(list_behind(accepted, Some(layout), request.most, request.budget)),
        Err(TokenFault::BadToken) => {
            let pieces = [Piece::Bytes(b"bad token\n")];
            Ok(ListingReply::Text(reply_of(alloc, Status::BadToken, &pieces)?))
        }
        Err(TokenFault::Memory) => Err(AllocError),
    }
}

// The reply of a listing.
fn list_behind(accepted: Accepted, after: Option<Layout>, most: u64, budget: u64) -> ListingReply
    requires read { (input : List ℕ) × HasRead input accepted }
    requires from { IfSome after (IsTuple accepted.problem) }
    ensures lists { IsListingOf accepted after most budget result }
    ensures ready { is_listing_ready result }
{
    let Accepted {
        problem,
        rules: _,
        conditions,
    } = accepted;
    ListingReply::Listing(Listing {
        problem,
        conditions,
        after,
        most,
        budget,
    })
}

impl Reply for ListingReply {
    ghost says = { listing_says };

    ghost ready = { is_listing_ready };

    fn write<W: Sink>(self, alloc: Global, sink: &mut W) -> Result<Status, PutFault> {
        match self {
            ListingReply::Text(text) => text.write(alloc, sink),
            ListingReply::Listing(listing) => write_page(alloc, listing, sink),
        }
    }
}

// Writes the layouts, each as soon as it is found, and the line behind them.
fn write_page<W: Sink>(alloc: Global, listing: Listing, sink: &mut W) -> Result<Status, PutFault>
    requires { CanList listing }
    ensures reply { WritesReply (SaysListing listing.problem
        (walk_after listing.problem listing.conditions.items listing.after) listing.most listing.budget)
        (W.written sink.old) (W.written sink.new) (W.faults sink.old) (W.faults sink.new)
        (W.quiet sink.old) (W.quiet sink.new) result }
    ensures unwritten { W.quiet sink.old ≡ true → IsErrOf result PutFault.Memory
        → sink.new ≡ sink.old }
{
    let Listing {
        problem,
        conditions,
        after,
        most,
        budget,
    } = listing;
    let ending = write_listing(
        alloc,
        &problem,
        conditions,
        after.as_ref(),
        most,
        budget,
        sink,
    )?;
    write_last_line(sink, ending, budget)?;
    Ok(status_of(ending))
}

// The status of a run that has written a listing which ends so.
fn status_of(ending: Ending) -> Status
    ensures { result ≡ last_status (word_of ending) }
{
    match ending {
        Ending::More | Ending::End => Status::Answered,
        Ending::OutOfBudget => Status::Budget,
    }
}

// Writes the line behind the layouts.
fn write_last_line<W: Sink>(sink: &mut W, ending: Ending, budget: u64) -> Result<(), PutFault>
    ensures { Prints W.written W.faults W.quiet sink.old sink.new result
        (last_line budget (word_of ending)) }
{
    match ending {
        Ending::More => write_all_bytes(sink, b"more\n"),
        Ending::End => write_all_bytes(sink, b"end\n"),
        Ending::OutOfBudget => write_budget(sink, budget),
    }
}
