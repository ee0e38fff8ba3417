//! `make`: what the search for the first layout finds of the problem that is made from a seed.

ghost use Rattle.std.specs.Prelude.{◌≡◌, ◌++◌, ◌<◌, ◌^◌, ℕ, List, IfOk, length};
ghost use Rattle.geo_chan.specs.Written.{Prints};
ghost use Rattle.problem_data.specs.Cells.{IsShaped};
ghost use Rattle.problem_generator.specs.Made.{made_text};
ghost use Rattle.command_reply.specs.Accepted.{HasRead};
ghost use Rattle.command_reply.specs.Question.{AnswersInput};
ghost use Rattle.command_reply.specs.Reply.{IsSaid};
ghost use Rattle.generated_conditions.specs.Conditions.{HasRackConditions};
ghost use Rattle.search_commands.specs.Make.{MakeAnswer, counts, make_question};
ghost use Rattle.search_commands.specs.Summed.{IsShapedFor, answer_lines, outcome_status};

use command_input::{ReadFault, Status};
use command_reply::{Accepted, Deciding, TextReply, TextSink, read_accepted, spelled};
use derivation::NoRecord;
use generated_conditions::made_problems_are_accepted;
use geo_chan::{Piece, PutFault, Sink, Source, write_all_bytes, write_pieces};
use geo_tokens::fault::TextFault;
use layout_search::{Outcome, search_first_unrecorded};
use layout_text::print_token_line;
use problem_data::problem::Problem;
use problem_generator::make_problem;
use std::alloc::{AllocError, Global};

/// The command `make`. Nothing is read for it.
#[derive(Clone, Copy)]
pub struct Make {
    seed: u32,
    most: u64,
    ghost small: { seed < 2 ^ 31 },
}

impl Make {
    /// The problem that is made from this seed, and so many members of its walk.
    pub fn new(seed: u32, most: u64) -> Make
        requires { seed < 2 ^ 31 }
        ensures seed { result.seed ≡ seed }
        ensures most { result.most ≡ most }
    {
        Make { seed, most }
    }
}

impl Deciding for Make {
    type Answer = TextReply;

    ghost question = { λ m. make_question m.seed m.most };

    fn decide<S: Source>(&self, alloc: Global, _source: &mut S) -> Result<TextReply, ReadFault> {
        Ok(made(alloc, self.seed, self.most)?)
    }

    fn sound(&self) {}
}

// What is replied to a seed. The text that is made of it has no fault.
fn made(alloc: Global, seed: u32, most: u64) -> Result<TextReply, AllocError>
    requires { seed < 2 ^ 31 }
    ensures { IfOk result (λ reply. (input : List ℕ)
        → AnswersInput (MakeAnswer seed most) input (IsSaid reply.text.items reply.status)) }
{
    let text = make_problem(alloc, seed)?;
    made_problems_are_accepted(seed);
    match read_accepted(alloc, &text) {
        Ok(accepted) => summed(alloc, accepted, most),
        Err(TextFault::Memory) => Err(AllocError),
        Err(TextFault::At(_place, _word)) => unreachable!(),
    }
}

// What is found of the problem, with the numbers of its objects and conditions.
fn summed(alloc: Global, accepted: Accepted, most: u64) -> Result<TextReply, AllocError>
    requires { (input : List ℕ) × HasRead input accepted }
    ensures { IfOk result (λ reply. (seed : ℕ) (input : List ℕ)
        → HasRead (made_text seed) accepted → HasRackConditions accepted.problem
        → AnswersInput (MakeAnswer seed most) input (IsSaid reply.text.items reply.status)) }
{
    let Accepted {
        problem,
        rules: _,
        conditions,
    } = accepted;
    let count = conditions.len();
    let outcome = search_first_unrecorded(alloc, &problem, conditions, most)?;
    summary(alloc, &problem, count, &outcome)
}

// The numbers of objects and conditions, and what was found.
fn summary(
    alloc: Global,
    problem: &Problem,
    conditions: usize,
    outcome: &Outcome<NoRecord>,
) -> Result<TextReply, AllocError>
    requires { IsShapedFor problem.now outcome.now }
    ensures text { IfOk result (λ reply. reply.text.items
        ≡ counts (length problem.now.objects) conditions ++ answer_lines outcome.now) }
    ensures status { IfOk result (λ reply. reply.status ≡ outcome_status outcome.now) }
{
    let mut text = TextSink::new(alloc);
    spelled(write_summary(problem, conditions, outcome, &mut text))?;
    Ok(TextReply {
        status: status_of(outcome),
        text: text.into_bytes(),
    })
}

fn write_summary<W: Sink>(
    problem: &Problem,
    conditions: usize,
    outcome: &Outcome<NoRecord>,
    sink: &mut W,
) -> Result<(), PutFault>
    requires { IsShapedFor problem.now outcome.now }
    ensures { Prints W.written W.faults W.quiet sink.old sink.new result
        (counts (length problem.now.objects) conditions ++ answer_lines outcome.now) }
{
    let objects = problem.objects().len();
    write_counts(objects, conditions, sink)?;
    write_answer(problem, outcome, sink)
}

fn write_counts<W: Sink>(objects: usize, conditions: usize, sink: &mut W) -> Result<(), PutFault>
    ensures { Prints W.written W.faults W.quiet sink.old sink.new result
        (counts objects conditions) }
{
    let pieces = [
        Piece::Bytes(b"objects "),
        Piece::Number(objects as i128),
        Piece::Bytes(b"\nconditions "),
        Piece::Number(conditions as i128),
        Piece::Bytes(b"\n"),
    ];
    write_pieces(sink, &pieces)
}

fn write_answer<W: Sink>(
    problem: &Problem,
    outcome: &Outcome<NoRecord>,
    sink: &mut W,
) -> Result<(), PutFault>
    requires { IsShapedFor problem.now outcome.now }
    ensures { Prints W.written W.faults W.quiet sink.old sink.new result
        (answer_lines outcome.now) }
{
    match outcome {
        Outcome::Found(layout) => {
            write_all_bytes(sink, b"answer layout\n")?;
            print_token_line(problem, layout, sink)
        }
        Outcome::Nothing(_) => write_all_bytes(sink, b"answer none\n"),
        Outcome::OutOfBudget => write_all_bytes(sink, b"answer budget\n"),
    }
}

// The status of a run that says how a search ended.
fn status_of(outcome: &Outcome<NoRecord>) -> Status
    ensures { result ≡ outcome_status outcome.now }
{
    match outcome {
        Outcome::Found(_) => Status::Answered,
        Outcome::Nothing(_) => Status::No,
        Outcome::OutOfBudget => Status::Budget,
    }
}
