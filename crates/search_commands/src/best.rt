//! `best`: the layout that ends first in a dimension, and a derivation that none ends before.

ghost use Rattle.std.specs.Prelude.{◌≡◌, ◌≤◌, ◌<◌, ◌++◌, ℕ, List, Some, codes, IfOk};
ghost use Rattle.command_input.specs.declared.command.Status.{Status as StatusOf};
ghost use Rattle.command_reply.specs.Accepted.{HasRead};
ghost use Rattle.command_reply.specs.Question.{AnswersInput};
ghost use Rattle.geo_best.specs.Rounds.{AreOwn, IsBest, IsSmallBest, PromisesLeast, ShowsBest};
ghost use Rattle.problem_data.specs.Cells.{IsShaped};
ghost use Rattle.search_commands.specs.Best.{BestAnswer, SaysBest, bare_lines, best_question, extent_lines};
ghost use Rattle.search_commands.specs.Refuted.{is_search_ready, search_says};

use crate::blocks::headed;
use crate::budget::spent;
use crate::refutation::refuted;
use crate::search_reply::SearchReply;
use command_input::{ReadFault, Status};
use command_reply::{Accepted, Deciding, TextReply, bad_dimension, refuse, take_problem};
use geo_best::{Rounds, find_best};
use geo_chan::{Piece, Source};
use geo_conditions::{Cond, Layout};
use layout_search::in_dimensions;
use problem_data::problem::Problem;
use std::alloc::{AllocError, Global};

/// The command `best`.
#[derive(Clone, Copy)]
pub struct Best {
    dimension: u8,
    most: u64,
    ghost counted: { 1 ≤ dimension },
}

impl Best {
    /// The layout that ends first in this dimension, counted from 1; each round seeks it among so
    /// many members of its walk.
    pub fn new(dimension: u8, most: u64) -> Best
        requires { 1 ≤ dimension }
        ensures dimension { result.dimension ≡ dimension }
        ensures most { result.most ≡ most }
    {
        Best { dimension, most }
    }
}

impl Deciding for Best {
    type Answer = SearchReply;

    ghost question = { λ b. best_question b.dimension b.most };

    fn decide<S: Source>(&self, alloc: Global, source: &mut S) -> Result<SearchReply, ReadFault> {
        match take_problem(alloc, source)? {
            Ok(accepted) => Ok(best_of(alloc, accepted, self.dimension, self.most)?),
            Err(fault) => Ok(SearchReply::Text(refuse(alloc, fault)?)),
        }
    }

    fn sound(&self) {}
}

// What is replied to a problem.
fn best_of(
    alloc: Global,
    accepted: Accepted,
    dimension: u8,
    most: u64,
) -> Result<SearchReply, AllocError>
    requires read { (input : List ℕ) × HasRead input accepted }
    requires counted { 1 ≤ dimension }
    ensures answers { IfOk result (λ reply. (input : List ℕ) → HasRead input accepted
        → AnswersInput (BestAnswer dimension most) input (search_says reply)) }
    ensures ready { IfOk result is_search_ready }
{
    let Accepted {
        problem,
        rules: _,
        conditions,
    } = accepted;
    problem.is_said();
    if problem.dims() < dimension as usize {
        return Ok(SearchReply::Text(bad_dimension(alloc)?));
    }
    let d = dimension as usize - 1;
    let rounds = rounds_of(alloc, &problem, conditions, d, most)?;
    said(alloc, &problem, d, most, rounds)
}

// What the rounds come to, whatever the number of dimensions.
fn rounds_of(
    alloc: Global,
    problem: &Problem,
    conditions: Vec<Cond>,
    d: usize,
    most: u64,
) -> Result<Rounds, AllocError>
    requires d { d < problem.now.dims }
    requires own { AreOwn problem.now conditions.items }
    ensures rounds { IfOk result (λ r. IsBest problem.now d most r.best) }
    ensures least { IfOk result (λ r. PromisesLeast problem.now d r.best) }
    ensures small { IfOk result (λ r. IsSmallBest r.best) }
    ensures shows { IfOk result (λ r. ShowsBest problem.now d r.conditions.items r.best) }
{
    problem.is_said();
    in_dimensions!(
        problem.dims(),
        find_best::<>(alloc, problem, conditions, d, most)
    )
}

// What is said of what the rounds come to.
fn said(
    alloc: Global,
    problem: &Problem,
    d: usize,
    most: u64,
    rounds: Rounds,
) -> Result<SearchReply, AllocError>
    requires promises { PromisesLeast problem.now d rounds.best }
    requires small { IsSmallBest rounds.best }
    requires shows { ShowsBest problem.now d rounds.conditions.items rounds.best }
    ensures says { IfOk result (λ reply. (text : List ℕ) (status : StatusOf)
        → search_says reply text status → SaysBest problem.now d most rounds.best text status) }
    ensures ready { IfOk result is_search_ready }
{
    problem.is_said();
    let Rounds { best, conditions } = rounds;
    match best {
        geo_best::Best::Refused(log) => {
            let nothing = TextReply {
                status: Status::No,
                text: Vec::new(alloc),
            };
            refuted(alloc, problem, conditions.as_slice(), log, nothing)
        }
        geo_best::Best::Budget => Ok(SearchReply::Text(spent(alloc, most)?)),
        geo_best::Best::Bare(layout) => { Ok(SearchReply::Text(bare(alloc, problem, &layout)?)) }
        geo_best::Best::Least(end, layout, log) => {
            let lines = extent(alloc, problem, end, &layout)?;
            refuted(alloc, problem, conditions.as_slice(), log, lines)
        }
    }
}

// A layout without a box.
fn bare(alloc: Global, problem: &Problem, layout: &Layout) -> Result<TextReply, AllocError>
    requires { IsShaped problem.now layout.now }
    ensures text { IfOk result (λ reply. reply.text.items
        ≡ bare_lines problem.now layout.now) }
    ensures status { IfOk result (λ reply. reply.status ≡ Status.Answered) }
{
    let head = [Piece::Bytes(b"best -\n")];
    headed(alloc, problem, &head, layout, Status::Answered)
}

// A layout and where it ends.
fn extent(
    alloc: Global,
    problem: &Problem,
    end: i64,
    layout: &Layout,
) -> Result<TextReply, AllocError>
    requires { IsShaped problem.now layout.now }
    ensures text { IfOk result (λ reply. reply.text.items
        ≡ extent_lines problem.now (Some (record { end = end; layout = layout.now }))) }
    ensures status { IfOk result (λ reply. reply.status ≡ Status.Answered) }
{
    let head = [
        Piece::Bytes(b"best "),
        Piece::Number(end as i128),
        Piece::Bytes(b"\n"),
    ];
    headed(alloc, problem, &head, layout, Status::Answered)
}
