//! `judge`: whether every rule holds on a layout, else the first rule that does not.

ghost use Rattle.std.specs.Prelude.{◌≡◌, ◌≤◌, IfOk, ℕ, List, length};
ghost use Rattle.command_reply.specs.Given.{IsGiven};
ghost use Rattle.command_reply.specs.Question.{AnswersInput};
ghost use Rattle.command_reply.specs.Reply.{IsSaid};
ghost use Rattle.layout_commands.specs.Judge.{JudgeAnswer, broken_rule, judge_question, rule_name};

use command_input::{ReadFault, Status};
use command_reply::{Deciding, Given, TextReply, refuse, reply_of, take_given};
use geo_chan::{Piece, Source};
use geo_meaning::judging::{Judged, judge_rules};
use problem_data::problem::Problem;
use std::alloc::{AllocError, Global};

/// The command `judge`.
#[derive(Clone, Copy)]
pub struct Judge;

impl Deciding for Judge {
    type Answer = TextReply;

    ghost question = { λ _. judge_question };

    fn decide<S: Source>(&self, alloc: Global, source: &mut S) -> Result<TextReply, ReadFault> {
        match take_given(alloc, source)? {
            Ok(given) => Ok(judged(alloc, &given)?),
            Err(fault) => Ok(refuse(alloc, fault)?),
        }
    }

    fn sound(&self) {}
}

// What is replied to a problem and a layout of it.
fn judged(alloc: Global, given: &Given) -> Result<TextReply, AllocError>
    requires { (input : List ℕ) × IsGiven input given.now }
    ensures { IfOk result (λ reply. (input : List ℕ) → IsGiven input given.now
        → AnswersInput JudgeAnswer input (IsSaid reply.text.items reply.status)) }
{
    let Given { accepted, layout } = given;
    match judge_rules(&accepted.problem, accepted.rules.as_slice(), layout) {
        Judged::Good => reply_of(alloc, Status::Answered, &[Piece::Bytes(b"good\n")]),
        Judged::Broken(number) => broken(alloc, &accepted.problem, number),
    }
}

// That the rule of this number, from 1, does not hold.
fn broken(alloc: Global, problem: &Problem, number: u16) -> Result<TextReply, AllocError>
    requires { (1 ≤ number) × (number ≤ length problem.now.rules) }
    ensures text { IfOk result (λ reply.
        reply.text.items ≡ broken_rule (rule_name problem.now number)) }
    ensures status { IfOk result (λ reply. reply.status ≡ Status.No) }
{
    let rule = &problem.rules()[number as usize - 1];
    let pieces = [
        Piece::Bytes(b"broken "),
        Piece::Bytes(rule.name().as_bytes()),
        Piece::Bytes(b"\n"),
    ];
    reply_of(alloc, Status::No, &pieces)
}
