//! `load`: in which order the objects of a layout come in along a dimension, or a cycle of objects
//! each of which is in the way of the next one.

ghost use Rattle.std.specs.Prelude.{◌≡◌, ◌++◌, ◌<◌, ◌≤◌, IfOk, ℕ, List, All, length};
ghost use Rattle.command_reply.specs.Given.{IsGiven};
ghost use Rattle.command_reply.specs.Question.{AnswersInput};
ghost use Rattle.command_reply.specs.Reply.{IsSaid};
ghost use Rattle.layout_commands.specs.Load.{LoadAnswer, load_question, name_lines};

use command_input::{ReadFault, Status};
use command_reply::{Deciding, Given, TextReply, bad_dimension, refuse, take_given_in};
use geo_chan::Source;
use geo_load::{Loading, ObjList, load};
use problem_data::problem::Problem;
use std::alloc::{AllocError, Global};

/// The command `load`.
#[derive(Clone, Copy)]
pub struct Load {
    dimension: u8,
    ghost counted: { 1 ≤ dimension },
}

impl Load {
    /// Objects come in along this dimension, counted from 1, from its high side.
    pub fn new(dimension: u8) -> Load
        requires { 1 ≤ dimension }
        ensures { result.dimension ≡ dimension }
    {
        Load { dimension }
    }
}

impl Deciding for Load {
    type Answer = TextReply;

    ghost question = { λ l. load_question l.dimension };

    fn decide<S: Source>(&self, alloc: Global, source: &mut S) -> Result<TextReply, ReadFault> {
        match take_given_in(alloc, source, self.dimension)? {
            Ok(Some(given)) => Ok(loaded(alloc, &given, self.dimension)?),
            Ok(None) => Ok(bad_dimension(alloc)?),
            Err(fault) => Ok(refuse(alloc, fault)?),
        }
    }

    fn sound(&self) {}
}

// What is replied to a problem that has the dimension, and a layout of it.
fn loaded(alloc: Global, given: &Given, dimension: u8) -> Result<TextReply, AllocError>
    requires given { (input : List ℕ) × IsGiven input given.now }
    requires counted { 1 ≤ dimension }
    requires there { dimension ≤ given.now.accepted.problem.dims }
    ensures { IfOk result (λ reply. (input : List ℕ) → IsGiven input given.now
        → AnswersInput (LoadAnswer dimension) input (IsSaid reply.text.items reply.status)) }
{
    let Given { accepted, layout } = given;
    let problem = &accepted.problem;
    match load(alloc, problem, layout, dimension as usize - 1)? {
        Loading::Order(order) => named(alloc, problem, Status::Answered, b"order\n", &order),
        Loading::Cycle(cycle) => named(alloc, problem, Status::No, b"cycle\n", &cycle),
    }
}

// The word, and the name of each object on a line.
fn named(
    alloc: Global,
    problem: &Problem,
    status: Status,
    word: &[u8],
    objects: &ObjList,
) -> Result<TextReply, AllocError>
    requires { All (λ o. o < length problem.now.objects) objects.now }
    ensures text { IfOk result (λ reply.
        reply.text.items ≡ word.now ++ name_lines problem.now objects.now) }
    ensures status { IfOk result (λ reply. reply.status ≡ status) }
{
    let mut text = Vec::from_slice(alloc, word)?;
    for k in 0..objects.len() {
        let object = &problem.objects()[objects.at(k).0 as usize];
        text.extend_from_slice(object.name().as_bytes())?;
        text.push(b'\n')?;
    }
    Ok(TextReply { status, text })
}
