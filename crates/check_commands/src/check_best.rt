//! `check_best`: whether a derivation shows that no layout of a problem ends below a number in one
//! dimension, else its first node that is not valid.

ghost use Rattle.std.specs.Prelude.{◌≡◌, ◌≤◌, ◌+◌, ◌^◌, IfOk, ℕ, List, Option};
ghost use Rattle.command_input.specs.Reading.{ReadCause, TakesAtMost, Tells};
ghost use Rattle.command_input.specs.Words.{IsDimension, IsExtent};
ghost use Rattle.check_commands.specs.CheckBest.{check_best_question};
ghost use Rattle.check_commands.specs.Checks.{FindsIn, IsFront};
ghost use Rattle.check_commands.specs.Claims.{none_below};

use crate::front::{Front, take_front};
use crate::second::check_second;
use crate::verdicts::reply_to;
use command_input::ReadFault;
use command_reply::{Accepted, Deciding, TextReply, bad_dimension};
use derivation_check::Checked;
use extent_caps::push_caps;
use geo_chan::Source;
use geo_tokens::fault::TextFault;
use std::alloc::Global;

/// The command `check_best`.
#[derive(Clone, Copy)]
pub struct CheckBest {
    dimension: u8,
    extent: i64,
    ghost counted: { 1 ≤ dimension },
    ghost bounded: { IsExtent extent },
}

impl CheckBest {
    /// Whether no layout ends below this number in this dimension, counted from 1.
    pub fn new(dimension: u8, extent: i64) -> CheckBest
        requires dimension { IsDimension dimension }
        requires extent { IsExtent extent }
        ensures dimension { result.dimension ≡ dimension }
        ensures extent { result.extent ≡ extent }
    {
        CheckBest { dimension, extent }
    }
}

impl Deciding for CheckBest {
    type Answer = TextReply;

    ghost question = { λ c. check_best_question c.dimension c.extent };

    fn decide<S: Source>(&self, alloc: Global, source: &mut S) -> Result<TextReply, ReadFault> {
        let front = match take_front(alloc, source)? {
            Ok(front) => front,
            Err(fault) => return Ok(reply_to(alloc, Err(fault))?),
        };
        if front.accepted.problem.dims() < self.dimension as usize {
            return Ok(bad_dimension(alloc)?);
        }
        let found = check_below(alloc, front, self.dimension, self.extent, source)?;
        Ok(reply_to(alloc, found)?)
    }

    fn sound(&self) {}
}

// What is found of the text behind a problem, under the conditions of the problem and, behind them,
// the caps below `e` in the dimension `d`, counted from 1.
fn check_below<S: Source>(
    alloc: Global,
    front: Front,
    d: u8,
    e: i64,
    source: &mut S,
) -> Result<Result<Checked, TextFault>, ReadFault>
    requires front { (left : Option (List ℕ)) × IsFront left (S.left source.old) front }
    requires dimension { (1 ≤ d) × (d ≤ front.accepted.problem.dims) }
    requires extent { IsExtent e }
    ensures answer { IfOk result (λ found. (left : Option (List ℕ))
        → IsFront left (S.left source.old) front
        → (input : List ℕ) × Tells left input × FindsIn (none_below d e) input found) }
    ensures most { TakesAtMost (2 ^ 40 + 4096) (S.left source.old) (S.left source.new) }
    ensures counted { S.taken source.new ≤ S.taken source.old + (2 ^ 40 + 4096) }
    ensures cause { ReadCause (S.faults source.old) (S.faults source.new) result }
{
    let Front { accepted, second } = front;
    let Accepted {
        problem,
        mut conditions,
        rules: _rules,
    } = accepted;
    push_caps(alloc, &problem, d as usize - 1, e - 1, &mut conditions)?;
    check_second(alloc, &problem, conditions.as_slice(), &second, source)
}
