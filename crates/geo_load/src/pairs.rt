//! The answers about pairs of objects, each asked once.
ghost use Rattle.std.specs.Prelude.{◌≡◌, ◌<◌, IfOk, length};
ghost use Rattle.problem_data.specs.Cells.{IsShaped};
ghost use Rattle.geo_load.specs.Pairs.{AreAnswersOf, IsRow, answer_at};

use crate::reach::blocks;
use geo_conditions::{Layout, ObjId};
use problem_data::problem::Problem;
use std::alloc::{AllocError, Global};

/// Which objects block which: a row for each object, with an answer for each other one.
#[derive(Drop)]
pub struct PairAnswers {
    rows: Vec<Vec<bool>>,
}

impl PairAnswers {
    /// The answers for objects that come in along the dimension `d`.
    pub fn ask(
        alloc: Global,
        problem: &Problem,
        layout: &Layout,
        d: usize,
    ) -> Result<PairAnswers, AllocError>
        requires layout { IsShaped problem.now layout.now }
        requires d { d < problem.now.dims }
        ensures { IfOk result (AreAnswersOf problem.now layout.now d) }
    {
        problem.is_said();
        let count = problem.objects().len();
        let mut rows = Vec::with_capacity(alloc, count)?;
        for i in 0..count {
            let row = ask_row(alloc, problem, layout, ObjId(i as u16), d)?;
            rows.push(row)?;
        }
        Ok(PairAnswers { rows })
    }

    /// Whether the object `i` blocks the object `j`.
    pub fn is_blocked(&self, i: u16, j: u16) -> bool
        ensures { result ≡ answer_at self.now i j }
    {
        match self.rows.get(i as usize) {
            Some(row) => match row.get(j as usize) {
                Some(answer) => *answer,
                None => false,
            },
            None => false,
        }
    }
}

// Which objects the object i blocks.
fn ask_row(
    alloc: Global,
    problem: &Problem,
    layout: &Layout,
    i: ObjId,
    d: usize,
) -> Result<Vec<bool>, AllocError>
    requires layout { IsShaped problem.now layout.now }
    requires i { i.0 < length problem.now.objects }
    requires d { d < problem.now.dims }
    ensures { IfOk result (λ row.
        IsRow problem.now layout.now d i.0 (length problem.now.objects) row.items) }
{
    problem.is_said();
    let count = problem.objects().len();
    let mut row = Vec::with_capacity(alloc, count)?;
    for j in 0..count {
        row.push(blocks(problem, layout, i, ObjId(j as u16), d))?;
    }
    Ok(row)
}
