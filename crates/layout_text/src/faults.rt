//! The first fault of the lines of a layout text.

ghost use Rattle.std.specs.Prelude.{◌≡◌, map};
ghost use Rattle.problem_data.specs.Least.{IsLeast};
ghost use Rattle.layout_text.specs.View.{line_view, token_view, token_views, layout_view};
ghost use Rattle.layout_text.specs.Faults.{LinesFault, behind_lines, MissingFault, TokenLineFault, IsFault};

mod line;
mod tuple;

use crate::faults::line::line_fault;
use crate::faults::tuple::same_tuple;
use crate::tree::{LayoutText, LineText, TokenText};
use geo_tokens::fault::FaultWord;
use problem_data::fault::{Fault, earlier, fault_if};
use problem_data::problem::Problem;

fn lines_fault(problem: &Problem, lines: &[LineText]) -> Option<Fault>
    ensures { IsLeast (LinesFault problem.now (map line_view lines.now)) result }
{
    let mut found = None;
    for (i, line) in lines.iter().enumerate() {
        let here = line_fault(problem, i, line);
        found = earlier(found, here);
    }
    found
}

// The place of the word of the token line, or the end of the text.
fn behind_lines(end: u64, said: &LayoutText) -> u64
    ensures { result ≡ behind_lines end (token_views said.now.token) }
{
    match &said.token {
        Some(line) => line.place,
        None => end,
    }
}

fn missing_fault(problem: &Problem, end: u64, said: &LayoutText) -> Option<Fault>
    ensures { IsLeast (MissingFault problem.now end (layout_view said.now)) result }
{
    let missing = said.lines.len() < problem.objects().len();
    fault_if(missing, behind_lines(end, said), FaultWord::Order)
}

fn token_line_fault(problem: &Problem, lines: &[LineText], line: &TokenText) -> Option<Fault>
    ensures { IsLeast (TokenLineFault problem.now (map line_view lines.now)
        (Some (token_view line.now))) result }
{
    let same = same_tuple(problem, lines, line.groups.as_slice());
    fault_if(!same, line.place, FaultWord::Token)
}

fn token_fault(problem: &Problem, said: &LayoutText) -> Option<Fault>
    ensures { IsLeast (TokenLineFault problem.now (layout_view said.now).lines
        (token_views said.now.token)) result }
{
    match &said.token {
        Some(line) => token_line_fault(problem, said.lines.as_slice(), line),
        None => None,
    }
}

/// The first fault of what a text says that ends at `end`.
pub fn first_fault(problem: &Problem, end: u64, said: &LayoutText) -> Option<Fault>
    ensures { IsLeast (IsFault problem.now end (layout_view said.now)) result }
{
    let lines = lines_fault(problem, said.lines.as_slice());
    let missing = missing_fault(problem, end, said);
    let token = token_fault(problem, said);
    let last = earlier(missing, token);
    earlier(lines, last)
}
