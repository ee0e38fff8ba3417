//! Tuples in a text that rows can give.

ghost use Rattle.problem_data.specs.Cells.{IsShaped};

use geo_chan::CleanSink;
use geo_conditions::Layout;
use layout_text::print_token;
use problem_data::problem::Problem;
use std::alloc::{AllocError, Global};

/// The token of a tuple: the place and the origin of each object.
pub fn token(alloc: Global, problem: &Problem, layout: &Layout) -> Result<String, AllocError>
    requires { IsShaped problem.now layout.now }
{
    let mut sink = CleanSink::new(alloc);
    let _done = print_token(problem, layout, &mut sink);
    String::from_str(alloc, str::from_utf8(sink.bytes()).unwrap_or("?"))
}
