//! A problem with some of its rules.

use crate::tests::problems::CHAIN;
use geo_chan::CleanSink;
use geo_tokens::fault::TextFault;
use problem_data::problem::{Problem, with_rules};
use problem_text::print::print_problem;
use problem_text::read::read_problem;
use std::alloc::{AllocError, Global};
use std::test::Fail;

/// The canonical text of the chain with no rule, with its second one, and with both.
const PARTS: &str = "geost 1 dims 1
shape u box 0 size 1 ;
object a as u at 4..9 ;
object b as u at 0..9 ;
object c as u at 0..5 ;
end
geost 1 dims 1
shape u box 0 size 1 ;
object a as u at 4..9 ;
object b as u at 0..9 ;
object c as u at 0..5 ;
rule q : b.x1 < c.x1 ;
end
geost 1 dims 1
shape u box 0 size 1 ;
object a as u at 4..9 ;
object b as u at 0..9 ;
object c as u at 0..5 ;
rule p : a.x1 < b.x1 ;
rule q : b.x1 < c.x1 ;
end
";

/// Appends the canonical text of a problem.
fn push_problem(alloc: Global, problem: &Problem, out: &mut String) -> Result<(), AllocError> {
    let mut sink = CleanSink::new(alloc);
    let _done = print_problem(alloc, problem, &mut sink);
    out.push_str(str::from_utf8(sink.bytes()).unwrap_or("?"))
}

/// A problem of two rules with none of them, with the second and with both.
fn parts(alloc: Global, text: &[u8]) -> Result<String, TextFault> {
    let problem = read_problem(alloc, text)?;
    let mut shown = String::new(alloc);
    if problem.rules().len() == 2 {
        push_problem(alloc, &with_rules(alloc, &problem, &[])?, &mut shown)?;
        push_problem(alloc, &with_rules(alloc, &problem, &[2])?, &mut shown)?;
        push_problem(alloc, &with_rules(alloc, &problem, &[1, 2])?, &mut shown)?;
    }
    Ok(shown)
}

#[test]
fn parts_have_their_rules_alone(rt: HostRuntime) -> Result<(), Fail> {
    let shown = parts(rt.alloc(), CHAIN)?;
    assert!(rt; shown.as_str() == PARTS, "{}", shown.as_str());
    Ok(())
}
