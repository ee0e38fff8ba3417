//! What is looked up while rules are expanded.

ghost use Rattle.std.specs.Prelude.{◌≡◌, IfOk};
ghost use Rattle.rule_expand.specs.Table.{IsSource};

use crate::handed::handed_parameters;
use problem_data::problem::Problem;
use rule_names::table::{Tables, tables_of};
use std::alloc::{AllocError, Global};

/// A problem whose rules are expanded, with the tables of its names and for each macro the parameter that it hands on, and where
/// memory is taken from.
pub struct Source<'a> {
    pub alloc: Global,
    pub problem: &'a Problem,
    pub names: Tables<'a>,
    pub handed: Vec<Option<usize>>,
}

impl Drop for Source<'_> {
    fn drop(self) {
        let Source {
            alloc: _,
            problem: _,
            names: _names,
            handed: _handed,
        } = self;
    }
}

/// A problem with its tables.
pub fn source_of(alloc: Global, problem: &Problem) -> Result<Source<'_>, AllocError>
    ensures { IfOk result (λ s. IsSource s × (s.problem.now ≡ problem.now)) }
{
    let names = tables_of(alloc, problem)?;
    let handed = handed_parameters(alloc, problem, &names.macros)?;
    Ok(Source {
        alloc,
        problem,
        names,
        handed,
    })
}
