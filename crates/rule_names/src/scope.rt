//! The names in sight of a part of a formula, and of which kind they are.

ghost use Rattle.std.specs.Prelude.{◌≡◌, map};
ghost use Rattle.problem_data.specs.ProblemView.{param_data};
ghost use Rattle.rule_names.specs.Sight.{same_kind, kind_of_object, kind_of};
ghost use Rattle.rule_names.specs.ScopeView.{scope_view};
ghost use Rattle.rule_names.specs.Table.{AreTables};

use crate::table::{Tables, position_of};
use geo_tokens::name::Name;
use problem_data::problem::{ParamDef, Problem};
use problem_data::tree::ParamKind;

/// The names in sight, the innermost first. The objects' names are always in sight.
#[derive(Clone, Copy)]
pub enum Scope<'a> {
    /// The parameters of a macro; a rule has none.
    Parameters(&'a [ParamDef]),
    /// A quantifier's variable with what it stands for, and what is in sight outside.
    Variable(&'a Scope<'a>, &'a Name, ParamKind),
}

/// The two kinds are the same.
pub fn same_kind(a: ParamKind, b: ParamKind) -> bool
    ensures { result ≡ same_kind a b }
{
    match (a, b) {
        (ParamKind::Int, ParamKind::Int) => true,
        (ParamKind::Object, ParamKind::Object) => true,
        (ParamKind::Box, ParamKind::Box) => true,
        _ => false,
    }
}

/// The kind of what has this name where no variable or parameter has it.
fn kind_of_object(problem: &Problem, tables: &Tables, name: &Name) -> Option<ParamKind>
    requires { AreTables problem.now tables.now }
    ensures { result ≡ kind_of_object problem.now name.now }
{
    match position_of(&tables.objects, name.as_bytes()) {
        Some(_) => Some(ParamKind::Object),
        None => None,
    }
}

/// The kind of the parameter of this name, or of the object of this name where no parameter has it.
fn kind_of_parameter(
    problem: &Problem,
    tables: &Tables,
    params: &[ParamDef],
    name: &Name,
) -> Option<ParamKind>
    requires { AreTables problem.now tables.now }
    ensures { result ≡ kind_of problem.now (map param_data params.now) name.now }
{
    for param in params {
        if *name == param.name {
            return Some(param.kind);
        }
    }
    kind_of_object(problem, tables, name)
}

/// The kind of what a name stands for; none where it stands for nothing.
pub fn kind_of(problem: &Problem, tables: &Tables, scope: &Scope, name: &Name) -> Option<ParamKind>
    requires { AreTables problem.now tables.now }
    ensures { result ≡ kind_of problem.now (scope_view scope.now) name.now }
{
    match scope {
        Scope::Parameters(params) => kind_of_parameter(problem, tables, params, name),
        Scope::Variable(outer, own, kind) => {
            if *name == **own {
                Some(*kind)
            } else {
                kind_of(problem, tables, outer, name)
            }
        }
    }
}
