//! Calls of macros: whether the macro is made before, and what it is given.

ghost use Rattle.std.specs.Prelude.{◌≡◌, ◌<◌, length, map};
ghost use Rattle.std.specs.Option.{option_map};
ghost use Rattle.rule_syntax.specs.Tree.{arguments};
ghost use Rattle.rule_syntax.specs.View.{expr_view, argument_view};
ghost use Rattle.problem_data.specs.ProblemView.{param_data};
ghost use Rattle.problem_data.specs.Value.{macro_position};
ghost use Rattle.problem_data.specs.View.{body_view};
ghost use Rattle.rule_names.specs.Mistakes.{first_of};
ghost use Rattle.rule_names.specs.Sight.{macro_before, macro_called};
ghost use Rattle.rule_names.specs.ScopeView.{scope_view};
ghost use Rattle.rule_names.specs.Names.{kind_given, passed_mistakes, all_passed, is_formula, differs, call_of_macro, call_mistakes};
ghost use Rattle.rule_names.specs.Table.{AreTables};

use crate::mistake::{Flaw, Mistake, earlier, mistake_if};
use crate::scope::{Scope, kind_of, same_kind};
use crate::table::{Tables, position_of};
use geo_tokens::name::Name;
use problem_data::problem::{MacroDef, ParamDef, Problem};
use problem_data::tree::{MacroBody, ParamKind};
use rule_syntax::tree::{Argument, Expr, PlacedName};

/// The kind of an argument; none where it is a bare name that stands for nothing.
fn kind_given(problem: &Problem, tables: &Tables, scope: &Scope, e: &Expr) -> Option<ParamKind>
    requires { AreTables problem.now tables.now }
    ensures { result ≡ kind_given problem.now (scope_view scope.now) (expr_view e.now) }
{
    match e {
        Expr::Param(a) => kind_of(problem, tables, scope, &a.name),
        Expr::Num(..) => Some(ParamKind::Int),
        Expr::Field(..) => Some(ParamKind::Int),
        Expr::ShapeNum(..) => Some(ParamKind::Int),
        Expr::Neg(..) => Some(ParamKind::Int),
        Expr::Sum(..) => Some(ParamKind::Int),
        Expr::Prod(..) => Some(ParamKind::Int),
        Expr::Min(..) => Some(ParamKind::Int),
        Expr::Max(..) => Some(ParamKind::Int),
        Expr::CallValue(..) => Some(ParamKind::Int),
    }
}

/// The mistake of an argument that is not of its parameter's kind.
fn passed_mistake(
    problem: &Problem,
    tables: &Tables,
    scope: &Scope,
    param: &ParamDef,
    given: &Argument,
) -> Option<Mistake>
    requires { AreTables problem.now tables.now }
    ensures { result ≡ first_of (passed_mistakes problem.now (scope_view scope.now)
        (param_data param.now) (argument_view given.now)) }
{
    let Argument { place, value } = given;
    match kind_given(problem, tables, scope, value) {
        Some(kind) => {
            let fits = same_kind(kind, param.kind);
            mistake_if(!fits, *place, Flaw::WrongKind)
        }
        None => None,
    }
}

/// The first mistake of arguments that are not of their parameters' kinds.
fn all_passed(
    problem: &Problem,
    tables: &Tables,
    scope: &Scope,
    params: &[ParamDef],
    given: &[Argument],
) -> Option<Mistake>
    requires { AreTables problem.now tables.now }
    ensures { result ≡ first_of (all_passed problem.now (scope_view scope.now)
        (map param_data params.now) (arguments (map argument_view given.now))) }
{
    let mut found = None;
    'params: for (i, param) in params.iter().enumerate() {
        if i >= given.len() {
            return found;
        }
        let here = passed_mistake(problem, tables, scope, param, &given[i]);
        found = earlier(found, here);
    }
    found
}

/// Whether a macro stands for a formula.
fn is_formula(body: &MacroBody) -> bool
    ensures { result ≡ is_formula (body_view body.now) }
{
    match body {
        MacroBody::Means(_) => true,
        MacroBody::Is(_) => false,
    }
}

fn differs(a: bool, b: bool) -> bool
    ensures { result ≡ differs a b }
{
    if a { !b } else { b }
}

/// The position of the macro of this name.
fn macro_index(_problem: &Problem, tables: &Tables, name: &Name) -> Option<usize>
    requires { AreTables _problem.now tables.now }
    ensures { result ≡ macro_position _problem.now name.now }
{
    position_of(&tables.macros, name.as_bytes())
}

/// The macro at this position, where it is made before a statement whose name stands at this place.
fn macro_before<'a>(problem: &'a Problem, position: usize, statement: u64) -> Option<&'a MacroDef>
    requires { position < length problem.now.macros }
    ensures { option_map (λ d. d.now) result ≡ macro_before problem.now statement position }
{
    let macros = problem.macros();
    let called = &macros[position];
    if called.place() < statement {
        Some(called)
    } else {
        None
    }
}

/// The macro of this name, where it is made before a statement whose name stands at this place.
fn macro_called<'a>(
    problem: &'a Problem,
    tables: &Tables,
    statement: u64,
    name: &Name,
) -> Option<&'a MacroDef>
    requires { AreTables problem.now tables.now }
    ensures { option_map (λ d. d.now) result ≡ macro_called problem.now statement name.now }
{
    match macro_index(problem, tables, name) {
        Some(position) => macro_before(problem, position, statement),
        None => None,
    }
}

/// The first mistake of a call of this macro, by a mark for a formula or for a number.
fn call_of_macro(
    problem: &Problem,
    tables: &Tables,
    scope: &Scope,
    formula: bool,
    place: u64,
    given: &[Argument],
    called: &MacroDef,
) -> Option<Mistake>
    requires { AreTables problem.now tables.now }
    ensures { result ≡ first_of (call_of_macro problem.now (scope_view scope.now)
        formula place (arguments (map argument_view given.now)) called.now) }
{
    let params = called.params();
    let marked = differs(formula, is_formula(called.body()));
    let kind = mistake_if(marked, place, Flaw::WrongKind);
    let same = given.len() == params.len();
    let count = mistake_if(!same, place, Flaw::WrongCount);
    let marks = earlier(kind, count);
    let passed = all_passed(problem, tables, scope, params, given);
    earlier(marks, passed)
}

/// The first mistake of a call, its arguments' own mistakes aside, in a statement whose name stands at this place.
pub fn call_mistake(
    problem: &Problem,
    tables: &Tables,
    statement: u64,
    scope: &Scope,
    formula: bool,
    place: u64,
    name: &PlacedName,
    given: &[Argument],
) -> Option<Mistake>
    requires { AreTables problem.now tables.now }
    ensures { result ≡ first_of (call_mistakes problem.now statement (scope_view scope.now)
        formula place name.now (arguments (map argument_view given.now))) }
{
    match macro_called(problem, tables, statement, &name.name) {
        Some(called) => call_of_macro(problem, tables, scope, formula, place, given, called),
        None => mistake_if(true, name.place, Flaw::UnknownName),
    }
}
