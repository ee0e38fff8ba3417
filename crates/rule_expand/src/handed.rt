//! Macros that hand one of their parameters on.
//!
//! A call of such a macro is its argument and takes no node of its own. So it is replaced by that argument at once: a tower of
//! such macros, each of which calls the one below twice, would otherwise take steps that double with each macro.

ghost use Rattle.std.specs.Prelude.{◌≡◌, ◌<◌, ℕ, List, IfOk, MatchOption, length, map};
ghost use Rattle.rule_syntax.specs.Tree as tree;
ghost use Rattle.rule_syntax.specs.View.{argument_view, expr_view};
ghost use Rattle.problem_data.specs.Problem.{ProblemData};
ghost use Rattle.problem_data.specs.ProblemView.{param_data};
ghost use Rattle.problem_data.specs.Value.{macro_position};
ghost use Rattle.problem_data.specs.Truth.{macro_of};
ghost use Rattle.rule_expand.specs.Expansion.{Meant, as_expr, expansions_of, expr_expanded, give_all, meant_by};
ghost use Rattle.rule_expand.specs.Handed.{AreHanded, HandsOn, IsHandedIndex, nth_meant};
ghost use Rattle.rule_names.specs.Table.{found};

use crate::scope::parameter_index;
use geo_tokens::name::Name;
use problem_data::problem::{MacroDef, ParamDef, Problem};
use problem_data::seen::SeenNames;
use problem_data::tree::MacroBody;
use rule_names::table::position_of;
use rule_syntax::tree::{Argument, Expr, PlacedName};
use std::alloc::{AllocError, Global};

/// The parameter that the macro at this position hands on, where it is one of the first `count`.
pub fn handed_index(handed: &[Option<usize>], position: usize, count: usize) -> Option<usize>
    ensures { MatchOption result (Unit {0}) (λ i. IsHandedIndex handed.now position count i) }
{
    if position >= handed.len() {
        return None;
    }
    match handed[position] {
        Some(i) => { if i < count { Some(i) } else { None } }
        None => None,
    }
}

/// The parameter of this name.
fn parameter_named(params: &[ParamDef], name: &Name) -> Option<usize>
    ensures { MatchOption result (Unit {0}) (λ i. (p : ProblemData) (ms : List Meant)
        → i < length ms →
        as_expr (meant_by p name.now (give_all (map param_data params.now) ms))
        ≡ as_expr (nth_meant ms i)) }
{
    match parameter_index(params, params.len(), name) {
        Some(i) => Some(i),
        None => None,
    }
}

/// The parameter that an expression hands on, where the macros of the list are in sight.
#[cycle(handed)]
fn parameter_of(
    problem: &Problem,
    macros: &SeenNames<'_>,
    handed: &[Option<usize>],
    params: &[ParamDef],
    e: &Expr,
) -> Option<usize>
    requires table { (n : List ℕ) → found macros.now n ≡ macro_position problem.now n }
    requires handed { AreHanded problem.now handed.now }
    ensures { MatchOption result (Unit {0}) (λ i. (ms : List Meant) → i < length ms →
        expr_expanded (expansions_of problem.now (length handed.now)) problem.now (expr_view e.now)
        (give_all (map param_data params.now) ms) ≡ as_expr (nth_meant ms i)) }
{
    match e {
        Expr::Param(a) => match parameter_named(params, &a.name) {
            Some(i) => Some(i),
            None => None,
        },
        Expr::CallValue(_, m, args) => {
            match parameter_of_call(problem, macros, handed, params, m, args) {
                Some(i) => Some(i),
                None => None,
            }
        }
        Expr::Num(..) => None,
        Expr::Field(..) => None,
        Expr::ShapeNum(..) => None,
        Expr::Neg(..) => None,
        Expr::Sum(..) => None,
        Expr::Prod(..) => None,
        Expr::Min(..) => None,
        Expr::Max(..) => None,
    }
}

/// The parameter that a call hands on, where the macros of the list are in sight.
#[cycle(handed)]
fn parameter_of_call(
    problem: &Problem,
    macros: &SeenNames<'_>,
    handed: &[Option<usize>],
    params: &[ParamDef],
    m: &PlacedName,
    args: &[Argument],
) -> Option<usize>
    requires table { (n : List ℕ) → found macros.now n ≡ macro_position problem.now n }
    requires handed { AreHanded problem.now handed.now }
    ensures { MatchOption result (Unit {0}) (λ i. (ms : List Meant) → i < length ms →
        expr_expanded (expansions_of problem.now (length handed.now)) problem.now
        (tree.value_call 0 m.now (tree.arguments (map argument_view args.now)))
        (give_all (map param_data params.now) ms) ≡ as_expr (nth_meant ms i)) }
{
    match position_of(macros, m.name.as_bytes()) {
        Some(position) => match handed_index(handed, position, args.len()) {
            Some(i) => parameter_of(problem, macros, handed, params, &args[i].value),
            None => None,
        },
        None => None,
    }
}

/// The parameter that a macro hands on, where the macros before it are in sight.
fn handed_by(
    problem: &Problem,
    macros: &SeenNames<'_>,
    handed: &[Option<usize>],
    it: &MacroDef,
) -> Option<usize>
    requires table { (n : List ℕ) → found macros.now n ≡ macro_position problem.now n }
    requires handed { AreHanded problem.now handed.now }
    requires next { it.now ≡ macro_of problem.now (length handed.now) }
    ensures { MatchOption result (Unit {0}) (λ i. HandsOn problem.now (length handed.now) i) }
{
    match it.body() {
        MacroBody::Is(e) => parameter_of(problem, macros, handed, it.params(), e),
        MacroBody::Means(_) => None,
    }
}

/// For each macro the parameter that it hands on.
pub fn handed_parameters(
    alloc: Global,
    problem: &Problem,
    macros: &SeenNames<'_>,
) -> Result<Vec<Option<usize>>, AllocError>
    requires { (n : List ℕ) → found macros.now n ≡ macro_position problem.now n }
    ensures { IfOk result (λ v. AreHanded problem.now v.items) }
{
    let mut handed = Vec::new(alloc);
    for it in problem.macros() {
        let one = handed_by(problem, macros, handed.as_slice(), it);
        handed.push(one)?;
    }
    Ok(handed)
}
