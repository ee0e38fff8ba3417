//! The first mistake of an expression.

ghost use Rattle.std.specs.Prelude.{◌≡◌, ◌++◌, List, map};
ghost use Rattle.rule_syntax.specs.Tree.{sums, products, arguments};
ghost use Rattle.rule_syntax.specs.View.{expr_view, sum_view, product_view, argument_view};
ghost use Rattle.rule_names.specs.Mistakes.{first_of};
ghost use Rattle.rule_names.specs.ScopeView.{scope_view};
ghost use Rattle.rule_names.specs.Names.{call_mistakes, expr_mistakes, sum_mistakes, sums_mistakes, product_mistakes, products_mistakes, argument_mistakes, arguments_mistakes};
ghost use Rattle.rule_names.specs.Table.{AreTables};

use crate::calls::call_mistake;
use crate::fields::{bare_mistake, field_mistake, shape_mistake};
use crate::mistake::{Mistake, earlier};
use crate::scope::Scope;
use crate::table::Tables;
use problem_data::problem::Problem;
use rule_syntax::tree::{Argument, Expr, PlacedName, ProdStep, SumStep};

/// The first mistake of an expression, in a statement whose name stands at this place. A bare name may be of any kind where `any_kind` says
/// so, as an argument may; else it is a number.
#[cycle(expressions)]
pub fn expr_mistake(
    problem: &Problem,
    tables: &Tables,
    statement: u64,
    scope: &Scope,
    any_kind: bool,
    e: &Expr,
) -> Option<Mistake>
    requires { AreTables problem.now tables.now }
    ensures { result ≡ first_of (expr_mistakes problem.now statement (scope_view scope.now)
        any_kind (expr_view e.now)) }
{
    match e {
        Expr::Num(..) => None,
        Expr::Field(of, dot, field) => field_mistake(problem, tables, scope, of, *dot, field),
        Expr::Param(name) => bare_mistake(problem, tables, scope, any_kind, name),
        Expr::ShapeNum(_, name) => shape_mistake(problem, tables, name),
        Expr::Neg(_, inner) => expr_mistake(problem, tables, statement, scope, false, inner),
        Expr::Sum(_, first, steps) => {
            let one = expr_mistake(problem, tables, statement, scope, false, first);
            let others = sums_mistake(problem, tables, statement, scope, steps.as_slice());
            earlier(one, others)
        }
        Expr::Prod(_, first, steps) => {
            let one = expr_mistake(problem, tables, statement, scope, false, first);
            let others = products_mistake(problem, tables, statement, scope, steps.as_slice());
            earlier(one, others)
        }
        Expr::Min(_, first, second) | Expr::Max(_, first, second) => {
            let one = expr_mistake(problem, tables, statement, scope, false, first);
            let other = expr_mistake(problem, tables, statement, scope, false, second);
            earlier(one, other)
        }
        Expr::CallValue(place, name, given) => {
            let list = given.as_slice();
            whole_call_mistake(problem, tables, statement, scope, false, *place, name, list)
        }
    }
}

/// The first mistake of a call, its arguments' own mistakes among them.
#[cycle(expressions)]
pub fn whole_call_mistake(
    problem: &Problem,
    tables: &Tables,
    statement: u64,
    scope: &Scope,
    formula: bool,
    place: u64,
    name: &PlacedName,
    given: &[Argument],
) -> Option<Mistake>
    requires { AreTables problem.now tables.now }
    ensures { result ≡ first_of
        (call_mistakes problem.now statement (scope_view scope.now) formula place name.now
        (arguments (map argument_view given.now))
        ++ arguments_mistakes problem.now statement (scope_view scope.now)
        (arguments (map argument_view given.now))) }
{
    let call = call_mistake(
        problem, tables, statement, scope, formula, place, name, given,
    );
    let inside = arguments_mistake(problem, tables, statement, scope, given);
    earlier(call, inside)
}

#[cycle(expressions)]
fn sums_mistake(
    problem: &Problem,
    tables: &Tables,
    statement: u64,
    scope: &Scope,
    steps: &[SumStep],
) -> Option<Mistake>
    requires { AreTables problem.now tables.now }
    ensures { result ≡ first_of (sums_mistakes problem.now statement (scope_view scope.now)
        (sums (map sum_view steps.now))) }
{
    let mut found = None;
    'steps: for step in steps {
        let here = sum_mistake(problem, tables, statement, scope, step);
        found = earlier(found, here);
    }
    found
}

#[cycle(expressions)]
fn sum_mistake(
    problem: &Problem,
    tables: &Tables,
    statement: u64,
    scope: &Scope,
    step: &SumStep,
) -> Option<Mistake>
    requires { AreTables problem.now tables.now }
    ensures { result ≡ first_of
        (sum_mistakes problem.now statement (scope_view scope.now) (sum_view step.now)) }
{
    match step {
        SumStep::Plus(term) => expr_mistake(problem, tables, statement, scope, false, term),
        SumStep::Minus(term) => expr_mistake(problem, tables, statement, scope, false, term),
    }
}

#[cycle(expressions)]
fn products_mistake(
    problem: &Problem,
    tables: &Tables,
    statement: u64,
    scope: &Scope,
    steps: &[ProdStep],
) -> Option<Mistake>
    requires { AreTables problem.now tables.now }
    ensures { result ≡ first_of (products_mistakes problem.now statement (scope_view scope.now)
        (products (map product_view steps.now))) }
{
    let mut found = None;
    'steps: for step in steps {
        let here = product_mistake(problem, tables, statement, scope, step);
        found = earlier(found, here);
    }
    found
}

#[cycle(expressions)]
fn product_mistake(
    problem: &Problem,
    tables: &Tables,
    statement: u64,
    scope: &Scope,
    step: &ProdStep,
) -> Option<Mistake>
    requires { AreTables problem.now tables.now }
    ensures { result ≡ first_of (product_mistakes problem.now statement (scope_view scope.now)
        (product_view step.now)) }
{
    match step {
        ProdStep::Times(factor) => expr_mistake(problem, tables, statement, scope, false, factor),
        ProdStep::Div(..) => None,
        ProdStep::Mod(..) => None,
    }
}

/// The first mistake inside the arguments of a call.
#[cycle(expressions)]
fn arguments_mistake(
    problem: &Problem,
    tables: &Tables,
    statement: u64,
    scope: &Scope,
    given: &[Argument],
) -> Option<Mistake>
    requires { AreTables problem.now tables.now }
    ensures { result ≡ first_of (arguments_mistakes problem.now statement (scope_view scope.now)
        (arguments (map argument_view given.now))) }
{
    let mut found = None;
    'arguments: for argument in given {
        let here = argument_mistake(problem, tables, statement, scope, argument);
        found = earlier(found, here);
    }
    found
}

#[cycle(expressions)]
fn argument_mistake(
    problem: &Problem,
    tables: &Tables,
    statement: u64,
    scope: &Scope,
    argument: &Argument,
) -> Option<Mistake>
    requires { AreTables problem.now tables.now }
    ensures { result ≡ first_of (argument_mistakes problem.now statement (scope_view scope.now)
        (argument_view argument.now)) }
{
    let Argument { place: _, value } = argument;
    expr_mistake(problem, tables, statement, scope, true, value)
}
