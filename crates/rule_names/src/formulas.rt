//! The first mistake of a formula.

ghost use Rattle.std.specs.Prelude.{◌≡◌, ◌++◌, List, false, IfOk, map};
ghost use Rattle.rule_syntax.specs.Tree.{formulas};
ghost use Rattle.rule_syntax.specs.View.{expr_view, coll_view, formula_view};
ghost use Rattle.rule_names.specs.declared.mistake.Mistake.{Mistake};
ghost use Rattle.rule_names.specs.Mistakes.{first_of};
ghost use Rattle.rule_names.specs.Sight.{binding};
ghost use Rattle.rule_names.specs.ScopeView.{scope_view};
ghost use Rattle.rule_names.specs.Names.{expr_mistakes, coll_mistakes, element_kind, formula_mistakes, formulas_mistakes};
ghost use Rattle.rule_names.specs.Table.{AreTables};

use crate::collections::{coll_mistake, element_kind};
use crate::expressions::{expr_mistake, whole_call_mistake};
use crate::mistake::{Mistake, earlier};
use crate::scope::Scope;
use crate::table::Tables;
use problem_data::problem::Problem;
use rule_syntax::tree::{Coll, Expr, Formula, PlacedName};
use std::alloc::{AllocError, Global};

/// The first mistake of a comparison.
fn comparison_mistake(
    problem: &Problem,
    tables: &Tables,
    statement: u64,
    scope: &Scope,
    left: &Expr,
    right: &Expr,
) -> Option<Mistake>
    requires { AreTables problem.now tables.now }
    ensures { result ≡ first_of
        (expr_mistakes problem.now statement (scope_view scope.now) false (expr_view left.now)
        ++ expr_mistakes problem.now statement (scope_view scope.now) false
        (expr_view right.now)) }
{
    let one = expr_mistake(problem, tables, statement, scope, false, left);
    let other = expr_mistake(problem, tables, statement, scope, false, right);
    earlier(one, other)
}

/// The first mistake of a formula, in a statement whose name stands at this place.
#[cycle(formulas)]
pub fn formula_mistake(
    alloc: Global,
    problem: &Problem,
    tables: &Tables,
    statement: u64,
    scope: &Scope,
    f: &Formula,
) -> Result<Option<Mistake>, AllocError>
    requires { AreTables problem.now tables.now }
    ensures { IfOk result (λ o. o ≡ first_of
        (formula_mistakes problem.now statement (scope_view scope.now) (formula_view f.now))) }
{
    match f {
        Formula::True(_) => Ok(None),
        Formula::False(_) => Ok(None),
        Formula::Not(_, inner) => {
            formula_mistake(alloc, problem, tables, statement, &*scope, inner)
        }
        Formula::And(_, parts) | Formula::Or(_, parts) => {
            formulas_mistake(alloc, problem, tables, statement, &*scope, parts.as_slice())
        }
        Formula::Implies(_, first, second) | Formula::Iff(_, first, second) => {
            let one = formula_mistake(alloc, problem, tables, statement, &*scope, first)?;
            let other = formula_mistake(alloc, problem, tables, statement, &*scope, second)?;
            Ok(earlier(one, other))
        }
        Formula::Compare(_, left, _, right) => Ok(comparison_mistake(
            problem, tables, statement, &*scope, left, right,
        )),
        Formula::Quant(_, _, v, coll, body) => {
            quantified_mistake(alloc, problem, tables, statement, &*scope, v, coll, body)
        }
        Formula::Call(place, name, given) => Ok(whole_call_mistake(
            problem,
            tables,
            statement,
            &*scope,
            true,
            *place,
            name,
            given.as_slice(),
        )),
    }
}

/// The first mistake of a quantifier, whose body sees its variable.
#[cycle(formulas)]
fn quantified_mistake(
    alloc: Global,
    problem: &Problem,
    tables: &Tables,
    statement: u64,
    scope: &Scope,
    v: &PlacedName,
    coll: &Coll,
    body: &Formula,
) -> Result<Option<Mistake>, AllocError>
    requires { AreTables problem.now tables.now }
    ensures { IfOk result (λ o. o ≡ first_of
        (coll_mistakes problem.now (scope_view scope.now) (coll_view coll.now)
        ++ formula_mistakes problem.now statement
        (binding v.now.name (element_kind (coll_view coll.now)) (scope_view scope.now))
        (formula_view body.now))) }
{
    let range = coll_mistake(alloc, problem, tables, &*scope, coll)?;
    let kind = element_kind(coll);
    let inside = formula_mistake(
        alloc,
        problem,
        tables,
        statement,
        &Scope::Variable(&*scope, &v.name, kind),
        body,
    )?;
    Ok(earlier(range, inside))
}

/// The first mistake of some formulas.
#[cycle(formulas)]
fn formulas_mistake(
    alloc: Global,
    problem: &Problem,
    tables: &Tables,
    statement: u64,
    scope: &Scope,
    parts: &[Formula],
) -> Result<Option<Mistake>, AllocError>
    requires { AreTables problem.now tables.now }
    ensures { IfOk result (λ o. o ≡ first_of
        (formulas_mistakes problem.now statement (scope_view scope.now)
        (formulas (map formula_view parts.now)))) }
{
    let mut found = None;
    'parts: for part in parts {
        let here = formula_mistake(alloc, problem, tables, statement, &*scope, part)?;
        found = earlier(found, here);
    }
    Ok(found)
}
