//! The first mistake of a problem's macros and rules.

ghost use Rattle.std.specs.Prelude.{◌≡◌, [], IfOk, map};
ghost use Rattle.problem_data.specs.ProblemView.{demand_data, param_data};
ghost use Rattle.problem_data.specs.View.{body_view};
ghost use Rattle.rule_names.specs.Mistakes.{first_of};
ghost use Rattle.rule_names.specs.ScopeView.{scope_view};
ghost use Rattle.rule_names.specs.Names.{body_mistakes, macros_mistakes, demand_mistakes, rules_mistakes, mistakes};
ghost use Rattle.rule_names.specs.Answers.{AnswersNames, IsOnlyAnswer};
ghost use Rattle.rule_names.specs.Table.{AreTables};

use crate::expressions::expr_mistake;
use crate::formulas::formula_mistake;
use crate::mistake::{Mistake, earlier, word_of};
use crate::scope::Scope;
use crate::table::{Tables, tables_of};
use geo_tokens::fault::TextFault;
use problem_data::problem::{Demand, ParamDef, Problem};
use problem_data::tree::MacroBody;
use std::alloc::{AllocError, Global};

/// The first mistake of the body of a macro, which sees these parameters and calls the macros that are made before.
fn body_mistake(
    alloc: Global,
    problem: &Problem,
    tables: &Tables,
    statement: u64,
    params: &[ParamDef],
    body: &MacroBody,
) -> Result<Option<Mistake>, AllocError>
    requires { AreTables problem.now tables.now }
    ensures { IfOk result (λ o. o ≡ first_of
        (body_mistakes problem.now statement (map param_data params.now) (body_view body.now))) }
{
    let scope = Scope::Parameters(params);
    match body {
        MacroBody::Means(formula) => {
            formula_mistake(alloc, problem, tables, statement, &scope, formula)
        }
        MacroBody::Is(value) => Ok(expr_mistake(problem, tables, statement, &scope, false, value)),
    }
}

/// The first mistake of the macros.
fn macros_mistake(
    alloc: Global,
    problem: &Problem,
    tables: &Tables,
) -> Result<Option<Mistake>, AllocError>
    requires { AreTables problem.now tables.now }
    ensures { IfOk result (λ o. o ≡ first_of (macros_mistakes problem.now problem.now.macros)) }
{
    let macros = problem.macros();
    let mut found = None;
    'each: for one in macros {
        let here = body_mistake(
            alloc,
            problem,
            tables,
            one.place(),
            one.params(),
            one.body(),
        )?;
        found = earlier(found, here);
    }
    Ok(found)
}

/// The first mistake of what a rule asks for.
fn demand_mistake(
    alloc: Global,
    problem: &Problem,
    tables: &Tables,
    statement: u64,
    demand: &Demand,
) -> Result<Option<Mistake>, AllocError>
    requires { AreTables problem.now tables.now }
    ensures { IfOk result (λ o. o ≡ first_of
        (demand_mistakes problem.now statement (demand_data demand.now))) }
{
    match demand {
        Demand::Apart => Ok(None),
        Demand::Within(_) => Ok(None),
        Demand::Plain(formula) => {
            let scope = Scope::Parameters(&[]);
            formula_mistake(alloc, problem, tables, statement, &scope, formula)
        }
    }
}

/// The first mistake of the rules.
fn rules_mistake(
    alloc: Global,
    problem: &Problem,
    tables: &Tables,
) -> Result<Option<Mistake>, AllocError>
    requires { AreTables problem.now tables.now }
    ensures { IfOk result (λ o. o ≡ first_of (rules_mistakes problem.now problem.now.rules)) }
{
    let rules = problem.rules();
    let mut found = None;
    'each: for rule in rules {
        let here = demand_mistake(alloc, problem, tables, rule.place(), rule.demand())?;
        found = earlier(found, here);
    }
    Ok(found)
}

/// The first mistake of the macros and rules.
fn mistake_by(
    alloc: Global,
    problem: &Problem,
    tables: &Tables,
) -> Result<Option<Mistake>, AllocError>
    requires { AreTables problem.now tables.now }
    ensures { IfOk result (λ o. o ≡ first_of (mistakes problem.now)) }
{
    let macros = macros_mistake(alloc, problem, tables)?;
    let rules = rules_mistake(alloc, problem, tables)?;
    Ok(earlier(macros, rules))
}

/// The first mistake of a problem.
fn first_mistake(alloc: Global, problem: &Problem) -> Result<Option<Mistake>, AllocError>
    ensures { IfOk result (λ o. o ≡ first_of (mistakes problem.now)) }
{
    let tables = tables_of(alloc, problem)?;
    mistake_by(alloc, problem, &tables)
}

/// Whether each name in the macros and rules of a problem is known and of the kind that stands there.
///
/// `unknown` at a name of no variable, parameter or object in sight, of no object in `objects ( )`, of no shape, or of no macro that is
/// made before; `twice` at a name that `objects ( )` has already. Where there is none of these in the whole problem: `kind` at a name,
/// a dot, a mark or an argument of a wrong kind, `args` at the mark of a call with a wrong number of arguments, `unknown` at a field
/// that is none. The one at the least place is taken.
pub fn check_names(alloc: Global, problem: &Problem) -> Result<(), TextFault>
    ensures answers { AnswersNames result problem.now }
    ensures only { IsOnlyAnswer result problem.now }
{
    match first_mistake(alloc, problem) {
        Ok(None) => Ok(()),
        Ok(Some(first)) => Err(TextFault::At(first.place, word_of(first.flaw))),
        Err(_e) => Err(TextFault::Memory),
    }
}
