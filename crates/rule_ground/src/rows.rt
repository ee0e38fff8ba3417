//! What is told of a formula for all that its innermost variable stands for: a guard that does not
//! name the variable decides a whole row of elements at once.

ghost use Rattle.std.specs.Prelude.{◌≡◌, not, true, IfSome};
ghost use Rattle.linear_conditions.specs.Certain.{IsCertain};
ghost use Rattle.linear_conditions.specs.Compare.{ground_compare};
ghost use Rattle.linear_conditions.specs.Views.{fixings_view};
ghost use Rattle.problem_data.specs.Value.{Thing as ThingData};
ghost use Rattle.rule_expand.specs.PlainTruth.{set_variable};
ghost use Rattle.rule_expand.specs.PlainView.{plain_expr_view, plain_formula_view, plain_formulas_view};
ghost use Rattle.rule_ground.specs.Grounding.{ground as grounded, joined_operands};
ghost use Rattle.rule_ground.specs.Rows.{IsSteady};
ghost use Rattle.rule_values.specs.View.{env_view};

use crate::signs::compared;
use crate::told::Told;
use linear_conditions::compare::certain_compare;
use linear_conditions::fixings::Fixings;
use problem_data::problem::Problem;
use rule_expand::plain::{PlainExpr, PlainFormula, Subject};
use rule_syntax::tree::Rel;
use rule_values::env::Env;

// Whether an expression is a number, or a field of anything but the variable.
fn is_steady(v: u32, e: &PlainExpr) -> bool
    ensures { result ≡ true → IsSteady v (plain_expr_view e.now) }
{
    match e {
        PlainExpr::Num(_n) => true,
        PlainExpr::Field(Subject::Variable(u), _name) => *u != v,
        PlainExpr::Field(Subject::Object(_o), _name) => true,
        _ => false,
    }
}

// What is told of a comparison whose sides do not name the variable.
fn row_compare(
    problem: &Problem,
    a: &PlainExpr,
    rel: Rel,
    b: &PlainExpr,
    v: u32,
    env: &Env,
    fixings: &Fixings,
) -> Option<Told>
    ensures { IfSome result (λ t. (x : ThingData) → IsCertain
        (ground_compare problem.now (plain_expr_view a.now) rel (plain_expr_view b.now)
        (set_variable v x (env_view env.now)) (fixings_view fixings.now)) t.visits t.holds) }
{
    if !is_steady(v, a) || !is_steady(v, b) {
        return None;
    }
    let holds = certain_compare(problem, a, rel, b, &*env, &*fixings)?;
    Some(Told { holds, visits: 1 })
}

/// What is told of a formula whatever the variable stands for. None where that is not seen at once.
#[cycle(row)]
pub fn row_of(
    problem: &Problem,
    f: &PlainFormula,
    sign: bool,
    v: u32,
    env: &Env,
    fixings: &Fixings,
) -> Option<Told>
    ensures { IfSome result (λ t. (x : ThingData) → IsCertain
        (grounded problem.now (plain_formula_view f.now) sign (set_variable v x (env_view env.now))
        (fixings_view fixings.now)) t.visits t.holds) }
{
    match f {
        PlainFormula::And(fs) => row_operands(problem, fs, sign, sign, v, &*env, &*fixings),
        PlainFormula::Or(fs) => row_operands(problem, fs, !sign, sign, v, &*env, &*fixings),
        PlainFormula::Implies(f, _g) => {
            let first = row_of(problem, f, !sign, v, &*env, &*fixings)?;
            if first.holds == sign {
                Some(first)
            } else {
                None
            }
        }
        PlainFormula::Compare(a, rel, b) => {
            row_compare(problem, a, compared(sign, *rel), b, v, &*env, &*fixings)
        }
        _ => None,
    }
}

// What is told of operands of which the first decides.
#[cycle(row)]
fn row_operands(
    problem: &Problem,
    fs: &[PlainFormula],
    all: bool,
    sign: bool,
    v: u32,
    env: &Env,
    fixings: &Fixings,
) -> Option<Told>
    ensures { IfSome result (λ t. (x : ThingData) → IsCertain
        (joined_operands problem.now (plain_formulas_view fs.now) all sign
        (set_variable v x (env_view env.now)) (fixings_view fixings.now)) t.visits t.holds) }
{
    match fs {
        [] => None,
        [f, ..] => {
            let first = row_of(problem, f, sign, v, &*env, &*fixings)?;
            if first.holds == all {
                None
            } else {
                Some(first)
            }
        }
    }
}
