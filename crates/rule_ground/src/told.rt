//! Formulas that meet no coordinate: what is told of them is what grounding gives, and no condition
//! is made. Most pairs of objects are none that a rule speaks of, and guards by attributes tell so.

ghost use Rattle.std.specs.Prelude.{◌≡◌, ◌+◌, not, IfSome};
ghost use Rattle.linear_conditions.specs.Certain.{IsCertain};
ghost use Rattle.linear_conditions.specs.Compare.{ground_compare};
ghost use Rattle.linear_conditions.specs.Views.{fixings_view};
ghost use Rattle.rule_expand.specs.PlainView.{plain_expr_view, plain_formula_view, plain_formulas_view};
ghost use Rattle.rule_ground.specs.Grounding.{ground as grounded, in_turn, joined_operands};
ghost use Rattle.rule_values.specs.View.{env_view};

use crate::signs::compared;
use linear_conditions::compare::certain_compare;
use linear_conditions::fixings::Fixings;
use problem_data::problem::Problem;
use rule_expand::plain::{PlainExpr, PlainFormula};
use rule_syntax::tree::Rel;
use rule_values::env::Env;

/// Whether a formula holds, and how many visits grounding it takes.
#[derive(Clone, Copy)]
pub struct Told {
    pub holds: bool,
    pub visits: u32,
}

// What is told by the second of two, behind the first.
fn behind(first: Told, second: Told) -> Option<Told>
    ensures { IfSome result (λ t. (t.holds ≡ second.holds)
        × (t.visits ≡ first.visits + second.visits)) }
{
    let visits = first.visits.checked_add(second.visits)?;
    Some(Told {
        holds: second.holds,
        visits,
    })
}

// A formula that takes one visit.
fn at_once(holds: bool) -> Told
    ensures { (result.holds ≡ holds) × (result.visits ≡ 1) }
{
    Told { holds, visits: 1 }
}

// What is told of a comparison.
fn told_compare(
    problem: &Problem,
    a: &PlainExpr,
    rel: Rel,
    b: &PlainExpr,
    env: &Env,
    fixings: &Fixings,
) -> Option<Told>
    ensures { IfSome result (λ t. IsCertain
        (ground_compare problem.now (plain_expr_view a.now) rel (plain_expr_view b.now)
        (env_view env.now) (fixings_view fixings.now)) t.visits t.holds) }
{
    Some(at_once(certain_compare(problem, a, rel, b, &*env, &*fixings)?))
}

/// What is told of a formula under plus (true) or minus. None where grounding it makes a condition,
/// or may: of equivalences and of quantifiers nothing is told.
#[cycle(telling)]
pub fn told_of(
    problem: &Problem,
    f: &PlainFormula,
    sign: bool,
    env: &Env,
    fixings: &Fixings,
) -> Option<Told>
    ensures { IfSome result (λ t. IsCertain
        (grounded problem.now (plain_formula_view f.now) sign (env_view env.now)
        (fixings_view fixings.now)) t.visits t.holds) }
{
    match f {
        PlainFormula::True => Some(at_once(sign)),
        PlainFormula::False => Some(at_once(!sign)),
        PlainFormula::Not(f) => told_of(problem, f, !sign, &*env, &*fixings),
        PlainFormula::And(fs) => told_operands(problem, fs, sign, sign, &*env, &*fixings),
        PlainFormula::Or(fs) => told_operands(problem, fs, !sign, sign, &*env, &*fixings),
        PlainFormula::Implies(f, g) => told_implication(problem, f, g, sign, &*env, &*fixings),
        PlainFormula::Compare(a, rel, b) => {
            told_compare(problem, a, compared(sign, *rel), b, &*env, &*fixings)
        }
        PlainFormula::Iff(_f, _g) => None,
        PlainFormula::Quant(_kind, _v, _coll, _f) => None,
    }
}

// What is told of operands from the left, up to the first that decides. There is one at least.
#[cycle(telling)]
fn told_operands(
    problem: &Problem,
    fs: &[PlainFormula],
    all: bool,
    sign: bool,
    env: &Env,
    fixings: &Fixings,
) -> Option<Told>
    ensures { IfSome result (λ t. IsCertain
        (joined_operands problem.now (plain_formulas_view fs.now) all sign (env_view env.now)
        (fixings_view fixings.now)) t.visits t.holds) }
{
    match fs {
        [] => None,
        [f] => told_of(problem, f, sign, &*env, &*fixings),
        [f, rest @ ..] => {
            let first = told_of(problem, f, sign, &*env, &*fixings)?;
            if first.holds != all {
                return Some(first);
            }
            let others = told_operands(problem, rest, all, sign, &*env, &*fixings)?;
            behind(first, others)
        }
    }
}

// What is told of an implication. The second part is left out where the first decides.
#[cycle(telling)]
fn told_implication(
    problem: &Problem,
    f: &PlainFormula,
    g: &PlainFormula,
    sign: bool,
    env: &Env,
    fixings: &Fixings,
) -> Option<Told>
    ensures { IfSome result (λ t. IsCertain
        (in_turn (not sign)
        (λ j. grounded problem.now (plain_formula_view f.now) (not sign) (env_view env.now)
        (fixings_view fixings.now) j)
        (λ j. grounded problem.now (plain_formula_view g.now) sign (env_view env.now)
        (fixings_view fixings.now) j)) t.visits t.holds) }
{
    let first = told_of(problem, f, !sign, &*env, &*fixings)?;
    if first.holds == sign {
        return Some(first);
    }
    let second = told_of(problem, g, sign, &*env, &*fixings)?;
    behind(first, second)
}
