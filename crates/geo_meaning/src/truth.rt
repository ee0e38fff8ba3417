//! The truth of formulas.

ghost use Rattle.std.specs.Prelude.{◌≡◌};
ghost use Rattle.std.specs.List.{count_by, filter, list_all, list_any};
ghost use Rattle.problem_data.specs.Cells.{IsShaped};
ghost use Rattle.problem_data.specs.Truth.{compare, is_there as is_there_in, quantify};
ghost use Rattle.rule_expand.specs.PlainTruth.{plain_all, plain_candidates, plain_holds, plain_some, plain_value, set_variable};
ghost use Rattle.rule_expand.specs.PlainView.{plain_coll_view, plain_expr_view, plain_formula_view, plain_formulas_view};
ghost use Rattle.geo_meaning.specs.Quantified.{AreCalm, holds_for};
ghost use Rattle.rule_values.specs.Calm.{AllCalm, IsCalm, IsTame, SomeCalm};
ghost use Rattle.rule_values.specs.Elements.{element_at, elements_view};
ghost use Rattle.rule_values.specs.View.{env_view};

use crate::numbers::number;
use crate::places::{is_there, place};
use geo_conditions::Layout;
use problem_data::problem::Problem;
use rule_expand::plain::{PlainColl, PlainExpr, PlainFormula};
use rule_syntax::tree::{QuantKind, Rel};
use rule_values::elements::{Elements, elements_of, owner};
use rule_values::env::Env;

/// Whether two numbers compare so.
fn compared(a: i128, rel: Rel, b: i128) -> bool
    ensures { result ≡ compare rel a b }
{
    match rel {
        Rel::Lt => a < b,
        Rel::Le => a <= b,
        Rel::Eq => a == b,
        Rel::Ne => a != b,
        Rel::Ge => a >= b,
        Rel::Gt => a > b,
    }
}

/// Whether two expressions compare so.
fn comparison(
    problem: &Problem,
    layout: &Layout,
    a: &PlainExpr,
    rel: Rel,
    b: &PlainExpr,
    env: &Env,
) -> bool
    requires layout { IsShaped problem.now layout.now }
    requires left { IsTame problem.now layout.now (plain_expr_view a.now) (env_view env.now) }
    requires right { IsTame problem.now layout.now (plain_expr_view b.now) (env_view env.now) }
    ensures { result
        ≡ compare rel
        (plain_value problem.now layout.now (plain_expr_view a.now) (env_view env.now))
        (plain_value problem.now layout.now (plain_expr_view b.now) (env_view env.now)) }
{
    let left = number(problem, layout, a, env);
    compared(left, rel, number(problem, layout, b, env))
}

/// What a variable could stand for on the tuple.
fn ranged<'a>(
    problem: &'a Problem,
    layout: &Layout,
    coll: &'a PlainColl,
    env: &'a Env<'a>,
) -> Elements<'a>
    requires layout { IsShaped problem.now layout.now }
    ensures { elements_view result
        ≡ plain_candidates problem.now layout.now (plain_coll_view coll.now) (env_view env.now) }
{
    let at = match owner(coll, env) {
        Some(o) => place(problem, layout, o),
        None => 0,
    };
    elements_of(problem, coll, env, at)
}

/// Whether a formula holds on the tuple.
#[cycle(truth)]
pub fn holds(problem: &Problem, layout: &Layout, f: &PlainFormula, env: &Env) -> bool
    requires layout { IsShaped problem.now layout.now }
    requires calm { IsCalm problem.now layout.now (plain_formula_view f.now) (env_view env.now) }
    ensures { result
        ≡ plain_holds problem.now layout.now (plain_formula_view f.now) (env_view env.now) }
{
    match f {
        PlainFormula::True => true,
        PlainFormula::False => false,
        PlainFormula::Not(f) => !holds(problem, layout, f, &*env),
        PlainFormula::And(fs) => all_hold(problem, layout, fs, &*env),
        PlainFormula::Or(fs) => some_holds(problem, layout, fs, &*env),
        PlainFormula::Implies(f, g) => {
            !holds(problem, layout, f, &*env) || holds(problem, layout, g, &*env)
        }
        PlainFormula::Iff(f, g) => {
            let left = holds(problem, layout, f, &*env);
            left == holds(problem, layout, g, &*env)
        }
        PlainFormula::Compare(a, rel, b) => comparison(problem, layout, a, *rel, b, &*env),
        PlainFormula::Quant(kind, v, coll, f) => {
            let elements = ranged(problem, layout, coll, &*env);
            quantified(problem, layout, *kind, *v, &elements, f, &*env)
        }
    }
}

/// Whether all formulas hold; those behind one that fails are left out.
#[cycle(truth)]
fn all_hold(problem: &Problem, layout: &Layout, fs: &[PlainFormula], env: &Env) -> bool
    requires layout { IsShaped problem.now layout.now }
    requires calm { AllCalm problem.now layout.now (plain_formulas_view fs.now) (env_view env.now) }
    ensures { result
        ≡ plain_all problem.now layout.now (plain_formulas_view fs.now) (env_view env.now) }
{
    for f in fs {
        if !holds(problem, layout, f, &*env) {
            return false;
        }
    }
    true
}

/// Whether some formula holds; those behind it are left out.
#[cycle(truth)]
fn some_holds(problem: &Problem, layout: &Layout, fs: &[PlainFormula], env: &Env) -> bool
    requires layout { IsShaped problem.now layout.now }
    requires calm { SomeCalm problem.now layout.now (plain_formulas_view fs.now)
        (env_view env.now) }
    ensures { result
        ≡ plain_some problem.now layout.now (plain_formulas_view fs.now) (env_view env.now) }
{
    for f in fs {
        if holds(problem, layout, f, &*env) {
            return true;
        }
    }
    false
}

/// Whether the formula holds for as many of the elements that are there as the quantifier wants.
#[cycle(truth)]
fn quantified(
    problem: &Problem,
    layout: &Layout,
    kind: QuantKind,
    v: u32,
    elements: &Elements,
    f: &PlainFormula,
    env: &Env,
) -> bool
    requires layout { IsShaped problem.now layout.now }
    requires calm { AreCalm problem.now layout.now (plain_formula_view f.now) v
        (elements_view elements.now) (env_view env.now) }
    ensures { result
        ≡ quantify kind
        (holds_for problem.now layout.now (plain_formula_view f.now) v (env_view env.now))
        (filter (is_there_in problem.now layout.now) (elements_view elements.now)) }
{
    match kind {
        QuantKind::ForAll => for_all(problem, layout, v, &*elements, f, &*env),
        QuantKind::Exists => for_some(problem, layout, v, &*elements, f, &*env),
        QuantKind::AtLeast(n) => n as usize <= how_many(problem, layout, v, &*elements, f, &*env),
        QuantKind::AtMost(n) => how_many(problem, layout, v, &*elements, f, &*env) <= n as usize,
    }
}

/// Whether the formula holds for every element that is there; those behind one that it fails for are
/// left out.
#[cycle(truth)]
fn for_all(
    problem: &Problem,
    layout: &Layout,
    v: u32,
    elements: &Elements,
    f: &PlainFormula,
    env: &Env,
) -> bool
    requires layout { IsShaped problem.now layout.now }
    requires calm { AreCalm problem.now layout.now (plain_formula_view f.now) v
        (elements_view elements.now) (env_view env.now) }
    ensures { result
        ≡ list_all
        (holds_for problem.now layout.now (plain_formula_view f.now) v (env_view env.now))
        (filter (is_there_in problem.now layout.now) (elements_view elements.now)) }
{
    for i in 0..elements.len() {
        let there = is_there(problem, layout, elements.at(i));
        if there && !holds_at(problem, layout, v, &*elements, i, f, &*env) {
            return false;
        }
    }
    true
}

/// Whether the formula holds for some element that is there; those behind it are left out.
#[cycle(truth)]
fn for_some(
    problem: &Problem,
    layout: &Layout,
    v: u32,
    elements: &Elements,
    f: &PlainFormula,
    env: &Env,
) -> bool
    requires layout { IsShaped problem.now layout.now }
    requires calm { AreCalm problem.now layout.now (plain_formula_view f.now) v
        (elements_view elements.now) (env_view env.now) }
    ensures { result
        ≡ list_any
        (holds_for problem.now layout.now (plain_formula_view f.now) v (env_view env.now))
        (filter (is_there_in problem.now layout.now) (elements_view elements.now)) }
{
    for i in 0..elements.len() {
        let there = is_there(problem, layout, elements.at(i));
        if there && holds_at(problem, layout, v, &*elements, i, f, &*env) {
            return true;
        }
    }
    false
}

/// For how many elements that are there the formula holds.
#[cycle(truth)]
fn how_many(
    problem: &Problem,
    layout: &Layout,
    v: u32,
    elements: &Elements,
    f: &PlainFormula,
    env: &Env,
) -> usize
    requires layout { IsShaped problem.now layout.now }
    requires calm { AreCalm problem.now layout.now (plain_formula_view f.now) v
        (elements_view elements.now) (env_view env.now) }
    ensures { result
        ≡ count_by
        (holds_for problem.now layout.now (plain_formula_view f.now) v (env_view env.now))
        (filter (is_there_in problem.now layout.now) (elements_view elements.now)) }
{
    let mut count = 0;
    for i in 0..elements.len() {
        let there = is_there(problem, layout, elements.at(i));
        if there && holds_at(problem, layout, v, &*elements, i, f, &*env) {
            count += 1;
        }
    }
    count
}

/// Whether the formula holds for the element at a place.
#[cycle(truth)]
fn holds_at(
    problem: &Problem,
    layout: &Layout,
    v: u32,
    elements: &Elements,
    i: usize,
    f: &PlainFormula,
    env: &Env,
) -> bool
    requires layout { IsShaped problem.now layout.now }
    requires calm { IsCalm problem.now layout.now (plain_formula_view f.now)
        (set_variable v (element_at (elements_view elements.now) i) (env_view env.now)) }
    ensures { result
        ≡ holds_for problem.now layout.now (plain_formula_view f.now) v (env_view env.now)
        (element_at (elements_view elements.now) i) }
{
    let thing = elements.at(i);
    holds(problem, layout, f, &Env::More(&*env, v, thing))
}
