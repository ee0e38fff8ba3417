//! From a comparison to its condition.

ghost use Rattle.std.specs.Prelude.{◌≡◌, ◌&&◌, IfOk, IfSome, MatchResult, true};
ghost use Rattle.std.specs.List.{list_all};
ghost use Rattle.linear_conditions.specs.Compare.{AreSides, allowed_leaves, ground_compare, ground_difference};
ghost use Rattle.linear_conditions.specs.CondTree.{CondTree, cond_view};
ghost use Rattle.linear_conditions.specs.Certain.{IsCertain};
ghost use Rattle.linear_conditions.specs.Counts.{Done};
ghost use Rattle.linear_conditions.specs.Faults.{Gives, IsFault};
ghost use Rattle.linear_conditions.specs.Forms.{fits_expr, sum_of_expr};
ghost use Rattle.linear_conditions.specs.Leaves.{AreLeaves, difference, leaf_fits, leaves_of};
ghost use Rattle.linear_conditions.specs.Ordered.{IsOrdered};
ghost use Rattle.linear_conditions.specs.Sums.{constant_sum, fits_sum};
ghost use Rattle.linear_conditions.specs.Views.{fixings_view, leaves_view, short_view, wide_view};
ghost use Rattle.problem_data.specs.Truth.{compare};
ghost use Rattle.rule_expand.specs.PlainView.{plain_expr_view};
ghost use Rattle.rule_values.specs.View.{env_view};

use crate::counter::Counter;
use crate::fault::GroundFault;
use crate::fixings::Fixings;
use crate::fold::certain;
use crate::forms::{checked, sum_of};
use crate::leaves::{Leaves, fold_leaves, leaves_of};
use crate::short::Short;
use crate::sides::side_of;
use crate::wide::{WideSum, is_within};
use geo_conditions::Cond;
use problem_data::problem::Problem;
use rule_expand::plain::PlainExpr;
use rule_syntax::tree::Rel;
use rule_values::env::Env;
use std::alloc::Global;

/// A form less another one.
fn subtracted(alloc: Global, left: WideSum, right: &WideSum) -> Result<WideSum, GroundFault>
    requires left { fits_sum (wide_view left) ≡ true }
    requires right { fits_sum (wide_view right.now) ≡ true }
    requires ordered { IsOrdered (wide_view right.now).terms }
    ensures { let f = difference (wide_view left) (wide_view right.now) in
        Gives result f (fits_sum f) }
{
    let other = right.scaled(alloc, -1)?;
    let mut difference = left;
    difference.add(&other)?;
    checked(difference)
}

/// The difference of the two sides of a comparison.
fn difference(
    alloc: Global,
    problem: &Problem,
    a: &PlainExpr,
    b: &PlainExpr,
    env: &Env,
    fixings: &Fixings,
) -> Result<WideSum, GroundFault>
    ensures value { let f = difference
        (sum_of_expr problem.now (plain_expr_view a.now) (env_view env.now)
        (fixings_view fixings.now))
        (sum_of_expr problem.now (plain_expr_view b.now) (env_view env.now)
        (fixings_view fixings.now)) in
        Gives result f (
        fits_expr problem.now (plain_expr_view a.now) (env_view env.now) (fixings_view fixings.now)
        && (fits_expr problem.now (plain_expr_view b.now) (env_view env.now)
        (fixings_view fixings.now) && fits_sum f)) }
    ensures ordered { IfOk result (λ f. IsOrdered (wide_view f).terms) }
{
    let left = sum_of(alloc, problem, a, &*env, &*fixings)?;
    let right = sum_of(alloc, problem, b, &*env, &*fixings)?;
    subtracted(alloc, left, &right)
}

/// The condition of leaves: first they are counted, and then folded.
fn counted(alloc: Global, leaves: &Leaves, counter: &mut Counter) -> Result<Cond, GroundFault>
    requires { list_all leaf_fits (leaves_view leaves.now).forms ≡ true
        → AreLeaves (leaves_view leaves.now).forms }
    ensures { let o = allowed_leaves (leaves_view leaves.now) counter.old in
        MatchResult result (λ c. o ≡ Done (cond_view c) counter.new) (λ e. IsFault CondTree o e) }
{
    if !leaves.fit() {
        return Err(GroundFault::Overflow);
    }
    counter.visit_leaves(leaves)?;
    Ok(fold_leaves(alloc, leaves)?)
}

/// The condition that a difference stands in a relation to 0.
fn related_to_zero(
    alloc: Global,
    rel: Rel,
    f: WideSum,
    counter: &mut Counter,
) -> Result<Cond, GroundFault>
    requires fits { fits_sum (wide_view f) ≡ true }
    requires ordered { IsOrdered (wide_view f).terms }
    ensures { let o = allowed_leaves (leaves_of rel (wide_view f)) counter.old in
        MatchResult result (λ c. o ≡ Done (cond_view c) counter.new) (λ e. IsFault CondTree o e) }
{
    let leaves = leaves_of(alloc, rel, f)?;
    counted(alloc, &leaves, counter)
}

/// Whether two numbers stand in a relation.
fn holds(x: i64, rel: Rel, y: i64) -> bool
    ensures { result ≡ compare rel x y }
{
    match rel {
        Rel::Lt => x < y,
        Rel::Le => x <= y,
        Rel::Eq => x == y,
        Rel::Ne => x != y,
        Rel::Ge => x >= y,
        Rel::Gt => x > y,
    }
}

/// The condition of a comparison of two numbers: it has no leaf, and is certain.
fn compare_numbers(
    alloc: Global,
    x: i64,
    rel: Rel,
    y: i64,
    counter: &mut Counter,
) -> Result<Cond, GroundFault>
    ensures { let o = ground_difference (difference (constant_sum x) (constant_sum y)) rel
        counter.old in
        MatchResult result (λ c. o ≡ Done (cond_view c) counter.new) (λ e. IsFault CondTree o e) }
{
    if !is_within(i128::from(x) - i128::from(y)) {
        return Err(GroundFault::Overflow);
    }
    counter.visit()?;
    Ok(certain(alloc, holds(x, rel, y)))
}

/// Whether two numbers stand in a relation, where their difference is within the bounds.
fn numbers_hold(x: i64, rel: Rel, y: i64) -> Option<bool>
    ensures { IfSome result (λ b. IsCertain
        (ground_difference (difference (constant_sum x) (constant_sum y)) rel) 1 b) }
{
    if is_within(i128::from(x) - i128::from(y)) {
        Some(holds(x, rel, y))
    } else {
        None
    }
}

/// A short form less another one.
fn short_difference(alloc: Global, left: Short, right: Short) -> Result<WideSum, GroundFault>
    requires left { fits_sum (short_view left) ≡ true }
    requires right { fits_sum (short_view right) ≡ true }
    ensures value { let f = difference (short_view left) (short_view right) in
        Gives result f (fits_sum f) }
    ensures ordered { IfOk result (λ f. IsOrdered (wide_view f).terms) }
{
    let mut difference = WideSum::of_short(alloc, left)?;
    difference.subtract_short(right)?;
    checked(difference)
}

/// The condition of a comparison of two short forms.
fn compare_forms(
    alloc: Global,
    left: Short,
    rel: Rel,
    right: Short,
    counter: &mut Counter,
) -> Result<Cond, GroundFault>
    requires left { fits_sum (short_view left) ≡ true }
    requires right { fits_sum (short_view right) ≡ true }
    ensures { let o = ground_difference (difference (short_view left) (short_view right)) rel
        counter.old in
        MatchResult result (λ c. o ≡ Done (cond_view c) counter.new) (λ e. IsFault CondTree o e) }
{
    let f = short_difference(alloc, left, right)?;
    related_to_zero(alloc, rel, f, counter)
}

/// The condition of a comparison of two sides that are short.
fn compare_sides(
    alloc: Global,
    left: Short,
    rel: Rel,
    right: Short,
    counter: &mut Counter,
) -> Result<Cond, GroundFault>
    requires left { fits_sum (short_view left) ≡ true }
    requires right { fits_sum (short_view right) ≡ true }
    ensures { let o = ground_difference (difference (short_view left) (short_view right)) rel
        counter.old in
        MatchResult result (λ c. o ≡ Done (cond_view c) counter.new) (λ e. IsFault CondTree o e) }
{
    match (left, right) {
        (Short::Number(x), Short::Number(y)) => compare_numbers(alloc, x, rel, y, counter),
        _ => compare_forms(alloc, left, rel, right, counter),
    }
}

/// The two sides of a comparison, where both are short.
fn short_sides(
    problem: &Problem,
    a: &PlainExpr,
    b: &PlainExpr,
    env: &Env,
    fixings: &Fixings,
) -> Option<(Short, Short)>
    ensures { IfSome result (λ s. AreSides problem.now (plain_expr_view a.now)
        (plain_expr_view b.now) (env_view env.now) (fixings_view fixings.now) s.0 s.1) }
{
    let left = side_of(problem, a, &*env, &*fixings)?;
    let right = side_of(problem, b, &*env, &*fixings)?;
    Some((left, right))
}

/// The condition of a comparison with a side that is not short.
fn compare_wide(
    alloc: Global,
    problem: &Problem,
    a: &PlainExpr,
    rel: Rel,
    b: &PlainExpr,
    env: &Env,
    fixings: &Fixings,
    counter: &mut Counter,
) -> Result<Cond, GroundFault>
    ensures { let o = ground_compare problem.now (plain_expr_view a.now) rel (plain_expr_view b.now)
        (env_view env.now) (fixings_view fixings.now) counter.old in
        MatchResult result (λ c. o ≡ Done (cond_view c) counter.new) (λ e. IsFault CondTree o e) }
{
    let f = difference(alloc, problem, a, b, &*env, &*fixings)?;
    related_to_zero(alloc, rel, f, counter)
}

/// The condition of a comparison. A form out of bounds goes before a count past its limit.
pub fn compare(
    alloc: Global,
    problem: &Problem,
    a: &PlainExpr,
    rel: Rel,
    b: &PlainExpr,
    env: &Env,
    fixings: &Fixings,
    counter: &mut Counter,
) -> Result<Cond, GroundFault>
    ensures { let o = ground_compare problem.now (plain_expr_view a.now) rel (plain_expr_view b.now)
        (env_view env.now) (fixings_view fixings.now) counter.old in
        MatchResult result (λ c. o ≡ Done (cond_view c) counter.new) (λ e. IsFault CondTree o e) }
{
    match short_sides(problem, a, b, &*env, &*fixings) {
        Some((left, right)) => compare_sides(alloc, left, rel, right, counter),
        None => compare_wide(alloc, problem, a, rel, b, &*env, &*fixings, counter),
    }
}

/// Whether the sides of a comparison stand in their relation, where both are numbers.
fn sides_hold(left: Short, rel: Rel, right: Short) -> Option<bool>
    ensures { IfSome result (λ b. IsCertain
        (ground_difference (difference (short_view left) (short_view right)) rel) 1 b) }
{
    match (left, right) {
        (Short::Number(x), Short::Number(y)) => numbers_hold(x, rel, y),
        _ => None,
    }
}

/// Whether a comparison holds, where both of its sides are numbers.
pub fn certain_compare(
    problem: &Problem,
    a: &PlainExpr,
    rel: Rel,
    b: &PlainExpr,
    env: &Env,
    fixings: &Fixings,
) -> Option<bool>
    ensures { IfSome result (λ h. IsCertain (ground_compare problem.now (plain_expr_view a.now) rel
        (plain_expr_view b.now) (env_view env.now) (fixings_view fixings.now)) 1 h) }
{
    match short_sides(problem, a, b, &*env, &*fixings) {
        Some((left, right)) => sides_hold(left, rel, right),
        None => None,
    }
}
