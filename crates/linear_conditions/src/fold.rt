//! Folding: conditions that are true or false on every tuple go.

ghost use Rattle.std.specs.Prelude.{◌≡◌, ◌≢◌, ◌∷◌, [], ◌<◌, ◌^◌, ◌<ℤ◌, ◌≤ℤ◌, ◌-ℤ◌, IfOk, Bool, false, if◌then◌else◌, length, map, pos};
ghost use Rattle.std.specs.List.{list_all};
ghost use Rattle.linear_conditions.specs.CondTree.{cond_view};
ghost use Rattle.linear_conditions.specs.Folding.{bare_verdict, certain, decides, fold_count, fold_linear, fold_open, joined, one_or_node, verdict};
ghost use Rattle.linear_conditions.specs.Leaves.{IsLeaf};
ghost use Rattle.linear_conditions.specs.Open.{is_open};
ghost use Rattle.linear_conditions.specs.Views.{wide_view};
ghost use Rattle.linear_conditions.specs.declared.verdict.Verdict.TheVariants.{Open};

use crate::verdict::Verdict;
use crate::wide::WideSum;
use geo_conditions::{Cond, Conds};
use std::alloc::{AllocError, Global};

/// The condition that is always true, or the one that never is.
pub fn certain(alloc: Global, holds: bool) -> Cond
    ensures { cond_view result ≡ certain holds }
{
    if holds {
        Cond::AtLeast(0, Conds::new(alloc))
    } else {
        Cond::AtLeast(1, Conds::new(alloc))
    }
}

/// What a node without children says for certain.
fn bare_verdict(n: &i64) -> Verdict
    ensures { result ≡ bare_verdict n.now }
{
    if *n <= 0 {
        Verdict::Holds
    } else {
        Verdict::Fails
    }
}

/// What a folded condition says for certain.
pub fn verdict(c: &Cond) -> Verdict
    ensures { result ≡ verdict (cond_view c.now) }
{
    match c {
        Cond::Lin(_) => Verdict::Open,
        Cond::Shape(_, _) => Verdict::Open,
        Cond::NotShape(_, _) => Verdict::Open,
        Cond::AtLeast(n, children) => {
            if children.is_empty() {
                bare_verdict(n)
            } else {
                Verdict::Open
            }
        }
    }
}

/// Whether a condition decides: one that fails among all, one that holds among some.
pub fn decides(all: bool, c: &Cond) -> bool
    ensures { result ≡ decides all (cond_view c.now) }
{
    match verdict(c) {
        Verdict::Holds => !all,
        Verdict::Fails => all,
        Verdict::Open => false,
    }
}

/// A form that must be at most 0; one without terms is its constant.
pub fn fold_linear(alloc: Global, f: &WideSum) -> Result<Cond, AllocError>
    requires { IsLeaf (wide_view f.now) }
    ensures { IfOk result (λ c. cond_view c ≡ fold_linear (wide_view f.now)) }
{
    if f.has_terms() {
        Ok(Cond::Lin(f.to_form(alloc)?))
    } else {
        Ok(certain(alloc, f.constant() <= 0))
    }
}

/// One fewer are wanted, if any are.
fn lowered(left: i64) -> i64
    ensures some { pos 0 <ℤ left → result ≡ left -ℤ pos 1 }
    ensures none { left ≤ℤ pos 0 → result ≡ left }
{
    if left > 0 { left - 1 } else { left }
}

/// The only one of the conditions.
fn only_of(alloc: Global, kept: Vec<Cond>) -> Cond
    requires { length kept.items ≡ 1 }
    ensures { kept.items ≡ result ∷ [] }
{
    let mut kept = kept;
    match kept.pop() {
        Some(c) => c,
        None => certain(alloc, false),
    }
}

/// The conditions as children.
fn children_of(alloc: Global, kept: Vec<Cond>) -> Result<Conds, AllocError>
    ensures { IfOk result (λ cs. cs.items.items ≡ kept.items) }
{
    let mut children = Conds::with_capacity(alloc, kept.len())?;
    for c in kept {
        children.push(c)?;
    }
    Ok(children)
}

/// A node of the conditions.
fn node_of(n: i64, children: Conds) -> Cond
    requires { length children.items.items ≢ 1 }
    ensures { cond_view result ≡ one_or_node n (map cond_view children.items.items) }
{
    Cond::AtLeast(n, children)
}

/// At least n of open conditions; one child alone is itself.
fn one_or_node(alloc: Global, n: i64, kept: Vec<Cond>) -> Result<Cond, AllocError>
    ensures { IfOk result (λ c. cond_view c ≡ one_or_node n (map cond_view kept.items)) }
{
    if kept.len() == 1 {
        return Ok(only_of(alloc, kept));
    }
    Ok(node_of(n, children_of(alloc, kept)?))
}

/// At least n of open conditions.
fn fold_open(alloc: Global, n: i64, kept: Vec<Cond>) -> Result<Cond, AllocError>
    ensures { IfOk result (λ c. cond_view c ≡ fold_open n (map cond_view kept.items)) }
{
    if n <= 0 {
        return Ok(certain(alloc, true));
    }
    if (kept.len() as i64) < n {
        return Ok(certain(alloc, false));
    }
    one_or_node(alloc, n, kept)
}

/// Whether nothing is certain of a condition.
fn is_open(c: &Cond) -> bool
    ensures { result ≡ is_open (cond_view c.now) }
{
    match verdict(c) {
        Verdict::Open => true,
        _ => false,
    }
}

/// Whether nothing is certain of any of the conditions.
fn are_open(cs: &[Cond]) -> bool
    ensures { result ≡ list_all is_open (map cond_view cs.now) }
{
    for c in cs {
        if !is_open(c) {
            return false;
        }
    }
    true
}

/// At least n of the conditions, of which some are certain: those that hold lower n by one each.
fn fold_mixed(alloc: Global, n: i64, cs: Vec<Cond>) -> Result<Cond, AllocError>
    ensures { IfOk result (λ c. cond_view c ≡ fold_count n (map cond_view cs.items)) }
{
    let mut left = n;
    let mut kept = Vec::new(alloc);
    for c in cs {
        match verdict(&c) {
            Verdict::Holds => left = lowered(left),
            Verdict::Fails => {}
            Verdict::Open => kept.push(c)?,
        }
    }
    fold_open(alloc, left, kept)
}

/// At least n of the conditions, folded. Mostly all are open, and none is moved then.
pub fn fold_count(alloc: Global, n: i64, cs: Vec<Cond>) -> Result<Cond, AllocError>
    ensures { IfOk result (λ c. cond_view c ≡ fold_count n (map cond_view cs.items)) }
{
    if are_open(cs.as_slice()) {
        return fold_open(alloc, n, cs);
    }
    fold_mixed(alloc, n, cs)
}

/// How many of several are wanted: all of them, or one.
fn wanted(all: bool, several: usize) -> i64
    requires { several < 2 ^ 63 }
    ensures { result ≡ (if all then pos several else pos 1) }
{
    if all { several as i64 } else { 1 }
}

/// A condition alone: what is certain has one form.
pub fn joined_one(alloc: Global, c: Cond) -> Cond
    ensures { (all : Bool) → cond_view result ≡ joined all (cond_view c ∷ []) }
{
    match verdict(&c) {
        Verdict::Holds => certain(alloc, true),
        Verdict::Fails => certain(alloc, false),
        Verdict::Open => c,
    }
}

/// A node of two conditions: both of them, or one.
fn node_of_two(alloc: Global, all: bool, first: Cond, second: Cond) -> Result<Cond, AllocError>
    requires first { verdict (cond_view first) ≡ Open }
    requires second { verdict (cond_view second) ≡ Open }
    ensures { IfOk result (λ c. cond_view c
        ≡ joined all (cond_view first ∷ (cond_view second ∷ []))) }
{
    let mut children = Conds::with_capacity(alloc, 2)?;
    children.push(first)?;
    children.push(second)?;
    Ok(node_of(wanted(all, 2), children))
}

/// An open condition with one that does not decide.
fn open_with(alloc: Global, all: bool, first: Cond, second: Cond) -> Result<Cond, AllocError>
    requires first { verdict (cond_view first) ≡ Open }
    requires second { decides all (cond_view second) ≡ false }
    ensures { IfOk result (λ c. cond_view c
        ≡ joined all (cond_view first ∷ (cond_view second ∷ []))) }
{
    match verdict(&second) {
        Verdict::Open => node_of_two(alloc, all, first, second),
        _ => Ok(first),
    }
}

/// Two conditions, folded: both of them, or one.
pub fn joined_two(alloc: Global, all: bool, first: Cond, second: Cond) -> Result<Cond, AllocError>
    ensures { IfOk result (λ c. cond_view c
        ≡ joined all (cond_view first ∷ (cond_view second ∷ []))) }
{
    if decides(all, &first) || decides(all, &second) {
        return Ok(certain(alloc, !all));
    }
    match verdict(&first) {
        Verdict::Open => open_with(alloc, all, first, second),
        _ => Ok(joined_one(alloc, second)),
    }
}

/// All of the conditions, or one of them, folded.
pub fn joined(alloc: Global, all: bool, cs: Vec<Cond>) -> Result<Cond, AllocError>
    ensures { IfOk result (λ c. cond_view c ≡ joined all (map cond_view cs.items)) }
{
    if cs.len() == 1 {
        return Ok(joined_one(alloc, only_of(alloc, cs)));
    }
    fold_count(alloc, wanted(all, cs.len()), cs)
}
