//! Whether all rules hold on a tuple, and the first that does not.
ghost use Rattle.std.specs.Prelude.{◌≡◌, ◌<◌, ◌+◌, IfOk, None, ℕ, length, map};
ghost use Rattle.std.specs.Bool.{OnTrue, OnFalse};
ghost use Rattle.problem_data.specs.Cells.{IsApart, IsShaped, IsTuple, IsWithin, LiesWithin, NoCommonCell};
ghost use Rattle.problem_data.specs.Limits.{most_rules};
ghost use Rattle.problem_data.specs.ProblemView.{range_data};
ghost use Rattle.rule_expand.specs.Rules.{AllAskSame, expansion_fault, plain_rule_data};
ghost use Rattle.rule_ground.specs.Ground.{ground_fault};
ghost use Rattle.rule_values.specs.Calm.{AreCalm, IsCalmDemand};
ghost use Rattle.geo_meaning.specs.Judged.{IsJudged, IsWide, PlainHolds};

use crate::formed::is_formed;
use crate::objects::{lies_within, shares_no_cell};
use crate::truth::holds;
use geo_conditions::{Layout, ObjId};
use problem_data::problem::{Problem, RangeDef};
use rule_expand::plain::{PlainBody, PlainRule};
use rule_expand::rules::expand_all;
use rule_values::env::Env;
use std::alloc::{AllocError, Global};

/// What a judge says of a tuple.
#[derive(Clone, Copy)]
pub enum Judged {
    /// Every rule holds.
    Good,
    /// The rule with this number, from 1 in file order, is the first that does not hold.
    Broken(u16),
}

// Whether no cell belongs to the object and to one before it.
fn apart_from_earlier(problem: &Problem, layout: &Layout, o: usize) -> bool
    requires layout { IsShaped problem.now layout.now }
    requires o { o < length problem.now.objects }
    ensures yes { OnTrue result ((u : ℕ) → u < o → NoCommonCell problem.now layout.now o u) }
    ensures no { OnFalse result ((u : ℕ)
        × ((u < o) × (NoCommonCell problem.now layout.now o u → ⊥))) }
{
    is_formed(problem);
    for u in 0..o {
        if !shares_no_cell(problem, layout, ObjId(o as u16), ObjId(u as u16)) {
            return false;
        }
    }
    true
}

// Whether no cell belongs to two objects.
fn all_apart(problem: &Problem, layout: &Layout) -> bool
    requires layout { IsShaped problem.now layout.now }
    ensures yes { OnTrue result (IsApart problem.now layout.now) }
    ensures no { OnFalse result (IsApart problem.now layout.now → ⊥) }
{
    for o in 0..problem.objects().len() {
        if !apart_from_earlier(problem, layout, o) {
            return false;
        }
    }
    true
}

// Whether each cell of each object lies in the ranges.
fn all_within(problem: &Problem, ranges: &[RangeDef], layout: &Layout) -> bool
    requires ranges { length ranges.now ≡ problem.now.dims }
    requires layout { IsShaped problem.now layout.now }
    ensures yes { OnTrue result (IsWithin problem.now (map range_data ranges.now) layout.now) }
    ensures no { OnFalse result (IsWithin problem.now (map range_data ranges.now) layout.now → ⊥) }
{
    is_formed(problem);
    for o in 0..problem.objects().len() {
        if !lies_within(problem, ranges, layout, ObjId(o as u16)) {
            return false;
        }
    }
    true
}

// Whether a rule without macros holds.
fn rule_holds(problem: &Problem, rule: &PlainRule, layout: &Layout) -> bool
    requires layout { IsShaped problem.now layout.now }
    requires wide { IsWide problem.now (plain_rule_data rule.now).demand }
    requires calm { IsCalmDemand problem.now layout.now (plain_rule_data rule.now).demand }
    ensures yes { OnTrue result
        (PlainHolds problem.now layout.now (plain_rule_data rule.now).demand) }
    ensures no { OnFalse result (PlainHolds problem.now layout.now (plain_rule_data rule.now).demand
        → ⊥) }
{
    match &rule.body {
        PlainBody::Apart => all_apart(problem, layout),
        PlainBody::Within(ranges) => all_within(problem, ranges, layout),
        PlainBody::Plain(f) => holds(problem, layout, f, &Env::Empty),
    }
}

// The number of the rule at a position, from 1.
fn rule_number(position: usize) -> u16
    requires { position < most_rules }
    ensures { result ≡ position + 1 }
{
    position as u16 + 1
}

/// Whether every rule holds on a tuple, by its direct meaning on the cells and coordinates of the objects; else the first in file
/// order that does not. `rules` are the same rules without their macros. It takes no memory.
pub fn judge_rules(problem: &Problem, rules: &[PlainRule], layout: &Layout) -> Judged
    requires rules { AllAskSame problem.now layout.now problem.now.rules
        (map plain_rule_data rules.now) }
    requires layout { IsTuple problem.now layout.now }
    requires calm { AreCalm problem.now layout.now (map plain_rule_data rules.now) }
    ensures { IsJudged problem.now layout.now result }
{
    is_formed(problem);
    for i in 0..rules.len() {
        if !rule_holds(problem, &rules[i], layout) {
            return Judged::Broken(rule_number(i));
        }
    }
    Judged::Good
}

/// Whether every rule of a problem holds on a tuple of it, else the first in file order that does not; the problem is one whose
/// rules have conditions. It wants memory for the rules without their macros, and for nothing else.
pub fn judge(alloc: Global, problem: &Problem, layout: &Layout) -> Result<Judged, AllocError>
    requires expands { expansion_fault problem.now ≡ None }
    requires grounds { ground_fault problem.now ≡ None }
    requires layout { IsTuple problem.now layout.now }
    ensures { IfOk result (IsJudged problem.now layout.now) }
{
    is_formed(problem);
    match expand_all(alloc, problem) {
        Ok(rules) => Ok(judge_rules(problem, rules.as_slice(), layout)),
        Err(_fault) => Err(AllocError),
    }
}
