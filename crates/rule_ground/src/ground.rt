//! All conditions of a problem.

ghost use Rattle.std.specs.Prelude.{◌≡◌, ◌↔◌, ◌≤◌, All, IfOk, MatchResult, None, length, map};
ghost use Rattle.geo_base.specs.Tuple.{Tuple};
ghost use Rattle.geo_conditions.specs.Conditions.{AllFit, AllHold};
ghost use Rattle.linear_conditions.specs.CondTree.{cond_view};
ghost use Rattle.problem_data.specs.Cells.{IsTuple, IsWideTuple};
ghost use Rattle.problem_data.specs.Layouts.{IsLayout};
ghost use Rattle.problem_data.specs.ProblemView.{range_data};
ghost use Rattle.problem_data.specs.WellFormed.{IsRange};
ghost use Rattle.rule_expand.specs.PlainView.{plain_formula_view};
ghost use Rattle.rule_expand.specs.Rules.{PlainRuleData, body_data, expansion_fault, plain, plain_rule_data, rules_expanded};
ghost use Rattle.rule_ground.specs.Answers.{Appends};
ghost use Rattle.rule_ground.specs.Apart.{apart_conditions};
ghost use Rattle.rule_ground.specs.Faults.{AnswersRules, HasRanges, fault_at};
ghost use Rattle.rule_ground.specs.Ground.{IsFaultOf, conditions, ground_fault, most_conditions};
ghost use Rattle.rule_ground.specs.Own.{own_conditions};
ghost use Rattle.rule_ground.specs.Phases.{AnswersGrounded};
ghost use Rattle.rule_ground.specs.Rules.{as_leaves, before, ground_demand, ground_rules, no_counts};
ghost use Rattle.rule_ground.specs.Shapes.{HasSmallShapes};
ghost use Rattle.rule_ground.specs.Start.{first_state};
ghost use Rattle.rule_ground.specs.Within.{within_conditions};
ghost use Rattle.rule_values.specs.Calm.{AreCalm};

use crate::apart::push_apart;
use crate::counts::{count_apart, count_within};
use crate::flat::push_conditions;
use crate::named::{ground_named, named_objects};
use crate::own::push_own;
use crate::within::push_within;
use geo_conditions::Cond;
use geo_tokens::fault::{FaultWord, TextFault};
use linear_conditions::counter::Counter;
use linear_conditions::fault::GroundFault;
use linear_conditions::fixings::Fixings;
use problem_data::problem::{Problem, RangeDef};
use rule_expand::plain::{PlainBody, PlainFormula, PlainRule};
use rule_expand::rules::expand_all;
use rule_names::check::check_names;
use std::alloc::Global;

// The fault of a rule whose name stands at that place.
fn fault_at(place: u64, fault: GroundFault) -> TextFault
    ensures { result ≡ fault_at place fault }
{
    match fault {
        GroundFault::Overflow => TextFault::At(place, FaultWord::Overflow),
        GroundFault::TooMany => TextFault::At(place, FaultWord::Ground),
        GroundFault::Memory => TextFault::Memory,
    }
}

// Appends the conditions of `apart`.
fn ground_apart(
    alloc: Global,
    problem: &Problem,
    counter: &mut Counter,
    out: &mut Vec<Cond>,
) -> Result<(), GroundFault>
    requires shapes { HasSmallShapes problem.now }
    ensures { Appends
        (as_leaves
        (apart_conditions problem.now) counter.old) out.old.items out.new.items counter.new result }
{
    if let Err(e) = counter.add_leaves(count_apart(problem) as u32) {
        return Err(e);
    }
    match push_apart(alloc, problem, out) {
        Ok(()) => Ok(()),
        Err(_e) => Err(GroundFault::Memory),
    }
}

// Appends the conditions of `within`.
fn ground_within(
    alloc: Global,
    problem: &Problem,
    ranges: &[RangeDef],
    counter: &mut Counter,
    out: &mut Vec<Cond>,
) -> Result<(), GroundFault>
    requires shapes { HasSmallShapes problem.now }
    requires ranges { All IsRange (map range_data ranges.now) }
    requires dims { length ranges.now ≡ problem.now.dims }
    ensures { Appends
        (as_leaves
        (within_conditions problem.now
        (map range_data ranges.now)) counter.old) out.old.items out.new.items counter.new result }
{
    if let Err(e) = counter.add_leaves(count_within(problem) as u32) {
        return Err(e);
    }
    match push_within(alloc, problem, ranges, out) {
        Ok(()) => Ok(()),
        Err(_e) => Err(GroundFault::Memory),
    }
}

// Appends the conditions of a formula.
fn ground_formula(
    alloc: Global,
    problem: &Problem,
    f: &PlainFormula,
    counter: &mut Counter,
    out: &mut Vec<Cond>,
) -> Result<(), GroundFault>
    ensures { Appends
        (ground_demand problem.now
        (plain (plain_formula_view f.now)) counter.old) out.old.items out.new.items counter.new
        result }
{
    let names = match named_objects(alloc, problem, f) {
        Ok(names) => names,
        Err(_e) => return Err(GroundFault::Memory),
    };
    match ground_named(
        alloc,
        problem,
        names.as_slice(),
        f,
        &Fixings::Nothing,
        counter,
    ) {
        Ok(c) => match push_conditions(alloc, &c, out) {
            Ok(()) => Ok(()),
            Err(_e) => Err(GroundFault::Memory),
        },
        Err(e) => Err(e),
    }
}

// Appends the conditions of a rule.
fn ground_body(
    alloc: Global,
    problem: &Problem,
    body: &PlainBody,
    counter: &mut Counter,
    out: &mut Vec<Cond>,
) -> Result<(), GroundFault>
    requires shapes { HasSmallShapes problem.now }
    requires ranges { HasRanges problem.now (body_data body.now) }
    ensures { Appends
        (ground_demand problem.now
        (body_data body.now) counter.old) out.old.items out.new.items counter.new result }
{
    match body {
        PlainBody::Apart => ground_apart(alloc, problem, counter, out),
        PlainBody::Within(ranges) => ground_within(alloc, problem, ranges, counter, out),
        PlainBody::Plain(f) => ground_formula(alloc, problem, f, counter, out),
    }
}

// The conditions that objects have by themselves, and behind them those of some rules.
fn ground_each(
    alloc: Global,
    problem: &Problem,
    rules: &[PlainRule],
) -> Result<Vec<Cond>, TextFault>
    requires shapes { HasSmallShapes problem.now }
    requires ranges { All (λ (r : PlainRuleData). HasRanges problem.now r.demand)
        (map plain_rule_data rules.now) }
    ensures { AnswersRules (before (own_conditions problem.now)
        (ground_rules problem.now (map plain_rule_data rules.now) no_counts)) result }
{
    let mut counter = Counter::new();
    let mut out = Vec::new(alloc);
    if let Err(_e) = push_own(alloc, problem, &mut out) {
        return Err(TextFault::Memory);
    }
    for rule in rules {
        if let Err(fault) = ground_body(alloc, problem, &rule.body, &mut counter, &mut out) {
            return Err(fault_at(rule.place, fault));
        }
    }
    Ok(out)
}

/// All conditions of a problem; `rules` are its rules without macros, in file order.
///
/// First come those of the objects by themselves, for each object in file order: for the dimensions
/// and each two neighbouring pieces of its range, that the coordinate is not between them; and then,
/// where the object may be absent, that it is not, or has its first value in each dimension. They are
/// not counted. Behind them come those of the rules, in file order. `apart` gives its conditions for
/// each two objects in file order, their shapes and their boxes; `within` for each object, its
/// shapes, their boxes and the dimensions, the low end first. A formula gives those of the tree that
/// it is grounded to. The first rule with which a form is out of bounds is refused with `overflow`,
/// and the first with which there are more than 20,000,000 visits, 1,000,000 leaves or 8,000,000
/// terms, counted over all rules, with `ground`, whichever is met first; each at the place of its
/// name. So there are at most 1,010,000 conditions, far fewer than numbers can pick. On each tuple
/// of the problem's hulls all conditions are true exactly where it is a layout, and on each tuple of
/// the problem the evaluation of the rules meets only numbers that fit 128 bits.
pub fn ground_rules(
    alloc: Global,
    problem: &Problem,
    rules: &[PlainRule],
) -> Result<Vec<Cond>, TextFault>
    requires rules { map plain_rule_data rules.now ≡ rules_expanded problem.now }
    requires expands { expansion_fault problem.now ≡ None }
    ensures conditions { MatchResult result
        (λ v. (map cond_view v.items ≡ conditions problem.now) × (ground_fault problem.now ≡ None))
        (λ e. IsFaultOf (ground_fault problem.now) e) }
    ensures meaning { IfOk result (λ v. (t : Tuple) → IsWideTuple problem.now t
        → AllHold v.items t ↔ IsLayout problem.now t) }
    ensures fit { IfOk result (λ v. AllFit v.items (first_state problem.now)) }
    ensures few { IfOk result (λ v. length v.items ≤ most_conditions) }
    ensures calm { IfOk result (λ v. (t : Tuple) → IsTuple problem.now t
        → AreCalm problem.now t (map plain_rule_data rules.now)) }
{
    problem.is_said();
    ground_each(alloc, problem, rules)
}

/// All conditions of a problem, or the first fault of its rules: names and kinds come first, then
/// rules without macros that are too large or multiply coordinates, and then the conditions. A
/// search can take them: they name objects and dimensions of the problem alone, and there are few.
pub fn ground(alloc: Global, problem: &Problem) -> Result<Vec<Cond>, TextFault>
    ensures answers { AnswersGrounded result problem.now }
    ensures meaning { IfOk result (λ v. (t : Tuple) → IsWideTuple problem.now t
        → AllHold v.items t ↔ IsLayout problem.now t) }
    ensures fit { IfOk result (λ v. AllFit v.items (first_state problem.now)) }
    ensures few { IfOk result (λ v. length v.items ≤ most_conditions) }
{
    check_names(alloc, problem)?;
    let rules = expand_all(alloc, problem)?;
    ground_rules(alloc, problem, rules.as_slice())
}
