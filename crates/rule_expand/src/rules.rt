//! All rules of a problem without their macros.

ghost use Rattle.std.specs.Prelude.{◌≡◌, None, false, IfOk, List, MatchResult, map, ◌++◌, ◌∷◌, []};
ghost use Rattle.problem_data.specs.Tuple.{Tuple};
ghost use Rattle.problem_data.specs.ProblemView.{range_data};
ghost use Rattle.rule_expand.specs.Rules.{AllAskSame, IsFaultOf, IsRuleFault, expansion_fault, first_place, is_large, large_fault, multiplies_coordinates, plain_rule_data, rule_expanded, rules_expanded};
ghost use Rattle.rule_expand.specs.Table.{IsSource};

use crate::degree::multiplies;
use crate::formulas::expand_formula;
use crate::limits::ExpandFault;
use crate::plain::{PlainBody, PlainRule};
use crate::scope::Scope;
use crate::table::{Source, source_of};
use geo_tokens::fault::{FaultWord, TextFault};
use problem_data::problem::{Demand, Problem, RangeDef, RuleDef};
use std::alloc::{AllocError, Global};

/// How many nodes an expanded rule may have.
pub const MAX_NODES: u32 = 20000;

/// How deep an expanded rule may be.
pub const MAX_DEPTH: u32 = 256;

/// The ranges once more.
fn copied(alloc: Global, ranges: &[RangeDef]) -> Result<Vec<RangeDef>, AllocError>
    ensures { IfOk result (λ v. v.items ≡ ranges.now) }
{
    Vec::from_slice(alloc, ranges)
}

/// A rule without its macros.
fn expand_rule(source: &Source, rule: &RuleDef) -> Result<PlainRule, ExpandFault>
    requires { IsSource source.now }
    ensures { MatchResult result (λ r. (plain_rule_data r ≡ rule_expanded source.now.problem.now
        rule.now)
        × (is_large (rule_expanded source.now.problem.now rule.now).demand ≡ false))
        (λ e. IsRuleFault (rule_expanded source.now.problem.now rule.now) e) }
{
    let place = rule.place();
    match rule.demand() {
        Demand::Apart => Ok(PlainRule {
            place,
            body: PlainBody::Apart,
        }),
        Demand::Within(ranges) => Ok(PlainRule {
            place,
            body: PlainBody::Within(copied(source.alloc, ranges)?),
        }),
        Demand::Plain(f) => {
            let mut next = 0;
            let mut room = MAX_NODES;
            let in_sight = source.problem.macros().len();
            let made = expand_formula(
                source,
                in_sight,
                f,
                &Scope::Objects,
                &mut next,
                &mut room,
                MAX_DEPTH,
            )?;
            Ok(PlainRule {
                place,
                body: PlainBody::Plain(made),
            })
        }
    }
}

/// One rule more.
fn add_rule(rules: &mut Vec<PlainRule>, rule: PlainRule) -> Result<(), AllocError>
    ensures { IfOk result (λ _. rules.new.items ≡ rules.old.items ++ rule ∷ []) }
{
    rules.push(rule)?;
    Ok(())
}

/// The rules in file order, each without its macros, where none is too large.
fn expand_rules(source: &Source) -> Result<Vec<PlainRule>, TextFault>
    requires { IsSource source.now }
    ensures { MatchResult result (λ v. (map plain_rule_data v.items ≡ rules_expanded
        source.now.problem.now)
        × (first_place is_large (rules_expanded source.now.problem.now) ≡ None))
        (λ e. IsFaultOf (large_fault source.now.problem.now) e) }
{
    let rules = source.problem.rules();
    let mut made = Vec::new(source.alloc);
    for rule in rules {
        match expand_rule(source, rule) {
            Ok(one) => {
                if let Err(_e) = add_rule(&mut made, one) {
                    return Err(TextFault::Memory);
                }
            }
            Err(ExpandFault::TooLarge) => return Err(TextFault::At(
                rule.place(),
                FaultWord::Expand,
            )),
            Err(ExpandFault::Memory) => return Err(TextFault::Memory),
        }
    }
    Ok(made)
}

/// Whether a rule multiplies coordinates.
fn is_product(rule: &PlainRule) -> bool
    ensures { result ≡ multiplies_coordinates (plain_rule_data rule.now).demand }
{
    match &rule.body {
        PlainBody::Apart => false,
        PlainBody::Within(_) => false,
        PlainBody::Plain(f) => multiplies(f),
    }
}

/// The place of the first rule that multiplies coordinates.
fn first_product(rules: &[PlainRule]) -> Option<u64>
    ensures { result ≡ first_place multiplies_coordinates (map plain_rule_data rules.now) }
{
    for rule in rules {
        if is_product(rule) {
            return Some(rule.place);
        }
    }
    None
}

/// The rules of a problem in file order, each without its macros.
///
/// A rule with more than 20,000 nodes or a depth above 256 is refused with `expand`. Where there is none, one that multiplies
/// coordinates, or has them under `div`, `mod`, `min` or `max`, is refused with `product`; each at the place of its name, the
/// first in file order. On each tuple a rule without macros holds exactly where the rule holds.
pub fn expand_all(alloc: Global, problem: &Problem) -> Result<Vec<PlainRule>, TextFault>
    ensures expanded { MatchResult result
        (λ v. (map plain_rule_data v.items ≡ rules_expanded problem.now)
        × (expansion_fault problem.now ≡ None)) (λ e. IsFaultOf (expansion_fault problem.now) e) }
    ensures meaning { IfOk result (λ v. (t : Tuple)
        → AllAskSame problem.now t problem.now.rules (map plain_rule_data v.items)) }
{
    let source = source_of(alloc, problem)?;
    let rules = expand_rules(&source)?;
    match first_product(rules.as_slice()) {
        Some(place) => Err(TextFault::At(place, FaultWord::Product)),
        None => Ok(rules),
    }
}
