//! The macros and rules that statements spell.

ghost use Rattle.std.specs.Prelude.{◌≡◌, map, IfOk};
ghost use Rattle.problem_data.specs.View.{macro_view, demand_view, rule_view};
ghost use Rattle.problem_data.specs.ProblemView.{param_data, demand_data};
ghost use Rattle.problem_data.specs.Meaning.{param_of, macro_of, demand_of, rule_of};

use crate::build::objects::build_ranges;
use problem_data::problem::{Demand, MacroDef, ParamDef, RuleDef};
use problem_data::tree::{MacroText, ParamText, RuleBody, RuleText};
use rule_syntax::tree::PlacedName;
use std::alloc::{AllocError, Global};

fn build_param(param: ParamText) -> ParamDef
    ensures { param_data result ≡ param_of param }
{
    let ParamText { name, kind } = param;
    let PlacedName { place: _, name } = name;
    ParamDef { name, kind }
}

fn build_params(alloc: Global, params: Vec<ParamText>) -> Result<Vec<ParamDef>, AllocError>
    ensures { IfOk result (λ v. map param_data v.items ≡ map param_of params.items) }
{
    let mut made = Vec::new(alloc);
    for param in params {
        let one = build_param(param);
        made.push(one)?;
    }
    Ok(made)
}

fn build_macro(alloc: Global, said: MacroText) -> Result<MacroDef, AllocError>
    ensures { IfOk result (λ m. m ≡ macro_of (macro_view said)) }
{
    let MacroText { name, params, body } = said;
    let params = build_params(alloc, params)?;
    let PlacedName { place, name } = name;
    Ok(MacroDef::new(place, name, params, body))
}

/// The macros.
pub fn build_macros(alloc: Global, macros: Vec<MacroText>) -> Result<Vec<MacroDef>, AllocError>
    ensures { IfOk result (λ v. v.items ≡ map macro_of (map macro_view macros.items)) }
{
    let mut made = Vec::new(alloc);
    for said in macros {
        let one = build_macro(alloc, said)?;
        made.push(one)?;
    }
    Ok(made)
}

fn build_demand(alloc: Global, body: RuleBody) -> Result<Demand, AllocError>
    ensures { IfOk result (λ d. demand_data d ≡ demand_of (demand_view body)) }
{
    match body {
        RuleBody::Apart => Ok(Demand::Apart),
        RuleBody::Within(ranges) => {
            let ranges = build_ranges(alloc, ranges.as_slice())?;
            Ok(Demand::Within(ranges))
        }
        RuleBody::Plain(formula) => Ok(Demand::Plain(formula)),
    }
}

fn build_rule(alloc: Global, rule: RuleText) -> Result<RuleDef, AllocError>
    ensures { IfOk result (λ r. r ≡ rule_of (rule_view rule)) }
{
    let RuleText { name, body } = rule;
    let demand = build_demand(alloc, body)?;
    let PlacedName { place, name } = name;
    RuleDef::new(alloc, place, name, demand)
}

/// The rules.
pub fn build_rules(alloc: Global, rules: Vec<RuleText>) -> Result<Vec<RuleDef>, AllocError>
    ensures { IfOk result (λ v. v.items ≡ map rule_of (map rule_view rules.items)) }
{
    let mut made = Vec::new(alloc);
    for rule in rules {
        let one = build_rule(alloc, rule)?;
        made.push(one)?;
    }
    Ok(made)
}
