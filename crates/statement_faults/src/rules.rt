//! Faults of the statements of macros and rules.

ghost use Rattle.std.specs.Prelude.{◌≡◌, map, IfOk};
ghost use Rattle.problem_data.specs.View.{macro_view, demand_view, rule_view};
ghost use Rattle.problem_data.specs.Least.{IsLeast};
ghost use Rattle.problem_data.specs.Faults.{MacroFault, MacrosFault, DemandFault, RuleFault, RulesFault};

use crate::divisors::{body_zero, divisor_fault, formula_zero};
use crate::each::{FindFault, TryFindFault, each_fault, try_each_fault};
use crate::names::names_fault;
use crate::numbers::ranges_fault;
use problem_data::fault::{Fault, earlier};
use problem_data::tree::{MacroText, RuleBody, RuleText};
use std::alloc::{AllocError, Global};

/// How many macros a problem may have.
const MOST_MACROS: usize = 100;

/// How many parameters a macro may have.
const MOST_PARAMS: usize = 8;

/// How many rules a problem may have.
const MOST_RULES: usize = 100;

fn macro_fault(alloc: Global, said: &MacroText) -> Result<Option<Fault>, AllocError>
    ensures { IfOk result (IsLeast (MacroFault (macro_view said.now))) }
{
    let names = names_fault(alloc, MOST_PARAMS, said.params.as_slice())?;
    let divisor = divisor_fault(body_zero(&said.body));
    Ok(earlier(names, divisor))
}

// Finds the first fault of a macro.
#[derive(Clone, Copy)]
struct Macros {
    alloc: Global,
}

impl TryFindFault<MacroText> for Macros {
    ghost IsFaultOf = { λ _ m. MacroFault (macro_view m) };

    fn try_fault_of(&self, item: &MacroText) -> Result<Option<Fault>, AllocError> {
        macro_fault(self.alloc, item)
    }
}

/// The first fault of the statements of macros.
pub fn macros_fault(alloc: Global, macros: &[MacroText]) -> Result<Option<Fault>, AllocError>
    ensures { IfOk result (IsLeast (MacrosFault (map macro_view macros.now))) }
{
    let names = names_fault(alloc, MOST_MACROS, macros)?;
    let each = try_each_fault(&Macros { alloc }, macros)?;
    Ok(earlier(names, each))
}

fn demand_fault(k: usize, body: &RuleBody) -> Option<Fault>
    ensures { IsLeast (DemandFault k (demand_view body.now)) result }
{
    match body {
        RuleBody::Apart => None,
        RuleBody::Within(ranges) => ranges_fault(k, ranges.as_slice()),
        RuleBody::Plain(formula) => divisor_fault(formula_zero(formula)),
    }
}

// Finds the first fault of what a rule demands, where there are so many dimensions.
#[derive(Clone, Copy)]
struct Demands {
    k: usize,
}

impl FindFault<RuleText> for Demands {
    ghost IsFaultOf = { λ d r. RuleFault d.k (rule_view r) };

    fn fault_of(&self, item: &RuleText) -> Option<Fault> {
        demand_fault(self.k, &item.body)
    }
}

/// The first fault of the statements of rules.
pub fn rules_fault(alloc: Global, k: usize, rules: &[RuleText]) -> Result<Option<Fault>, AllocError>
    ensures { IfOk result (IsLeast (RulesFault k (map rule_view rules.now))) }
{
    let names = names_fault(alloc, MOST_RULES, rules)?;
    let each = each_fault(&Demands { k }, rules);
    Ok(earlier(names, each))
}
