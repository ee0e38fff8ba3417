//! The names in sight of a part of a rule, and what they stand for.

ghost use Rattle.std.specs.Prelude.{◌≡◌, ◌≤◌, [], MatchOption, length, map, take};
ghost use Rattle.std.specs.List.{position};
ghost use Rattle.std.specs.Str.{bytes_eq};
ghost use Rattle.problem_data.specs.ProblemView.{param_data};
ghost use Rattle.std.specs.Option.{option_map_or};
ghost use Rattle.rule_syntax.specs.Tree.{arguments, param};
ghost use Rattle.rule_syntax.specs.View.{argument_view, expr_view};
ghost use Rattle.problem_data.specs.Problem.{ProblemData};
ghost use Rattle.rule_expand.specs.Costs.{cost_by, cost, costs, price_all, CostEnv, MacroCosts};
ghost use Rattle.rule_expand.specs.Expansion.{meant_by, meant, arguments_meant, give_all, Subst, Expansions};
ghost use Rattle.rule_expand.specs.ScopeView.{scope_view, prices, found_meant, found_cost, IsNoName, IsValueMacro, IsNoValueMacro, IsFormulaMacro, IsNoFormulaMacro};
ghost use Rattle.rule_expand.specs.Table.{IsSource};

use crate::plain::Subject;
use crate::table::Source;
use geo_tokens::name::Name;
use problem_data::problem::ParamDef;
use problem_data::tree::MacroBody;
use rule_names::table::position_of;
use rule_syntax::tree::{Argument, Expr, Formula, PlacedName};

/// The names in sight, the innermost first. The objects' names are always in sight.
#[derive(Clone, Copy)]
pub enum Scope<'a> {
    /// The objects alone.
    Objects,
    /// A quantifier's variable with its number, and what is in sight outside.
    Variable(&'a Scope<'a>, &'a Name, u32),
    /// The parameters of a macro and the arguments of its call, with what is in sight of the arguments: names, and how many macros.
    Parameters(&'a [ParamDef], &'a [Argument], &'a Scope<'a>, usize),
}

/// What a name stands for.
#[derive(Clone, Copy)]
pub enum Found<'a> {
    Subject(Subject),
    /// An argument that is no bare name, with what is in sight of it: names, and how many macros.
    Argument(&'a Expr, &'a Scope<'a>, usize),
    Nothing,
}

/// A macro that gives a number, with its position among the macros.
#[derive(Clone, Copy)]
pub struct ValueMacro<'a> {
    pub index: usize,
    pub params: &'a [ParamDef],
    pub body: &'a Expr,
}

/// A macro that gives a formula, with its position among the macros.
#[derive(Clone, Copy)]
pub struct FormulaMacro<'a> {
    pub index: usize,
    pub params: &'a [ParamDef],
    pub body: &'a Formula,
}

/// Which of the first parameters has this name.
pub fn parameter_index(params: &[ParamDef], count: usize, name: &Name) -> Option<usize>
    ensures { result ≡ position (λ q. bytes_eq name.now q.name) (take count params.now) }
{
    params.iter().take(count).position(|q| *name == q.name)
}

/// The object of this name.
fn object_named<'a>(source: &Source, name: &Name) -> Found<'a>
    requires { IsSource source.now }
    ensures meant { found_meant source.now.problem.now result ≡ meant_by source.now.problem.now
        name.now [] }
    ensures cost { found_cost source.now.problem.now result ≡ 0 }
{
    match position_of(&source.names.objects, name.as_bytes()) {
        Some(o) => Found::Subject(Subject::Object(o)),
        None => Found::Nothing,
    }
}

/// The argument that is given for the parameter of this name.
fn bound_argument<'a>(params: &[ParamDef], args: &'a [Argument], name: &Name) -> Option<&'a Expr>
    ensures meant { (x : Expansions) (p : ProblemData) (sub : Subst)
        → meant_by p name.now
        (give_all (map param_data params.now)
        (arguments_meant x p (arguments (map argument_view args.now)) sub))
        ≡ option_map_or (λ e. meant x p (expr_view e.now) sub) result (meant_by p name.now []) }
    ensures cost { (c : MacroCosts) (p : ProblemData) (env : CostEnv)
        → cost_by name.now
        (price_all (map param_data params.now)
        (costs c p (arguments (map argument_view args.now)) env))
        ≡ option_map_or (λ e. cost c p (expr_view e.now) env) result 0 }
{
    match parameter_index(params, args.len(), name) {
        Some(i) => Some(&args[i].value),
        None => None,
    }
}

/// The name that an expression is, where it is a bare name.
fn bare_name(e: &Expr) -> Option<&PlacedName>
    ensures { MatchOption result (IsNoName (expr_view e.now)) (λ a. expr_view e.now ≡ param a.now) }
{
    match e {
        Expr::Param(a) => Some(a),
        Expr::Num(..) => None,
        Expr::Field(..) => None,
        Expr::ShapeNum(..) => None,
        Expr::Neg(..) => None,
        Expr::Sum(..) => None,
        Expr::Prod(..) => None,
        Expr::Min(..) => None,
        Expr::Max(..) => None,
        Expr::CallValue(..) => None,
    }
}

/// What a name stands for.
pub fn look_up<'a>(source: &Source, scope: &'a Scope<'a>, name: &Name) -> Found<'a>
    requires { IsSource source.now }
    ensures meant { found_meant source.now.problem.now result
        ≡ meant_by source.now.problem.now name.now (scope_view source.now.problem.now scope.now) }
    ensures cost { found_cost source.now.problem.now result ≤ cost_by name.now (prices
        source.now.problem.now scope.now) }
{
    match scope {
        Scope::Objects => object_named(source, name),
        Scope::Variable(outer, own, number) => {
            if *name == **own {
                Found::Subject(Subject::Variable(*number))
            } else {
                look_up(source, outer, name)
            }
        }
        Scope::Parameters(params, args, caller, in_sight) => {
            match bound_argument(params, args, name) {
                Some(argument) => match bare_name(argument) {
                    Some(passed) => look_up(source, caller, &passed.name),
                    None => Found::Argument(argument, caller, *in_sight),
                },
                None => object_named(source, name),
            }
        }
    }
}

/// The macro that a call of this name means, where it gives a number and stands among the first macros.
pub fn value_macro<'a>(source: &Source<'a>, in_sight: usize, name: &Name) -> Option<ValueMacro<'a>>
    requires { IsSource source.now }
    ensures { MatchOption result (IsNoValueMacro source.now.problem.now in_sight name.now)
        (λ v. IsValueMacro source.now.problem.now in_sight name.now v) }
{
    match position_of(&source.names.macros, name.as_bytes()) {
        Some(index) => {
            let macros = source.problem.macros();
            if index >= in_sight {
                return None;
            }
            let called = &macros[index];
            match called.body() {
                MacroBody::Is(body) => Some(ValueMacro {
                    index,
                    params: called.params(),
                    body,
                }),
                MacroBody::Means(_) => None,
            }
        }
        None => None,
    }
}

/// The macro that a call of this name means, where it gives a formula and stands among the first macros.
pub fn formula_macro<'a>(
    source: &Source<'a>,
    in_sight: usize,
    name: &Name,
) -> Option<FormulaMacro<'a>>
    requires { IsSource source.now }
    ensures { MatchOption result (IsNoFormulaMacro source.now.problem.now in_sight name.now)
        (λ v. IsFormulaMacro source.now.problem.now in_sight name.now v) }
{
    match position_of(&source.names.macros, name.as_bytes()) {
        Some(index) => {
            let macros = source.problem.macros();
            if index >= in_sight {
                return None;
            }
            let called = &macros[index];
            match called.body() {
                MacroBody::Means(body) => Some(FormulaMacro {
                    index,
                    params: called.params(),
                    body,
                }),
                MacroBody::Is(_) => None,
            }
        }
        None => None,
    }
}
