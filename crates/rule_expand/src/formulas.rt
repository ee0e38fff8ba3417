//! Formulas without their macros.

ghost use Rattle.std.specs.Prelude.{◌≡◌, ◌+◌, ◌<◌, ◌^◌, ◌++◌, [], ℕ, max, IfOk, MatchResult, map};
ghost use Rattle.std.specs.List.{cons_option};
ghost use Rattle.rule_syntax.specs.Tree as tree;
ghost use Rattle.rule_syntax.specs.View.{argument_view, coll_view, expr_view, formula_view};
ghost use Rattle.problem_data.specs.Truth.{listed_objects};
ghost use Rattle.rule_expand.specs.Plain as plain;
ghost use Rattle.rule_expand.specs.PlainView.{plain_coll_view};
ghost use Rattle.rule_expand.specs.Expansion.{binders, coll_expanded, expansions_of, expr_expanded, formula_expanded, formulas_expanded};
ghost use Rattle.rule_expand.specs.Counts.{nodes, depth, nodes_in, depth_in};
ghost use Rattle.rule_expand.specs.Limits.{FormulasMade, GivesFormula, GivesUnbound, IsLimitFault, PairMade};
ghost use Rattle.rule_expand.specs.ScopeView.{scope_view};
ghost use Rattle.rule_expand.specs.Table.{IsSource};

use crate::expressions::expand_expr;
use crate::limits::ExpandFault;
use crate::make::{
    add_formula, all_of, any_of, comparison, equivalence, falsehood, implication, negation,
    quantified, take_node, truth,
};
use crate::plain::{PlainColl, PlainFormula};
use crate::scope::{Found, Scope, formula_macro, look_up};
use crate::table::Source;
use rule_names::table::position_of;
use rule_syntax::tree::{Argument, Coll, Expr, Formula, PlacedName, QuantKind, Rel};
use std::alloc::AllocError;

/// The position that was found more, where one was.
fn add_found(positions: &mut Vec<usize>, found: Option<usize>) -> Result<(), AllocError>
    ensures { IfOk result (λ _. positions.new.items ≡ positions.old.items ++ cons_option found []) }
{
    match found {
        Some(o) => {
            positions.push(o)?;
            Ok(())
        }
        None => Ok(()),
    }
}

/// The listed objects, by their positions.
fn positions_listed(source: &Source, names: &[PlacedName]) -> Result<Vec<usize>, AllocError>
    requires { IsSource source.now }
    ensures { IfOk result (λ v. v.items ≡ listed_objects source.now.problem.now names.now) }
{
    let mut positions = Vec::new(source.alloc);
    for name in names {
        add_found(
            &mut positions,
            position_of(&source.names.objects, name.name.as_bytes()),
        )?;
    }
    Ok(positions)
}

/// What a quantifier's variable ranges over.
fn expand_coll(source: &Source, coll: &Coll, scope: &Scope) -> Result<PlainColl, ExpandFault>
    requires { IsSource source.now }
    ensures { MatchResult result (λ q. plain_coll_view q
        ≡ coll_expanded source.now.problem.now (coll_view coll.now) (scope_view
        source.now.problem.now scope.now))
        (λ e. e ≡ ExpandFault.Memory) }
{
    match coll {
        Coll::Objects => Ok(PlainColl::Objects),
        Coll::Listed(names) => match positions_listed(source, names) {
            Ok(positions) => Ok(PlainColl::Listed(positions)),
            Err(_e) => Err(ExpandFault::Memory),
        },
        Coll::BoxesOf(a) => match look_up(source, scope, &a.name) {
            Found::Subject(subject) => Ok(PlainColl::BoxesOf(subject)),
            Found::Argument(..) => Ok(PlainColl::Listed(Vec::new(source.alloc))),
            Found::Nothing => Ok(PlainColl::Listed(Vec::new(source.alloc))),
        },
    }
}

/// A comparison without its macros.
fn expand_comparison(
    source: &Source,
    in_sight: usize,
    a: &Expr,
    rel: Rel,
    b: &Expr,
    scope: &Scope,
    room: &mut u32,
    deep: u32,
) -> Result<PlainFormula, ExpandFault>
    requires { IsSource source.now }
    ensures { let x = expansions_of source.now.problem.now in_sight in
        let sub = scope_view source.now.problem.now scope.now in
        GivesUnbound (plain.comparison (expr_expanded x source.now.problem.now (expr_view a.now)
        sub) rel
        (expr_expanded x source.now.problem.now (expr_view b.now) sub)) room.old deep room.new
        result }
{
    if !take_node(room, deep) {
        return Err(ExpandFault::TooLarge);
    }
    let left = expand_expr(source, in_sight, a, scope, room, deep - 1)?;
    let right = expand_expr(source, in_sight, b, scope, room, deep - 1)?;
    comparison(source.alloc, left, rel, right)
}

/// A formula without its macros, where the first macros are in sight, with numbers from `next` on for its variables, within
/// the room for nodes and the depth.
#[cycle(formula)]
pub fn expand_formula(
    source: &Source,
    in_sight: usize,
    f: &Formula,
    scope: &Scope,
    next: &mut u32,
    room: &mut u32,
    deep: u32,
) -> Result<PlainFormula, ExpandFault>
    requires known { IsSource source.now }
    requires numbers { next.old + room.old < 2 ^ 32 }
    ensures { GivesFormula (formula_expanded (expansions_of source.now.problem.now in_sight)
        source.now.problem.now
        (formula_view f.now)
        (scope_view source.now.problem.now scope.now) next.old) next.old room.old deep next.new
        room.new
        result }
{
    match f {
        Formula::True(_) => truth(room, deep),
        Formula::False(_) => falsehood(room, deep),
        Formula::Not(_, f) => expand_negation(source, in_sight, f, &*scope, next, room, deep),
        Formula::And(_, fs) => expand_all_of(source, in_sight, fs, &*scope, next, room, deep),
        Formula::Or(_, fs) => expand_any_of(source, in_sight, fs, &*scope, next, room, deep),
        Formula::Implies(_, f, g) => expand_implication(
            source, in_sight, f, g, &*scope, next, room, deep,
        ),
        Formula::Iff(_, f, g) => expand_equivalence(
            source, in_sight, f, g, &*scope, next, room, deep,
        ),
        Formula::Compare(_, a, rel, b) => expand_comparison(
            source, in_sight, a, *rel, b, &*scope, room, deep,
        ),
        Formula::Quant(_, kind, v, coll, f) => expand_quantified(
            source, in_sight, *kind, v, coll, f, &*scope, next, room, deep,
        ),
        Formula::Call(_, m, args) => expand_formula_call(
            source, in_sight, m, args, &*scope, next, room, deep,
        ),
    }
}

#[cycle(formula)]
fn expand_negation(
    source: &Source,
    in_sight: usize,
    f: &Formula,
    scope: &Scope,
    next: &mut u32,
    room: &mut u32,
    deep: u32,
) -> Result<PlainFormula, ExpandFault>
    requires known { IsSource source.now }
    requires numbers { next.old + room.old < 2 ^ 32 }
    ensures { GivesFormula
        (plain.negation (formula_expanded (expansions_of source.now.problem.now in_sight)
        source.now.problem.now
        (formula_view f.now)
        (scope_view source.now.problem.now scope.now) next.old)) next.old room.old deep next.new
        room.new
        result }
{
    if !take_node(room, deep) {
        return Err(ExpandFault::TooLarge);
    }
    let inner = expand_formula(source, in_sight, f, &*scope, next, room, deep - 1)?;
    negation(source.alloc, inner)
}

#[cycle(formula)]
fn expand_all_of(
    source: &Source,
    in_sight: usize,
    fs: &[Formula],
    scope: &Scope,
    next: &mut u32,
    room: &mut u32,
    deep: u32,
) -> Result<PlainFormula, ExpandFault>
    requires known { IsSource source.now }
    requires numbers { next.old + room.old < 2 ^ 32 }
    ensures { GivesFormula
        (plain.all_of (formulas_expanded (expansions_of source.now.problem.now in_sight)
        source.now.problem.now
        (tree.formulas (map formula_view fs.now))
        (scope_view source.now.problem.now scope.now) next.old)) next.old room.old deep next.new
        room.new
        result }
{
    if !take_node(room, deep) {
        return Err(ExpandFault::TooLarge);
    }
    let parts = expand_each(source, in_sight, fs, &*scope, next, room, deep - 1)?;
    Ok(all_of(parts))
}

#[cycle(formula)]
fn expand_any_of(
    source: &Source,
    in_sight: usize,
    fs: &[Formula],
    scope: &Scope,
    next: &mut u32,
    room: &mut u32,
    deep: u32,
) -> Result<PlainFormula, ExpandFault>
    requires known { IsSource source.now }
    requires numbers { next.old + room.old < 2 ^ 32 }
    ensures { GivesFormula
        (plain.any_of (formulas_expanded (expansions_of source.now.problem.now in_sight)
        source.now.problem.now
        (tree.formulas (map formula_view fs.now))
        (scope_view source.now.problem.now scope.now) next.old)) next.old room.old deep next.new
        room.new
        result }
{
    if !take_node(room, deep) {
        return Err(ExpandFault::TooLarge);
    }
    let parts = expand_each(source, in_sight, fs, &*scope, next, room, deep - 1)?;
    Ok(any_of(parts))
}

/// The same of each of several.
#[cycle(formula)]
fn expand_each(
    source: &Source,
    in_sight: usize,
    fs: &[Formula],
    scope: &Scope,
    next: &mut u32,
    room: &mut u32,
    deep: u32,
) -> Result<Vec<PlainFormula>, ExpandFault>
    requires known { IsSource source.now }
    requires numbers { next.old + room.old < 2 ^ 32 }
    ensures { let t = formulas_expanded (expansions_of source.now.problem.now in_sight)
        source.now.problem.now
        (tree.formulas (map formula_view fs.now)) (scope_view source.now.problem.now scope.now)
        next.old in
        MatchResult result (λ v. FormulasMade t next.old room.old deep next.new room.new v.items)
        (λ e. IsLimitFault (nodes_in t) (depth_in t) room.old deep e) }
{
    let mut parts = Vec::new(source.alloc);
    for f in fs {
        let part = expand_formula(source, in_sight, f, &*scope, next, room, deep)?;
        add_formula(&mut parts, part)?;
    }
    Ok(parts)
}

/// Two formulas, one behind the other.
#[cycle(formula)]
fn expand_pair(
    source: &Source,
    in_sight: usize,
    f: &Formula,
    g: &Formula,
    scope: &Scope,
    next: &mut u32,
    room: &mut u32,
    deep: u32,
) -> Result<(PlainFormula, PlainFormula), ExpandFault>
    requires known { IsSource source.now }
    requires numbers { next.old + room.old < 2 ^ 32 }
    ensures { let x = expansions_of source.now.problem.now in_sight in
        let sub = scope_view source.now.problem.now scope.now in
        let t = formula_expanded x source.now.problem.now (formula_view f.now) sub next.old in
        let u = formula_expanded x source.now.problem.now (formula_view g.now) sub (next.old +
        binders t) in
        MatchResult result (λ r. PairMade t u next.old room.old deep next.new room.new r.0 r.1)
        (λ e. IsLimitFault (nodes t + nodes u) (max (depth t) (depth u)) room.old deep e) }
{
    let left = expand_formula(source, in_sight, f, &*scope, next, room, deep)?;
    let right = expand_formula(source, in_sight, g, &*scope, next, room, deep)?;
    Ok((left, right))
}

#[cycle(formula)]
fn expand_implication(
    source: &Source,
    in_sight: usize,
    f: &Formula,
    g: &Formula,
    scope: &Scope,
    next: &mut u32,
    room: &mut u32,
    deep: u32,
) -> Result<PlainFormula, ExpandFault>
    requires known { IsSource source.now }
    requires numbers { next.old + room.old < 2 ^ 32 }
    ensures { let x = expansions_of source.now.problem.now in_sight in
        let sub = scope_view source.now.problem.now scope.now in
        let t = formula_expanded x source.now.problem.now (formula_view f.now) sub next.old in
        GivesFormula
        (plain.implication t
        (formula_expanded x source.now.problem.now (formula_view g.now) sub
        (next.old + binders t))) next.old room.old deep next.new room.new result }
{
    if !take_node(room, deep) {
        return Err(ExpandFault::TooLarge);
    }
    let pair = expand_pair(source, in_sight, f, g, &*scope, next, room, deep - 1)?;
    implication(source.alloc, pair.0, pair.1)
}

#[cycle(formula)]
fn expand_equivalence(
    source: &Source,
    in_sight: usize,
    f: &Formula,
    g: &Formula,
    scope: &Scope,
    next: &mut u32,
    room: &mut u32,
    deep: u32,
) -> Result<PlainFormula, ExpandFault>
    requires known { IsSource source.now }
    requires numbers { next.old + room.old < 2 ^ 32 }
    ensures { let x = expansions_of source.now.problem.now in_sight in
        let sub = scope_view source.now.problem.now scope.now in
        let t = formula_expanded x source.now.problem.now (formula_view f.now) sub next.old in
        GivesFormula
        (plain.equivalence t
        (formula_expanded x source.now.problem.now (formula_view g.now) sub
        (next.old + binders t))) next.old room.old deep next.new room.new result }
{
    if !take_node(room, deep) {
        return Err(ExpandFault::TooLarge);
    }
    let pair = expand_pair(source, in_sight, f, g, &*scope, next, room, deep - 1)?;
    equivalence(source.alloc, pair.0, pair.1)
}

/// A quantifier, whose variable takes the next number.
#[cycle(formula)]
fn expand_quantified(
    source: &Source,
    in_sight: usize,
    kind: QuantKind,
    v: &PlacedName,
    coll: &Coll,
    f: &Formula,
    scope: &Scope,
    next: &mut u32,
    room: &mut u32,
    deep: u32,
) -> Result<PlainFormula, ExpandFault>
    requires known { IsSource source.now }
    requires numbers { next.old + room.old < 2 ^ 32 }
    ensures { GivesFormula (formula_expanded (expansions_of source.now.problem.now in_sight)
        source.now.problem.now
        (tree.quantified 0 kind v.now (coll_view coll.now) (formula_view f.now))
        (scope_view source.now.problem.now scope.now) next.old) next.old room.old deep next.new
        room.new
        result }
{
    if !take_node(room, deep) {
        return Err(ExpandFault::TooLarge);
    }
    let elements = expand_coll(source, coll, &*scope)?;
    let own = *next;
    *next += 1;
    let body = expand_formula(
        source,
        in_sight,
        f,
        &Scope::Variable(&*scope, &v.name, own),
        next,
        room,
        deep - 1,
    )?;
    quantified(source.alloc, kind, own, elements, body)
}

/// The body of a macro, where its parameters stand for the arguments.
#[cycle(formula)]
fn expand_formula_call(
    source: &Source,
    in_sight: usize,
    m: &PlacedName,
    args: &[Argument],
    scope: &Scope,
    next: &mut u32,
    room: &mut u32,
    deep: u32,
) -> Result<PlainFormula, ExpandFault>
    requires known { IsSource source.now }
    requires numbers { next.old + room.old < 2 ^ 32 }
    ensures { GivesFormula (formula_expanded (expansions_of source.now.problem.now in_sight)
        source.now.problem.now
        (tree.formula_call 0 m.now (tree.arguments (map argument_view args.now)))
        (scope_view source.now.problem.now scope.now) next.old) next.old room.old deep next.new
        room.new
        result }
{
    match formula_macro(source, in_sight, &m.name) {
        Some(called) => expand_formula(
            source,
            called.index,
            called.body,
            &Scope::Parameters(called.params, args, &*scope, in_sight),
            next,
            room,
            deep,
        ),
        None => falsehood(room, deep),
    }
}
