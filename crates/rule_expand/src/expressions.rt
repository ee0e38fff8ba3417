//! Expressions without their macros.

ghost use Rattle.std.specs.Prelude.{◌≡◌, ◌+◌, ◌<◌, ◌≤◌, MatchResult, map};
ghost use Rattle.std.specs.Option.{option_map_or};
ghost use Rattle.rule_syntax.specs.Tree as tree;
ghost use Rattle.rule_syntax.specs.View.{expr_view, sum_view, product_view, argument_view};
ghost use Rattle.problem_data.specs.Value.{macro_position};
ghost use Rattle.rule_expand.specs.Plain as plain;
ghost use Rattle.rule_expand.specs.PlainView.{plain_sum_view, plain_product_view};
ghost use Rattle.rule_expand.specs.Expansion.{as_expr, expansions_of, expr_expanded, field_of, meant_by, product_expanded, products_expanded, shape_expr, sum_expanded, sums_expanded};
ghost use Rattle.rule_expand.specs.Counts.{expr_nodes, expr_depth, sum_nodes, sum_depth, sums_nodes, sums_depth, product_nodes, product_depth, products_nodes, products_depth};
ghost use Rattle.rule_expand.specs.Limits.{GivesExpr, IsLimitFault, SumMade, SumsMade, ProductMade, ProductsMade};
ghost use Rattle.rule_expand.specs.ScopeView.{scope_view};
ghost use Rattle.rule_expand.specs.Table.{IsSource};

use crate::handed::handed_index;
use crate::limits::ExpandFault;
use crate::make::{
    add_product, add_sum, field, greatest, least, negative, number, product, shape_number, sum,
    take_node,
};
use crate::plain::{PlainExpr, PlainProd, PlainSum};
use crate::scope::{Found, Scope, look_up, value_macro};
use crate::table::Source;
use geo_tokens::name::Name;
use rule_names::table::position_of;
use rule_syntax::tree::{Argument, Expr, PlacedName, ProdStep, SumStep};

/// A field of what a name stands for.
fn expand_field(
    source: &Source,
    of: &Name,
    name: &Name,
    scope: &Scope,
    room: &mut u32,
    deep: u32,
) -> Result<PlainExpr, ExpandFault>
    requires { IsSource source.now }
    ensures { GivesExpr
        (field_of
        (meant_by source.now.problem.now of.now
        (scope_view source.now.problem.now scope.now)) name.now) room.old deep room.new result }
{
    match look_up(source, scope, of) {
        Found::Subject(subject) => field(source.alloc, subject, name, room, deep),
        Found::Argument(..) => number(0, room, deep),
        Found::Nothing => number(0, room, deep),
    }
}

/// The number of the shape of this name.
fn expand_shape(
    source: &Source,
    name: &Name,
    room: &mut u32,
    deep: u32,
) -> Result<PlainExpr, ExpandFault>
    requires { IsSource source.now }
    ensures { GivesExpr (shape_expr source.now.problem.now name.now) room.old deep room.new result }
{
    match position_of(&source.names.shapes, name.as_bytes()) {
        Some(position) => shape_number(position, room, deep),
        None => number(0, room, deep),
    }
}

/// An expression without its macros, where the first macros are in sight, within the room for nodes and the depth.
#[cycle(expand)]
pub fn expand_expr(
    source: &Source,
    in_sight: usize,
    e: &Expr,
    scope: &Scope,
    room: &mut u32,
    deep: u32,
) -> Result<PlainExpr, ExpandFault>
    requires { IsSource source.now }
    ensures { GivesExpr
        (expr_expanded (expansions_of source.now.problem.now in_sight) source.now.problem.now
        (expr_view e.now)
        (scope_view source.now.problem.now scope.now)) room.old deep room.new result }
{
    match e {
        Expr::Num(_, n) => number(*n, room, deep),
        Expr::Field(of, _, name) => expand_field(source, &of.name, &name.name, &*scope, room, deep),
        Expr::Param(a) => expand_param(source, &a.name, &*scope, room, deep),
        Expr::ShapeNum(_, a) => expand_shape(source, &a.name, room, deep),
        Expr::Neg(_, e) => expand_negative(source, in_sight, e, &*scope, room, deep),
        Expr::Sum(_, first, steps) => expand_sum(
            source, in_sight, first, steps, &*scope, room, deep,
        ),
        Expr::Prod(_, first, steps) => expand_product(
            source, in_sight, first, steps, &*scope, room, deep,
        ),
        Expr::Min(_, a, b) => expand_least(source, in_sight, a, b, &*scope, room, deep),
        Expr::Max(_, a, b) => expand_greatest(source, in_sight, a, b, &*scope, room, deep),
        Expr::CallValue(_, m, args) => expand_call(source, in_sight, m, args, &*scope, room, deep),
    }
}

/// What a bare name becomes as a number.
#[cycle(expand)]
fn expand_param(
    source: &Source,
    name: &Name,
    scope: &Scope,
    room: &mut u32,
    deep: u32,
) -> Result<PlainExpr, ExpandFault>
    requires { IsSource source.now }
    ensures { GivesExpr
        (as_expr (meant_by source.now.problem.now name.now
        (scope_view source.now.problem.now scope.now))) room.old deep room.new result }
{
    match look_up(source, &*scope, name) {
        Found::Argument(e, caller, in_sight) => expand_expr(
            source, in_sight, e, caller, room, deep,
        ),
        Found::Subject(_) => number(0, room, deep),
        Found::Nothing => number(0, room, deep),
    }
}

#[cycle(expand)]
fn expand_negative(
    source: &Source,
    in_sight: usize,
    e: &Expr,
    scope: &Scope,
    room: &mut u32,
    deep: u32,
) -> Result<PlainExpr, ExpandFault>
    requires { IsSource source.now }
    ensures { GivesExpr
        (plain.negative
        (expr_expanded (expansions_of source.now.problem.now in_sight) source.now.problem.now
        (expr_view e.now)
        (scope_view source.now.problem.now scope.now))) room.old deep room.new result }
{
    if !take_node(room, deep) {
        return Err(ExpandFault::TooLarge);
    }
    let inner = expand_expr(source, in_sight, e, &*scope, room, deep - 1)?;
    negative(source.alloc, inner)
}

#[cycle(expand)]
fn expand_least(
    source: &Source,
    in_sight: usize,
    a: &Expr,
    b: &Expr,
    scope: &Scope,
    room: &mut u32,
    deep: u32,
) -> Result<PlainExpr, ExpandFault>
    requires { IsSource source.now }
    ensures { let x = expansions_of source.now.problem.now in_sight in
        let sub = scope_view source.now.problem.now scope.now in
        GivesExpr
        (plain.least (expr_expanded x source.now.problem.now (expr_view a.now) sub)
        (expr_expanded x source.now.problem.now (expr_view b.now) sub)) room.old deep room.new
        result }
{
    if !take_node(room, deep) {
        return Err(ExpandFault::TooLarge);
    }
    let left = expand_expr(source, in_sight, a, &*scope, room, deep - 1)?;
    let right = expand_expr(source, in_sight, b, &*scope, room, deep - 1)?;
    least(source.alloc, left, right)
}

#[cycle(expand)]
fn expand_greatest(
    source: &Source,
    in_sight: usize,
    a: &Expr,
    b: &Expr,
    scope: &Scope,
    room: &mut u32,
    deep: u32,
) -> Result<PlainExpr, ExpandFault>
    requires { IsSource source.now }
    ensures { let x = expansions_of source.now.problem.now in_sight in
        let sub = scope_view source.now.problem.now scope.now in
        GivesExpr (plain.greatest (expr_expanded x source.now.problem.now (expr_view a.now) sub)
        (expr_expanded x source.now.problem.now (expr_view b.now) sub)) room.old deep room.new
        result }
{
    if !take_node(room, deep) {
        return Err(ExpandFault::TooLarge);
    }
    let left = expand_expr(source, in_sight, a, &*scope, room, deep - 1)?;
    let right = expand_expr(source, in_sight, b, &*scope, room, deep - 1)?;
    greatest(source.alloc, left, right)
}

#[cycle(expand)]
fn expand_sum(
    source: &Source,
    in_sight: usize,
    first: &Expr,
    steps: &[SumStep],
    scope: &Scope,
    room: &mut u32,
    deep: u32,
) -> Result<PlainExpr, ExpandFault>
    requires { IsSource source.now }
    ensures { let x = expansions_of source.now.problem.now in_sight in
        let sub = scope_view source.now.problem.now scope.now in
        GivesExpr (plain.sum (expr_expanded x source.now.problem.now (expr_view first.now) sub)
        (sums_expanded x source.now.problem.now
        (tree.sums (map sum_view steps.now)) sub)) room.old deep room.new result }
{
    if !take_node(room, deep) {
        return Err(ExpandFault::TooLarge);
    }
    let start = expand_expr(source, in_sight, first, &*scope, room, deep - 1)?;
    let others = expand_sum_steps(source, in_sight, steps, &*scope, room, deep - 1)?;
    sum(source.alloc, start, others)
}

#[cycle(expand)]
fn expand_sum_steps(
    source: &Source,
    in_sight: usize,
    steps: &[SumStep],
    scope: &Scope,
    room: &mut u32,
    deep: u32,
) -> Result<Vec<PlainSum>, ExpandFault>
    requires { IsSource source.now }
    ensures { let t = sums_expanded (expansions_of source.now.problem.now in_sight)
        source.now.problem.now
        (tree.sums (map sum_view steps.now)) (scope_view source.now.problem.now scope.now) in
        MatchResult result (λ v. SumsMade t room.old deep room.new v.items)
        (λ f. IsLimitFault (sums_nodes t) (sums_depth t) room.old deep f) }
{
    let mut made = Vec::new(source.alloc);
    for step in steps {
        let one = expand_sum_step(source, in_sight, step, &*scope, room, deep)?;
        add_sum(&mut made, one)?;
    }
    Ok(made)
}

#[cycle(expand)]
fn expand_sum_step(
    source: &Source,
    in_sight: usize,
    step: &SumStep,
    scope: &Scope,
    room: &mut u32,
    deep: u32,
) -> Result<PlainSum, ExpandFault>
    requires { IsSource source.now }
    ensures { let t = sum_expanded (expansions_of source.now.problem.now in_sight)
        source.now.problem.now
        (sum_view step.now) (scope_view source.now.problem.now scope.now) in
        MatchResult result (λ s. SumMade t room.old deep room.new s)
        (λ f. IsLimitFault (sum_nodes t) (sum_depth t) room.old deep f) }
{
    match step {
        SumStep::Plus(e) => Ok(PlainSum::Plus(expand_expr(
            source, in_sight, e, &*scope, room, deep,
        )?)),
        SumStep::Minus(e) => Ok(PlainSum::Minus(expand_expr(
            source, in_sight, e, &*scope, room, deep,
        )?)),
    }
}

#[cycle(expand)]
fn expand_product(
    source: &Source,
    in_sight: usize,
    first: &Expr,
    steps: &[ProdStep],
    scope: &Scope,
    room: &mut u32,
    deep: u32,
) -> Result<PlainExpr, ExpandFault>
    requires { IsSource source.now }
    ensures { let x = expansions_of source.now.problem.now in_sight in
        let sub = scope_view source.now.problem.now scope.now in
        GivesExpr (plain.product (expr_expanded x source.now.problem.now (expr_view first.now) sub)
        (products_expanded x source.now.problem.now
        (tree.products (map product_view steps.now)) sub)) room.old deep room.new result }
{
    if !take_node(room, deep) {
        return Err(ExpandFault::TooLarge);
    }
    let start = expand_expr(source, in_sight, first, &*scope, room, deep - 1)?;
    let others = expand_product_steps(source, in_sight, steps, &*scope, room, deep - 1)?;
    product(source.alloc, start, others)
}

#[cycle(expand)]
fn expand_product_steps(
    source: &Source,
    in_sight: usize,
    steps: &[ProdStep],
    scope: &Scope,
    room: &mut u32,
    deep: u32,
) -> Result<Vec<PlainProd>, ExpandFault>
    requires { IsSource source.now }
    ensures { let t = products_expanded (expansions_of source.now.problem.now in_sight)
        source.now.problem.now
        (tree.products (map product_view steps.now)) (scope_view source.now.problem.now scope.now)
        in
        MatchResult result (λ v. ProductsMade t room.old deep room.new v.items)
        (λ f. IsLimitFault (products_nodes t) (products_depth t) room.old deep f) }
{
    let mut made = Vec::new(source.alloc);
    for step in steps {
        let one = expand_product_step(source, in_sight, step, &*scope, room, deep)?;
        add_product(&mut made, one)?;
    }
    Ok(made)
}

#[cycle(expand)]
fn expand_product_step(
    source: &Source,
    in_sight: usize,
    step: &ProdStep,
    scope: &Scope,
    room: &mut u32,
    deep: u32,
) -> Result<PlainProd, ExpandFault>
    requires { IsSource source.now }
    ensures { let t = product_expanded (expansions_of source.now.problem.now in_sight)
        source.now.problem.now
        (product_view step.now) (scope_view source.now.problem.now scope.now) in
        MatchResult result (λ s. ProductMade t room.old deep room.new s)
        (λ f. IsLimitFault (product_nodes t) (product_depth t) room.old deep f) }
{
    match step {
        ProdStep::Times(e) => Ok(PlainProd::Times(expand_expr(
            source, in_sight, e, &*scope, room, deep,
        )?)),
        ProdStep::Div(_, n) => Ok(PlainProd::Div(*n)),
        ProdStep::Mod(_, n) => Ok(PlainProd::Mod(*n)),
    }
}

/// The body of a macro, where its parameters stand for the arguments.
#[cycle(expand)]
fn expand_call(
    source: &Source,
    in_sight: usize,
    m: &PlacedName,
    args: &[Argument],
    scope: &Scope,
    room: &mut u32,
    deep: u32,
) -> Result<PlainExpr, ExpandFault>
    requires { IsSource source.now }
    ensures { let x = expansions_of source.now.problem.now in_sight in
        GivesExpr
        (expr_expanded x source.now.problem.now
        (tree.value_call 0 m.now (tree.arguments (map argument_view args.now)))
        (scope_view source.now.problem.now scope.now)) room.old deep room.new result }
{
    match value_macro(source, in_sight, &m.name) {
        Some(called) => match handed_index(source.handed.as_slice(), called.index, args.len()) {
            Some(i) => expand_expr(source, in_sight, &args[i].value, &*scope, room, deep),
            None => expand_expr(
                source,
                called.index,
                called.body,
                &Scope::Parameters(called.params, args, &*scope, in_sight),
                room,
                deep,
            ),
        },
        None => number(0, room, deep),
    }
}
