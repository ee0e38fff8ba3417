//! From a formula without macros to a condition.

ghost use Rattle.std.specs.Prelude.{◌≡◌, ◌∷◌, ◌++◌, [], Err, MatchResult, map};
ghost use Rattle.linear_conditions.specs.CondTree.{cond_view};
ghost use Rattle.linear_conditions.specs.Counts.{Counts, Done, and_then, visit, visits};
ghost use Rattle.linear_conditions.specs.CondTree.{CondTree};
ghost use Rattle.linear_conditions.specs.Folding.{certain, joined};
ghost use Rattle.linear_conditions.specs.Leaves.{under};
ghost use Rattle.linear_conditions.specs.Views.{fixings_view};
ghost use Rattle.linear_conditions.specs.declared.fault.GroundFault.TheVariants.{Memory};
ghost use Rattle.rule_expand.specs.Plain as plain;
ghost use Rattle.rule_expand.specs.PlainView.{plain_coll_view, plain_formula_view, plain_formulas_view};
ghost use Rattle.rule_ground.specs.Answers.{Appends, AppendsBusy, Gives, GivesAll, GivesBusy, IsRow, body_at, element_view};
ghost use Rattle.rule_ground.specs.Grounding.{alone, element_of, ground as grounded, ground_element, ground_elements, ground_group, ground_operands, ground_optional, ground_place, ground_places, ground_split, ground_whole, in_turn};
ghost use Rattle.rule_ground.specs.Shapes.{shape_places};
ghost use Rattle.rule_values.specs.Elements.{elements_view};
ghost use Rattle.rule_values.specs.View.{env_view, thing_view};

use crate::elements::{Element, asks_shapes, element_of, shape_count, things_of};
use crate::optional::{absent_place, add_absence, ground_gone, optional_child};
use crate::quantifiers::{
    Manner, body_sign, is_counted, is_idle, joined_two, manner_of, quantifier_node, shape_child,
};
use crate::rows::row_of;
use crate::signs::compared;
use crate::told::{Told, told_of};
use geo_conditions::{Cond, ObjId};
use linear_conditions::compare::compare;
use linear_conditions::counter::Counter;
use linear_conditions::fault::GroundFault;
use linear_conditions::fixings::Fixings;
use linear_conditions::fold::{certain, decides, joined, joined_one as only};
use problem_data::problem::Problem;
use rule_expand::plain::{PlainColl, PlainFormula, Subject};
use rule_syntax::tree::{QuantKind, Rel};
use rule_values::elements::Elements;
use rule_values::env::{Env, Thing};
use std::alloc::Global;

/// What is grounded at each element of a quantifier: a formula under a sign, with a variable for the element.
#[derive(Clone, Copy)]
pub struct Site<'a> {
    pub formula: &'a PlainFormula,
    /// True for plus.
    pub sign: bool,
    pub variable: u32,
    pub env: &'a Env<'a>,
}

/// One condition more.
pub fn add_cond(parts: &mut Vec<Cond>, part: Cond) -> Result<(), GroundFault>
    ensures { MatchResult result (λ _. parts.new.items ≡ parts.old.items ++ part ∷ []) (λ e. e
        ≡ Memory) }
{
    parts.push(part)?;
    Ok(())
}

// One child more, where there is one.
fn add_child(parts: &mut Vec<Cond>, child: Result<Cond, GroundFault>) -> Result<(), GroundFault>
    ensures { MatchResult child
        (λ c. MatchResult result (λ _. parts.new.items ≡ parts.old.items ++ c ∷ []) (λ e. e
        ≡ Memory)) (λ e. result ≡ Err e) }
{
    match child {
        Ok(part) => add_cond(parts, part),
        Err(e) => Err(e),
    }
}

/// All or one of several conditions.
pub fn join(alloc: Global, all: bool, parts: Vec<Cond>) -> Result<Cond, GroundFault>
    ensures { MatchResult result (λ c. cond_view c ≡ joined all (map cond_view parts.items)) (λ e. e
        ≡ Memory) }
{
    Ok(joined(alloc, all, parts)?)
}

// A visit, and a condition that is certain.
fn ground_certain(alloc: Global, holds: bool, counter: &mut Counter) -> Result<Cond, GroundFault>
    ensures { Gives
        (and_then Counts CondTree (visit counter.old)
        (λ k same. Done (certain holds) k)) counter.new result }
{
    match counter.visit() {
        Ok(()) => Ok(certain(alloc, holds)),
        Err(e) => Err(e),
    }
}

// Appends the child that is told, behind its visits, unless it is idle.
fn add_told(
    alloc: Global,
    manner: Manner,
    told: Told,
    counter: &mut Counter,
    children: &mut Vec<Cond>,
) -> Result<(), GroundFault>
    ensures { AppendsBusy manner
        (alone (and_then Counts CondTree (visits told.visits counter.old)
        (λ k same. Done (certain told.holds) k))) children.old.items children.new.items counter.new
        result }
{
    if let Err(e) = counter.visit_often(told.visits) {
        return Err(e);
    }
    if is_idle(manner, told.holds) {
        return Ok(());
    }
    add_cond(children, certain(alloc, told.holds))
}

/// All or one of a single operand.
pub fn joined_one(alloc: Global, all: bool, part: Cond) -> Result<Cond, GroundFault>
    ensures { MatchResult result (λ c. cond_view c ≡ joined all (cond_view part ∷ [])) (λ e. e
        ≡ Memory) }
{
    Ok(only(alloc, part))
}

/// The condition of a formula under plus (true) or minus. `fixings` are the objects whose shapes are fixed.
#[cycle(ground)]
pub fn ground(
    alloc: Global,
    problem: &Problem,
    f: &PlainFormula,
    sign: bool,
    env: &Env,
    fixings: &Fixings,
    counter: &mut Counter,
) -> Result<Cond, GroundFault>
    ensures { Gives (grounded problem.now (plain_formula_view f.now) sign (env_view env.now)
        (fixings_view fixings.now) counter.old) counter.new result }
{
    match f {
        PlainFormula::True => ground_certain(alloc, sign, counter),
        PlainFormula::False => ground_certain(alloc, !sign, counter),
        PlainFormula::Not(f) => ground(alloc, problem, f, !sign, &*env, &*fixings, counter),
        PlainFormula::And(fs) => {
            ground_all_of(alloc, problem, fs, sign, &*env, &*fixings, counter)
        }
        PlainFormula::Or(fs) => ground_any_of(alloc, problem, fs, sign, &*env, &*fixings, counter),
        PlainFormula::Implies(f, g) => ground_pair(
            alloc, problem, !sign, f, !sign, g, sign, &*env, &*fixings, counter,
        ),
        PlainFormula::Iff(f, g) => {
            ground_equivalence(alloc, problem, f, g, sign, &*env, &*fixings, counter)
        }
        PlainFormula::Compare(a, rel, b) => compare(
            alloc,
            problem,
            a,
            compared(sign, *rel),
            b,
            &*env,
            &*fixings,
            counter,
        ),
        PlainFormula::Quant(kind, v, coll, f) => ground_quantified(
            alloc, problem, *kind, *v, coll, f, sign, &*env, &*fixings, counter,
        ),
    }
}

// A conjunction.
#[cycle(ground)]
fn ground_all_of(
    alloc: Global,
    problem: &Problem,
    fs: &[PlainFormula],
    sign: bool,
    env: &Env,
    fixings: &Fixings,
    counter: &mut Counter,
) -> Result<Cond, GroundFault>
    ensures { Gives (grounded problem.now (plain.all_of (plain_formulas_view fs.now)) sign
        (env_view env.now) (fixings_view fixings.now) counter.old) counter.new result }
{
    match ground_operands(alloc, problem, fs, sign, sign, &*env, &*fixings, counter) {
        Ok(parts) => join(alloc, sign, parts),
        Err(e) => Err(e),
    }
}

// A disjunction.
#[cycle(ground)]
fn ground_any_of(
    alloc: Global,
    problem: &Problem,
    fs: &[PlainFormula],
    sign: bool,
    env: &Env,
    fixings: &Fixings,
    counter: &mut Counter,
) -> Result<Cond, GroundFault>
    ensures { Gives (grounded problem.now (plain.any_of (plain_formulas_view fs.now)) sign
        (env_view env.now) (fixings_view fixings.now) counter.old) counter.new result }
{
    match ground_operands(alloc, problem, fs, !sign, sign, &*env, &*fixings, counter) {
        Ok(parts) => join(alloc, !sign, parts),
        Err(e) => Err(e),
    }
}

// Operands from the left, up to the first that decides.
#[cycle(ground)]
fn ground_operands(
    alloc: Global,
    problem: &Problem,
    fs: &[PlainFormula],
    all: bool,
    sign: bool,
    env: &Env,
    fixings: &Fixings,
    counter: &mut Counter,
) -> Result<Vec<Cond>, GroundFault>
    ensures { GivesAll (ground_operands problem.now (plain_formulas_view fs.now) all sign
        (env_view env.now) (fixings_view fixings.now) counter.old) counter.new result }
{
    let mut parts = Vec::new(alloc);
    for f in fs {
        let part = ground(alloc, problem, f, sign, &*env, &*fixings, counter)?;
        let stop = decides(all, &part);
        add_cond(&mut parts, part)?;
        if stop {
            return Ok(parts);
        }
    }
    Ok(parts)
}

// Two operands, each under its sign; the second is left out where the first decides.
#[cycle(ground)]
fn ground_pair(
    alloc: Global,
    problem: &Problem,
    all: bool,
    f: &PlainFormula,
    f_sign: bool,
    g: &PlainFormula,
    g_sign: bool,
    env: &Env,
    fixings: &Fixings,
    counter: &mut Counter,
) -> Result<Cond, GroundFault>
    ensures { Gives (in_turn all
        (λ j. grounded problem.now (plain_formula_view f.now) f_sign (env_view env.now)
        (fixings_view fixings.now) j)
        (λ j. grounded problem.now (plain_formula_view g.now) g_sign (env_view env.now)
        (fixings_view fixings.now) j) counter.old) counter.new result }
{
    let first = ground(alloc, problem, f, f_sign, &*env, &*fixings, counter)?;
    if decides(all, &first) {
        return joined_one(alloc, all, first);
    }
    let second = ground(alloc, problem, g, g_sign, &*env, &*fixings, counter)?;
    joined_two(alloc, all, first, second)
}

// Both hold or neither; under minus one of them alone.
#[cycle(ground)]
fn ground_equivalence(
    alloc: Global,
    problem: &Problem,
    f: &PlainFormula,
    g: &PlainFormula,
    sign: bool,
    env: &Env,
    fixings: &Fixings,
    counter: &mut Counter,
) -> Result<Cond, GroundFault>
    ensures { Gives
        (grounded problem.now
        (plain.equivalence (plain_formula_view f.now) (plain_formula_view g.now)) sign
        (env_view env.now) (fixings_view fixings.now) counter.old) counter.new result }
{
    let first = ground_pair(
        alloc, problem, true, f, true, g, sign, &*env, &*fixings, counter,
    )?;
    if decides(false, &first) {
        return joined_one(alloc, false, first);
    }
    let second = ground_pair(
        alloc, problem, true, f, false, g, !sign, &*env, &*fixings, counter,
    )?;
    joined_two(alloc, false, first, second)
}

// A quantifier: its visit, then its elements.
#[cycle(ground)]
fn ground_quantified(
    alloc: Global,
    problem: &Problem,
    kind: QuantKind,
    v: u32,
    coll: &PlainColl,
    f: &PlainFormula,
    sign: bool,
    env: &Env,
    fixings: &Fixings,
    counter: &mut Counter,
) -> Result<Cond, GroundFault>
    ensures { Gives
        (grounded problem.now
        (plain.quantified kind v (plain_coll_view coll.now) (plain_formula_view f.now)) sign
        (env_view env.now) (fixings_view fixings.now) counter.old) counter.new result }
{
    if let Err(e) = counter.visit() {
        return Err(e);
    }
    let things = things_of(problem, coll, &*env, &*fixings);
    let asked = asks_shapes(Subject::Variable(v), f, &things);
    let site = Site {
        formula: &*f,
        sign: body_sign(kind, sign),
        variable: v,
        env: &*env,
    };
    match ground_elements(
        alloc,
        problem,
        &site,
        manner_of(kind, sign),
        asked,
        &things,
        &*fixings,
        counter,
    ) {
        Ok(children) => quantifier_node(alloc, kind, sign, things.len(), children),
        Err(e) => Err(e),
    }
}

// The children of all elements, but for idle ones.
#[cycle(ground)]
fn ground_elements(
    alloc: Global,
    problem: &Problem,
    site: &Site,
    manner: Manner,
    asked: bool,
    things: &Elements,
    fixings: &Fixings,
    counter: &mut Counter,
) -> Result<Vec<Cond>, GroundFault>
    ensures { GivesBusy manner (ground_elements problem.now (body_at problem.now site.now) manner
        (fixings_view fixings.now)
        (map (element_of problem.now asked (fixings_view fixings.now))
        (elements_view things.now)) counter.old) counter.new result }
{
    let row = row_of(
        problem,
        &*site.formula,
        site.sign,
        site.variable,
        &*site.env,
        &*fixings,
    );
    let mut children = Vec::new(alloc);
    for i in 0..things.len() {
        let element = element_of(problem, asked, &*fixings, things.at(i));
        if let Err(e) = ground_element(
            alloc,
            problem,
            &*site,
            manner,
            row,
            element,
            &*fixings,
            counter,
            &mut children,
        ) {
            return Err(e);
        }
    }
    Ok(children)
}

// Appends the children of an element.
#[cycle(ground)]
fn ground_element(
    alloc: Global,
    problem: &Problem,
    site: &Site,
    manner: Manner,
    row: Option<Told>,
    element: Element,
    fixings: &Fixings,
    counter: &mut Counter,
    children: &mut Vec<Cond>,
) -> Result<(), GroundFault>
    requires row { IsRow problem.now site.now (fixings_view fixings.now) row }
    ensures { AppendsBusy manner
        (ground_element problem.now (body_at problem.now site.now) manner (fixings_view fixings.now)
        (element_view element.entry) counter.old) children.old.items children.new.items counter.new
        result }
{
    match element {
        Element::Whole(thing) => ground_whole(
            alloc, problem, &*site, manner, row, thing, &*fixings, counter, children,
        ),
        Element::Split(object) => ground_split(
            alloc, problem, &*site, manner, object, &*fixings, counter, children,
        ),
        Element::Optional(object) => {
            let child = ground_optional(alloc, problem, &*site, manner, object, &*fixings, counter);
            add_child(children, child)
        }
        Element::Gone(_object) => add_child(children, ground_gone(alloc, manner, counter)),
    }
}

// Appends the child of an element that does not split: its visit, then the body.
#[cycle(ground)]
fn ground_whole(
    alloc: Global,
    problem: &Problem,
    site: &Site,
    manner: Manner,
    row: Option<Told>,
    thing: Thing,
    fixings: &Fixings,
    counter: &mut Counter,
    children: &mut Vec<Cond>,
) -> Result<(), GroundFault>
    requires row { IsRow problem.now site.now (fixings_view fixings.now) row }
    ensures { AppendsBusy manner
        (alone (ground_whole (body_at problem.now site.now) (fixings_view fixings.now)
        (thing_view thing.entry) counter.old)) children.old.items children.new.items counter.new
        result }
{
    if let Err(e) = counter.visit() {
        return Err(e);
    }
    if let Some(told) = row {
        return add_told(alloc, manner, told, counter, children);
    }
    let env = Env::More(&*site.env, site.variable, thing);
    match told_of(problem, &*site.formula, site.sign, &env, &*fixings) {
        Some(told) => add_told(alloc, manner, told, counter, children),
        None => {
            let child = ground(
                alloc,
                problem,
                &*site.formula,
                site.sign,
                &env,
                &*fixings,
                counter,
            );
            add_child(children, child)
        }
    }
}

// The child of an object that may be absent, and whose shape is not asked for: its visit and the
// leaf of its absence, then the body.
#[cycle(ground)]
fn ground_optional(
    alloc: Global,
    problem: &Problem,
    site: &Site,
    manner: Manner,
    object: ObjId,
    fixings: &Fixings,
    counter: &mut Counter,
) -> Result<Cond, GroundFault>
    ensures { Gives
        (ground_optional problem.now (body_at problem.now site.now) manner
        (fixings_view fixings.now) object.0 counter.old) counter.new result }
{
    if let Err(e) = counter.visit_split() {
        return Err(e);
    }
    let env = Env::More(&*site.env, site.variable, Thing::Object(object.0 as usize));
    match ground(
        alloc,
        problem,
        &*site.formula,
        site.sign,
        &env,
        &*fixings,
        counter,
    ) {
        Ok(body) => { optional_child(alloc, manner, object, absent_place(problem, object), body) }
        Err(e) => Err(e),
    }
}

// Appends the children of a split: one for each shape, and in a count all of these together.
#[cycle(ground)]
fn ground_split(
    alloc: Global,
    problem: &Problem,
    site: &Site,
    manner: Manner,
    object: ObjId,
    fixings: &Fixings,
    counter: &mut Counter,
    children: &mut Vec<Cond>,
) -> Result<(), GroundFault>
    ensures { Appends
        (ground_split problem.now (body_at problem.now site.now) manner
        (fixings_view fixings.now) object.0 counter.old) children.old.items children.new.items
        counter.new result }
{
    if is_counted(manner) {
        let child = ground_group(alloc, problem, &*site, manner, object, &*fixings, counter);
        add_child(children, child)
    } else {
        ground_places(
            alloc, problem, &*site, manner, object, &*fixings, counter, children,
        )
    }
}

// The child of a split in a count: its shapes together, and its absence, where that counts.
#[cycle(ground)]
fn ground_group(
    alloc: Global,
    problem: &Problem,
    site: &Site,
    manner: Manner,
    object: ObjId,
    fixings: &Fixings,
    counter: &mut Counter,
) -> Result<Cond, GroundFault>
    ensures { Gives
        (ground_group problem.now (body_at problem.now site.now) manner
        (fixings_view fixings.now) object.0 counter.old) counter.new result }
{
    let mut children = Vec::new(alloc);
    match ground_places(
        alloc,
        problem,
        &*site,
        manner,
        object,
        &*fixings,
        counter,
        &mut children,
    ) {
        Ok(()) => match add_absence(problem, manner, object, counter, &mut children) {
            Ok(()) => join(alloc, false, children),
            Err(e) => Err(e),
        },
        Err(e) => Err(e),
    }
}

// The children of a split, one for each shape.
#[cycle(ground)]
fn ground_places(
    alloc: Global,
    problem: &Problem,
    site: &Site,
    manner: Manner,
    object: ObjId,
    fixings: &Fixings,
    counter: &mut Counter,
    children: &mut Vec<Cond>,
) -> Result<(), GroundFault>
    ensures { Appends
        (ground_places (body_at problem.now site.now) manner
        (fixings_view fixings.now) object.0 (shape_places problem.now object.0) counter.old)
        children.old.items children.new.items counter.new result }
{
    for before in 0..shape_count(problem, object) {
        let child = ground_place(
            alloc,
            problem,
            &*site,
            manner,
            object,
            before + 1,
            &*fixings,
            counter,
        )?;
        add_cond(children, child)?;
    }
    Ok(())
}

// The child of an object with its shape at that place: its visit and the leaf of the shape, then the body.
#[cycle(ground)]
fn ground_place(
    alloc: Global,
    problem: &Problem,
    site: &Site,
    manner: Manner,
    object: ObjId,
    place: u8,
    fixings: &Fixings,
    counter: &mut Counter,
) -> Result<Cond, GroundFault>
    ensures { Gives
        (ground_place (body_at problem.now site.now) manner
        (fixings_view fixings.now) object.0 place counter.old) counter.new result }
{
    if let Err(e) = counter.visit_split() {
        return Err(e);
    }
    let env = Env::More(&*site.env, site.variable, Thing::Object(object.0 as usize));
    let fixed = Fixings::More(&*fixings, object.0 as usize, place);
    match ground(
        alloc,
        problem,
        &*site.formula,
        site.sign,
        &env,
        &fixed,
        counter,
    ) {
        Ok(body) => shape_child(alloc, manner, object, place, body),
        Err(e) => Err(e),
    }
}
