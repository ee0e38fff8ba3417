//! Formulas that name objects themselves: as if a `forall` over each of these objects alone stood before the formula.

ghost use Rattle.std.specs.Prelude.{◌≡◌, ◌∷◌, ◌++◌, [], IfOk, List, OnOk, if◌then◌else◌, true};
ghost use Rattle.linear_conditions.specs.CondTree.{CondTree};
ghost use Rattle.linear_conditions.specs.Counts.{Counts, Done, and_then, visit};
ghost use Rattle.linear_conditions.specs.Folding.{joined};
ghost use Rattle.linear_conditions.specs.Views.{fixings_view};
ghost use Rattle.rule_expand.specs.PlainView.{plain_formula_view};
ghost use Rattle.rule_ground.specs.Answers.{Gives};
ghost use Rattle.rule_ground.specs.Grounding.{ground_named, ground_place, ground_places, named_objects};
ghost use Rattle.rule_ground.specs.Shapes.{places};
ghost use Rattle.rule_ground.specs.declared.quantifiers.Manner.TheVariants as ways;

use crate::elements::{open_object, place_count};
use crate::formulas::{add_cond, ground, join, joined_one};
use crate::needs::needs;
use crate::quantifiers::{Manner, shape_child};
use geo_conditions::{Cond, ObjId};
use linear_conditions::counter::Counter;
use linear_conditions::fault::GroundFault;
use linear_conditions::fixings::Fixings;
use problem_data::problem::Problem;
use rule_expand::plain::{PlainFormula, Subject};
use rule_values::env::Env;
use std::alloc::{AllocError, Global};

// Appends an object, where it is named.
fn push_named(names: &mut Vec<usize>, o: usize, is_named: bool) -> Result<(), AllocError>
    ensures { OnOk result (names.new.items ≡ names.old.items ++ (if is_named then o ∷ [] else [])) }
{
    if is_named {
        names.push(o)?;
    }
    Ok(())
}

/// The objects whose shapes a formula asks for by their names, in file order.
pub fn named_objects(
    alloc: Global,
    problem: &Problem,
    f: &PlainFormula,
) -> Result<Vec<usize>, AllocError>
    ensures { IfOk result (λ v. v.items ≡ named_objects problem.now (plain_formula_view f.now)) }
{
    let mut names = Vec::new(alloc);
    for o in 0..problem.objects().len() {
        push_named(&mut names, o, needs(Subject::Object(o), f))?;
    }
    Ok(names)
}

/// The condition of a formula behind some of the objects that it names. `fixings` are the objects whose shapes are fixed.
#[cycle(named)]
pub fn ground_named(
    alloc: Global,
    problem: &Problem,
    names: &[usize],
    f: &PlainFormula,
    fixings: &Fixings,
    counter: &mut Counter,
) -> Result<Cond, GroundFault>
    ensures { Gives
        (ground_named problem.now names.now (plain_formula_view f.now)
        (fixings_view fixings.now) counter.old) counter.new result }
{
    match names {
        [] => ground(alloc, problem, f, true, &Env::Empty, &*fixings, counter),
        [o, rest @ ..] => named_object(alloc, problem, *o, rest, f, &*fixings, counter),
    }
}

// The first object, with each of its places where its place is open.
#[cycle(named)]
fn named_object(
    alloc: Global,
    problem: &Problem,
    o: usize,
    rest: &[usize],
    f: &PlainFormula,
    fixings: &Fixings,
    counter: &mut Counter,
) -> Result<Cond, GroundFault>
    ensures { Gives (ground_named problem.now (o ∷ rest.now) (plain_formula_view f.now)
        (fixings_view fixings.now) counter.old) counter.new result }
{
    if let Err(e) = counter.visit() {
        return Err(e);
    }
    match open_object(problem, &*fixings, o) {
        None => named_whole(alloc, problem, rest, f, &*fixings, counter),
        Some(object) => named_split(alloc, problem, object, rest, f, &*fixings, counter),
    }
}

// An object whose place is settled.
#[cycle(named)]
fn named_whole(
    alloc: Global,
    problem: &Problem,
    rest: &[usize],
    f: &PlainFormula,
    fixings: &Fixings,
    counter: &mut Counter,
) -> Result<Cond, GroundFault>
    ensures { Gives (and_then Counts CondTree (visit counter.old) (λ k same.
        and_then CondTree CondTree
        (ground_named problem.now rest.now (plain_formula_view f.now) (fixings_view fixings.now) k)
        (λ c j. Done (joined true (c ∷ [])) j))) counter.new result }
{
    if let Err(e) = counter.visit() {
        return Err(e);
    }
    match ground_named(alloc, problem, rest, f, &*fixings, counter) {
        Ok(child) => joined_one(alloc, true, child),
        Err(e) => Err(e),
    }
}

// An object with each of its places.
#[cycle(named)]
fn named_split(
    alloc: Global,
    problem: &Problem,
    object: ObjId,
    rest: &[usize],
    f: &PlainFormula,
    fixings: &Fixings,
    counter: &mut Counter,
) -> Result<Cond, GroundFault>
    ensures { Gives (and_then (List CondTree) CondTree
        (ground_places
        (λ x more j. ground_named problem.now rest.now (plain_formula_view f.now) more j) ways.All
        (fixings_view fixings.now) object.0 (places problem.now object.0) counter.old)
        (λ cs k. Done (joined true cs) k)) counter.new result }
{
    let mut children = Vec::new(alloc);
    for before in 0..place_count(problem, object) {
        match named_place(
            alloc,
            problem,
            object,
            before + 1,
            rest,
            f,
            &*fixings,
            counter,
        ) {
            Ok(child) => {
                if let Err(e) = add_cond(&mut children, child) {
                    return Err(e);
                }
            }
            Err(e) => return Err(e),
        }
    }
    join(alloc, true, children)
}

// An object at that place.
#[cycle(named)]
fn named_place(
    alloc: Global,
    problem: &Problem,
    object: ObjId,
    place: u8,
    rest: &[usize],
    f: &PlainFormula,
    fixings: &Fixings,
    counter: &mut Counter,
) -> Result<Cond, GroundFault>
    ensures { Gives
        (ground_place
        (λ x more j. ground_named problem.now rest.now (plain_formula_view f.now) more j) ways.All
        (fixings_view fixings.now) object.0 place counter.old) counter.new result }
{
    if let Err(e) = counter.visit_split() {
        return Err(e);
    }
    let fixed = Fixings::More(&*fixings, object.0 as usize, place);
    match ground_named(alloc, problem, rest, f, &fixed, counter) {
        Ok(body) => shape_child(alloc, Manner::All, object, place, body),
        Err(e) => Err(e),
    }
}
