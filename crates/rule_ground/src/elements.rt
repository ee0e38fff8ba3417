//! The elements of quantifiers, and which of them split.

ghost use Rattle.std.specs.Option.{option_map_or};
ghost use Rattle.std.specs.Prelude.{◌≡◌, ◌<◌, ◌≤◌, ◌^◌, List, None, Some, if◌then◌else◌, length, map};
ghost use Rattle.linear_conditions.specs.Fixings.{Fixing, place_of};
ghost use Rattle.linear_conditions.specs.Views.{fixings_view};
ghost use Rattle.problem_data.specs.Problem.{ProblemData};
ghost use Rattle.problem_data.specs.Tuple.{object_of};
ghost use Rattle.rule_expand.specs.PlainView.{plain_coll_view, plain_formula_view};
ghost use Rattle.rule_ground.specs.Answers.{element_view};
ghost use Rattle.rule_ground.specs.Grounding.{element_of, is_open, needs, object_element, things_of};
ghost use Rattle.problem_data.specs.Places.{place_count};
ghost use Rattle.rule_values.specs.Elements.{elements_view};
ghost use Rattle.rule_values.specs.View.{env_view, thing_view};

use crate::needs::needs;
use geo_conditions::ObjId;
use linear_conditions::fixings::{Fixings, fixed_place, place_of};
use problem_data::problem::Problem;
use rule_expand::plain::{PlainColl, PlainFormula, Subject};
use rule_values::elements::{Elements, elements_of, owner};
use rule_values::env::{Env, Thing};

/// An element of a quantifier.
#[derive(Clone, Copy)]
pub enum Element<'a> {
    /// A thing as it is.
    Whole(Thing<'a>),
    /// An object that is looked at with each of its shapes.
    Split(ObjId),
    /// One that may be absent, and whose shape is not asked for.
    Optional(ObjId),
    /// One that is fixed as absent.
    Gone(ObjId),
}

/// How many shapes an object may have; none, where it is not there.
pub fn shape_count(problem: &Problem, object: ObjId) -> u8
    ensures same { result ≡ length (object_of problem.now object.0).shapes }
    ensures few { result ≤ 16 }
{
    problem.is_said();
    match problem.objects().get(object.0 as usize) {
        Some(object) => object.shapes().len() as u8,
        None => 0,
    }
}

// How many places an object has; none, where it is not there.
fn places_of(problem: &Problem, o: usize) -> usize
    ensures { result ≡ place_count (object_of problem.now o) }
{
    problem.is_said();
    match problem.objects().get(o) {
        Some(object) => object.places(),
        None => 0,
    }
}

/// How many places an object has; none, where it is not there.
pub fn place_count(problem: &Problem, object: ObjId) -> u8
    ensures { result ≡ place_count (object_of problem.now object.0) }
{
    problem.is_said();
    places_of(problem, object.0 as usize) as u8
}

/// The object, where its place is still open.
pub fn open_object(problem: &Problem, fixings: &Fixings, o: usize) -> Option<ObjId>
    ensures { result
        ≡ (if is_open problem.now (fixings_view fixings.now) o then Some
        (record { 0 = o }) else None) }
{
    problem.is_said();
    if places_of(problem, o) > 1 && fixed_place(fixings, o) == 0 {
        Some(ObjId(o as u16))
    } else {
        None
    }
}

/// Whether a formula asks for the shapes of the elements. Boxes have none, so that it is not looked at.
pub fn asks_shapes(subject: Subject, f: &PlainFormula, things: &Elements) -> bool
    ensures { (p : ProblemData) (fix : List Fixing)
        → map (element_of p result fix) (elements_view things.now)
        ≡ map (element_of p (needs subject (plain_formula_view f.now)) fix)
        (elements_view things.now) }
{
    match things {
        Elements::Objects(_count) => needs(subject, f),
        Elements::Listed(_objects) => needs(subject, f),
        Elements::Boxes(_boxes) => false,
    }
}

// An object as an element, where its shape is asked for or not.
fn object_element<'a>(problem: &Problem, asked: bool, fixings: &Fixings, o: usize) -> Element<'a>
    ensures { element_view result
        ≡ object_element problem.now asked (fixings_view fixings.now) o }
{
    problem.is_said();
    let place = fixed_place(fixings, o);
    match problem.objects().get(o) {
        Some(object) => {
            let id = ObjId(o as u16);
            if object.is_absent_at(place as usize) {
                Element::Gone(id)
            } else if asked && object.places() > 1 && place == 0 {
                Element::Split(id)
            } else if object.may_be_absent() && place == 0 {
                Element::Optional(id)
            } else {
                Element::Whole(Thing::Object(o))
            }
        }
        None => Element::Whole(Thing::Object(o)),
    }
}

/// A thing as an element, where the shape of an object is asked for or not.
pub fn element_of<'a>(
    problem: &Problem,
    asked: bool,
    fixings: &Fixings,
    thing: Thing<'a>,
) -> Element<'a>
    ensures { element_view result
        ≡ element_of problem.now asked (fixings_view fixings.now) (thing_view thing.entry) }
{
    match thing {
        Thing::Object(o) => object_element(problem, asked, fixings, o),
        _ => Element::Whole(thing),
    }
}

// The place that is taken for an object, where there is one.
fn owner_place(fixings: &Fixings, owner: Option<usize>) -> u8
    ensures { result ≡ option_map_or (place_of (fixings_view fixings.now)) owner 1 }
{
    match owner {
        Some(o) => place_of(fixings, o),
        None => 1,
    }
}

/// The things that a variable ranges over.
pub fn things_of<'a>(
    problem: &'a Problem,
    coll: &'a PlainColl,
    env: &'a Env<'a>,
    fixings: &Fixings,
) -> Elements<'a>
    ensures same { elements_view result
        ≡ things_of problem.now (plain_coll_view coll.now) (env_view env.now)
        (fixings_view fixings.now) }
    ensures few { length (elements_view result) < 2 ^ 62 }
{
    let place = owner_place(fixings, owner(coll, env));
    elements_of(problem, coll, env, place)
}
