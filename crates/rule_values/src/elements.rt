//! What the variable of a quantifier could stand for. Objects that are absent are among them: whether
//! one is there is asked of a tuple.

ghost use Rattle.std.specs.Prelude.{◌≡◌, ◌<◌, ◌^◌, length, map};
ghost use Rattle.std.specs.List.{range_with_len};
ghost use Rattle.problem_data.specs.Tuple.{Tuple};
ghost use Rattle.problem_data.specs.Value.{Object};
ghost use Rattle.rule_expand.specs.PlainTruth.{plain_candidates};
ghost use Rattle.rule_expand.specs.PlainView.{plain_coll_view};
ghost use Rattle.rule_values.specs.Elements.{IsPlacedIn, element_at, elements_at, elements_view, object_in, owner_of};
ghost use Rattle.rule_values.specs.View.{env_view, thing_view};

use crate::env::{Env, Thing, subject};
use crate::shapes::boxes_at;
use problem_data::problem::{BoxDef, Problem};
use rule_expand::plain::PlainColl;

/// What a variable could stand for.
#[derive(Clone, Copy)]
pub enum Elements<'a> {
    /// So many objects, from the first one.
    Objects(usize),
    /// Objects, by their positions from 0.
    Listed(&'a [usize]),
    Boxes(&'a [BoxDef]),
}

impl<'a> Elements<'a> {
    /// How many there are.
    pub fn len(&self) -> usize
        ensures { result ≡ length (elements_view self.now) }
    {
        match self {
            Elements::Objects(count) => *count,
            Elements::Listed(objects) => objects.len(),
            Elements::Boxes(boxes) => boxes.len(),
        }
    }

    /// The element at a place, from 0. Past the end there is none.
    pub fn at(&self, i: usize) -> Thing<'a>
        ensures { thing_view result ≡ element_at (elements_view self.now) i }
    {
        match self {
            Elements::Objects(count) => object_below(*count, i),
            Elements::Listed(objects) => match objects.get(i) {
                Some(o) => Thing::Object(*o),
                None => Thing::Nothing,
            },
            Elements::Boxes(boxes) => match boxes.get(i) {
                Some(part) => Thing::Part(part),
                None => Thing::Nothing,
            },
        }
    }
}

/// One of so many objects, by its place.
fn object_below<'a>(count: usize, i: usize) -> Thing<'a>
    ensures { thing_view result ≡ element_at (map Object (range_with_len 0 count)) i }
{
    if i < count {
        Thing::Object(i)
    } else {
        Thing::Nothing
    }
}

/// The object that a thing is.
fn object_in(thing: Thing) -> Option<usize>
    ensures { result ≡ object_in (thing_view thing.entry) }
{
    match thing {
        Thing::Object(o) => Some(o),
        Thing::Nothing => None,
        Thing::Part(_) => None,
    }
}

/// The object whose boxes a variable ranges over.
pub fn owner<'a>(coll: &PlainColl, env: &'a Env<'a>) -> Option<usize>
    ensures { result ≡ owner_of (plain_coll_view coll.now) (env_view env.now) }
{
    match coll {
        PlainColl::Objects => None,
        PlainColl::Listed(_objects) => None,
        PlainColl::BoxesOf(s) => object_in(subject(env, *s)),
    }
}

/// What a variable could stand for. `place` is the place of the shape that the owner has, in its list.
pub fn elements_of<'a>(
    problem: &'a Problem,
    coll: &'a PlainColl,
    env: &'a Env<'a>,
    place: u8,
) -> Elements<'a>
    ensures same { elements_view result
        ≡ elements_at problem.now place (plain_coll_view coll.now) (env_view env.now) }
    ensures tuple { (t : Tuple)
        → IsPlacedIn t place (owner_of (plain_coll_view coll.now) (env_view env.now))
        → elements_view result
        ≡ plain_candidates problem.now t (plain_coll_view coll.now) (env_view env.now) }
    ensures few { length (elements_view result) < 2 ^ 62 }
{
    match coll {
        PlainColl::Objects => Elements::Objects(problem.objects().len()),
        PlainColl::Listed(objects) => Elements::Listed(objects.as_slice()),
        PlainColl::BoxesOf(s) => match object_in(subject(env, *s)) {
            Some(o) => Elements::Boxes(boxes_at(problem, o, place)),
            None => Elements::Boxes(&[]),
        },
    }
}
