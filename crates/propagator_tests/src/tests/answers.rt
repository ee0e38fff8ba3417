//! What a propagator leaves of the first state of a problem, and what a search with it finds.

ghost use Rattle.std.specs.Prelude.{◌≡◌, ◌≤◌, ◌<◌, IsSome, length};
ghost use Rattle.geo_base.specs.declared.TheConstants.{MAX_DIMS};
ghost use Rattle.geo_conditions.specs.declared.object.TheConstants.{MAX_OBJECTS};
ghost use Rattle.geo_conditions.specs.Conditions.{AllFit};
ghost use Rattle.problem_data.specs.WellFormed.{IsWellFormed};
ghost use Rattle.rule_ground.specs.Start.{first_state};

use crate::tests::tuples::Put;
use derivation::NoRecord;
use geo_base::MAX_DIMS;
use geo_conditions::{MAX_OBJECTS, ObjId, State};
use geo_state::{Propagate, Settled, Trailed};
use problem_data::problem::Problem;
use rule_ground::start::start_state;
use std::alloc::{AllocError, Global};
use trail_search::{Search, Step};

/// How many layouts are sought.
pub const MOST_LAYOUTS: usize = 50;

/// How many members of the walk are visited.
pub const BUDGET: u64 = 1_000_000;

/// What is open to an object: its places, and the ends of each interval.
pub struct Open {
    places: Vec<u8>,
    ends: Vec<(i64, i64)>,
}

impl Drop for Open {
    fn drop(self) {
        let Open {
            places: _places,
            ends: _ends,
        } = self;
    }
}

impl Open {
    /// Whether the same is open.
    pub fn is_same(&self, other: &Open) -> bool {
        self.places.as_slice() == other.places.as_slice()
            && self.ends.as_slice() == other.ends.as_slice()
    }

    /// Whether a spot is open.
    fn has(&self, put: &Put) -> bool {
        if !self.places.contains(&put.place) || self.ends.len() != put.origin.len() {
            return false;
        }
        for (ends, x) in self.ends.iter().zip(&put.origin) {
            if *x < ends.0 || ends.1 < *x {
                return false;
            }
        }
        true
    }
}

/// Whether both states are dead, or the same is open to each object.
pub fn is_same_state(state: &Option<Vec<Open>>, other: &Option<Vec<Open>>) -> bool {
    let (Some(state), Some(other)) = (state, other) else {
        return state.is_none() && other.is_none();
    };
    if state.len() != other.len() {
        return false;
    }
    for (open, same) in state.iter().zip(other) {
        if !open.is_same(same) {
            return false;
        }
    }
    true
}

/// Whether a tuple lies inside a state.
pub fn has_tuple(state: &[Open], puts: &[Put]) -> bool {
    if state.len() != puts.len() {
        return false;
    }
    for (open, put) in state.iter().zip(puts) {
        if !open.has(put) {
            return false;
        }
    }
    true
}

/// What a propagator answers.
pub struct Answers {
    /// What the first settle leaves; nothing where the state is dead.
    pub state: Option<Vec<Open>>,
    /// The first layouts that the search finds.
    pub layouts: Vec<Vec<Put>>,
    /// Whether the search ended behind them.
    pub ended: bool,
}

impl Drop for Answers {
    fn drop(self) {
        let Answers {
            state: _state,
            layouts: _layouts,
            ended: _,
        } = self;
    }
}

/// What is open to an object of the state.
fn open_to<const K: usize>(alloc: Global, state: &State<K>, o: ObjId) -> Result<Open, AllocError>
    requires k { K ≤ MAX_DIMS }
    requires object { o.0 < length state.now }
{
    let mut places = Vec::new(alloc);
    for place in 1..=16u8 {
        if state.has_shape(o, place) {
            places.push(place)?;
        }
    }
    let mut ends = Vec::new(alloc);
    for d in 0..K {
        let interval = state.interval(o, d);
        ends.push((interval.lo, interval.hi))?;
    }
    Ok(Open { places, ends })
}

/// What is open to each object of the state.
fn all_open<const K: usize>(alloc: Global, state: &State<K>) -> Result<Vec<Open>, AllocError>
    requires k { K ≤ MAX_DIMS }
{
    let mut all = Vec::new(alloc);
    for i in 0..state.objects() {
        all.push(open_to(alloc, state, ObjId(i as u16))?)?;
    }
    Ok(all)
}

/// What is left of the first state of a problem when it is settled, read off a copy; nothing where
/// it is dead.
pub fn settled<const K: usize, P: Propagate<K>>(
    alloc: Global,
    problem: &Problem,
    prop: &mut P,
) -> Result<Option<Vec<Open>>, AllocError>
    requires k { K ≤ MAX_DIMS }
    requires problem { IsWellFormed problem.now }
    requires dims { problem.now.dims ≡ K }
    requires objects { length (first_state problem.now) ≡ P.objects prop.old }
    requires fits { AllFit (P.conditions prop.old) (first_state problem.now) }
    ensures objects { P.objects prop.new ≡ P.objects prop.old }
    ensures conditions { P.conditions prop.new ≡ P.conditions prop.old }
{
    let first = start_state::<K>(alloc, problem)?;
    let mut state = Trailed::start(alloc, first, 0)?;
    match prop.settle(&mut state, &mut NoRecord::new())? {
        Settled::Kept => Ok(Some(all_open(alloc, &state.state().copy()?)?)),
        Settled::Dead => Ok(None),
    }
}

/// Where the search has put each object.
fn puts<const K: usize, P: Propagate<K>>(
    alloc: Global,
    search: &Search<K, P, NoRecord>,
    objects: usize,
) -> Result<Vec<Put>, AllocError>
    requires k { K ≤ MAX_DIMS }
    requires found { IsSome search.now.layout }
    requires objects { objects ≡ length search.now.walk.first }
    requires few { objects ≤ MAX_OBJECTS }
{
    let mut all = Vec::new(alloc);
    for i in 0..objects {
        let o = ObjId(i as u16);
        let mut origin = Vec::new(alloc);
        for d in 0..K {
            origin.push(search.value(o, d))?;
        }
        all.push(Put {
            place: search.place(o),
            origin,
        })?;
    }
    Ok(all)
}

/// The next layout of a search, or how it ends.
fn next_layout<const K: usize, P: Propagate<K>>(
    alloc: Global,
    search: &mut Search<K, P, NoRecord>,
    objects: usize,
) -> Result<Result<Vec<Put>, Step>, AllocError>
    requires k { K ≤ MAX_DIMS }
    requires objects { objects ≡ length search.old.walk.first }
    requires few { objects ≤ MAX_OBJECTS }
    ensures { search.new.walk ≡ search.old.walk }
{
    match search.next() {
        Step::Found => Ok(Ok(puts(alloc, search, objects)?)),
        step => Ok(Err(step)),
    }
}

/// Whether a search has ended.
fn is_end(step: Step) -> bool {
    match step {
        Step::Ended => true,
        _ => false,
    }
}

/// The first layouts that a search finds, with what the first settle leaves.
pub fn search_on<const K: usize, P: Propagate<K>>(
    alloc: Global,
    search: &mut Search<K, P, NoRecord>,
    objects: usize,
    state: Option<Vec<Open>>,
) -> Result<Answers, AllocError>
    requires k { K ≤ MAX_DIMS }
    requires objects { objects ≡ length search.old.walk.first }
    requires few { objects ≤ MAX_OBJECTS }
{
    let mut layouts = Vec::new(alloc);
    'answers: for _answer in 0..MOST_LAYOUTS {
        match next_layout(alloc, search, objects)? {
            Ok(puts) => layouts.push(puts)?,
            Err(step) => {
                return Ok(Answers {
                    state,
                    layouts,
                    ended: is_end(step),
                });
            }
        }
    }
    Ok(Answers {
        state,
        layouts,
        ended: false,
    })
}
