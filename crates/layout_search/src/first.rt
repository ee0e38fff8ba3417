//! The first layout, and when there is none within the budget.

ghost use Rattle.std.specs.Prelude.{◌≡◌, ◌≤◌, ◌<◌, ◌^◌, None, false, true, IfOk, IfSome, length};
ghost use Rattle.std.specs.Option.{option_map};
ghost use Rattle.geo_conditions.specs.Conditions.{AllFit};
ghost use Rattle.rule_ground.specs.Start.{first_state};
ghost use Rattle.layout_search.specs.FirstLayout.{AreConditionsOf, Derives, Finds, FindsSolution, Lists, is_spent, walk_of, with_record};

use crate::bounded::Bounded;
use crate::in_dimensions;
use crate::start::{found_layout, start_search};
use derivation::{Log, NoRecord, Recorder};
use fixpoint::Fixpoint;
use geo_base::MAX_DIMS;
use geo_conditions::{Cond, Layout};
use problem_data::problem::Problem;
use std::alloc::{AllocError, Global};
use trail_search::{Parts, Search, Step};

/// The number of members of its walk up to which a search is made with a record at once.
const RECORDED_MEMBERS: u64 = 100_000;

/// The number of events that such a record has room for: 128 MB.
const RECORDED_EVENTS: usize = 8_000_000;

/// How a search for a layout ends.
#[derive(Drop)]
pub enum Outcome<R: Recorder> {
    /// This is the first layout.
    Found(Layout),
    /// There is no layout. What the recorder kept is one derivation, which is valid on the first
    /// state.
    Nothing(R),
    /// The walk goes on past the budget, and no layout was met before.
    OutOfBudget,
}

impl<R: Recorder> Outcome<R> {
    /// Whether the walk goes on past the budget.
    pub fn is_out_of_budget(&self) -> bool
        ensures { result ≡ is_spent self.now }
    {
        match self {
            Outcome::Found(_) => false,
            Outcome::Nothing(_) => false,
            Outcome::OutOfBudget => true,
        }
    }
}

/// What a search found, and the conditions that it was given.
#[derive(Drop)]
pub struct Searched<R: Recorder> {
    pub outcome: Outcome<R>,
    pub conditions: Vec<Cond>,
}

// What a search with a record found, where that had room for all events, and the conditions that
// the search was given.
#[derive(Drop)]
struct Tried {
    outcome: Option<Outcome<Log>>,
    conditions: Vec<Cond>,
}

/// The first layout of the problem in its search order, where these are its conditions: the first
/// full member of the walk among its first `budget` members. A member is a prefix of values with
/// which the conditions still leave a supported state. Where there is none, the search's record
/// shows it. The conditions are given back.
pub fn search_first(
    alloc: Global,
    problem: &Problem,
    conditions: Vec<Cond>,
    budget: u64,
) -> Result<Searched<Log>, AllocError>
    requires conditions { AreConditionsOf problem.now conditions.items }
    requires few { length conditions.items ≤ 10 ^ 9 }
    ensures walk { IfOk result (λ s. Lists problem.now conditions.items budget s.outcome) }
    ensures layout { IfOk result (λ s. Finds problem.now s.outcome) }
    ensures derivation { IfOk result (λ s.
        Derives problem.now conditions.items (λ log. log.events) s.outcome) }
    ensures conditions { IfOk result (λ s. s.conditions.items ≡ conditions.items) }
{
    problem.is_said();
    in_dimensions!(
        problem.dims(),
        search_in::<>(alloc, problem, conditions, budget)
    )
}

// The same, where K is the number of dimensions.
fn search_in<const K: usize>(
    alloc: Global,
    problem: &Problem,
    conditions: Vec<Cond>,
    budget: u64,
) -> Result<Searched<Log>, AllocError>
    requires k { (0 < K) × (K ≤ MAX_DIMS) }
    requires dims { problem.now.dims ≡ K }
    requires conditions { AreConditionsOf problem.now conditions.items }
    requires few { length conditions.items ≤ 10 ^ 9 }
    ensures walk { IfOk result (λ s. Lists problem.now conditions.items budget s.outcome) }
    ensures layout { IfOk result (λ s. Finds problem.now s.outcome) }
    ensures derivation { IfOk result (λ s.
        Derives problem.now conditions.items (λ log. log.events) s.outcome) }
    ensures conditions { IfOk result (λ s. s.conditions.items ≡ conditions.items) }
{
    problem.is_said();
    first_solution::<K>(alloc, problem, conditions, budget)
}

/// The same without a record.
pub fn search_first_unrecorded(
    alloc: Global,
    problem: &Problem,
    conditions: Vec<Cond>,
    budget: u64,
) -> Result<Outcome<NoRecord>, AllocError>
    requires conditions { AreConditionsOf problem.now conditions.items }
    requires few { length conditions.items ≤ 10 ^ 9 }
    ensures walk { IfOk result (Lists problem.now conditions.items budget) }
    ensures layout { IfOk result (Finds problem.now) }
{
    problem.is_said();
    in_dimensions!(
        problem.dims(),
        unrecorded_in::<>(alloc, problem, conditions, budget)
    )
}

// The same, where K is the number of dimensions.
fn unrecorded_in<const K: usize>(
    alloc: Global,
    problem: &Problem,
    conditions: Vec<Cond>,
    budget: u64,
) -> Result<Outcome<NoRecord>, AllocError>
    requires k { (0 < K) × (K ≤ MAX_DIMS) }
    requires dims { problem.now.dims ≡ K }
    requires conditions { AreConditionsOf problem.now conditions.items }
    requires few { length conditions.items ≤ 10 ^ 9 }
    ensures walk { IfOk result (Lists problem.now conditions.items budget) }
    ensures layout { IfOk result (Finds problem.now) }
{
    problem.is_said();
    let searched = unrecorded_once::<K>(alloc, problem, conditions, budget)?;
    Ok(searched.outcome)
}

/// The first tuple of the problem's hulls in its search order on which every condition is true: the
/// first full member of the walk under these conditions, among its first `budget` members. Where
/// there is none, the search's record shows it. K is the number of dimensions. The conditions are
/// given back.
///
/// A search of few members and events is made once. A longer one is made again without a record,
/// whose size nothing bounds, and only where it ends without a solution once more with one.
pub fn first_solution<const K: usize>(
    alloc: Global,
    problem: &Problem,
    conditions: Vec<Cond>,
    budget: u64,
) -> Result<Searched<Log>, AllocError>
    requires k { (0 < K) × (K ≤ MAX_DIMS) }
    requires dims { problem.now.dims ≡ K }
    requires fits { AllFit conditions.items (first_state problem.now) }
    requires few { length conditions.items ≤ 10 ^ 9 }
    ensures walk { IfOk result (λ s. Lists problem.now conditions.items budget s.outcome) }
    ensures solution { IfOk result (λ s. FindsSolution problem.now conditions.items s.outcome) }
    ensures derivation { IfOk result (λ s.
        Derives problem.now conditions.items (λ log. log.events) s.outcome) }
    ensures conditions { IfOk result (λ s. s.conditions.items ≡ conditions.items) }
{
    let within = budget.min(RECORDED_MEMBERS);
    let Tried {
        outcome,
        conditions,
    } = recorded_within::<K>(alloc, problem, conditions, within, RECORDED_EVENTS)?;
    match outcome {
        None => searched_again::<K>(alloc, problem, conditions, budget),
        Some(outcome) => {
            if within < budget && outcome.is_out_of_budget() {
                return searched_again::<K>(alloc, problem, conditions, budget);
            }
            Ok(Searched {
                outcome,
                conditions,
            })
        }
    }
}

// The same, where only a search that ends without a solution is made with a record.
fn searched_again<const K: usize>(
    alloc: Global,
    problem: &Problem,
    conditions: Vec<Cond>,
    budget: u64,
) -> Result<Searched<Log>, AllocError>
    requires k { (0 < K) × (K ≤ MAX_DIMS) }
    requires dims { problem.now.dims ≡ K }
    requires fits { AllFit conditions.items (first_state problem.now) }
    requires few { length conditions.items ≤ 10 ^ 9 }
    ensures walk { IfOk result (λ s. Lists problem.now conditions.items budget s.outcome) }
    ensures solution { IfOk result (λ s. FindsSolution problem.now conditions.items s.outcome) }
    ensures derivation { IfOk result (λ s.
        Derives problem.now conditions.items (λ log. log.events) s.outcome) }
    ensures conditions { IfOk result (λ s. s.conditions.items ≡ conditions.items) }
{
    let Searched {
        outcome,
        conditions,
    } = unrecorded_once::<K>(alloc, problem, conditions, budget)?;
    match outcome {
        Outcome::Found(layout) => Ok(Searched {
            outcome: Outcome::Found(layout),
            conditions,
        }),
        Outcome::Nothing(_) => recorded_once::<K>(alloc, problem, conditions, budget),
        Outcome::OutOfBudget => Ok(Searched {
            outcome: Outcome::OutOfBudget,
            conditions,
        }),
    }
}

// The same by one search with a record.
fn recorded_once<const K: usize>(
    alloc: Global,
    problem: &Problem,
    conditions: Vec<Cond>,
    budget: u64,
) -> Result<Searched<Log>, AllocError>
    requires k { (0 < K) × (K ≤ MAX_DIMS) }
    requires dims { problem.now.dims ≡ K }
    requires fits { AllFit conditions.items (first_state problem.now) }
    requires few { length conditions.items ≤ 10 ^ 9 }
    ensures walk { IfOk result (λ s. Lists problem.now conditions.items budget s.outcome) }
    ensures solution { IfOk result (λ s. FindsSolution problem.now conditions.items s.outcome) }
    ensures derivation { IfOk result (λ s.
        Derives problem.now conditions.items (λ log. log.events) s.outcome) }
    ensures conditions { IfOk result (λ s. s.conditions.items ≡ conditions.items) }
{
    let Tried {
        outcome,
        conditions,
    } = recorded_within::<K>(alloc, problem, conditions, budget, usize::MAX)?;
    match outcome {
        Some(outcome) => Ok(Searched {
            outcome,
            conditions,
        }),
        None => Err(AllocError),
    }
}

// What one search with a record of at most so many events found; none where it wanted more.
fn recorded_within<const K: usize>(
    alloc: Global,
    problem: &Problem,
    conditions: Vec<Cond>,
    budget: u64,
    most: usize,
) -> Result<Tried, AllocError>
    requires k { (0 < K) × (K ≤ MAX_DIMS) }
    requires dims { problem.now.dims ≡ K }
    requires fits { AllFit conditions.items (first_state problem.now) }
    requires few { length conditions.items ≤ 10 ^ 9 }
    ensures walk { IfOk result (λ t.
        IfSome t.outcome (Lists problem.now conditions.items budget)) }
    ensures solution { IfOk result (λ t.
        IfSome t.outcome (FindsSolution problem.now conditions.items)) }
    ensures derivation { IfOk result (λ t. IfSome t.outcome
        (Derives problem.now conditions.items (λ log. log.events))) }
    ensures conditions { IfOk result (λ t. t.conditions.items ≡ conditions.items) }
{
    let record = Bounded::new(alloc, most);
    let mut search = start_search::<K, Bounded>(alloc, problem, conditions, None, budget, record)?;
    let outcome = first_answer(alloc, problem, &mut search)?;
    let Parts {
        recorder,
        propagator,
    } = search.into_parts();
    let conditions = propagator.into_conditions(alloc)?;
    Ok(Tried {
        outcome: put_record(outcome, recorder.into_log()),
        conditions,
    })
}

// The same by one search without a record.
fn unrecorded_once<const K: usize>(
    alloc: Global,
    problem: &Problem,
    conditions: Vec<Cond>,
    budget: u64,
) -> Result<Searched<NoRecord>, AllocError>
    requires k { (0 < K) × (K ≤ MAX_DIMS) }
    requires dims { problem.now.dims ≡ K }
    requires fits { AllFit conditions.items (first_state problem.now) }
    requires few { length conditions.items ≤ 10 ^ 9 }
    ensures walk { IfOk result (λ s. Lists problem.now conditions.items budget s.outcome) }
    ensures solution { IfOk result (λ s. FindsSolution problem.now conditions.items s.outcome) }
    ensures conditions { IfOk result (λ s. s.conditions.items ≡ conditions.items) }
{
    let none = NoRecord::new();
    let mut search = start_search::<K, NoRecord>(alloc, problem, conditions, None, budget, none)?;
    let Some(outcome) = first_answer(alloc, problem, &mut search)? else {
        return Err(AllocError);
    };
    let Parts {
        recorder: _,
        propagator,
    } = search.into_parts();
    let conditions = propagator.into_conditions(alloc)?;
    Ok(Searched {
        outcome,
        conditions,
    })
}

// The first answer of a search that has not set off; none where its recorder refused an event.
fn first_answer<const K: usize, R: Recorder + Drop>(
    alloc: Global,
    problem: &Problem,
    search: &mut Search<K, Fixpoint<K>, R>,
) -> Result<Option<Outcome<NoRecord>>, AllocError>
    requires k { K ≤ MAX_DIMS }
    requires dims { problem.now.dims ≡ K }
    requires walk { search.old.walk ≡ walk_of problem.now search.old.walk.conditions }
    requires fits { AllFit search.old.walk.conditions (first_state problem.now) }
    requires few { length search.old.walk.conditions ≤ 10 ^ 9 }
    requires walked { search.old.walked ≡ 0 }
    requires over { search.old.over ≡ None }
    ensures walk { IfOk result (λ o. IfSome o
        (Lists problem.now search.old.walk.conditions search.old.budget)) }
    ensures solution { IfOk result (λ o. IfSome o
        (FindsSolution problem.now search.old.walk.conditions)) }
    ensures derivation { R.keeps ≡ true → search.old.some_found ≡ false
        → search.old.began_empty ≡ true → IfOk result (λ o. IfSome o
        (Derives problem.now search.old.walk.conditions (λ _. search.new.events))) }
    ensures conditions { search.new.walk.conditions ≡ search.old.walk.conditions }
{
    problem.is_said();
    match search.next() {
        Step::Found => Ok(Some(Outcome::Found(found_layout(alloc, problem, search)?))),
        Step::Ended => Ok(Some(Outcome::Nothing(NoRecord::new()))),
        Step::Budget => Ok(Some(Outcome::OutOfBudget)),
        Step::Memory => Ok(None),
    }
}

// The same outcome with that record.
fn put_record<R: Recorder + Drop>(
    outcome: Option<Outcome<NoRecord>>,
    recorder: R,
) -> Option<Outcome<R>>
    ensures { result ≡ option_map (λ o. with_record o recorder) outcome }
{
    match outcome {
        Some(Outcome::Found(layout)) => Some(Outcome::Found(layout)),
        Some(Outcome::Nothing(_)) => Some(Outcome::Nothing(recorder)),
        Some(Outcome::OutOfBudget) => Some(Outcome::OutOfBudget),
        None => None,
    }
}
