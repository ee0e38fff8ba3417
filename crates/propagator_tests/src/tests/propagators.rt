//! What each propagator answers for a problem.

ghost use Rattle.std.specs.Prelude.{◌≡◌, ◌<◌, ◌≤◌, IfOk, length, map};
ghost use Rattle.geo_base.specs.declared.TheConstants.{MAX_DIMS};
ghost use Rattle.geo_conditions.specs.Conditions.{AllFit};
ghost use Rattle.problem_data.specs.WellFormed.{IsWellFormed};
ghost use Rattle.rule_expand.specs.Rules.{plain_rule_data};
ghost use Rattle.rule_ground.specs.Start.{first_state};
ghost use Rattle.propagator_tests.specs.Ready.{IsReady};

use crate::tests::answers::{Answers, BUDGET, search_on, settled};
use crate::tests::task::conditions;
use derivation::{NoRecord, Recorder};
use fixpoint::Fixpoint;
use geo_base::MAX_DIMS;
use geo_conditions::Cond;
use geo_state::{Propagate, Settled, Trailed};
use geo_tokens::fault::{FaultWord, TextFault};
use indexical::AnyIndexical;
use plain_propagate::PlainPropagate;
use problem_data::problem::Problem;
use rule_expand::plain::PlainRule;
use rule_ground::order::search_order;
use rule_ground::start::start_state;
use std::alloc::{AllocError, Global};
use trail_search::Search;

/// How many conditions a propagator takes.
const MOST_CONDITIONS: usize = 1_000_000_000;

/// A propagator that is lent to a search, which does not let it go.
#[derive(Drop)]
struct Lent<'a, P> {
    prop: &'a mut P,
}

impl<'a, const K: usize, P: Propagate<K>> Propagate<K> for Lent<'a, P> {
    ghost conditions = { λ p. P.conditions p.prop.now };

    ghost objects = { λ p. P.objects p.prop.now };

    fn settle<R: Recorder>(
        &mut self,
        t: &mut Trailed<K>,
        rec: &mut R,
    ) -> Result<Settled, AllocError> {
        self.prop.settle(t, rec)
    }
}

/// What one settle with a propagator leaves, and what a search with it finds.
fn answers_by<const K: usize, P: Propagate<K>>(
    alloc: Global,
    problem: &Problem,
    prop: &mut P,
) -> Result<Answers, TextFault>
    requires k { K ≤ MAX_DIMS }
    requires problem { IsWellFormed problem.now }
    requires dims { problem.now.dims ≡ K }
    requires objects { length (first_state problem.now) ≡ P.objects prop.old }
    requires fits { AllFit (P.conditions prop.old) (first_state problem.now) }
{
    let objects = problem.objects().len();
    let state = settled::<K, P>(alloc, problem, prop)?;
    let first = start_state::<K>(alloc, problem)?;
    let order = search_order(alloc, problem)?;
    let record = NoRecord::new();
    let lent = Lent { prop };
    let mut search = Search::start(alloc, first, order, None, BUDGET, lent, record)?;
    Ok(search_on(alloc, &mut search, objects, state)?)
}

/// What the plain propagator answers.
pub fn plain_answers<const K: usize>(
    alloc: Global,
    problem: &Problem,
    rules: &[PlainRule],
) -> Result<Answers, TextFault>
    requires k { K ≤ MAX_DIMS }
    requires dims { problem.now.dims ≡ K }
    requires ready { IsReady problem.now (map plain_rule_data rules.now) }
{
    let list = conditions(alloc, problem, rules)?;
    if list.len() > MOST_CONDITIONS {
        return Err(TextFault::At(0, FaultWord::Ground));
    }
    let mut plain = PlainPropagate::start(alloc, list, problem.objects().len())?;
    answers_by::<K, PlainPropagate<K>>(alloc, problem, &mut plain)
}

/// The indexicals of those conditions.
fn indexicals_of<const K: usize>(
    alloc: Global,
    conditions: Vec<Cond>,
) -> Result<Vec<AnyIndexical<K>>, AllocError>
    ensures { IfOk result (λ v. map (λ x. x.cond) v.items ≡ conditions.items) }
{
    let mut list = Vec::new(alloc);
    for c in conditions {
        list.push(AnyIndexical::from_cond(c))?;
    }
    Ok(list)
}

/// The conditions of a problem, as the queue takes them.
fn indexicals<const K: usize>(
    alloc: Global,
    problem: &Problem,
    rules: &[PlainRule],
) -> Result<Vec<AnyIndexical<K>>, TextFault>
    requires ready { IsReady problem.now (map plain_rule_data rules.now) }
    ensures fit { IfOk result (λ v. AllFit (map (λ x. x.cond) v.items) (first_state problem.now)) }
    ensures few { IfOk result (λ v. length v.items ≤ 1000000000) }
{
    let conditions = conditions(alloc, problem, rules)?;
    let list = indexicals_of(alloc, conditions)?;
    if list.len() > MOST_CONDITIONS {
        return Err(TextFault::At(0, FaultWord::Ground));
    }
    Ok(list)
}

/// What the queue answers.
pub fn queued_answers<const K: usize>(
    alloc: Global,
    problem: &Problem,
    rules: &[PlainRule],
) -> Result<Answers, TextFault>
    requires k { (0 < K) × (K ≤ MAX_DIMS) }
    requires dims { problem.now.dims ≡ K }
    requires ready { IsReady problem.now (map plain_rule_data rules.now) }
{
    let list = indexicals::<K>(alloc, problem, rules)?;
    let mut queue = Fixpoint::start(alloc, list, problem.objects().len())?;
    answers_by::<K, Fixpoint<K>>(alloc, problem, &mut queue)
}
