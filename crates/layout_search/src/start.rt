//! A search over conditions of a problem, and the layouts that it finds.

ghost use Rattle.std.specs.Prelude.{◌≡◌, ◌==◌, ◌^◌, ◌<◌, ◌≤◌, IfOk, IfSome, IsSome, None, false, length, map, slice_set, true};
ghost use Rattle.std.specs.Option.{option_copied};
ghost use Rattle.geo_base.specs.Tuple.{Tuple, spot};
ghost use Rattle.geo_conditions.specs.Conditions.{AllFit};
ghost use Rattle.problem_data.specs.Cells.{IsShaped, IsTuple, IsWideTuple};
ghost use Rattle.rule_ground.specs.Start.{first_state};
ghost use Rattle.trail_search.specs.Next.{HasFound};
ghost use Rattle.layout_search.specs.FirstLayout.{walk_after};
ghost use Rattle.layout_search.specs.Found.{HasFoundIn};

use derivation::Recorder;
use fixpoint::Fixpoint;
use geo_base::MAX_DIMS;
use geo_conditions::{Cond, Layout, MAX_OBJECTS, ObjId};
use geo_state::Propagate;
use indexical::AnyIndexical;
use problem_data::problem::Problem;
use rule_ground::order::search_order;
use rule_ground::start::start_state;
use std::alloc::{AllocError, Global};
use trail_search::Search;

/// A search for the tuples of the problem's hulls on which these conditions are true, in its search
/// order, behind the tuple `after` where one is given, among the first `budget` members of that
/// walk. K is the number of dimensions. There are no more conditions than numbers can pick.
pub fn start_search<const K: usize, R: Recorder + Drop>(
    alloc: Global,
    problem: &Problem,
    conditions: Vec<Cond>,
    after: Option<&Layout>,
    budget: u64,
    recorder: R,
) -> Result<Search<K, Fixpoint<K>, R>, AllocError>
    requires k { (0 < K) × (K ≤ MAX_DIMS) }
    requires dims { problem.now.dims ≡ K }
    requires fits { AllFit conditions.items (first_state problem.now) }
    requires few { length conditions.items ≤ 10 ^ 9 }
    requires after { IfSome (option_copied after) (IsTuple problem.now) }
    ensures walk { IfOk result (λ s.
        s.walk ≡ walk_after problem.now conditions.items (option_copied after.entry)) }
    ensures budget { IfOk result (λ s. s.budget ≡ budget) }
    ensures walked { IfOk result (λ s. s.walked ≡ 0) }
    ensures some_found { IfOk result (λ s. s.some_found ≡ false) }
    ensures over { IfOk result (λ s. s.over ≡ None) }
    ensures events { IfOk result (λ s. s.events ≡ R.list recorder) }
    ensures began_empty { IfOk result (λ s. R.keeps ≡ true
        → s.began_empty ≡ (length (R.list recorder) == 0)) }
    ensures refusals { IfOk result (λ s. s.refusals ≡ R.refusals recorder) }
{
    problem.is_said();
    let first = start_state::<K>(alloc, problem)?;
    let _objects = first.objects();
    let order = search_order(alloc, problem)?;
    let propagator = propagator_of(alloc, conditions, problem.objects().len())?;
    Search::start(alloc, first, order, after, budget, propagator, recorder)
}

// The conditions, each met by its boxes where it says that two of them are apart.
fn indexicals_of<const K: usize>(
    alloc: Global,
    conditions: Vec<Cond>,
) -> Result<Vec<AnyIndexical<K>>, AllocError>
    ensures { IfOk result (λ v. map (λ x. x.cond) v.items ≡ conditions.items) }
{
    let mut list = Vec::with_capacity(alloc, conditions.len())?;
    for c in conditions {
        list.push(AnyIndexical::from_cond(c))?;
    }
    Ok(list)
}

// A propagator of the conditions.
fn propagator_of<const K: usize>(
    alloc: Global,
    conditions: Vec<Cond>,
    objects: usize,
) -> Result<Fixpoint<K>, AllocError>
    requires k { (0 < K) × (K ≤ MAX_DIMS) }
    requires objects { objects ≤ MAX_OBJECTS }
    requires few { length conditions.items ≤ 10 ^ 9 }
    ensures conditions { IfOk result (λ p.
        ⟦<Fixpoint<K> as Propagate<K>>⟧.conditions p ≡ conditions.items) }
    ensures objects { IfOk result (λ p.
        ⟦<Fixpoint<K> as Propagate<K>>⟧.objects p ≡ objects) }
{
    let list = indexicals_of(alloc, conditions)?;
    Fixpoint::start(alloc, list, objects)
}

/// A layout with room for those of the problem: each object at its first place, with the origin at
/// zero.
pub fn room_for_layout(alloc: Global, problem: &Problem) -> Result<Layout, AllocError>
    ensures { IfOk result (IsShaped problem.now) }
{
    problem.is_said();
    Layout::with_room(alloc, problem.objects().len(), problem.dims())
}

/// Puts the layout that the search has found into one that has room for it. It takes no memory.
pub fn take_layout<const K: usize, R: Recorder + Drop>(
    problem: &Problem,
    search: &Search<K, Fixpoint<K>, R>,
    layout: &mut Layout,
)
    requires k { K ≤ MAX_DIMS }
    requires dims { problem.now.dims ≡ K }
    requires first { search.now.walk.first ≡ first_state problem.now }
    requires found { HasFoundIn problem.now search.now }
    requires room { IsShaped problem.now layout.old }
    ensures found { HasFound search.now layout.new }
    ensures tuple { IsWideTuple problem.now layout.new }
{
    problem.is_said();
    for i in 0..problem.objects().len() {
        put_spot(search, ObjId(i as u16), layout);
    }
}

// Puts one object where the search has put it.
fn put_spot<const K: usize, R: Recorder + Drop>(
    search: &Search<K, Fixpoint<K>, R>,
    o: ObjId,
    layout: &mut Layout,
)
    requires k { K ≤ MAX_DIMS }
    requires found { IsSome search.now.layout }
    requires object { o.0 < length search.now.walk.first }
    requires room { (o.0 < length layout.old) × (length (spot layout.old o.0).origin ≡ K) }
    ensures { (t : Tuple) → HasFound search.now t → length (spot t o.0).origin ≡ K
        → layout.new ≡ slice_set layout.old o.0 (spot t o.0) }
{
    layout.set_place(o, search.place(o));
    for d in 0..K {
        layout.set_value(o, d, search.value(o, d));
    }
}

/// The layout that the search has found.
pub fn found_layout<const K: usize, R: Recorder + Drop>(
    alloc: Global,
    problem: &Problem,
    search: &Search<K, Fixpoint<K>, R>,
) -> Result<Layout, AllocError>
    requires k { K ≤ MAX_DIMS }
    requires dims { problem.now.dims ≡ K }
    requires first { search.now.walk.first ≡ first_state problem.now }
    requires found { HasFoundIn problem.now search.now }
    ensures { IfOk result (λ l. HasFound search.now l × IsWideTuple problem.now l) }
{
    let mut layout = room_for_layout(alloc, problem)?;
    take_layout(problem, search, &mut layout);
    Ok(layout)
}
