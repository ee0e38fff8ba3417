//! The search: a walk over the prefixes of values in the stated order, as far as a supported state
//! is left. Its members are counted, and the count alone ends it early, so that its answers do not
//! depend on the machine.

ghost use Rattle.std.specs.Prelude.{◌≡◌, ◌≢◌, ◌==◌, ◌||◌, ℤ, ◌≤◌, ◌<◌, true, false, None, Some, IfOk, IfSome, IsSome, length};
ghost use Rattle.std.specs.List.{All};
ghost use Rattle.std.specs.Option.{option_copied, option_map};
ghost use Rattle.derivation.specs.Events.{Continues};
ghost use Rattle.geo_base.specs.Boxes.{coordinate};
ghost use Rattle.geo_conditions.specs.Conditions.{AllFit};
ghost use Rattle.geo_conditions.specs.Reach.{Tuple, TupleIn, spot};
ghost use Rattle.geo_conditions.specs.Walk.{NamesEach, variables_in, values};
ghost use Rattle.geo_state.specs.Trail.{HasSmallIntervals};
ghost use Rattle.trail_search.specs.Next.{Steps, HasRecorded, HasFound, is_found};

use crate::start::start_walker;
use crate::step::Step;
use crate::walk::go_on;
use crate::walker::Walker;
use derivation::Recorder;
use geo_base::MAX_DIMS;
use geo_conditions::{Layout, ObjId, SearchOrder, State};
use geo_state::Propagate;
use std::alloc::{AllocError, Global};
use std::marker::Model;

/// A search for the layouts, in order. It walks over the prefixes of values for which a supported
/// state is left, counts each once, and stops where the next one would exceed its budget. Its
/// memory is taken at the start.
pub struct Search<const K: usize, P: Propagate<K>, R: Recorder> {
    prop: P,
    rec: R,
    walker: Walker<K>,
    budget: u64,
    found: bool,
    some_found: bool,
    began_empty: bool,
    over: Option<Step>,
}

/// What a search is taken apart into: its recorder, and its propagator with the conditions.
pub struct Parts<P, R> {
    pub recorder: R,
    pub propagator: P,
}

/// Written out, since a derived one is made and proved anew, field by field, at each end of a function that drops a search.
impl<const K: usize, P: Propagate<K> + Drop, R: Recorder + Drop> Drop for Search<K, P, R> {
    fn drop(self) {
        let Search {
            prop: _prop,
            rec: _rec,
            walker: _walker,
            budget: _,
            found: _,
            some_found: _,
            began_empty: _,
            over: _,
        } = self;
    }
}

impl<const K: usize, P: Propagate<K>, R: Recorder> Model for Search<K, P, R> {
    ghost use Rattle.trail_search.specs.Next.{SearchView, layout_when, IsSound};
    ghost use Rattle.trail_search.specs.Record.{open_levels};
    ghost use Rattle.trail_search.specs.Walker.{tree_of};
    ghost use Rattle.geo_conditions.specs.contracts.cond.Cond as e;
    ghost use Rattle.std.specs.Coded.{codes};

    ghost Value = { SearchView };

    ghost coded = { Prim.hlevel (codes, e.the_row.coded) };

    ghost view = { λ s. record {
      walk = tree_of (P.conditions s.prop) s.walker;
      budget = s.budget;
      walked = s.walker.walked;
      layout = layout_when s.found s.walker.values;
      some_found = s.some_found;
      over = s.over;
      began_empty = s.began_empty;
      events = R.list s.rec;
      refusals = R.refusals s.rec;
      state = s.walker.trail.state;
      levels = open_levels s.walker;
    } };

    ghost invariant = { λ s. IsSound K R.keeps (P.conditions s.prop) (P.objects s.prop)
        s.budget s.walker s.found s.over s.some_found s.began_empty (R.list s.rec) };
}

impl<const K: usize, P: Propagate<K> + Drop, R: Recorder + Drop> Search<K, P, R> {
    /// A search that begins in the state `first`, and after the tuple `after` where one is given,
    /// which lies inside that state. The ends of that state lie in -2,000,000 to 2,000,000, and the
    /// order names each of its objects once.
    pub fn start(
        alloc: Global,
        first: State<K>,
        order: SearchOrder,
        after: Option<&Layout>,
        budget: u64,
        prop: P,
        rec: R,
    ) -> Result<Search<K, P, R>, AllocError>
        requires k { K ≤ MAX_DIMS }
        requires small { HasSmallIntervals first }
        requires order { NamesEach K first order }
        requires token { IfSome (option_copied after) (λ t. TupleIn t first) }
        requires objects { length first ≡ P.objects prop }
        requires fits { AllFit (P.conditions prop) first }
        ensures walk { IfOk result (λ s. s.walk ≡ record {
          conditions = P.conditions prop;
          first = first.entry;
          variables = variables_in order;
          after = option_map (values (variables_in order)) (option_copied after.entry);
        }) }
        ensures budget { IfOk result (λ s. s.budget ≡ budget) }
        ensures walked { IfOk result (λ s. s.walked ≡ 0) }
        ensures layout { IfOk result (λ s. s.layout ≡ None) }
        ensures some_found { IfOk result (λ s. s.some_found ≡ false) }
        ensures over { IfOk result (λ s. s.over ≡ None) }
        ensures events { IfOk result (λ s. s.events ≡ R.list rec) }
        ensures began_empty { IfOk result (λ s. R.keeps ≡ true
            → s.began_empty ≡ (length (R.list rec) == 0)) }
        ensures refusals { IfOk result (λ s. s.refusals ≡ R.refusals rec) }
    {
        match start_walker(alloc, first, &order, after) {
            Err(e) => Err(e),
            Ok(mut walker) => {
                walker.begin();
                let began_empty = rec.mark() == 0;
                Ok(Search {
                    prop,
                    rec,
                    walker,
                    budget,
                    found: false,
                    some_found: false,
                    began_empty,
                    over: None,
                })
            }
        }
    }
}

impl<const K: usize, P: Propagate<K>, R: Recorder> Search<K, P, R> {
    /// Goes on to the next layout. With a recorder that keeps no list it never wants memory. Where
    /// there is no token, no layout was found before and the recorder's list was empty at the start,
    /// the events in it name the splits and settles so far: with a derivation of the state in which
    /// the search stands behind them, they close its open levels; and where the walk is used up,
    /// they are one derivation, which is valid on the first state. Behind a layout that was found
    /// the walk goes on without closing it.
    pub fn next(&mut self) -> Step
        requires k { K ≤ MAX_DIMS }
        ensures steps { Steps self.old result self.new }
        ensures found { result ≡ Step.Found → IsSome self.new.layout }
        ensures some_found { self.new.some_found ≡ self.old.some_found || is_found result }
        ensures began_empty { self.new.began_empty ≡ self.old.began_empty }
        ensures events { R.keeps ≡ true → Continues self.old.events self.new.events }
        ensures refusals { self.old.refusals ≤ self.new.refusals }
        ensures no_record { R.keeps ≡ false → result ≢ Step.Memory }
        ensures recorded { R.keeps ≡ true → self.old.some_found ≡ false
            → self.old.began_empty ≡ true → self.old.walk.after ≡ None
            → HasRecorded result self.new }
    {
        if let Some(step) = self.over {
            return step;
        }
        let found = self.found;
        self.found = false;
        match go_on(
            &mut self.prop,
            &mut self.rec,
            &mut self.walker,
            self.budget,
            found,
        ) {
            Step::Found => {
                self.found = true;
                self.some_found = true;
                Step::Found
            }
            Step::Ended => {
                self.over = Some(Step::Ended);
                Step::Ended
            }
            Step::Budget => {
                self.over = Some(Step::Budget);
                Step::Budget
            }
            Step::Memory => {
                self.over = Some(Step::Memory);
                Step::Memory
            }
        }
    }

    /// The place of the object in the layout that was found.
    pub fn place(&self, o: ObjId) -> u8
        requires k { K ≤ MAX_DIMS }
        requires found { IsSome self.now.layout }
        requires object { o.0 < length self.now.walk.first }
        ensures { (t : Tuple) → HasFound self.now t → result ≡ (spot t o.0).place }
    {
        self.walker.place(o)
    }

    /// The coordinate of the object in the layout that was found.
    pub fn value(&self, o: ObjId, d: usize) -> i64
        requires k { K ≤ MAX_DIMS }
        requires found { IsSome self.now.layout }
        requires object { o.0 < length self.now.walk.first }
        requires dimension { d < K }
        ensures { (t : Tuple) → HasFound self.now t
            → result ≡ coordinate (spot t o.0).origin d }
    {
        self.walker.coordinate(o, d)
    }
}

impl<const K: usize, P: Propagate<K> + Drop, R: Recorder> Search<K, P, R> {
    /// The recorder and the propagator, at the end.
    pub fn into_parts(self) -> Parts<P, R>
        ensures events { R.list result.recorder ≡ self.events }
        ensures refusals { R.refusals result.recorder ≡ self.refusals }
        ensures conditions { P.conditions result.propagator ≡ self.walk.conditions }
    {
        let Search {
            prop: propagator,
            rec: recorder,
            walker: _walker,
            budget: _,
            found: _,
            some_found: _,
            began_empty: _,
            over: _,
        } = self;
        Parts {
            recorder,
            propagator,
        }
    }
}
