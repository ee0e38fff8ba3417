//! Propagation of conditions that are taken apart first.

ghost use Rattle.std.specs.Prelude.{◌≡◌, ◌<◌, ◌≤◌, length, map, IfOk};
ghost use Rattle.geo_base.specs.declared.TheConstants.{MAX_DIMS};
ghost use Rattle.condition_parts.specs.Apart.{IsTakenApart, wholes_of};

use crate::propagation::QueueFixpoint;
use condition_parts::{TakenApart, put_together, take_apart};
use derivation::{Recorder, Renumbering};
use geo_base::MAX_DIMS;
use geo_conditions::{Cond, MAX_OBJECTS};
use geo_state::{Propagate, Settled, Trailed};
use indexical::AnyIndexical;
use std::alloc::{AllocError, Global};

/// Propagation by a queue of objects, each pruned by sweeps for its places and for the ends of its
/// intervals. Conditions that ask for several things at once are taken apart first; the record
/// names them by their own numbers. All memory but that of the record is taken at the start.
pub struct Fixpoint<const K: usize> {
    parts: QueueFixpoint<K>,
    wholes: Vec<Option<Cond>>,
    numbers: Renumbering,
    ghost apart: { ∥ IsTakenApart (wholes_of wholes.items (map (λ x. x.cond) parts.list.items))
        (map (λ x. x.cond) parts.list.items) numbers ∥₁ },
}

/// Written out, since a derived one, with those of all parts, is made and proved anew in each crate
/// that drops one.
impl<const K: usize> Drop for Fixpoint<K> {
    fn drop(self) {
        let Fixpoint {
            parts: _parts,
            wholes: _wholes,
            numbers: _numbers,
        } = self;
    }
}

impl<const K: usize> Fixpoint<K> {
    /// Propagates that list of conditions on that number of objects.
    pub fn start(
        alloc: Global,
        list: Vec<AnyIndexical<K>>,
        objects: usize,
    ) -> Result<Fixpoint<K>, AllocError>
        requires k { (0 < K) × (K ≤ MAX_DIMS) }
        requires list { length list.items ≤ 1000000000 }
        requires objects { objects ≤ MAX_OBJECTS }
        ensures conditions { IfOk result (λ p.
            ⟦<Fixpoint<K> as Propagate<K>>⟧.conditions p ≡ map (λ x. x.cond) list.entry.items) }
        ensures objects { IfOk result (λ p.
            ⟦<Fixpoint<K> as Propagate<K>>⟧.objects p ≡ objects) }
    {
        let TakenApart {
            list,
            wholes,
            numbers,
        } = take_apart(alloc, list)?;
        let parts = QueueFixpoint::start(alloc, list, objects)?;
        Ok(Fixpoint {
            parts,
            wholes,
            numbers,
        })
    }

    /// The conditions, at the end.
    pub fn into_conditions(self, alloc: Global) -> Result<Vec<Cond>, AllocError>
        ensures { IfOk result (λ v. v.items
            ≡ ⟦<Fixpoint<K> as Propagate<K>>⟧.conditions self.entry) }
    {
        let Fixpoint {
            parts,
            wholes,
            numbers: _numbers,
        } = self;
        put_together(alloc, parts.into_list(), wholes)
    }
}

impl<const K: usize> Propagate<K> for Fixpoint<K> {
    ghost conditions = { λ p. wholes_of p.wholes.items (map (λ x. x.cond) p.parts.list.items) };

    ghost objects = { λ p. length p.parts.queued.items };

    fn settle<R: Recorder>(
        &mut self,
        t: &mut Trailed<K>,
        rec: &mut R,
    ) -> Result<Settled, AllocError> {
        let before = rec.mark();
        let settled = self.parts.settle(t, rec);
        rec.renumber(before, &self.numbers);
        settled
    }
}
