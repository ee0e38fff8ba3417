//! The check of a derivation whose events are given one by one.

ghost use Rattle.std.specs.Prelude.{◌≡◌, ◌+◌, ◌-◌, ◌^◌, ◌<◌, ◌≤◌, List, [], ◌∷◌, ◌++◌, length, IfOk, OnOk, OnErr};
ghost use Rattle.std.specs.List.{All};
ghost use Rattle.geo_conditions.specs.Reach.{Reach, Tuple};
ghost use Rattle.geo_conditions.specs.Conditions.{AllFit};
ghost use Rattle.derivation.specs.declared.event.Event.{Event};
ghost use Rattle.derivation.specs.Nodes.{Node, node_events};
ghost use Rattle.derivation_check.specs.declared.progress.Checked.TheVariants as verdicts;
ghost use Rattle.derivation.specs.Fits.{EventFits};
ghost use Rattle.derivation_check.specs.Judges.{Judges};
ghost use Rattle.derivation_check.specs.Machine.{HasTaken, step};
ghost use Rattle.derivation_check.specs.Sound.{Solves};

use crate::progress::{Checked, Progress};
use derivation::{Event, Log};
use geo_base::MAX_DIMS;
use geo_conditions::{Cond, State};
use std::alloc::{AllocError, Global};
use std::marker::Model;

/// A check of a derivation. It holds the conditions, the state at the open node, and for each node that is open what it replaced.
pub struct Checker<'a, const K: usize> {
    conds: &'a [Cond],
    progress: Progress<K>,
}

impl<const K: usize> Drop for Checker<'_, K> {
    fn drop(self) {
        let Checker {
            conds: _,
            progress: _progress,
        } = self;
    }
}

impl<'a, const K: usize> Model for Checker<'a, K> {
    ghost use Rattle.std.specs.Coded.{codes};
    ghost use Rattle.geo_conditions.specs.contracts.cond.Cond as e;
    ghost use Rattle.geo_conditions.specs.Conditions.{AllFit};
    ghost use Rattle.derivation_check.specs.Checking.{Checking};

    ghost Value = { Checking };

    ghost coded = { Prim.hlevel (codes, e.the_row.coded) };

    ghost view = { λ c. record { conds = c.conds.now; machine = c.progress } };

    ghost invariant = { λ c. AllFit c.conds.now c.progress.state };
}

impl<'a, const K: usize> Checker<'a, K> {
    /// Begins a check on the first state. It takes no memory.
    pub fn start(alloc: Global, conds: &'a [Cond], first: State<K>) -> Checker<'a, K>
        requires fits { AllFit conds.now first }
        ensures conds { result.conds ≡ conds.now }
        ensures taken { HasTaken conds.now first.entry [] result.machine }
        ensures state { result.machine.state ≡ first.entry }
        ensures nodes { result.machine.nodes ≡ 0 }
    {
        Checker {
            conds,
            progress: Progress::start(alloc, first),
        }
    }

    /// Takes one event more. Where memory runs out, nothing has changed.
    pub fn give(&mut self, e: Event) -> Result<(), AllocError>
        requires k { K ≤ MAX_DIMS }
        requires event { EventFits (length self.old.machine.state) K e }
        requires count { self.old.machine.nodes < 2 ^ 64 - 1 }
        ensures taken { OnOk result ((first : List Reach) (es : List Event)
            → HasTaken self.old.conds first es self.old.machine
            → HasTaken self.old.conds first (es ++ e ∷ []) self.new.machine) }
        ensures err { OnErr result (self.new ≡ self.old) }
        ensures conds { self.new.conds ≡ self.old.conds }
        ensures objects { length self.new.machine.state ≡ length self.old.machine.state }
        ensures nodes { self.new.machine.nodes ≤ self.old.machine.nodes + 1 }
    {
        self.progress.give(self.conds, e)
    }

    /// The answer, where the events that were given are those of one whole derivation.
    pub fn verdict(&self) -> Checked
        ensures judges { (first : List Reach) (root : Node)
            → HasTaken self.now.conds first (node_events root) self.now.machine
            → Judges self.now.conds first root result }
        ensures sound { result ≡ verdicts.Yes → (first : List Reach) (root : Node)
            → HasTaken self.now.conds first (node_events root) self.now.machine
            → All (EventFits (length first) K) (node_events root)
            → (t : Tuple) → Solves self.now.conds first t → ⊥ }
    {
        self.progress.verdict()
    }
}

/// Checks a whole derivation on the first state. A valid one shows that no tuple inside the state makes every condition true.
pub fn check<const K: usize>(
    alloc: Global,
    conds: &[Cond],
    first: &State<K>,
    log: &Log,
) -> Result<Checked, AllocError>
    requires k { K ≤ MAX_DIMS }
    requires fits { AllFit conds.now first.now }
    requires events { All (EventFits (length first.now) K) log.now.events }
    requires few { length log.now.events < 2 ^ 64 - 1 }
    ensures judges { IfOk result (λ answer. (root : Node) → node_events root ≡ log.now.events
        → Judges conds.now first.now root answer) }
    ensures sound { IfOk result (λ answer. answer ≡ verdicts.Yes → (root : Node)
        → node_events root ≡ log.now.events → (t : Tuple) → Solves conds.now first.now t → ⊥) }
{
    let mut checker = Checker::start(alloc, conds, first.copy()?);
    for e in log.events() {
        checker.give(*e)?;
    }
    Ok(checker.verdict())
}
