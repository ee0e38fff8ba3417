//! What takes a derivation down while a search goes on. A search is generic in its recorder, so
//! the one that keeps nothing costs it nothing.

ghost use Rattle.std.specs.Prelude.{◌≡◌, ℕ, ◌+◌, ◌-◌, ◌^◌, min, ◌<◌, ◌≤◌, Bool, true, false, IsOk, List, [], ◌∷◌, ◌++◌, length, map, take, drop, slice_set, OnOk, OnErr};
ghost use Rattle.derivation.specs.Renumbered.{renumbered};

use crate::event::Event;
use crate::renumbering::Renumbering;
use std::alloc::AllocError;

/// Takes down events, or lets them go. A count tells how often it refused an event for want of
/// memory; it never falls, and stays at its last value, 2^64 - 1, once it is there.
pub trait Recorder {
    ghost use Rattle.derivation.specs.declared.event.Event.{Event};

    // whether the events are kept
    ghost keeps: { Bool };

    // the events, where they are kept
    ghost list: { Self → List Event };

    // how often an event was refused
    ghost refusals: { Self → ℕ };

    /// How many events are kept.
    fn mark(&self) -> usize
        ensures kept { keeps ≡ true → result ≡ length (list self.now) }
        ensures none { keeps ≡ false → result ≡ 0 };

    /// Keeps the first `mark` events.
    fn cut_back(&mut self, mark: usize)
        requires { keeps ≡ true → mark ≤ length (list self.old) }
        ensures list { keeps ≡ true → list self.new ≡ take mark (list self.old) }
        ensures refusals { refusals self.new ≡ refusals self.old };

    /// Puts another event in the place of the one at the index `at`.
    fn set(&mut self, at: usize, e: Event)
        requires { keeps ≡ true → at < length (list self.old) }
        ensures list { keeps ≡ true → list self.new ≡ slice_set (list self.old) at e }
        ensures refusals { refusals self.new ≡ refusals self.old };

    /// Puts other numbers of conditions into the events from the index `from` on.
    fn renumber(&mut self, from: usize, numbers: &Renumbering)
        requires { keeps ≡ true → from ≤ length (list self.old) }
        ensures list { keeps ≡ true → list self.new ≡ take from (list self.old)
            ++ map (renumbered numbers.now) (drop from (list self.old)) }
        ensures refusals { refusals self.new ≡ refusals self.old };

    /// Appends an event. A refusal leaves the events as they were, and where none are kept there is
    /// no refusal.
    fn add(&mut self, e: Event) -> Result<(), AllocError>
        ensures ok { OnOk result (keeps ≡ true → list self.new ≡ list self.old ++ e ∷ []) }
        ensures err { OnErr result (keeps ≡ true → list self.new ≡ list self.old) }
        ensures refused { OnErr result
            (min (refusals self.old + 1) (2 ^ 64 - 1) ≤ refusals self.new) }
        ensures refusals { refusals self.old ≤ refusals self.new }
        ensures no_record { keeps ≡ false → IsOk result };
}

/// Keeps nothing, and refuses nothing.
#[derive(Clone, Copy)]
pub struct NoRecord;

impl NoRecord {
    /// A recorder that keeps nothing.
    pub fn new() -> NoRecord
        ensures keeps { ⟦<NoRecord as Recorder>⟧.keeps ≡ false }
        ensures list { ⟦<NoRecord as Recorder>⟧.list result ≡ [] }
        ensures refusals { ⟦<NoRecord as Recorder>⟧.refusals result ≡ 0 }
    {
        NoRecord
    }
}

impl Recorder for NoRecord {
    ghost use Rattle.std.specs.Prelude.{false, []};

    ghost keeps = { false };

    ghost list = { λ _. [] };

    ghost refusals = { λ _. 0 };

    fn mark(&self) -> usize {
        0
    }

    fn cut_back(&mut self, _mark: usize) {}

    fn set(&mut self, _at: usize, _e: Event) {}

    fn renumber(&mut self, _from: usize, _numbers: &Renumbering) {}

    fn add(&mut self, _e: Event) -> Result<(), AllocError> {
        Ok(())
    }
}
