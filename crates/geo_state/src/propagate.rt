//! What a propagator promises: it leaves the greatest supported state, and records why what it
//! took away had no point. The search is generic in it.

ghost use Rattle.std.specs.Prelude.{◌≡◌, ℕ, ◌≤◌, true, List, length, IfOk};
ghost use Rattle.std.specs.List.{All};
ghost use Rattle.geo_conditions.specs.declared.cond.Cond.{Cond};
ghost use Rattle.geo_conditions.specs.Conditions.{FitsIn};
ghost use Rattle.derivation.specs.Events.{Grows};
ghost use Rattle.geo_state.specs.Settle.{BlamesFirst, Records, SettlesOr};

use crate::trailed::Trailed;
use derivation::Recorder;
use geo_base::MAX_DIMS;
use std::alloc::AllocError;

/// Whether a supported state lies inside a state.
#[derive(Clone, Copy)]
pub enum Settled {
    /// One does, and the greatest one is left.
    Kept,
    /// None does.
    Dead,
}

/// Narrows a state to the greatest supported state inside it, for a list of conditions and a number
/// of objects that never change.
pub trait Propagate<const K: usize> {
    // the conditions
    ghost conditions: { Self → List Cond };

    // the number of objects
    ghost objects: { Self → ℕ };

    /// Settles the state. What the open levels restore stays as it is, and so do the events that
    /// the recorder has at the call. Behind them come the events of the settle: a chain of drops,
    /// raises and lowers that leads to the state left, or that is closed where none is left. Of the
    /// conditions that name no object the first that is refuted is blamed. The answer is want of
    /// memory only where the recorder refused an event.
    fn settle<R: Recorder>(
        &mut self,
        t: &mut Trailed<K>,
        rec: &mut R,
    ) -> Result<Settled, AllocError>
        requires k { K ≤ MAX_DIMS }
        requires objects { length t.old.state ≡ objects self.old }
        requires fits { All (λ c. FitsIn c t.old.state) (conditions self.old) }
        ensures settles { SettlesOr (conditions self.old) t.old.state result t.new.state }
        ensures levels { (t.new.levels ≡ t.old.levels) × (t.new.restores ≡ t.old.restores) }
        ensures conditions { conditions self.new ≡ conditions self.old }
        ensures count { objects self.new ≡ objects self.old }
        ensures record { IfOk result (λ a. R.keeps ≡ true
            → Records (conditions self.old) t.old.state a t.new.state
            (R.list rec.old) (R.list rec.new)) }
        ensures blame { IfOk result (λ a. R.keeps ≡ true
            → BlamesFirst (conditions self.old) t.old.state (R.list rec.old) (R.list rec.new)) }
        ensures grows { Grows R.keeps R.list R.refusals rec.old rec.new result };
}
