//! Propagation by looking at each point. It is slow and short: the propagator of the program is
//! compared with it in tests, since both have to leave the same state.

ghost use Rattle.std.specs.Prelude.{◌≡◌, ◌+◌, ◌-◌, ◌^◌, ◌≤◌, length, true, false, min, IfOk, IsOk, OnErr};
ghost use Rattle.std.specs.List.{All};
ghost use Rattle.geo_conditions.specs.Conditions.{FitsIn};
ghost use Rattle.derivation.specs.Events.{Grows};
ghost use Rattle.geo_state.specs.Settle.{BlamesFirst, SettlesOr, Records};

use crate::mending::{Outcome, pass};
use derivation::Recorder;
use geo_base::MAX_DIMS;
use geo_conditions::Cond;
use geo_state::{Propagate, Settled, Trailed};
use std::alloc::{AllocError, Global};

/// Propagation point by point: each end of each interval and each place of each object is kept only
/// where some point supports it, which is sought among all points of the region, one after another.
/// Its record names a condition for each point that is refuted. Beside the record it takes no memory
/// once it is made.
#[derive(Drop)]
pub struct PlainPropagate<const K: usize> {
    list: Vec<Cond>,
    objects: usize,
    ghost few: { length list.items ≤ 1000000000 },
}

impl<const K: usize> PlainPropagate<K> {
    /// Propagates that list of conditions on that number of objects.
    pub fn start(
        _alloc: Global,
        list: Vec<Cond>,
        objects: usize,
    ) -> Result<PlainPropagate<K>, AllocError>
        requires list { length list.items ≤ 1000000000 }
        ensures conditions { IfOk result (λ p.
            ⟦<PlainPropagate<K> as Propagate<K>>⟧.conditions p ≡ list.items) }
        ensures objects { IfOk result (λ p.
            ⟦<PlainPropagate<K> as Propagate<K>>⟧.objects p ≡ objects) }
    {
        Ok(PlainPropagate { list, objects })
    }
}

/// Passes over the objects until nothing changes.
fn settle<const K: usize, R: Recorder>(
    cs: &[Cond],
    t: &mut Trailed<K>,
    rec: &mut R,
) -> Result<Settled, AllocError>
    requires k { K ≤ MAX_DIMS }
    requires list { length cs.now ≤ 1000000000 }
    requires fits { All (λ c. FitsIn c t.old.state) cs.now }
    ensures settles { SettlesOr cs.now t.old.state result t.new.state }
    ensures levels { (t.new.levels ≡ t.old.levels) × (t.new.restores ≡ t.old.restores) }
    ensures record { IfOk result (λ a. R.keeps ≡ true
        → Records cs.now t.old.state a t.new.state (R.list rec.old) (R.list rec.new)) }
    ensures blame { IfOk result (λ a. R.keeps ≡ true
        → BlamesFirst cs.now t.old.state (R.list rec.old) (R.list rec.new)) }
    ensures grows { Grows R.keeps R.list R.refusals rec.old rec.new result }
{
    'passes: loop {
        match pass(cs, t, rec)? {
            Outcome::Dead => return Ok(Settled::Dead),
            Outcome::Changed => {}
            Outcome::Fine => return Ok(Settled::Kept),
        }
    }
}

impl<const K: usize> Propagate<K> for PlainPropagate<K> {
    ghost conditions = { λ p. p.list.items };

    ghost objects = { λ p. p.objects };

    fn settle<R: Recorder>(
        &mut self,
        t: &mut Trailed<K>,
        rec: &mut R,
    ) -> Result<Settled, AllocError> {
        settle(&self.list, t, rec)
    }
}
