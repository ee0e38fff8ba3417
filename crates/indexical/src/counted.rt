//! An indexical that counts its questions, for the bound on how many a sweep asks.

ghost use Rattle.std.specs.Prelude.{◌≡◌};

use crate::forbidden::ForbiddenPart;
use crate::indexical::Indexical;
use geo_base::{KBox, Point, Steps, Way};
use geo_conditions::{ObjId, State};
use std::cell::Cell;
use std::sync::ledger::Ledger;

/// An indexical that tells how often it was asked, for tests and measurements.
#[derive(Drop)]
pub struct Counted<I> {
    inner: I,
    questions: Cell<u64>,
}

impl<I> Counted<I> {
    /// The indexical itself, not asked yet.
    pub fn new(inner: I) -> Counted<I>
        ensures { result.inner ≡ inner }
    {
        Counted {
            inner,
            questions: Cell::new(0),
        }
    }

    /// How often it was asked, by the bits of a number that starts again after its last value.
    pub fn questions(&self) -> u64 {
        self.questions.get()
    }
}

impl<const K: usize, I: Indexical<K>> Indexical<K> for Counted<I> {
    ghost cond = { λ x. I.cond x.inner };

    fn forbid<L: Ledger>(
        &self,
        s: &State<K>,
        o: ObjId,
        place: u8,
        c: &Point<K>,
        region: &KBox<K>,
        way: &Way<K>,
        steps: &mut Steps<L>,
    ) -> Option<KBox<K>> {
        self.questions.set(self.questions.get().wrapping_add(1));
        self.inner.forbid(s, o, place, c, region, way, steps)
    }

    fn is_possible_at(&self, s: &State<K>, o: ObjId, place: u8, c: &Point<K>) -> bool {
        self.questions.set(self.questions.get().wrapping_add(1));
        self.inner.is_possible_at(s, o, place, c)
    }

    fn forbidden_part(
        &self,
        s: &State<K>,
        o: ObjId,
        place: u8,
        region: &KBox<K>,
    ) -> ForbiddenPart<K> {
        self.inner.forbidden_part(s, o, place, region)
    }
}
