//! A record that has room for so many events.

ghost use Rattle.std.specs.Prelude.{◌≡◌, []};

use derivation::{Event, Log, Recorder, Renumbering};
use std::alloc::{AllocError, Global};
use std::marker::Model;

/// Keeps as many events as it has room for, and counts the refusals of others.
pub struct Bounded {
    log: Log,
    most: usize,
    refused: u64,
}

impl Drop for Bounded {
    fn drop(self) {
        let Bounded {
            log: _log,
            most: _,
            refused: _,
        } = self;
    }
}

impl Model for Bounded {
    ghost use Rattle.derivation.specs.Events.{Kept};

    ghost Value = { Kept };

    ghost view = { λ b. record { events = b.log.events; refusals = b.refused } };
}

impl Bounded {
    /// A record without events, with room for `most`. It takes no memory.
    pub fn new(alloc: Global, most: usize) -> Bounded
        ensures events { result.events ≡ [] }
        ensures refusals { result.refusals ≡ 0 }
    {
        Bounded {
            log: Log::new(alloc),
            most,
            refused: 0,
        }
    }

    /// Its events.
    pub fn into_log(self) -> Log
        ensures { result.events ≡ self.events }
    {
        let Bounded {
            log,
            most: _,
            refused: _,
        } = self;
        log
    }
}

impl Recorder for Bounded {
    ghost use Rattle.std.specs.Prelude.{true};

    ghost keeps = { true };

    ghost list = { λ b. b.events };

    ghost refusals = { λ b. b.refusals };

    fn mark(&self) -> usize {
        self.log.mark()
    }

    fn cut_back(&mut self, mark: usize) {
        self.log.cut_back(mark);
    }

    fn set(&mut self, at: usize, e: Event) {
        self.log.set(at, e);
    }

    fn renumber(&mut self, from: usize, numbers: &Renumbering) {
        self.log.renumber(from, numbers);
    }

    fn add(&mut self, e: Event) -> Result<(), AllocError> {
        if self.log.mark() < self.most && self.log.add(e).is_ok() {
            return Ok(());
        }
        self.refused = self.refused.saturating_add(1);
        Err(AllocError)
    }
}
