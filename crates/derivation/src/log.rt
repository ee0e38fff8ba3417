//! The recorder that keeps its events in one list.

ghost use Rattle.std.specs.Prelude.{◌≡◌, []};

use crate::event::Event;
use crate::recorder::Recorder;
use crate::renumbering::Renumbering;
use std::alloc::{AllocError, Global};
use std::marker::Model;

/// Keeps the events, and counts the refusals.
pub struct Log {
    events: Vec<Event>,
    refused: u64,
}

/// Written out, since a derived one is made and proved anew wherever a record is dropped.
impl Drop for Log {
    fn drop(self) {
        let Log {
            events: _events,
            refused: _,
        } = self;
    }
}

impl Model for Log {
    ghost use Rattle.derivation.specs.Events.{Kept};

    ghost Value = { Kept };

    ghost view = { λ l. record { events = l.events.items; refusals = l.refused } };
}

impl Log {
    /// A record without events. It takes no memory.
    pub fn new(alloc: Global) -> Log
        ensures events { result.events ≡ [] }
        ensures refusals { result.refusals ≡ 0 }
    {
        Log {
            events: Vec::new(alloc),
            refused: 0,
        }
    }

    /// The events in text order.
    pub fn events(&self) -> &[Event]
        ensures { result.now ≡ self.now.events }
    {
        self.events.as_slice()
    }
}

impl Recorder for Log {
    ghost use Rattle.std.specs.Prelude.{true};

    ghost keeps = { true };

    ghost list = { λ l. l.events };

    ghost refusals = { λ l. l.refusals };

    fn mark(&self) -> usize {
        self.events.len()
    }

    fn cut_back(&mut self, mark: usize) {
        self.events.truncate(mark);
    }

    fn set(&mut self, at: usize, e: Event) {
        self.events[at] = e;
    }

    fn renumber(&mut self, from: usize, numbers: &Renumbering) {
        numbers.events(&mut self.events[from..]);
    }

    fn add(&mut self, e: Event) -> Result<(), AllocError> {
        match self.events.push(e) {
            Ok(()) => Ok(()),
            Err(error) => {
                self.refused = self.refused.saturating_add(1);
                Err(error.into())
            }
        }
    }
}
