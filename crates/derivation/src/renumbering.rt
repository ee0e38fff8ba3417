//! Numbers of conditions that stand for others.

ghost use Rattle.std.specs.Prelude.{◌≡◌, map};
ghost use Rattle.derivation.specs.Renumbered.{number_for, renumbered};

use crate::event::Event;

/// Numbers of conditions that stand for others: up to a number each stands for itself, and each one behind it for one of a list.
pub struct Renumbering {
    /// The last number that stands for itself.
    pub same: u32,
    /// What the numbers behind it stand for.
    pub others: Vec<u32>,
}

impl Drop for Renumbering {
    fn drop(self) {
        let Renumbering {
            same: _,
            others: _others,
        } = self;
    }
}

impl Renumbering {
    /// What the number stands for; itself, where the list has no number for it.
    pub fn number(&self, i: u32) -> u32
        ensures { result ≡ number_for self.now i }
    {
        if i <= self.same {
            return i;
        }
        let behind = (i - self.same - 1) as usize;
        match self.others.get(behind) {
            Some(number) => *number,
            None => i,
        }
    }

    /// The event with what its number stands for, where it names a condition.
    pub fn event(&self, e: Event) -> Event
        ensures { result ≡ renumbered self.now e }
    {
        match e {
            Event::By(i) => Event::By(self.number(i)),
            Event::Dead(i) => Event::Dead(self.number(i)),
            _ => e,
        }
    }

    /// The same for each event of a list.
    pub fn events(&self, events: &mut [Event])
        ensures { events.new ≡ map (renumbered self.now) events.old }
    {
        for e in events.iter_mut() {
            *e = self.event(*e);
        }
    }
}
