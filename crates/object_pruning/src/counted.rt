//! Tasks that count their questions, and a ledger for each.

ghost use Rattle.std.specs.Prelude.{◌≡◌, ◌<◌};

use geo_base::Steps;
use std::marker::Brand;
use std::sync::ledger::{Blank, Ledger};

/// A task that counts its questions, and that writes to an `M`.
pub trait Counted<M, A> {
    // what it needs
    ghost ready: { Self → Type 0 };

    // what it writes, and what it answers
    ghost right: { Self → M → M → A → Type 0 };

    /// Does the task.
    fn answer<L: Ledger>(&self, to: &mut M, steps: &mut Steps<L>) -> A
        requires { ready self.now }
        ensures { right self.now to.old to.new result };
}

// Does the task with that ledger.
fn answer_with<T: Counted<M, A>, M, A, L: Ledger>(blank: Blank, task: &T, to: &mut M) -> A
    requires name { blank.name ≡ L.name }
    requires parts { blank.parts ≡ L.parts }
    requires some { 0 < blank.parts }
    requires ready { T.ready task.now }
    ensures { T.right task.now to.old to.new result }
{
    let mut steps = Steps::<L>::new(blank);
    task.answer(to, &mut steps)
}

/// Does the task with a ledger of its own. It takes no time beside the task's.
pub fn answer<T: Counted<M, A>, M, A>(task: &T, to: &mut M) -> A
    requires ready { T.ready task.now }
    ensures { T.right task.now to.old to.new result }
{
    answer_with::<T, M, A, Brand>(Blank::new(1), task, to)
}
