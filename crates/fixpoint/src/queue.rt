//! The queue of objects: a row of marks, one for each object, that is gone through in turn.

ghost use Rattle.std.specs.Prelude.{◌≡◌, ◌≤◌, length, MatchOption};
ghost use Rattle.fixpoint.specs.Queue.{IsPopped, NoneQueued};

/// Takes an object out of the queue: the first one from `from` on, and around.
pub fn pop(queued: &mut [bool], from: usize) -> Option<usize>
    requires from { from ≤ length queued.old }
    ensures { MatchOption result (NoneQueued queued.old × (queued.new ≡ queued.old))
        (IsPopped queued.old queued.new) }
{
    'ahead: for o in from..queued.len() {
        if queued[o] {
            queued[o] = false;
            return Some(o);
        }
    }
    'around: for o in 0..from {
        if queued[o] {
            queued[o] = false;
            return Some(o);
        }
    }
    None
}
