//! What an open node replaced, and how it is put back.

ghost use Rattle.std.specs.Prelude.{◌≡◌, ◌≤◌, ◌<◌, length};
ghost use Rattle.derivation_check.specs.Fits.{HalfFits, SavedFits};
ghost use Rattle.derivation_check.specs.Machine.{saved, undo};

use derivation::{Half, Side};
use geo_base::{Interval, MAX_DIMS};
use geo_conditions::{ObjId, ShapeSet, State};

/// What an open node replaced: the places of an object, or an interval.
#[derive(Clone, Copy)]
pub enum Saved {
    Places(ObjId, ShapeSet),
    Ends(ObjId, usize, i64, i64),
}

/// What a cut of the object will replace.
pub fn saved_of<const K: usize>(s: &State<K>, o: ObjId, half: Half) -> Saved
    requires k { K ≤ MAX_DIMS }
    requires object { o.0 < length s.now }
    requires half { HalfFits K half }
    ensures { result ≡ saved half s.now o }
{
    match half {
        Half::OfPlace(_) => Saved::Places(o, s.places(o)),
        Half::OfSide(Side::Upto(d, _)) => {
            let d = d as usize;
            let now = s.interval(o, d);
            Saved::Ends(o, d, now.lo, now.hi)
        }
        Half::OfSide(Side::From(d, _)) => {
            let d = d as usize;
            let now = s.interval(o, d);
            Saved::Ends(o, d, now.lo, now.hi)
        }
    }
}

/// Puts back what an open node replaced.
pub fn put_back<const K: usize>(s: &mut State<K>, old: &Saved)
    requires k { K ≤ MAX_DIMS }
    requires fits { SavedFits (length s.old) K old.now }
    ensures { s.new ≡ undo old.now s.old }
{
    match *old {
        Saved::Places(o, places) => s.set_places(o, places),
        Saved::Ends(o, d, lo, hi) => s.set_interval(o, d, Interval { lo, hi }),
    }
}
