//! Which of many parts of a condition spared an object last.

ghost use Rattle.std.specs.Prelude.{◌<◌, ◌≤◌, pos, IsTrue, ◌≤ℤ◌};
ghost use Rattle.geo_conditions.specs.Conditions.{FitsIn};
ghost use Rattle.indexical.specs.Free.{SparesAnywhere};

use crate::spared::{MANY_PARTS, is_named, tree_spares_anywhere};
use geo_base::MAX_DIMS;
use geo_conditions::{Cond, Conds, ObjId, State};

/// What is watched of a condition: where one of many parts is enough, the places of two that spared an object last, and an object
/// that the condition can never spare. It promises nothing: a part that is watched is asked before it is trusted.
#[derive(Clone, Copy)]
pub struct Watched {
    first: usize,
    second: usize,
    unspared: Option<ObjId>,
}

impl Watched {
    /// The first part, and no object.
    pub fn new() -> Watched {
        Watched {
            first: 0,
            second: 0,
            unspared: None,
        }
    }

    // Whether the condition can never spare the object, as far as that was noticed.
    fn is_unspared(&self, o: ObjId) -> bool {
        match self.unspared {
            Some(u) => u.0 == o.0,
            None => false,
        }
    }

    // Watches that part, and no longer the one that was found before the last.
    fn put(&mut self, i: usize) {
        self.second = self.first;
        self.first = i;
    }
}

// Whether there is a part at that place, and it spares the object.
fn part_spares<const K: usize>(n: i64, children: &Conds, i: usize, s: &State<K>, o: ObjId) -> bool
    requires k { K ≤ MAX_DIMS }
    requires fits { FitsIn (Cond.AtLeast n children.now) s.now }
    requires one { n ≤ℤ pos 1 }
    ensures { IsTrue result → SparesAnywhere (Cond.AtLeast n children.now) s.now o.0 }
{
    let parts = children.as_slice();
    i < parts.len() && tree_spares_anywhere(&parts[i], s, o)
}

/// Whether so many literals leave the object out that the condition may spare it on some state.
pub fn may_spare(c: &Cond, o: ObjId) -> bool {
    match c {
        Cond::AtLeast(n, children) => {
            let least = i128::from(*n);
            let mut sparing: usize = 0;
            for child in children.as_slice() {
                if may_spare(child, o) {
                    sparing += 1;
                    if least <= sparing as i128 {
                        return true;
                    }
                }
            }
            least <= sparing as i128
        }
        _ => !is_named(c, o),
    }
}

// Whether one of the parts spares the object. The first one that does is watched from now on.
fn any_part_spares<const K: usize>(
    n: i64,
    children: &Conds,
    s: &State<K>,
    o: ObjId,
    watched: &mut Watched,
) -> bool
    requires k { K ≤ MAX_DIMS }
    requires fits { FitsIn (Cond.AtLeast n children.now) s.now }
    requires one { n ≤ℤ pos 1 }
    ensures { IsTrue result → SparesAnywhere (Cond.AtLeast n children.now) s.now o.0 }
{
    for i in 0..children.len() {
        if part_spares(n, children, i, s, o) {
            watched.put(i);
            return true;
        }
    }
    false
}

// The same. The parts that are watched are asked before the others.
fn one_of_many_spares<const K: usize>(
    n: i64,
    children: &Conds,
    s: &State<K>,
    o: ObjId,
    watched: &mut Watched,
) -> bool
    requires k { K ≤ MAX_DIMS }
    requires fits { FitsIn (Cond.AtLeast n children.now) s.now }
    requires one { n ≤ℤ pos 1 }
    ensures { IsTrue result → SparesAnywhere (Cond.AtLeast n children.now) s.now o.0 }
{
    if part_spares(n, children, watched.first, s, o) {
        return true;
    }
    if part_spares(n, children, watched.second, s, o) {
        return true;
    }
    any_part_spares(n, children, s, o, watched)
}

// Whether enough parts of the condition spare the object. Where one of many is enough, those that are watched are asked first.
fn parts_spare<const K: usize>(c: &Cond, s: &State<K>, o: ObjId, watched: &mut Watched) -> bool
    requires k { K ≤ MAX_DIMS }
    requires fits { FitsIn c.now s.now }
    ensures { IsTrue result → SparesAnywhere c.now s.now o.0 }
{
    match c {
        Cond::AtLeast(n, children) if *n <= 1 => {
            if children.len() >= MANY_PARTS {
                return one_of_many_spares(*n, children, s, o, watched);
            }
            for child in children.as_slice() {
                if parts_spare(child, s, o, watched) {
                    return true;
                }
            }
            false
        }
        _ => tree_spares_anywhere(c, s, o),
    }
}

/// Whether enough parts of the condition spare the object at any place. Where one of many parts is enough, those are asked first that
/// were enough last. An object that the condition can spare on no state is noticed, and not asked about again.
pub fn tree_spares_watched<const K: usize>(
    c: &Cond,
    s: &State<K>,
    o: ObjId,
    watched: &mut Watched,
) -> bool
    requires k { K ≤ MAX_DIMS }
    requires fits { FitsIn c.now s.now }
    ensures { IsTrue result → SparesAnywhere c.now s.now o.0 }
{
    if watched.is_unspared(o) {
        return false;
    }
    if parts_spare(c, s, o, watched) {
        return true;
    }
    if !may_spare(c, o) {
        watched.unspared = Some(o);
    }
    false
}
