//! A state with levels, which are opened and undone. In place of a copy a level keeps what it
//! replaced, at most once for an object, on a trail, as constraint solvers do since Prolog's.

ghost use Rattle.std.specs.Prelude.{◌≡◌, ℕ, ◌+◌, ◌<◌, ◌≤◌, ◌≤ℤ◌, length, List, [], ◌∷◌, ◌++◌, IfOk, slice_set};
ghost use Rattle.geo_conditions.specs.Reach.{reach, low, high, with_low, with_high, without, Inside};
ghost use Rattle.geo_state.specs.Trail.{Trail, HasSmallIntervals, IsSmallEnd};

use crate::entries::{Saved, put_back, save};
use geo_base::MAX_DIMS;
use geo_conditions::{ObjId, State};
use std::alloc::{AllocError, Global};
use std::marker::Model;
use trail_arena::TrailStack;

/// The greatest number of levels.
pub const MAX_LEVELS: usize = 2000;

/// A state that levels restore. A level saves what is open to an object before it changes it for the
/// first time, and nothing else. Room for one entry a level and object is taken at the start.
pub struct Trailed<const K: usize> {
    state: State<K>,
    saved: TrailStack<Saved<K>>,
    // for each object the greatest open level that has saved it, 0 if none has
    marks: Vec<usize>,
    // for each level how many entries there were when it was opened
    starts: Vec<usize>,
    depth: usize,
}

impl<const K: usize> Drop for Trailed<K> {
    fn drop(self) {
        let Trailed {
            state: _state,
            saved: _saved,
            marks: _marks,
            starts: _starts,
            depth: _,
        } = self;
    }
}

impl<const K: usize> Model for Trailed<K> {
    ghost use Rattle.std.specs.Prelude.{length, take};
    ghost use Rattle.geo_state.specs.Undo.{restored};
    ghost use Rattle.geo_state.specs.Trail.{Trail, IsTrailed};

    ghost Value = { Trail };

    ghost view = { λ t. record {
      state = t.state;
      levels = length t.starts.items;
      restores = restored t.state t.saved.items (take t.depth t.starts.items);
    } };

    ghost invariant = { λ t. IsTrailed t.state t.saved.items t.marks.items t.starts.items
        t.depth t.saved.spare };
}

impl<const K: usize> Trailed<K> {
    /// Begins in that state, with room for that many levels. Its ends lie in -2,000,000 to
    /// 2,000,000.
    pub fn start(alloc: Global, first: State<K>, levels: usize) -> Result<Trailed<K>, AllocError>
        requires k { K ≤ MAX_DIMS }
        requires few { levels ≤ MAX_LEVELS }
        requires small { HasSmallIntervals first }
        ensures state { IfOk result (λ t. t.state ≡ first.entry) }
        ensures levels { IfOk result (λ t. t.levels ≡ levels) }
        ensures restores { IfOk result (λ t. t.restores ≡ []) }
    {
        let objects = first.objects();
        let mut saved = TrailStack::new(alloc);
        saved.reserve(levels * objects)?;
        let marks = Vec::from_elem(alloc, 0, objects)?;
        let starts = Vec::from_elem(alloc, 0, levels)?;
        Ok(Trailed {
            state: first,
            saved,
            marks,
            starts,
            depth: 0,
        })
    }

    /// The state now.
    pub fn state(&self) -> &State<K>
        ensures value { result.now ≡ self.now.state }
        ensures small { HasSmallIntervals self.now.state }
    {
        let _depth = self.depth;
        &self.state
    }

    /// How many levels are open.
    pub fn depth(&self) -> usize
        ensures value { result ≡ length self.now.restores }
        ensures room { length self.now.restores ≤ self.now.levels }
    {
        self.depth
    }

    /// Opens a level, which `undo` closes.
    pub fn push_level(&mut self)
        requires k { K ≤ MAX_DIMS }
        requires room { length self.old.restores < self.old.levels }
        ensures state { self.new.state ≡ self.old.state }
        ensures levels { self.new.levels ≡ self.old.levels }
        ensures restores { self.new.restores ≡ self.old.restores ++ self.old.state ∷ [] }
    {
        self.starts[self.depth] = self.saved.len();
        self.depth += 1;
    }

    /// Closes the last level that was opened, and restores the state in which it was opened. Since
    /// then the state has only shrunk.
    pub fn undo(&mut self)
        requires k { K ≤ MAX_DIMS }
        requires depth { 0 < length self.old.restores }
        ensures levels { self.new.levels ≡ self.old.levels }
        ensures restored { self.old.restores ≡ self.new.restores ++ self.new.state ∷ [] }
        ensures shrunk { Inside self.old.state self.new.state }
    {
        self.depth -= 1;
        let left = self.starts[self.depth];
        put_back(&mut self.state, &mut self.saved, &mut self.marks, left);
    }

    /// Raises the low end of an interval.
    pub fn set_low(&mut self, o: ObjId, d: usize, v: i64)
        requires k { K ≤ MAX_DIMS }
        requires object { o.0 < length self.old.state }
        requires dimension { d < K }
        requires small { IsSmallEnd v }
        requires narrower { low self.old.state o.0 d ≤ℤ v }
        ensures state { self.new.state
            ≡ slice_set self.old.state o.0 (with_low (reach self.old.state o.0) d v) }
        ensures levels { self.new.levels ≡ self.old.levels }
        ensures restores { self.new.restores ≡ self.old.restores }
    {
        save(&self.state, &mut self.saved, &mut self.marks, self.depth, o);
        self.state.set_low(o, d, v);
    }

    /// Lowers the high end of an interval.
    pub fn set_high(&mut self, o: ObjId, d: usize, v: i64)
        requires k { K ≤ MAX_DIMS }
        requires object { o.0 < length self.old.state }
        requires dimension { d < K }
        requires small { IsSmallEnd v }
        requires narrower { v ≤ℤ high self.old.state o.0 d }
        ensures state { self.new.state
            ≡ slice_set self.old.state o.0 (with_high (reach self.old.state o.0) d v) }
        ensures levels { self.new.levels ≡ self.old.levels }
        ensures restores { self.new.restores ≡ self.old.restores }
    {
        save(&self.state, &mut self.saved, &mut self.marks, self.depth, o);
        self.state.set_high(o, d, v);
    }

    /// Takes a place away from an object.
    pub fn drop_shape(&mut self, o: ObjId, place: u8)
        requires k { K ≤ MAX_DIMS }
        requires object { o.0 < length self.old.state }
        requires place { (1 ≤ place) × (place ≤ 16) }
        ensures state { self.new.state
            ≡ slice_set self.old.state o.0 (without (reach self.old.state o.0) place) }
        ensures levels { self.new.levels ≡ self.old.levels }
        ensures restores { self.new.restores ≡ self.old.restores }
    {
        save(&self.state, &mut self.saved, &mut self.marks, self.depth, o);
        self.state.drop_shape(o, place);
    }
}
