//! The marks of an object's neighbours, and bounds between which the marked ones lie.

ghost use Rattle.std.specs.Prelude.{◌≡◌, ℕ, ◌<◌, ◌≤◌, true, false, length, slice_index_or, slice_set, IfOk};

use std::alloc::{AllocError, Global};
use std::marker::Model;

/// A mark for each object. Those that are set lie between two bounds, so that few are looked at.
pub struct Marks {
    there: Vec<bool>,
    // no mark before this one is set
    from: usize,
    // nor is this one or one behind it
    end: usize,
}

impl Drop for Marks {
    fn drop(self) {
        let Marks {
            there: _there,
            from: _from,
            end: _end,
        } = self;
    }
}

impl Model for Marks {
    ghost use Rattle.std.specs.Prelude.{List, Bool, ◌≡◌, ℕ, ◌<◌, ◌≤◌, true, false, length, slice_index_or};

    ghost Value = { List Bool };

    ghost view = { λ m. m.there.items };

    ghost invariant = { λ m. (m.from ≤ length m.there.items) × (m.end ≤ length m.there.items)
        × ((u : ℕ) → slice_index_or m.there.items u false ≡ true → (m.from ≤ u) × (u < m.end)) };
}

// Takes all marks away, where those that are set lie between those bounds.
fn take_away(there: &mut [bool], from: usize, end: usize)
    requires end { end ≤ length there.old }
    requires within { (u : ℕ) → slice_index_or there.old u false ≡ true → (from ≤ u) × (u < end) }
    ensures { (u : ℕ) → slice_index_or there.new u false ≡ false }
{
    for u in from..end {
        there[u] = false;
    }
}

// The first mark from `from` on that is set, where those that are set lie before `end`; the number
// of marks where none is.
#[inline(always)]
fn first_between(there: &[bool], from: usize, end: usize) -> usize
    requires bounds { (from ≤ length there.now) × (end ≤ length there.now) }
    requires within { (u : ℕ) → slice_index_or there.now u false ≡ true → u < end }
    ensures within { (from ≤ result) × (result ≤ length there.now) }
    ensures none { (u : ℕ) → from ≤ u → u < result → slice_index_or there.now u false ≡ false }
{
    for u in from..end {
        if there[u] {
            return u;
        }
    }
    there.len()
}

impl Marks {
    /// For that many objects, with none marked. The answer is an error where memory is short.
    pub fn start(alloc: Global, objects: usize) -> Result<Marks, AllocError>
        ensures { IfOk result (λ m. length m ≡ objects) }
    {
        let there = Vec::from_elem(alloc, false, objects)?;
        Ok(Marks {
            there,
            from: objects,
            end: 0,
        })
    }

    /// The marks, one for each object.
    #[inline(always)]
    pub fn as_slice(&self) -> &[bool]
        ensures { result.now ≡ self.now }
    {
        self.there.as_slice()
    }

    /// Whether the object is marked.
    #[inline(always)]
    pub fn has(&self, u: usize) -> bool
        requires { u < length self.now }
        ensures { result ≡ slice_index_or self.now u false }
    {
        self.there[u]
    }

    /// Marks the object.
    pub fn set(&mut self, u: usize)
        requires { u < length self.old }
        ensures { self.new ≡ slice_set self.old u true }
    {
        self.from = self.from.min(u);
        self.end = self.end.max(u + 1);
        self.there[u] = true;
    }

    /// Takes all marks away.
    pub fn clear(&mut self)
        ensures none { (u : ℕ) → slice_index_or self.new u false ≡ false }
        ensures objects { length self.new ≡ length self.old }
    {
        take_away(&mut self.there, self.from, self.end);
        self.from = self.there.len();
        self.end = 0;
    }

    /// The first object from `from` on that is marked, or the number of objects where none is.
    pub fn next(&self, from: usize) -> usize
        requires { from ≤ length self.now }
        ensures within { (from ≤ result) × (result ≤ length self.now) }
        ensures none { (u : ℕ) → from ≤ u → u < result → slice_index_or self.now u false ≡ false }
    {
        first_between(&self.there, from.max(self.from), self.end)
    }
}
