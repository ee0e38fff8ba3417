//! Names that were met, looked up by their bytes.

ghost use Rattle.std.specs.Prelude.{◌≡◌, ◌↔◌, ◌≤◌, [], ℕ, List, length, not, position, IfOk, OnOk, IsTrue};
ghost use Rattle.std.specs.List.{list_any, Contains, position_or_len};
ghost use Rattle.std.specs.Str.{bytes_eq};
ghost use Rattle.problem_data.specs.Seen.{meet};

use indexmap::IndexSet;
use std::alloc::{AllocError, Global};
use std::marker::Model;

/// Names, each once, in the order in which they were met first. It is seen as their list.
pub struct SeenNames<'a> {
    names: IndexSet<&'a [u8]>,
}

/// Written out, since a derived one, with those of all parts, is made and proved anew in each crate that drops seen names.
impl Drop for SeenNames<'_> {
    fn drop(self) {
        let SeenNames { names: _names } = self;
    }
}

impl<'a> Model for SeenNames<'a> {
    ghost use Rattle.std.specs.Prelude.{ℕ, List, map};
    ghost use Rattle.problem_data.specs.Seen.{bytes_at};

    ghost Value = { List (List ℕ) };

    ghost view = { λ s. map bytes_at s.names.keys };
}

impl<'a> SeenNames<'a> {
    /// No names. Takes no memory.
    pub fn new(alloc: Global) -> SeenNames<'a>
        ensures { result ≡ [] }
    {
        SeenNames {
            names: IndexSet::new(alloc),
        }
    }

    /// Meets a name, and says whether it is new.
    pub fn meet(&mut self, name: &'a [u8]) -> Result<bool, AllocError>
        ensures met { OnOk result (self.new ≡ meet self.old name.now) }
        ensures is_new { IfOk result (λ r. r ≡ not (list_any (bytes_eq name.now) self.old)) }
    {
        let (_, is_new) = self.names.insert_full(name)?;
        Ok(is_new)
    }

    /// The name was met.
    pub fn has(&self, name: &[u8]) -> bool
        ensures { result ≡ list_any (bytes_eq name.now) self.now }
    {
        self.names.contains(name)
    }

    /// Which of the names it is, from 0, where it was met.
    pub fn position(&self, name: &[u8]) -> Option<usize>
        ensures { result ≡ position (bytes_eq name.now) self.now }
    {
        self.names.get_index_of(name)
    }

    /// Which of the names it is, from 0, or their number where it was not met.
    pub fn place(&self, name: &[u8]) -> usize
        ensures value { result ≡ position_or_len (bytes_eq name.now) self.now }
        ensures within { result ≤ length self.now }
    {
        match self.position(name) {
            Some(place) => place,
            None => self.len(),
        }
    }

    /// How many names were met.
    pub fn len(&self) -> usize
        ensures { result ≡ length self.now }
    {
        self.names.len()
    }

    /// Each of these names is one of the others.
    pub fn is_inside(&self, others: &SeenNames<'_>) -> bool
        ensures { IsTrue result
            ↔ ((name : List ℕ) → Contains self.now name → Contains others.now name) }
    {
        self.names.is_subset(&others.names)
    }
}
