//! The conditions that name an object, by the places that they ask for.

ghost use Rattle.std.specs.Prelude.{◌≡◌, ℕ, Some, slice_get, IfSome};
ghost use Rattle.object_pruning.specs.Runs.{AreRuns, row};

use crate::near::Near;
use geo_conditions::ObjId;

/// Neighbours in a list of conditions that ask for the same places.
#[derive(Clone, Copy)]
pub struct Group {
    /// The other object, where the conditions name no third one.
    pub other: Option<ObjId>,
    /// The place that the other object has to have, and no other place; 0 where none is asked.
    pub other_place: u8,
    /// The number of the first condition, from 1.
    pub first: u32,
    /// The number of the last condition.
    pub last: u32,
}

/// Neighbours in a row of groups that have the same other object.
#[derive(Clone, Copy)]
pub struct Run {
    /// The other object, where the groups have one.
    pub other: Option<ObjId>,
    /// Whether each of the groups asks for a place of it; else none does.
    pub asks: bool,
    /// The first group, from 0.
    pub first: usize,
    /// The group behind the last one.
    pub end: usize,
}

/// The conditions that name an object, in rows: first those that ask for no place of it, and then,
/// place by place, those that ask for it.
pub struct Rows {
    pub rows: Vec<Vec<Group>>,
    /// The runs of the groups of each row.
    pub runs: Vec<Vec<Run>>,
    /// How near the other object of a pair has to be, for each row, where it is known.
    pub near: Vec<Option<Near>>,
    ghost in_runs: { (r : ℕ) → AreRuns (row rows.items r) (row runs.items r) },
}

impl Drop for Rows {
    fn drop(self) {
        let Rows {
            rows: _rows,
            runs: _runs,
            near: _near,
        } = self;
    }
}

impl Rows {
    /// The groups of a row; none past the last row.
    pub fn row(&self, r: usize) -> &[Group]
        ensures { result.now ≡ row self.now.rows.items r }
    {
        let rows = self.rows.as_slice();
        if r < rows.len() {
            rows[r].as_slice()
        } else {
            &[]
        }
    }

    /// The runs of those groups.
    pub fn runs(&self, r: usize) -> &[Run]
        ensures { AreRuns (row self.now.rows.items r) result.now }
    {
        let runs = self.runs.as_slice();
        if r < runs.len() {
            runs[r].as_slice()
        } else {
            &[]
        }
    }

    /// How near the other object of a pair of the row has to be, where it is known.
    pub fn near(&self, r: usize) -> Option<&Near>
        ensures { IfSome result (λ n. slice_get self.now.near.items r ≡ Some (Some n.now)) }
    {
        match self.near.get(r) {
            Some(near) => near.as_ref(),
            None => None,
        }
    }
}
