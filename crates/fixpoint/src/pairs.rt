//! The groups of an object's rows, by the other object that they name.

ghost use Rattle.std.specs.Prelude.{◌≡◌, ℕ, [], length, IfOk, IfSome, IsTrue, OnOk};
ghost use Rattle.fixpoint.specs.Links.{row};
ghost use Rattle.fixpoint.specs.Pairs.{BelongsTo, HasGroup, NamesOne, Puts, SortsRows};

use geo_conditions::ObjId;
use object_pruning::{Group, Rows};
use smallvec::SmallVec;
use std::alloc::{AllocError, Global};

/// A group of conditions of an object, and its row.
#[derive(Clone, Copy)]
pub struct RowGroup {
    pub row: usize,
    pub group: Group,
}

/// The groups of an object's rows, by the other object that they name.
pub struct Pairs {
    /// For each object the groups that name it too, and no third one; for the object itself those
    /// that name no other one.
    pub beside: Vec<Vec<RowGroup>>,
    /// The other groups.
    pub others: Vec<RowGroup>,
}

impl Drop for Pairs {
    fn drop(self) {
        let Pairs {
            beside: _beside,
            others: _others,
        } = self;
    }
}

// Whether each condition of the group names one object at most, by the lists of what conditions
// name.
fn names_one(group: &Group, named: &[SmallVec<ObjId, 2>]) -> bool
    ensures { IsTrue result → NamesOne named.now group.now }
{
    let first = group.first as usize;
    let end = group.last as usize + 1;
    for i in first..end {
        let k = i.saturating_sub(1);
        if k < named.len() && named[k].len() > 1 {
            return false;
        }
    }
    true
}

// The object to whose groups this one of the object o belongs: the other one that it names, where
// that is told, or else o, where it names no other one.
fn home_of(group: &Group, o: usize, named: &[SmallVec<ObjId, 2>]) -> Option<usize>
    ensures { IfSome result (λ u. BelongsTo named.now o u group.now) }
{
    match group.other {
        Some(u) => Some(u.0 as usize),
        None => {
            if names_one(group, named) {
                Some(o)
            } else {
                None
            }
        }
    }
}

// Puts the group of the object o to those to which it belongs, where that is told, or else behind
// the others.
fn put_group(
    placed: RowGroup,
    o: usize,
    named: &[SmallVec<ObjId, 2>],
    beside: &mut [Vec<RowGroup>],
    others: &mut Vec<RowGroup>,
) -> Result<(), AllocError>
    ensures { OnOk result (Puts (BelongsTo named.now o) (λ b. b ≡ placed)
        beside.old others.old.items beside.new others.new.items) }
{
    if let Some(u) = home_of(&placed.group, o, named) {
        if u < beside.len() {
            let groups = &mut beside[u];
            groups.push(placed)?;
            return Ok(());
        }
    }
    others.push(placed)?;
    Ok(())
}

// The same for each group of a row.
fn put_row(
    row: usize,
    groups: &[Group],
    o: usize,
    named: &[SmallVec<ObjId, 2>],
    beside: &mut [Vec<RowGroup>],
    others: &mut Vec<RowGroup>,
) -> Result<(), AllocError>
    ensures { OnOk result (Puts (BelongsTo named.now o)
        (λ b. (b.row ≡ row) × HasGroup groups.now b.group)
        beside.old others.old.items beside.new others.new.items) }
{
    for k in 0..groups.len() {
        let group = groups[k];
        put_group(RowGroup { row, group }, o, named, beside, others)?;
    }
    Ok(())
}

// A list without groups for each object.
fn no_groups(alloc: Global, objects: usize) -> Result<Vec<Vec<RowGroup>>, AllocError>
    ensures { IfOk result (λ v. (length v.items ≡ objects) × ((u : ℕ) → row v.items u ≡ [])) }
{
    let mut groups = Vec::new(alloc);
    for _ in 0..objects {
        groups.push(Vec::new(alloc))?;
    }
    Ok(groups)
}

/// The groups of the rows of the object o by the other object that they name, of that many, where
/// it is given what each condition names. The answer is an error where memory runs out.
pub fn pairs_of(
    alloc: Global,
    rows: &Rows,
    o: usize,
    named: &[SmallVec<ObjId, 2>],
    objects: usize,
) -> Result<Pairs, AllocError>
    ensures { IfOk result (SortsRows named.now o rows.now objects) }
{
    let mut beside = no_groups(alloc, objects)?;
    let mut others = Vec::new(alloc);
    for r in 0..rows.rows.len() {
        put_row(r, rows.row(r), o, named, &mut beside, &mut others)?;
    }
    Ok(Pairs { beside, others })
}
