//! The numbers of an object's conditions by the other objects that they name.

ghost use Rattle.std.specs.Prelude.{◌≡◌, ◌≢◌, ◌<◌, ℕ, [], length, true, IfOk, OnOk, IsTrue};
ghost use Rattle.object_pruning.specs.InRows.{row, IsInGroup};
ghost use Rattle.fixpoint.specs.Among.{is_among};
ghost use Rattle.fixpoint.specs.Pairs.{HaveIn};
ghost use Rattle.fixpoint.specs.Partners.{ArePartners, PutsAt, PutsNumbers};

use crate::pairs::RowGroup;
use geo_conditions::ObjId;
use object_pruning::Group;
use smallvec::SmallVec;
use std::alloc::{AllocError, Global};

// A condition that names no more objects is found by each of them.
const FEW: usize = 3;

/// The numbers of conditions of an object by the other objects that they name.
pub struct Partners {
    /// For each object the numbers of those conditions that name it, of those that name few.
    pub few: Vec<Vec<u32>>,
    /// The numbers of the conditions that name more objects.
    pub many: Vec<u32>,
}

impl Drop for Partners {
    fn drop(self) {
        let Partners {
            few: _few,
            many: _many,
        } = self;
    }
}

// Puts the number to the object u, unless that is o.
fn put_at(number: u32, o: usize, u: usize, few: &mut [Vec<u32>]) -> Result<(), AllocError>
    ensures { OnOk result (PutsAt number (λ v. (v ≡ u) × (v ≢ o)) few.old few.new) }
{
    if u == o {
        return Ok(());
    }
    if u < few.len() {
        let numbers = &mut few[u];
        numbers.push(number)?;
        return Ok(());
    }
    Ok(())
}

// Puts the number to each object of the list but o.
fn put_beside(
    number: u32,
    o: usize,
    those: &[ObjId],
    few: &mut [Vec<u32>],
) -> Result<(), AllocError>
    ensures { OnOk result (PutsAt number (λ v. (is_among v those.now ≡ true) × (v ≢ o))
        few.old few.new) }
{
    for k in 0..those.len() {
        put_at(number, o, those[k].0 as usize, few)?;
    }
    Ok(())
}

// Whether the k-th condition names few objects.
fn names_few(named: &[SmallVec<ObjId, 2>], k: usize) -> bool
    ensures { IsTrue result → k < length named.now }
{
    k < named.len() && named[k].len() <= FEW
}

// Puts the number to the objects that its condition names, where these are few, or else to those of
// many.
fn put_number(
    number: u32,
    o: usize,
    named: &[SmallVec<ObjId, 2>],
    few: &mut [Vec<u32>],
    many: &mut Vec<u32>,
) -> Result<(), AllocError>
    ensures { OnOk result (PutsNumbers named.now o (λ j. j ≡ number)
        few.old many.old.items few.new many.new.items) }
{
    let k = (number as usize).saturating_sub(1);
    if names_few(named, k) {
        put_beside(number, o, named[k].as_slice(), few)?;
        return Ok(());
    }
    many.push(number)?;
    Ok(())
}

// The same for each number of a group.
fn put_group(
    group: &Group,
    o: usize,
    named: &[SmallVec<ObjId, 2>],
    few: &mut [Vec<u32>],
    many: &mut Vec<u32>,
) -> Result<(), AllocError>
    ensures { OnOk result (PutsNumbers named.now o (IsInGroup group.now)
        few.old many.old.items few.new many.new.items) }
{
    let first = group.first as usize;
    let end = group.last as usize + 1;
    for i in first..end {
        put_number(i as u32, o, named, few, many)?;
    }
    Ok(())
}

// No number for each object.
fn no_numbers(alloc: Global, objects: usize) -> Result<Vec<Vec<u32>>, AllocError>
    ensures { IfOk result (λ v. (length v.items ≡ objects) × ((u : ℕ) → row v.items u ≡ [])) }
{
    let mut few = Vec::new(alloc);
    for _ in 0..objects {
        few.push(Vec::new(alloc))?;
    }
    Ok(few)
}

/// The numbers of the groups of the object o by the other objects that their conditions name, of
/// that many objects, where it is given what each condition names. The answer is an error where
/// memory runs out.
pub fn partners_of(
    alloc: Global,
    groups: &[RowGroup],
    o: usize,
    named: &[SmallVec<ObjId, 2>],
    objects: usize,
) -> Result<Partners, AllocError>
    ensures { IfOk result (ArePartners named.now o objects (HaveIn groups.now)) }
{
    let found = if groups.is_empty() { 0 } else { objects };
    let mut few = no_numbers(alloc, found)?;
    let mut many = Vec::new(alloc);
    for k in 0..groups.len() {
        put_group(&groups[k].group, o, named, &mut few, &mut many)?;
    }
    Ok(Partners { few, many })
}
