//! Making the rows of an object.

ghost use Rattle.std.specs.Prelude.{◌≡◌, ◌≢◌, ℕ, ◌+◌, ◌-◌, ◌<◌, ◌≤◌, [], length, map, slice_index, IfOk, IsTrue, OnOk};
ghost use Rattle.sweep.specs.Picks.{ArePicks};
ghost use Rattle.object_pruning.specs.InRows.{AreRows, AreRowsBelow, PutsNumber};
ghost use Rattle.object_pruning.specs.Runs.{row};

use crate::near_making::near_rows;
use crate::rows::{Group, Rows};
use crate::run_making::{is_same_object, with_runs};
use geo_conditions::{MAX_SHAPES, ObjId};
use indexical::{AnyIndexical, Facing};
use std::alloc::{AllocError, Global};

// Whether the number comes next in the group, and its condition asks for the same places.
fn goes_on(group: &Group, number: u32, facing: &Facing) -> bool
    requires { 0 < number }
    ensures number { IsTrue result → group.now.last + 1 ≡ number }
    ensures other { IsTrue result → group.now.other ≡ facing.now.other }
    ensures place { IsTrue result → group.now.other_place ≡ facing.now.other_place }
{
    group.last == number - 1
        && group.other_place == facing.other_place
        && is_same_object(group.other, facing.other)
}

// Puts a number behind the others of a row: into the last group, where it goes on, or else into a
// group of its own.
fn put_number(groups: &mut Vec<Group>, number: u32, facing: &Facing) -> Result<(), AllocError>
    requires { 0 < number }
    ensures { OnOk result (PutsNumber facing.now number groups.old.items groups.new.items) }
{
    let n = groups.len();
    if n > 0 {
        let group = groups[n - 1];
        if goes_on(&group, number, facing) {
            groups[n - 1] = Group {
                last: number,
                ..group
            };
            return Ok(());
        }
    }
    groups.push(Group {
        other: facing.other,
        other_place: facing.other_place,
        first: number,
        last: number,
    })?;
    Ok(())
}

// The row of a condition that asks for these places.
fn row_of(facing: &Facing) -> usize
    ensures below { result ≤ MAX_SHAPES }
    ensures place { result ≢ 0 → result ≡ facing.now.place }
{
    let place = usize::from(facing.place);
    if place <= MAX_SHAPES { place } else { 0 }
}

// Rows without a group.
fn empty_rows(alloc: Global) -> Result<Vec<Vec<Group>>, AllocError>
    ensures { IfOk result (λ v.
        (length v.items ≡ MAX_SHAPES + 1) × ((r : ℕ) → row v.items r ≡ [])) }
{
    let mut rows = Vec::new(alloc);
    for _ in 0..MAX_SHAPES + 1 {
        rows.push(Vec::new(alloc))?;
    }
    Ok(rows)
}

// The number of the k-th pick: that of a condition of the list.
fn number_at<const K: usize>(list: &[AnyIndexical<K>], picks: &[u32], k: usize) -> u32
    requires picks { ArePicks (length list.now) picks.now }
    requires pick { k < length picks.now }
    ensures is { result ≡ slice_index picks.now k }
    ensures some { 0 < result }
    ensures named { result - 1 < length list.now }
{
    picks[k]
}

// Puts the k-th pick into its row.
fn put_pick<const K: usize>(
    list: &[AnyIndexical<K>],
    picks: &[u32],
    o: ObjId,
    k: usize,
    rows: &mut [Vec<Group>],
) -> Result<(), AllocError>
    requires picks { ArePicks (length list.now) picks.now }
    requires pick { k < length picks.now }
    requires below { AreRowsBelow (map (λ x. x.cond) list.now) o.0 picks.now k rows.old }
    ensures { OnOk result
        (AreRowsBelow (map (λ x. x.cond) list.now) o.0 picks.now (k + 1) rows.new) }
{
    let number = number_at(list, picks, k);
    let facing = list[number as usize - 1].facing(o);
    let groups = &mut rows[row_of(&facing)];
    put_number(groups, number, &facing)
}

/// The picked conditions in rows, by what they ask of places before they can be in the object's
/// way. The answer is an error where memory runs out.
pub fn rows_of<const K: usize>(
    alloc: Global,
    list: &[AnyIndexical<K>],
    picks: &[u32],
    o: ObjId,
) -> Result<Rows, AllocError>
    requires { ArePicks (length list.now) picks.now }
    ensures { IfOk result (AreRows (map (λ x. x.cond) list.now) o.0 picks.now) }
{
    let mut rows = empty_rows(alloc)?;
    for k in 0..picks.len() {
        put_pick(list, picks, o, k, &mut rows)?;
    }
    let near = near_rows(alloc, list, o, &rows)?;
    with_runs(alloc, rows, near)
}
