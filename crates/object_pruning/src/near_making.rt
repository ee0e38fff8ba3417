//! Finding how near the other object of a pair has to be, for the rows of an object.

ghost use Rattle.std.specs.Prelude.{◌≡◌, ◌-◌, ◌≤◌, ℕ, Some, length, map, slice_get, IfOk, IfSome, IsTrue};
ghost use Rattle.geo_conditions.specs.declared.object.ObjId.{ObjId};
ghost use Rattle.object_pruning.specs.Near.{AreRefutedNear, IsNearRow, IsWider};
ghost use Rattle.object_pruning.specs.Runs.{IsInGroup, row};
ghost use Rattle.object_pruning.specs.declared.near.Near.{Near};

use crate::near::Near;
use crate::rows::Group;
use geo_base::MAX_DIMS;
use geo_conditions::ObjId;
use indexical::AnyIndexical;
use std::alloc::{AllocError, Global};

// The nearness that holds for the condition of that number too. None where the condition is not one
// of two boxes of both objects, or where the nearness is too wide.
fn near_number<const K: usize>(
    list: &[AnyIndexical<K>],
    o: ObjId,
    u: ObjId,
    number: usize,
    near: &Near,
) -> Option<Near>
    requires k { K ≤ MAX_DIMS }
    requires dims { near.now.dims ≡ K }
    ensures wider { IfSome result (IsWider near.now) }
    ensures number { IfSome result (AreRefutedNear (map (λ x. x.cond) list.now) o.0
        (λ i v. (i ≡ number) × (v ≡ u))) }
{
    let k = number.saturating_sub(1);
    if k >= list.len() {
        return None;
    }
    let nearness = list[k].nearness(o)?;
    if nearness.other.0 != u.0 {
        return None;
    }
    near.wider(&nearness)
}

// The same for each number of a group.
fn near_group<const K: usize>(
    list: &[AnyIndexical<K>],
    o: ObjId,
    u: ObjId,
    group: &Group,
    near: &Near,
) -> Option<Near>
    requires k { K ≤ MAX_DIMS }
    requires dims { near.now.dims ≡ K }
    ensures wider { IfSome result (IsWider near.now) }
    ensures group { IfSome result (AreRefutedNear (map (λ x. x.cond) list.now) o.0
        (λ i v. IsInGroup group.now i × (v ≡ u))) }
{
    let mut wider = *near;
    let first = group.first as usize;
    let end = group.last as usize + 1;
    for i in first..end {
        wider = near_number(list, o, u, i, &wider)?;
    }
    Some(wider)
}

// The same for a group of any kind: nothing is asked where it has no other object.
fn near_other<const K: usize>(
    list: &[AnyIndexical<K>],
    o: ObjId,
    group: &Group,
    near: &Near,
) -> Option<Near>
    requires k { K ≤ MAX_DIMS }
    requires dims { near.now.dims ≡ K }
    ensures wider { IfSome result (IsWider near.now) }
    ensures group { IfSome result (AreRefutedNear (map (λ x. x.cond) list.now) o.0
        (λ i v. (group.now.other ≡ Some v) × IsInGroup group.now i)) }
{
    match group.other {
        Some(u) => near_group(list, o, u, group, near),
        None => Some(*near),
    }
}

// The nearness of the groups of a row that have another object.
fn near_groups<const K: usize>(list: &[AnyIndexical<K>], o: ObjId, groups: &[Group]) -> Option<Near>
    requires k { K ≤ MAX_DIMS }
    ensures { IfSome result (IsNearRow (map (λ x. x.cond) list.now) o.0 groups.now) }
{
    let mut near = Near::nowhere(K);
    for k in 0..groups.len() {
        near = near_other(list, o, &groups[k], &near)?;
    }
    Some(near)
}

// The same, where there are few enough dimensions.
fn near_row<const K: usize>(list: &[AnyIndexical<K>], o: ObjId, groups: &[Group]) -> Option<Near>
    ensures { IfSome result (IsNearRow (map (λ x. x.cond) list.now) o.0 groups.now) }
{
    if K > MAX_DIMS {
        return None;
    }
    near_groups(list, o, groups)
}

/// How near the other object of a pair has to be for each row, where it is known. The answer is an
/// error where memory runs out.
pub fn near_rows<const K: usize>(
    alloc: Global,
    list: &[AnyIndexical<K>],
    o: ObjId,
    rows: &[Vec<Group>],
) -> Result<Vec<Option<Near>>, AllocError>
    ensures { IfOk result (λ v. (r : ℕ) (n : Near) → slice_get v.items r ≡ Some (Some n)
        → IsNearRow (map (λ x. x.cond) list.now) o.0 (row rows.now r) n) }
{
    let mut near = Vec::new(alloc);
    for r in 0..rows.len() {
        near.push(near_row(list, o, &rows[r]))?;
    }
    Ok(near)
}
