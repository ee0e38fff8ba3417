//! Whether any picked condition is refuted with an object at a point.

ghost use Rattle.std.specs.Prelude.{◌≡◌, ℕ, ◌-◌, ◌<◌, ◌≤◌, ◌↔◌, length, map, IfSome, IsTrue};
ghost use Rattle.geo_conditions.specs.Conditions.{AllFit};
ghost use Rattle.geo_conditions.specs.Supported.{NoneRefuted};
ghost use Rattle.sweep.specs.Picks.{ArePicks, picked};
ghost use Rattle.object_pruning.specs.declared.rows.Group.{Group};
ghost use Rattle.object_pruning.specs.Gathered.{AllPossible, IsNumberPossible, IsSolePlace};
ghost use Rattle.object_pruning.specs.InRows.{AreRows, AreSomeGroups, HaveNumber, IsSomeGroup};
ghost use Rattle.object_pruning.specs.Runs.{AreRuns, HaveBetween, IsInGroup, IsRun};
ghost use Rattle.object_pruning.specs.Kept.{placed};

use crate::gathering::{
    can_be_in_the_way, group_at, is_passed_over, row_at, run_at, sole_place_of,
};
use crate::kept::Placed;
use crate::rows::{Group, Rows, Run};
use geo_base::MAX_DIMS;
use geo_conditions::{ObjId, State};
use indexical::Indexical;

// Whether the condition of that number is possible with the object there.
fn is_number_possible<const K: usize, I: Indexical<K>>(
    s: &State<K>,
    o: ObjId,
    q: &Placed<K>,
    list: &[I],
    number: u32,
) -> bool
    requires k { K ≤ MAX_DIMS }
    requires fits { AllFit (map I.cond list.now) s.now }
    requires object { o.0 < length s.now }
    requires number { (0 < number) × (number - 1 < length list.now) }
    ensures { IsTrue result ↔ IsNumberPossible (map I.cond list.now) (placed s.now o.0 q.now)
        number }
{
    list[number as usize - 1].is_possible_at(s, o, q.place, &q.point)
}

/// Whether all conditions of a group are possible with the object there.
pub fn are_possible<const K: usize, I: Indexical<K>>(
    s: &State<K>,
    o: ObjId,
    q: &Placed<K>,
    list: &[I],
    group: &Group,
) -> bool
    requires k { K ≤ MAX_DIMS }
    requires fits { AllFit (map I.cond list.now) s.now }
    requires object { o.0 < length s.now }
    requires numbers { (i : ℕ) → IsInGroup group.now i → (0 < i) × (i - 1 < length list.now) }
    ensures { IsTrue result ↔ AllPossible (map I.cond list.now) (placed s.now o.0 q.now)
        (IsInGroup group.now) }
{
    let first = group.first as usize;
    let end = group.last as usize + 1;
    for i in first..end {
        if !is_number_possible(s, o, q, list, i as u32) {
            return false;
        }
    }
    true
}

// The same. Nothing is asked where they cannot be in the way.
fn is_group_possible<const K: usize, I: Indexical<K>>(
    s: &State<K>,
    o: ObjId,
    q: &Placed<K>,
    list: &[I],
    group: &Group,
    sole: Option<u8>,
) -> bool
    requires k { K ≤ MAX_DIMS }
    requires fits { AllFit (map I.cond list.now) s.now }
    requires object { o.0 < length s.now }
    requires group { IsSomeGroup (map I.cond list.now) o.0 group.now }
    requires numbers { (i : ℕ) → IsInGroup group.now i → (0 < i) × (i - 1 < length list.now) }
    requires sole { IsSolePlace s.now group.now.other sole }
    ensures { IsTrue result ↔ AllPossible (map I.cond list.now) (placed s.now o.0 q.now)
        (IsInGroup group.now) }
{
    if !can_be_in_the_way(group, sole) {
        return true;
    }
    are_possible(s, o, q, list, group)
}

// The same for each group of a run.
fn are_groups_possible<const K: usize, I: Indexical<K>>(
    s: &State<K>,
    o: ObjId,
    q: &Placed<K>,
    list: &[I],
    groups: &[Group],
    run: &Run,
    sole: Option<u8>,
) -> bool
    requires k { K ≤ MAX_DIMS }
    requires fits { AllFit (map I.cond list.now) s.now }
    requires object { o.0 < length s.now }
    requires groups { AreSomeGroups (map I.cond list.now) o.0 groups.now }
    requires run { IsRun groups.now run.now.first run.now }
    requires sole { IsSolePlace s.now run.now.other sole }
    ensures { IsTrue result ↔ AllPossible (map I.cond list.now) (placed s.now o.0 q.now)
        (HaveBetween groups.now run.now.first run.now.end) }
{
    for k in run.first..run.end {
        let group = group_at(s, o, list, groups, run, sole, k);
        if !is_group_possible(s, o, q, list, group, sole) {
            return false;
        }
    }
    true
}

// The same. All groups are passed over at once where none can be in the way.
fn is_run_possible<const K: usize, I: Indexical<K>>(
    s: &State<K>,
    o: ObjId,
    q: &Placed<K>,
    list: &[I],
    groups: &[Group],
    run: &Run,
) -> bool
    requires k { K ≤ MAX_DIMS }
    requires fits { AllFit (map I.cond list.now) s.now }
    requires object { o.0 < length s.now }
    requires groups { AreSomeGroups (map I.cond list.now) o.0 groups.now }
    requires run { IsRun groups.now run.now.first run.now }
    requires other { IfSome run.now.other (λ u. u.0 < length s.now) }
    ensures { IsTrue result ↔ AllPossible (map I.cond list.now) (placed s.now o.0 q.now)
        (HaveBetween groups.now run.now.first run.now.end) }
{
    let sole = sole_place_of(s, run);
    if is_passed_over(sole) {
        return true;
    }
    are_groups_possible(s, o, q, list, groups, run, sole)
}

// The same for each run of a row.
fn is_row_possible<const K: usize, I: Indexical<K>>(
    s: &State<K>,
    o: ObjId,
    q: &Placed<K>,
    list: &[I],
    groups: &[Group],
    runs: &[Run],
) -> bool
    requires k { (0 < K) × (K ≤ MAX_DIMS) }
    requires fits { AllFit (map I.cond list.now) s.now }
    requires object { o.0 < length s.now }
    requires groups { AreSomeGroups (map I.cond list.now) o.0 groups.now }
    requires runs { AreRuns groups.now runs.now }
    ensures { IsTrue result ↔ AllPossible (map I.cond list.now) (placed s.now o.0 q.now)
        (HaveNumber groups.now) }
{
    for j in 0..runs.len() {
        let run = run_at(s, o, list, groups, runs, j);
        if !is_run_possible(s, o, q, list, groups, run) {
            return false;
        }
    }
    true
}

// Asks by rows: the row of no place, and that of the point's place.
fn is_unrefuted_by_rows<const K: usize, I: Indexical<K>>(
    s: &State<K>,
    o: ObjId,
    q: &Placed<K>,
    list: &[I],
    picks: &[u32],
    rows: &Rows,
) -> bool
    requires k { (0 < K) × (K ≤ MAX_DIMS) }
    requires fits { AllFit (map I.cond list.now) s.now }
    requires object { o.0 < length s.now }
    requires picks { ArePicks (length list.now) picks.now }
    requires rows { AreRows (map I.cond list.now) o.0 picks.now rows.now }
    ensures { IsTrue result
        ↔ NoneRefuted (picked (map I.cond list.now) picks.now) (placed s.now o.0 q.now) }
{
    let any = row_at(s, o, list, picks, rows, 0);
    if !is_row_possible(s, o, q, list, any.0, any.1) {
        return false;
    }
    let r = usize::from(q.place);
    let own = row_at(s, o, list, picks, rows, r);
    is_row_possible(s, o, q, list, own.0, own.1)
}

// Asks all picks.
fn are_all_possible<const K: usize, I: Indexical<K>>(
    s: &State<K>,
    o: ObjId,
    q: &Placed<K>,
    list: &[I],
    picks: &[u32],
) -> bool
    requires k { (0 < K) × (K ≤ MAX_DIMS) }
    requires fits { AllFit (map I.cond list.now) s.now }
    requires object { o.0 < length s.now }
    requires picks { ArePicks (length list.now) picks.now }
    ensures { IsTrue result
        ↔ NoneRefuted (picked (map I.cond list.now) picks.now) (placed s.now o.0 q.now) }
{
    for k in 0..picks.len() {
        if !is_number_possible(s, o, q, list, picks[k]) {
            return false;
        }
    }
    true
}

/// Whether no picked condition is refuted with the object there.
pub fn is_unrefuted<const K: usize, I: Indexical<K>>(
    s: &State<K>,
    o: ObjId,
    q: &Placed<K>,
    list: &[I],
    picks: &[u32],
    rows: Option<&Rows>,
) -> bool
    requires k { (0 < K) × (K ≤ MAX_DIMS) }
    requires fits { AllFit (map I.cond list.now) s.now }
    requires object { o.0 < length s.now }
    requires picks { ArePicks (length list.now) picks.now }
    requires rows { IfSome rows (λ r. AreRows (map I.cond list.now) o.0 picks.now r.now) }
    ensures { IsTrue result
        ↔ NoneRefuted (picked (map I.cond list.now) picks.now) (placed s.now o.0 q.now) }
{
    match rows {
        Some(rows) => is_unrefuted_by_rows(s, o, q, list, picks, rows),
        None => are_all_possible(s, o, q, list, picks),
    }
}
