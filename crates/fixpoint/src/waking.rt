//! Waking the neighbours of an object that changed: each is queued, and the changed object is
//! marked in its row of marks.

ghost use Rattle.std.specs.Prelude.{◌≡◌, ◌≢◌, ℕ, ◌-◌, ◌<◌, ◌≤◌, false, ◌+◌, true, length, map, slice_get, slice_index_or, slice_set, IfOk, IsTrue, Some};
ghost use Rattle.std.specs.List.{All};
ghost use Rattle.geo_conditions.specs.declared.cond.Cond.{Cond};
ghost use Rattle.geo_conditions.specs.declared.object.ObjId.{ObjId};
ghost use Rattle.geo_conditions.specs.Conditions.{AllFit, FitsIn};
ghost use Rattle.geo_conditions.specs.Reach.{reach, is_only};
ghost use Rattle.object_pruning.specs.declared.rows.Group.{Group};
ghost use Rattle.object_pruning.specs.InRows.{HaveNumber, IsInGroup, IsSomeGroup};
ghost use Rattle.fixpoint.specs.Links.{AreLinks, AreSomeRows, IsByPlace, NamedBy, is_among, row};
ghost use Rattle.fixpoint.specs.Marks.{IsSquare, MarksAt, is_marked};
ghost use Rattle.fixpoint.specs.Near.{IsPair, LeavesPairsFree, Unhindered, UnhinderedBy, Unhinders};
ghost use Rattle.fixpoint.specs.Queue.{Queues};

use crate::links::Links;
use crate::marks::Marks;
use geo_base::MAX_DIMS;
use geo_conditions::{ObjId, State};
use indexical::AnyIndexical;
use object_pruning::{Group, Rows};
use std::alloc::{AllocError, Global};

/// A row of marks for each of that number of objects, with no object marked. The answer is an error
/// where memory is short.
pub fn no_marks(alloc: Global, objects: usize) -> Result<Vec<Marks>, AllocError>
    ensures { IfOk result (λ v. IsSquare objects v.items) }
{
    let mut marks = Vec::new(alloc);
    for _ in 0..objects {
        marks.push(Marks::start(alloc, objects)?)?;
    }
    Ok(marks)
}

// Whether v is queued, and u is marked at it.
fn is_woken(queued: &[bool], dirty: &[Marks], u: usize, v: usize) -> bool
    requires objects { (u < length queued.now) × (v < length queued.now) }
    requires square { IsSquare (length queued.now) dirty.now }
    ensures { IsTrue result → (slice_index_or queued.now v false ≡ true)
        × (is_marked dirty.now v u ≡ true) }
{
    queued[v] && dirty[v].has(u)
}

// Queues o, and marks u at it. Mostly an earlier condition did so.
fn wake_at(u: usize, o: usize, queued: &mut [bool], dirty: &mut [Marks])
    requires objects { (u < length queued.old) × (o < length queued.old) × (o ≢ u) }
    requires square { IsSquare (length queued.old) dirty.old }
    ensures queued { Queues (λ v. v ≢ o) u queued.old queued.new }
    ensures marked { MarksAt (λ v. v ≢ o) u dirty.old dirty.new }
    ensures square { IsSquare (length queued.old) dirty.new }
{
    if is_woken(queued, dirty, u, o) {
        return;
    }
    queued[o] = true;
    dirty[o].set(u);
}

// Queues the objects of the list, but u, and marks u at each.
fn mark(list: &[ObjId], u: usize, queued: &mut [bool], dirty: &mut [Marks])
    requires list { All (λ o. o.0 < length queued.old) list.now }
    requires object { u < length queued.old }
    requires square { IsSquare (length queued.old) dirty.old }
    ensures queued { Queues (λ o. is_among o list.now ≡ false) u queued.old queued.new }
    ensures marked { MarksAt (λ o. is_among o list.now ≡ false) u dirty.old dirty.new }
    ensures square { IsSquare (length queued.old) dirty.new }
{
    for o in list {
        let o = o.0 as usize;
        if o != u {
            wake_at(u, o, queued, dirty);
        }
    }
}

// Queues the objects that the condition names, but u, and marks u at each. Where u leaves them
// free, nobody is woken.
fn wake_named<const K: usize>(
    x: &AnyIndexical<K>,
    named: &[ObjId],
    u: ObjId,
    s: &State<K>,
    queued: &mut [bool],
    dirty: &mut [Marks],
)
    requires fits { FitsIn x.now.cond s.now }
    requires named { NamedBy x.now.cond (length queued.old) named.now }
    requires object { u.0 < length queued.old }
    requires square { IsSquare (length queued.old) dirty.old }
    ensures queued { Queues (Unhinders x.now.cond s.now) u.0 queued.old queued.new }
    ensures marked { MarksAt (Unhinders x.now.cond s.now) u.0 dirty.old dirty.new }
    ensures square { IsSquare (length queued.old) dirty.new }
{
    if x.surely_leaves_free(s, u) {
        return;
    }
    mark(named, u.0 as usize, queued, dirty);
}

// Queues the objects that a condition of the group names with u, and marks u at each; but not those
// that u leaves free.
fn wake_others<const K: usize>(
    list: &[AnyIndexical<K>],
    links: &Links,
    group: &Group,
    u: ObjId,
    s: &State<K>,
    queued: &mut [bool],
    dirty: &mut [Marks],
)
    requires fits { AllFit (map (λ x. x.cond) list.now) s.now }
    requires links { AreLinks (map (λ x. x.cond) list.now) (length queued.old) links.now }
    requires numbers { (i : ℕ) → IsInGroup group.now i → (0 < i) × (i - 1 < length list.now) }
    requires object { u.0 < length queued.old }
    requires square { IsSquare (length queued.old) dirty.old }
    ensures queued { Queues (UnhinderedBy (map (λ x. x.cond) list.now) s.now (IsInGroup group.now))
        u.0 queued.old queued.new }
    ensures marked { MarksAt (UnhinderedBy (map (λ x. x.cond) list.now) s.now (IsInGroup group.now))
        u.0 dirty.old dirty.new }
    ensures square { IsSquare (length queued.old) dirty.new }
{
    let first = group.first as usize;
    let end = group.last as usize + 1;
    for i in first..end {
        let named = links.named[i - 1].as_slice();
        wake_named(&list[i - 1], named, u, s, queued, dirty);
    }
}

// Whether u, as the state has it, may hinder another object by a condition of the group.
fn may_hinder<const K: usize>(
    list: &[AnyIndexical<K>],
    group: &Group,
    u: ObjId,
    s: &State<K>,
) -> bool
    requires fits { AllFit (map (λ x. x.cond) list.now) s.now }
    requires numbers { (i : ℕ) → IsInGroup group.now i → (0 < i) × (i - 1 < length list.now) }
    ensures { result ≡ false → (o : ℕ) → o ≢ u.0
        → UnhinderedBy (map (λ x. x.cond) list.now) s.now (IsInGroup group.now) o }
{
    let first = group.first as usize;
    let end = group.last as usize + 1;
    for i in first..end {
        if !list[i - 1].surely_leaves_free(s, u) {
            return true;
        }
    }
    false
}

// Queues v and marks u at it, where u may hinder it by a condition of the group, and its conditions
// name no third object. Where u is idle, it is known to leave v free.
fn wake_one<const K: usize>(
    list: &[AnyIndexical<K>],
    group: &Group,
    idle: bool,
    u: ObjId,
    v: usize,
    s: &State<K>,
    queued: &mut [bool],
    dirty: &mut [Marks],
)
    requires fits { AllFit (map (λ x. x.cond) list.now) s.now }
    requires numbers { (i : ℕ) → IsInGroup group.now i → (0 < i) × (i - 1 < length list.now) }
    requires pair { (i : ℕ) (x : Cond) → IsInGroup group.now i
        → slice_get (map (λ x. x.cond) list.now) (i - 1) ≡ Some x → IsPair x u.0 v }
    requires idle { IsTrue idle → (o : ℕ) → o ≢ u.0
        → UnhinderedBy (map (λ x. x.cond) list.now) s.now (IsInGroup group.now) o }
    requires objects { (u.0 < length queued.old) × (v < length queued.old) }
    requires square { IsSquare (length queued.old) dirty.old }
    ensures queued { Queues (UnhinderedBy (map (λ x. x.cond) list.now) s.now (IsInGroup group.now))
        u.0 queued.old queued.new }
    ensures marked { MarksAt (UnhinderedBy (map (λ x. x.cond) list.now) s.now (IsInGroup group.now))
        u.0 dirty.old dirty.new }
    ensures square { IsSquare (length queued.old) dirty.new }
{
    if idle {
        return;
    }
    let changed = u.0 as usize;
    if v == changed {
        return;
    }
    if is_woken(queued, dirty, changed, v) {
        return;
    }
    if may_hinder(list, group, u, s) {
        wake_at(changed, v, queued, dirty);
    }
}

// The same for a group of any kind. Where u is idle, it is known to leave the other object of a
// pair free.
fn wake_group<const K: usize>(
    list: &[AnyIndexical<K>],
    links: &Links,
    group: &Group,
    idle: bool,
    u: ObjId,
    s: &State<K>,
    queued: &mut [bool],
    dirty: &mut [Marks],
)
    requires fits { AllFit (map (λ x. x.cond) list.now) s.now }
    requires links { AreLinks (map (λ x. x.cond) list.now) (length queued.old) links.now }
    requires group { IsSomeGroup (map (λ x. x.cond) list.now) u.0 group.now }
    requires idle { IsTrue idle → (v : ObjId) → group.now.other ≡ Some v → (o : ℕ) → o ≢ u.0
        → UnhinderedBy (map (λ x. x.cond) list.now) s.now (IsInGroup group.now) o }
    requires object { (u.0 < length queued.old) × (length queued.old ≡ length s.now) }
    requires square { IsSquare (length queued.old) dirty.old }
    ensures queued { Queues (UnhinderedBy (map (λ x. x.cond) list.now) s.now (IsInGroup group.now))
        u.0 queued.old queued.new }
    ensures marked { MarksAt (UnhinderedBy (map (λ x. x.cond) list.now) s.now (IsInGroup group.now))
        u.0 dirty.old dirty.new }
    ensures square { IsSquare (length queued.old) dirty.new }
{
    match group.other {
        Some(v) => wake_one(list, group, idle, u, v.0 as usize, s, queued, dirty),
        None => wake_others(list, links, group, u, s, queued, dirty),
    }
}

// The same for each group of a row.
fn wake_row<const K: usize>(
    list: &[AnyIndexical<K>],
    links: &Links,
    groups: &[Group],
    idle: bool,
    u: ObjId,
    s: &State<K>,
    queued: &mut [bool],
    dirty: &mut [Marks],
)
    requires fits { AllFit (map (λ x. x.cond) list.now) s.now }
    requires links { AreLinks (map (λ x. x.cond) list.now) (length queued.old) links.now }
    requires groups { (k : ℕ) (g : Group) → slice_get groups.now k ≡ Some g
        → IsSomeGroup (map (λ x. x.cond) list.now) u.0 g }
    requires idle { IsTrue idle
        → LeavesPairsFree (map (λ x. x.cond) list.now) s.now u.0 groups.now }
    requires object { (u.0 < length queued.old) × (length queued.old ≡ length s.now) }
    requires square { IsSquare (length queued.old) dirty.old }
    ensures queued { Queues (UnhinderedBy (map (λ x. x.cond) list.now) s.now
        (HaveNumber groups.now)) u.0 queued.old queued.new }
    ensures marked { MarksAt (UnhinderedBy (map (λ x. x.cond) list.now) s.now
        (HaveNumber groups.now)) u.0 dirty.old dirty.new }
    ensures square { IsSquare (length queued.old) dirty.new }
{
    for k in 0..groups.len() {
        wake_group(list, links, &groups[k], idle, u, s, queued, dirty);
    }
}

// Whether u is idle: as the state has it, it leaves the other object of each pair of a row free, as
// far as it is known how near that one has to be.
fn is_row_idle<const K: usize>(
    _list: &[AnyIndexical<K>],
    rows: &Rows,
    r: usize,
    u: ObjId,
    s: &State<K>,
) -> bool
    requires k { K ≤ MAX_DIMS }
    requires fits { AllFit (map (λ x. x.cond) _list.now) s.now }
    requires rows { AreSomeRows (map (λ x. x.cond) _list.now) u.0 rows.now }
    requires object { u.0 < length s.now }
    ensures { IsTrue result → LeavesPairsFree (map (λ x. x.cond) _list.now) s.now u.0
        (row rows.now.rows.items r) }
{
    match rows.near(r) {
        Some(near) => near.is_idle(s, u),
        None => false,
    }
}

// The place that the object has alone, if there is one.
fn only_place<const K: usize>(s: &State<K>, u: ObjId) -> Option<u8>
    requires k { K ≤ MAX_DIMS }
    requires object { u.0 < length s.now }
    ensures { (r : ℕ) → is_only (reach s.now u.0).places r ≡ true → result ≡ Some r }
{
    let place = s.sole_place(u);
    if place == 0 { None } else { Some(place) }
}

// The same for the conditions that ask for a place of u: where u has not that place alone, they
// leave the others free.
fn wake_by_place<const K: usize>(
    list: &[AnyIndexical<K>],
    links: &Links,
    rows: &Rows,
    u: ObjId,
    s: &State<K>,
    queued: &mut [bool],
    dirty: &mut [Marks],
)
    requires k { K ≤ MAX_DIMS }
    requires fits { AllFit (map (λ x. x.cond) list.now) s.now }
    requires links { AreLinks (map (λ x. x.cond) list.now) (length queued.old) links.now }
    requires rows { AreSomeRows (map (λ x. x.cond) list.now) u.0 rows.now }
    requires object { (u.0 < length queued.old) × (length queued.old ≡ length s.now) }
    requires square { IsSquare (length queued.old) dirty.old }
    ensures queued { Queues (UnhinderedBy (map (λ x. x.cond) list.now) s.now
        (IsByPlace rows.now)) u.0 queued.old queued.new }
    ensures marked { MarksAt (UnhinderedBy (map (λ x. x.cond) list.now) s.now
        (IsByPlace rows.now)) u.0 dirty.old dirty.new }
    ensures square { IsSquare (length queued.old) dirty.new }
{
    if let Some(place) = only_place(s, u) {
        let groups = rows.row(usize::from(place));
        let idle = is_row_idle(list, rows, usize::from(place), u, s);
        wake_row(list, links, groups, idle, u, s, queued, dirty);
    }
}

/// Queues each object that a condition names with u, and marks u at it; but not those that u, as
/// the state has it, leaves free.
pub fn wake<const K: usize>(
    list: &[AnyIndexical<K>],
    links: &Links,
    u: usize,
    s: &State<K>,
    queued: &mut [bool],
    dirty: &mut [Marks],
)
    requires k { K ≤ MAX_DIMS }
    requires fits { AllFit (map (λ x. x.cond) list.now) s.now }
    requires links { AreLinks (map (λ x. x.cond) list.now) (length queued.old) links.now }
    requires object { (u < length queued.old) × (length queued.old ≡ length s.now) }
    requires square { IsSquare (length queued.old) dirty.old }
    ensures queued { Queues
        (Unhindered (map (λ x. x.cond) list.now) s.now u) u queued.old queued.new }
    ensures marked { MarksAt
        (Unhindered (map (λ x. x.cond) list.now) s.now u) u dirty.old dirty.new }
    ensures square { IsSquare (length queued.old) dirty.new }
{
    let _objects = s.objects();
    let changed = ObjId(u as u16);
    let rows = &links.rows[u];
    let idle = is_row_idle(list, rows, 0, changed, s);
    wake_row(list, links, rows.row(0), idle, changed, s, queued, dirty);
    wake_by_place(list, links, rows, changed, s, queued, dirty);
}
