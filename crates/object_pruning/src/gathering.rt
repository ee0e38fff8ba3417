//! The conditions that may be refuted somewhere with an object at a place, gathered once for a
//! sweep.

ghost use Rattle.std.specs.Prelude.{◌≡◌, ◌≢◌, ℕ, ◌+◌, ◌-◌, ◌<◌, ◌≤◌, true, false, length, map, slice_get, slice_set, Some, IfNone, IfSome, IsTrue, MatchOption};
ghost use Rattle.geo_base.specs.declared.kbox.KBox.{KBox};
ghost use Rattle.geo_conditions.specs.Conditions.{AllFit};
ghost use Rattle.sweep.specs.Picks.{ArePicks};
ghost use Rattle.geo_conditions.specs.Regions.{region_of};
ghost use Rattle.geo_state.specs.Trail.{HasSmallIntervals};
ghost use Rattle.object_pruning.specs.Gathered.{AreGathered, GoesOn, HoldParts, IsSolePlace};
ghost use Rattle.object_pruning.specs.InRows.{AreRows, AreSomeGroups, HaveNumber, IsSomeGroup};
ghost use Rattle.object_pruning.specs.Near.{IsNearRow};
ghost use Rattle.object_pruning.specs.Runs.{AreRuns, HaveBetween, IsInGroup, IsRun, row};

use crate::far::is_run_far;
use crate::near::Near;
use crate::rows::{Group, Rows, Run};
use geo_base::{KBox, MAX_DIMS};
use geo_conditions::{ObjId, State};
use indexical::{ForbiddenPart, Indexical};

/// How many conditions are gathered at most.
pub const GATHERED: usize = 256;

/// Of how many of them what they forbid is kept.
pub const PARTS: usize = 32;

/// No parts.
#[inline(always)]
pub fn no_parts<const K: usize>() -> [Option<KBox<K>>; PARTS]
    requires k { K ≤ MAX_DIMS }
    ensures { (j : ℕ) (part : KBox K) → slice_get result j ≡ Some (Some part) → ⊥ }
{
    [None; PARTS]
}

// Puts the number behind the first `count` ones of the list, and what it forbids, where there is
// room for that, and answers how many they are then. None where there is no room.
fn put_number<const K: usize>(
    number: u32,
    part: Option<KBox<K>>,
    live: &mut [u32],
    parts: &mut [Option<KBox<K>>],
    count: usize,
) -> Option<usize>
    requires room { count ≤ length live.old }
    ensures goes { IfSome result (λ n. (n ≡ count + 1) × (count < length live.old)
        × (live.new ≡ slice_set live.old count number)) }
    ensures parts { IfSome result (λ n. parts.new ≡ slice_set parts.old count part.entry) }
    ensures full { IfNone result ((live.new ≡ live.old) × (parts.new ≡ parts.old)) }
{
    if count == live.len() {
        return None;
    }
    live[count] = number;
    if count < parts.len() {
        parts[count] = part;
    }
    Some(count + 1)
}

// Adds the number to the first `count` ones of the list, where its condition forbids some of the
// region with the object at that place, or may do so, and answers how many they are then. None
// where there is no room. What it forbids is kept, where it is known and there is room for it.
fn gather_number<const K: usize, I: Indexical<K>>(
    s: &State<K>,
    o: ObjId,
    place: u8,
    region: &KBox<K>,
    list: &[I],
    number: u32,
    live: &mut [u32],
    parts: &mut [Option<KBox<K>>],
    count: usize,
) -> Option<usize>
    requires k { K ≤ MAX_DIMS }
    requires fits { AllFit (map I.cond list.now) s.now }
    requires object { o.0 < length s.now }
    requires number { (0 < number) × (number - 1 < length list.now) }
    requires room { count ≤ length live.old }
    requires parts { HoldParts K (map I.cond list.now) s.now o.0 place (region_of region.now)
        live.old parts.old }
    ensures goes { IfSome result (λ n. GoesOn K (map I.cond list.now) s.now o.0 place
        (region_of region.now) (λ i. i ≡ number) count live.old n live.new) }
    ensures parts { HoldParts K (map I.cond list.now) s.now o.0 place (region_of region.now)
        live.new parts.new }
{
    match list[number as usize - 1].forbidden_part(s, o, place, region) {
        ForbiddenPart::Nothing => Some(count),
        ForbiddenPart::Exactly(part) => put_number(number, Some(part), live, parts, count),
        ForbiddenPart::Unknown => put_number(number, None, live, parts, count),
    }
}

// The same for each number of a group.
fn gather_numbers<const K: usize, I: Indexical<K>>(
    s: &State<K>,
    o: ObjId,
    place: u8,
    region: &KBox<K>,
    list: &[I],
    group: &Group,
    live: &mut [u32],
    parts: &mut [Option<KBox<K>>],
    count: usize,
) -> Option<usize>
    requires k { K ≤ MAX_DIMS }
    requires fits { AllFit (map I.cond list.now) s.now }
    requires object { o.0 < length s.now }
    requires numbers { (i : ℕ) → IsInGroup group.now i → (0 < i) × (i - 1 < length list.now) }
    requires room { count ≤ length live.old }
    requires parts { HoldParts K (map I.cond list.now) s.now o.0 place (region_of region.now)
        live.old parts.old }
    ensures goes { IfSome result (λ n. GoesOn K (map I.cond list.now) s.now o.0 place
        (region_of region.now) (IsInGroup group.now) count live.old n live.new) }
    ensures parts { HoldParts K (map I.cond list.now) s.now o.0 place (region_of region.now)
        live.new parts.new }
{
    let mut gathered = count;
    let first = group.first as usize;
    let end = group.last as usize + 1;
    for i in first..end {
        gathered = gather_number(s, o, place, region, list, i as u32, live, parts, gathered)?;
    }
    Some(gathered)
}

/// The place that the other object of a run has alone; 0 where it has none alone. None where the
/// groups do not ask for places of it.
#[inline(always)]
pub fn sole_place_of<const K: usize>(s: &State<K>, run: &Run) -> Option<u8>
    requires k { K ≤ MAX_DIMS }
    requires other { IfSome run.now.other (λ u. u.0 < length s.now) }
    ensures sole { IsSolePlace s.now run.now.other result }
    ensures asks { IfSome result (λ p. run.now.asks ≡ true) }
{
    match run.other {
        Some(u) => {
            if run.asks {
                Some(s.sole_place(u))
            } else {
                None
            }
        }
        None => None,
    }
}

/// Whether the conditions of a group can be in the way, where it is told which place the other
/// object has alone.
#[inline(always)]
pub fn can_be_in_the_way(group: &Group, sole: Option<u8>) -> bool
    ensures { result ≡ false → MatchOption sole ⊥ (λ p.
        (group.now.other_place ≢ 0) × (group.now.other_place ≢ p)) }
{
    match sole {
        Some(place) => group.other_place == 0 || group.other_place == place,
        None => true,
    }
}

/// A group of a run. It is told which place its other object has alone, as that of the run.
#[inline(always)]
pub fn group_at<'a, const K: usize, I: Indexical<K>>(
    s: &State<K>,
    o: ObjId,
    list: &[I],
    groups: &'a [Group],
    run: &Run,
    sole: Option<u8>,
    k: usize,
) -> &'a Group
    requires fits { AllFit (map I.cond list.now) s.now }
    requires object { o.0 < length s.now }
    requires groups { AreSomeGroups (map I.cond list.now) o.0 groups.now }
    requires run { IsRun groups.now run.now.first run.now }
    requires sole { IsSolePlace s.now run.now.other sole }
    requires k { (run.now.first ≤ k) × (k < run.now.end) }
    ensures at { slice_get groups.now k ≡ Some result.now }
    ensures group { IsSomeGroup (map I.cond list.now) o.0 result.now }
    ensures numbers { (i : ℕ) → IsInGroup result.now i
        → (0 < i) × (i - 1 < length list.now) }
    ensures sole { IsSolePlace s.now result.now.other sole }
{
    &groups[k]
}

/// A run of a row. Its other object is there, if it has one.
#[inline(always)]
pub fn run_at<'a, const K: usize, I: Indexical<K>>(
    s: &State<K>,
    o: ObjId,
    list: &[I],
    groups: &[Group],
    runs: &'a [Run],
    j: usize,
) -> &'a Run
    requires fits { AllFit (map I.cond list.now) s.now }
    requires object { o.0 < length s.now }
    requires groups { AreSomeGroups (map I.cond list.now) o.0 groups.now }
    requires runs { AreRuns groups.now runs.now }
    requires j { j < length runs.now }
    ensures at { slice_get runs.now j ≡ Some result.now }
    ensures run { IsRun groups.now result.now.first result.now }
    ensures other { IfSome result.now.other (λ u. u.0 < length s.now) }
{
    &runs[j]
}

/// The groups of a row and their runs: each is a group of some row.
#[inline(always)]
pub fn row_at<'a, const K: usize, I: Indexical<K>>(
    s: &State<K>,
    o: ObjId,
    list: &[I],
    picks: &[u32],
    rows: &'a Rows,
    r: usize,
) -> (&'a [Group], &'a [Run])
    requires fits { AllFit (map I.cond list.now) s.now }
    requires object { o.0 < length s.now }
    requires picks { ArePicks (length list.now) picks.now }
    requires rows { AreRows (map I.cond list.now) o.0 picks.now rows.now }
    ensures row { result.0.now ≡ row rows.now.rows.items r }
    ensures groups { AreSomeGroups (map I.cond list.now) o.0 result.0.now }
    ensures runs { AreRuns result.0.now result.1.now }
{
    (rows.row(r), rows.runs(r))
}

/// How near the other object of a pair of a row has to be, where it is known for all dimensions.
pub fn near_at<'a, const K: usize, I: Indexical<K>>(
    o: ObjId,
    list: &[I],
    picks: &[u32],
    rows: &'a Rows,
    r: usize,
) -> Option<&'a Near>
    requires rows { AreRows (map I.cond list.now) o.0 picks.now rows.now }
    ensures dims { IfSome result (λ n. n.now.dims ≡ K) }
    ensures near { IfSome result (λ n.
        IsNearRow (map I.cond list.now) o.0 (row rows.now.rows.items r) n.now) }
{
    match rows.near(r) {
        Some(near) if near.dims == K => Some(near),
        _ => None,
    }
}

// The same for a group, of which nothing is gathered where its conditions cannot be in the way.
fn gather_group<const K: usize, I: Indexical<K>>(
    s: &State<K>,
    o: ObjId,
    place: u8,
    region: &KBox<K>,
    list: &[I],
    group: &Group,
    sole: Option<u8>,
    live: &mut [u32],
    parts: &mut [Option<KBox<K>>],
    count: usize,
) -> Option<usize>
    requires k { K ≤ MAX_DIMS }
    requires fits { AllFit (map I.cond list.now) s.now }
    requires object { o.0 < length s.now }
    requires group { IsSomeGroup (map I.cond list.now) o.0 group.now }
    requires numbers { (i : ℕ) → IsInGroup group.now i → (0 < i) × (i - 1 < length list.now) }
    requires sole { IsSolePlace s.now group.now.other sole }
    requires room { count ≤ length live.old }
    requires parts { HoldParts K (map I.cond list.now) s.now o.0 place (region_of region.now)
        live.old parts.old }
    ensures goes { IfSome result (λ n. GoesOn K (map I.cond list.now) s.now o.0 place
        (region_of region.now) (IsInGroup group.now) count live.old n live.new) }
    ensures parts { HoldParts K (map I.cond list.now) s.now o.0 place (region_of region.now)
        live.new parts.new }
{
    if !can_be_in_the_way(group, sole) {
        return Some(count);
    }
    gather_numbers(s, o, place, region, list, group, live, parts, count)
}

// The same for each group of a run.
fn gather_groups<const K: usize, I: Indexical<K>>(
    s: &State<K>,
    o: ObjId,
    place: u8,
    region: &KBox<K>,
    list: &[I],
    groups: &[Group],
    run: &Run,
    sole: Option<u8>,
    live: &mut [u32],
    parts: &mut [Option<KBox<K>>],
    count: usize,
) -> Option<usize>
    requires k { K ≤ MAX_DIMS }
    requires fits { AllFit (map I.cond list.now) s.now }
    requires object { o.0 < length s.now }
    requires groups { AreSomeGroups (map I.cond list.now) o.0 groups.now }
    requires run { IsRun groups.now run.now.first run.now }
    requires sole { IsSolePlace s.now run.now.other sole }
    requires room { count ≤ length live.old }
    requires parts { HoldParts K (map I.cond list.now) s.now o.0 place (region_of region.now)
        live.old parts.old }
    ensures goes { IfSome result (λ n. GoesOn K (map I.cond list.now) s.now o.0 place
        (region_of region.now) (HaveBetween groups.now run.now.first run.now.end)
        count live.old n live.new) }
    ensures parts { HoldParts K (map I.cond list.now) s.now o.0 place (region_of region.now)
        live.new parts.new }
{
    let mut gathered = count;
    for k in run.first..run.end {
        let group = group_at(s, o, list, groups, run, sole, k);
        gathered = gather_group(
            s, o, place, region, list, group, sole, live, parts, gathered,
        )?;
    }
    Some(gathered)
}

/// Whether no group of a run can be in the way: all ask for a place, and the other object has none
/// alone.
pub fn is_passed_over(sole: Option<u8>) -> bool
    ensures { IsTrue result → sole ≡ Some 0 }
{
    match sole {
        Some(place) => place == 0,
        None => false,
    }
}

// The same. All groups are passed over at once where none can be in the way: none asks for the
// place that the other object has alone, or that one is nowhere near the region.
fn gather_run<const K: usize, I: Indexical<K>>(
    s: &State<K>,
    o: ObjId,
    place: u8,
    region: &KBox<K>,
    list: &[I],
    groups: &[Group],
    run: &Run,
    near: Option<&Near>,
    live: &mut [u32],
    parts: &mut [Option<KBox<K>>],
    count: usize,
) -> Option<usize>
    requires k { K ≤ MAX_DIMS }
    requires fits { AllFit (map I.cond list.now) s.now }
    requires object { o.0 < length s.now }
    requires groups { AreSomeGroups (map I.cond list.now) o.0 groups.now }
    requires run { IsRun groups.now run.now.first run.now }
    requires other { IfSome run.now.other (λ u. u.0 < length s.now) }
    requires small { HasSmallIntervals s.now }
    requires dims { IfSome near (λ n. n.now.dims ≡ K) }
    requires near { IfSome near (λ n.
        IsNearRow (map I.cond list.now) o.0 groups.now n.now) }
    requires room { count ≤ length live.old }
    requires parts { HoldParts K (map I.cond list.now) s.now o.0 place (region_of region.now)
        live.old parts.old }
    ensures goes { IfSome result (λ n. GoesOn K (map I.cond list.now) s.now o.0 place
        (region_of region.now) (HaveBetween groups.now run.now.first run.now.end)
        count live.old n live.new) }
    ensures parts { HoldParts K (map I.cond list.now) s.now o.0 place (region_of region.now)
        live.new parts.new }
{
    let sole = sole_place_of(s, run);
    if is_passed_over(sole) {
        return Some(count);
    }
    if is_run_far(s, run, near, region) {
        return Some(count);
    }
    gather_groups(
        s, o, place, region, list, groups, run, sole, live, parts, count,
    )
}

// The same for each run of a row.
fn gather_row<const K: usize, I: Indexical<K>>(
    s: &State<K>,
    o: ObjId,
    place: u8,
    region: &KBox<K>,
    list: &[I],
    groups: &[Group],
    runs: &[Run],
    near: Option<&Near>,
    live: &mut [u32],
    parts: &mut [Option<KBox<K>>],
    count: usize,
) -> Option<usize>
    requires k { K ≤ MAX_DIMS }
    requires fits { AllFit (map I.cond list.now) s.now }
    requires object { o.0 < length s.now }
    requires groups { AreSomeGroups (map I.cond list.now) o.0 groups.now }
    requires runs { AreRuns groups.now runs.now }
    requires small { HasSmallIntervals s.now }
    requires dims { IfSome near (λ n. n.now.dims ≡ K) }
    requires near { IfSome near (λ n.
        IsNearRow (map I.cond list.now) o.0 groups.now n.now) }
    requires room { count ≤ length live.old }
    requires parts { HoldParts K (map I.cond list.now) s.now o.0 place (region_of region.now)
        live.old parts.old }
    ensures goes { IfSome result (λ n. GoesOn K (map I.cond list.now) s.now o.0 place
        (region_of region.now) (HaveNumber groups.now) count live.old n live.new) }
    ensures parts { HoldParts K (map I.cond list.now) s.now o.0 place (region_of region.now)
        live.new parts.new }
{
    let mut gathered = count;
    for j in 0..runs.len() {
        let run = run_at(s, o, list, groups, runs, j);
        gathered = gather_run(
            s, o, place, region, list, groups, run, near, live, parts, gathered,
        )?;
    }
    Some(gathered)
}

// Gathers by rows: the row of the place, and the one of no place.
fn gather_by_rows<const K: usize, I: Indexical<K>>(
    s: &State<K>,
    o: ObjId,
    place: u8,
    region: &KBox<K>,
    list: &[I],
    picks: &[u32],
    rows: &Rows,
    live: &mut [u32],
    parts: &mut [Option<KBox<K>>],
) -> Option<usize>
    requires k { K ≤ MAX_DIMS }
    requires fits { AllFit (map I.cond list.now) s.now }
    requires object { o.0 < length s.now }
    requires picks { ArePicks (length list.now) picks.now }
    requires rows { AreRows (map I.cond list.now) o.0 picks.now rows.now }
    requires small { HasSmallIntervals s.now }
    requires parts { HoldParts K (map I.cond list.now) s.now o.0 place (region_of region.now)
        live.old parts.old }
    ensures room { IfSome result (λ n. n ≤ length live.new) }
    ensures gathered { IfSome result (λ n.
        AreGathered K (map I.cond list.now) s.now o.0 place
        (region_of region.now) picks.now n live.new) }
    ensures parts { HoldParts K (map I.cond list.now) s.now o.0 place (region_of region.now)
        live.new parts.new }
{
    let any = row_at(s, o, list, picks, rows, 0);
    let near_any = near_at(o, list, picks, rows, 0);
    let count = gather_row(
        s, o, place, region, list, any.0, any.1, near_any, live, parts, 0,
    )?;
    let r = usize::from(place);
    let own = row_at(s, o, list, picks, rows, r);
    let near_own = near_at(o, list, picks, rows, r);
    gather_row(
        s, o, place, region, list, own.0, own.1, near_own, live, parts, count,
    )
}

// Gathers by going over all picks.
fn gather_all<const K: usize, I: Indexical<K>>(
    s: &State<K>,
    o: ObjId,
    place: u8,
    region: &KBox<K>,
    list: &[I],
    picks: &[u32],
    live: &mut [u32],
    parts: &mut [Option<KBox<K>>],
) -> Option<usize>
    requires k { K ≤ MAX_DIMS }
    requires fits { AllFit (map I.cond list.now) s.now }
    requires object { o.0 < length s.now }
    requires picks { ArePicks (length list.now) picks.now }
    requires parts { HoldParts K (map I.cond list.now) s.now o.0 place (region_of region.now)
        live.old parts.old }
    ensures room { IfSome result (λ n. n ≤ length live.new) }
    ensures gathered { IfSome result (λ n.
        AreGathered K (map I.cond list.now) s.now o.0 place
        (region_of region.now) picks.now n live.new) }
    ensures parts { HoldParts K (map I.cond list.now) s.now o.0 place (region_of region.now)
        live.new parts.new }
{
    let mut count: usize = 0;
    for k in 0..picks.len() {
        let number = picks[k];
        count = gather_number(s, o, place, region, list, number, live, parts, count)?;
    }
    Some(count)
}

/// Gathers the picks whose conditions forbid some of the region with the object at that place, or
/// may do so, and answers how many they are. None where there is not room for so many. Of the first
/// ones what they forbid is kept, where it is known.
pub fn gather<const K: usize, I: Indexical<K>>(
    s: &State<K>,
    o: ObjId,
    place: u8,
    region: &KBox<K>,
    list: &[I],
    picks: &[u32],
    rows: Option<&Rows>,
    live: &mut [u32],
    parts: &mut [Option<KBox<K>>],
) -> Option<usize>
    requires k { K ≤ MAX_DIMS }
    requires fits { AllFit (map I.cond list.now) s.now }
    requires object { o.0 < length s.now }
    requires picks { ArePicks (length list.now) picks.now }
    requires rows { IfSome rows (λ r. AreRows (map I.cond list.now) o.0 picks.now r.now) }
    requires small { HasSmallIntervals s.now }
    requires parts { HoldParts K (map I.cond list.now) s.now o.0 place (region_of region.now)
        live.old parts.old }
    ensures room { IfSome result (λ n. n ≤ length live.new) }
    ensures gathered { IfSome result (λ n.
        AreGathered K (map I.cond list.now) s.now o.0 place
        (region_of region.now) picks.now n live.new) }
    ensures parts { HoldParts K (map I.cond list.now) s.now o.0 place (region_of region.now)
        live.new parts.new }
{
    match rows {
        Some(rows) => gather_by_rows(s, o, place, region, list, picks, rows, live, parts),
        None => gather_all(s, o, place, region, list, picks, live, parts),
    }
}
