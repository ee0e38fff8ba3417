//! Points that are kept of the objects, and asked again where something changed.

ghost use Rattle.std.specs.Prelude.{◌≡◌, ◌≢◌, ℕ, ◌+◌, ◌-◌, ◌*◌, ◌<◌, ◌≤◌, Bool, true, false, List, None, Some, length, map, slice_get, slice_index_or, IfOk, IsTrue, MatchOption};
ghost use Rattle.std.specs.List.{All, list_any};
ghost use Rattle.geo_conditions.specs.declared.cond.Cond.{Cond};
ghost use Rattle.geo_conditions.specs.Conditions.{AllFit};
ghost use Rattle.geo_conditions.specs.Reach.{reach, is_only};
ghost use Rattle.object_pruning.specs.Kept.{retried};
ghost use Rattle.object_pruning.specs.InRows.{IsInGroup};
ghost use Rattle.fixpoint.specs.Links.{AreLinks, NamedBy};
ghost use Rattle.fixpoint.specs.declared.pairs.RowGroup.{RowGroup};
ghost use Rattle.fixpoint.specs.Pairs.{AreSomePairs, HaveBeside, HaveIn, IsGroupOf};
ghost use Rattle.fixpoint.specs.Links.{row};
ghost use Rattle.fixpoint.specs.declared.partners.Partners.{Partners};
ghost use Rattle.fixpoint.specs.Partners.{ArePartners, HasNumber, HaveMarked};
ghost use Rattle.fixpoint.specs.Kept.{AllStand, AsksSlot, IsBlank, IsKnown, RetriesMarked, RetriesThose, Stand, StandBut, StandsAlone, at_most_0};
ghost use Rattle.fixpoint.specs.Marks.{IsCleared, IsSquare};
ghost use Rattle.watches.specs.Watches.{Hold};

use crate::links::Links;
use crate::marks::Marks;
use crate::pairs::{Pairs, RowGroup};
use geo_base::MAX_DIMS;
use geo_conditions::{MAX_SHAPES, ObjId, State};
use indexical::{AnyIndexical, SoleTerm};
use object_pruning::{Group, Placed, Rows, are_possible, is_same_point, retry, slots};
use std::alloc::{AllocError, Global};
use watches::Watches;

// The last place that a condition asks for; the first one where none does.
fn last_asked(rows: &Rows) -> usize
    ensures { (1 ≤ result) × (result ≤ MAX_SHAPES) }
{
    let mut last = 1;
    for before in 1..MAX_SHAPES {
        if !rows.row(before + 1).is_empty() {
            last = before + 1;
        }
    }
    last
}

// How many slots an object has: as far as that place, since those of the places come last.
fn slots_asked<const K: usize>(rows: &Rows) -> usize
    requires { K ≤ MAX_DIMS }
    ensures { 2 * K < result }
{
    slots::<K>() - MAX_SHAPES + last_asked(rows)
}

/// That many slots, with nothing kept. The answer is an error where memory is short.
pub fn blank_slots<const K: usize>(
    alloc: Global,
    count: usize,
) -> Result<Vec<Option<Placed<K>>>, AllocError>
    ensures { IfOk result (λ v. (i : ℕ) → slice_index_or v.items i None ≡ None) }
{
    let mut blank = Vec::new(alloc);
    for _ in 0..count {
        blank.push(None)?;
    }
    Ok(blank)
}

/// The slots of each object, with nothing kept. The answer is an error where memory is short.
pub fn all_blank<const K: usize>(
    alloc: Global,
    rows: &[Rows],
) -> Result<Vec<Vec<Option<Placed<K>>>>, AllocError>
    requires { K ≤ MAX_DIMS }
    ensures { IfOk result (λ v. (length v.items ≡ length rows.now) × IsBlank v.items) }
{
    let mut kept = Vec::new(alloc);
    for o in 0..rows.len() {
        let count = slots_asked::<K>(&rows[o]);
        kept.push(blank_slots(alloc, count)?)?;
    }
    Ok(kept)
}

// Forgets what is kept in a slot where a form that has one coordinate of the object is refuted.
fn retry_point<const K: usize>(slot: &mut Option<Placed<K>>, sole: &SoleTerm<K>)
    ensures { slot.new ≡ at_most_0 sole.now slot.old }
{
    if let Some(q) = slot {
        if !sole.is_possible_at(&q.point) {
            *slot = None;
        }
    }
}

// The same for all slots of the object.
fn retry_sole<const K: usize>(kept: &mut [Option<Placed<K>>], sole: &SoleTerm<K>)
    ensures { kept.new ≡ map (at_most_0 sole.now) kept.old }
{
    for slot in kept.iter_mut() {
        retry_point(slot, sole);
    }
}

// Asks the i-th condition again at what is kept of the object, and forgets where it is refuted.
// Where it surely spares the object, there is nothing to ask. The other terms of a form are not
// asked at each point.
fn retry_watched<const K: usize>(
    list: &[AnyIndexical<K>],
    i: usize,
    o: ObjId,
    s: &State<K>,
    watches: &mut Watches,
    kept: &mut [Option<Placed<K>>],
)
    requires k { K ≤ MAX_DIMS }
    requires fits { AllFit (map (λ x. x.cond) list.now) s.now }
    requires object { o.0 < length s.now }
    requires condition { i < length list.now }
    requires hold { Hold (map (λ x. x.cond) list.now) s.now watches.old }
    ensures kept { (c : Cond) → kept.new
        ≡ map (retried (slice_index_or (map (λ x. x.cond) list.now) i c) s.now o.0) kept.old }
    ensures hold { Hold (map (λ x. x.cond) list.now) s.now watches.new }
{
    if let Some(sole) = watches.sole_term(list, i, s, o) {
        retry_sole(kept, &sole);
        return;
    }
    if watches.surely_spares(list, i, s, o) {
        return;
    }
    retry(kept, s, o, &list[i]);
}

// Whether one of the objects is marked.
fn is_any_marked(list: &[ObjId], marks: &[bool]) -> bool
    requires { All (λ o. o.0 < length marks.now) list.now }
    ensures { result ≡ list_any (λ o. slice_index_or marks.now o.0 false) list.now }
{
    for o in list {
        if marks[o.0 as usize] {
            return true;
        }
    }
    false
}

// Asks the i-th condition again at what is kept of the object, if it names a marked one.
#[inline(never)]
fn retry_marked<const K: usize>(
    list: &[AnyIndexical<K>],
    i: usize,
    named: &[ObjId],
    marks: &[bool],
    o: ObjId,
    s: &State<K>,
    watches: &mut Watches,
    kept: &mut [Option<Placed<K>>],
)
    requires k { K ≤ MAX_DIMS }
    requires fits { AllFit (map (λ x. x.cond) list.now) s.now }
    requires object { o.0 < length s.now }
    requires condition { i < length list.now }
    requires marks { length marks.now ≡ length s.now }
    requires named { (c : Cond) → NamedBy (slice_index_or (map (λ x. x.cond) list.now) i c)
        (length s.now) named.now }
    requires hold { Hold (map (λ x. x.cond) list.now) s.now watches.old }
    ensures kept { (c : Cond) → RetriesMarked (slice_index_or (map (λ x. x.cond) list.now) i c)
        s.now o.0 marks.now kept.old kept.new }
    ensures hold { Hold (map (λ x. x.cond) list.now) s.now watches.new }
{
    if is_any_marked(named, marks) {
        retry_watched(list, i, o, s, watches, kept);
    }
}

// Asks the condition of that number again, if it names a marked object. One that rests on two
// others, which did not change since that was found, is not asked.
#[inline(always)]
fn retry_number<const K: usize>(
    list: &[AnyIndexical<K>],
    links: &Links,
    o: ObjId,
    s: &State<K>,
    marks: &[bool],
    number: u32,
    watches: &mut Watches,
    kept: &mut [Option<Placed<K>>],
)
    requires k { K ≤ MAX_DIMS }
    requires fits { AllFit (map (λ x. x.cond) list.now) s.now }
    requires links { AreLinks (map (λ x. x.cond) list.now) (length s.now) links.now }
    requires object { (o.0 < length s.now) × (length marks.now ≡ length s.now) }
    requires number { (0 < number) × (number - 1 < length list.now) }
    requires hold { Hold (map (λ x. x.cond) list.now) s.now watches.old }
    ensures kept { RetriesThose (map (λ x. x.cond) list.now) s.now o.0 marks.now
        (λ i. i ≡ number) kept.old kept.new }
    ensures hold { Hold (map (λ x. x.cond) list.now) s.now watches.new }
{
    let i = number as usize - 1;
    if watches.is_known_to_spare(i, o) {
        return;
    }
    let named = links.named[i].as_slice();
    retry_marked(list, i, named, marks, o, s, watches, kept);
}

// Asks the conditions of a group again that name a marked object.
fn retry_group<const K: usize>(
    list: &[AnyIndexical<K>],
    links: &Links,
    group: &Group,
    o: ObjId,
    s: &State<K>,
    marks: &[bool],
    watches: &mut Watches,
    kept: &mut [Option<Placed<K>>],
)
    requires k { K ≤ MAX_DIMS }
    requires fits { AllFit (map (λ x. x.cond) list.now) s.now }
    requires links { AreLinks (map (λ x. x.cond) list.now) (length s.now) links.now }
    requires object { (o.0 < length s.now) × (length marks.now ≡ length s.now) }
    requires numbers { (i : ℕ) → IsInGroup group.now i → (0 < i) × (i - 1 < length list.now) }
    requires hold { Hold (map (λ x. x.cond) list.now) s.now watches.old }
    ensures kept { RetriesThose (map (λ x. x.cond) list.now) s.now o.0 marks.now
        (IsInGroup group.now) kept.old kept.new }
    ensures hold { Hold (map (λ x. x.cond) list.now) s.now watches.new }
{
    let first = group.first as usize;
    let end = group.last as usize + 1;
    for i in first..end {
        retry_number(list, links, o, s, marks, i as u32, watches, kept);
    }
}

// The same for each of the groups.
fn ask_others<const K: usize>(
    list: &[AnyIndexical<K>],
    links: &Links,
    others: &[RowGroup],
    o: ObjId,
    s: &State<K>,
    marks: &[bool],
    watches: &mut Watches,
    kept: &mut [Option<Placed<K>>],
)
    requires k { K ≤ MAX_DIMS }
    requires fits { AllFit (map (λ x. x.cond) list.now) s.now }
    requires links { AreLinks (map (λ x. x.cond) list.now) (length s.now) links.now }
    requires object { (o.0 < length s.now) × (length marks.now ≡ length s.now) }
    requires numbers { (i : ℕ) → HaveIn others.now i → (0 < i) × (i - 1 < length list.now) }
    requires hold { Hold (map (λ x. x.cond) list.now) s.now watches.old }
    ensures kept { RetriesThose (map (λ x. x.cond) list.now) s.now o.0 marks.now
        (HaveIn others.now) kept.old kept.new }
    ensures hold { Hold (map (λ x. x.cond) list.now) s.now watches.new }
{
    for k in 0..others.len() {
        retry_group(list, links, &others[k].group, o, s, marks, watches, kept);
    }
}

// Whether that point is the one.
fn is_known<const K: usize>(known: &Option<Placed<K>>, q: &Placed<K>) -> bool
    ensures { IsTrue result → known.now ≡ Some q.now }
{
    match known {
        Some(p) => is_same_point(p, q),
        None => false,
    }
}

// Forgets what is kept in a slot where a condition of the group is refuted. Those of a row of a
// place ask for that place of the object. The last point at which they were all possible is known,
// and not asked again.
fn ask_slot<const K: usize>(
    list: &[AnyIndexical<K>],
    r: usize,
    group: &Group,
    o: ObjId,
    s: &State<K>,
    known: &mut Option<Placed<K>>,
    slot: &mut Option<Placed<K>>,
)
    requires k { K ≤ MAX_DIMS }
    requires fits { AllFit (map (λ x. x.cond) list.now) s.now }
    requires object { o.0 < length s.now }
    requires group { IsGroupOf (map (λ x. x.cond) list.now) o.0 r group.now }
    requires known { IsKnown (map (λ x. x.cond) list.now) s.now o.0 (IsInGroup group.now)
        known.old }
    ensures asks { AsksSlot (map (λ x. x.cond) list.now) s.now o.0 (IsInGroup group.now)
        slot.old slot.new }
    ensures known { IsKnown (map (λ x. x.cond) list.now) s.now o.0 (IsInGroup group.now)
        known.new }
{
    if let Some(q) = slot {
        if r != 0 && r != usize::from(q.place) {
            return;
        }
        if is_known(known, q) {
            return;
        }
        if are_possible(s, o, q, list, group) {
            *known = Some(*q);
        } else {
            *slot = None;
        }
    }
}

// The same for all slots of the object.
#[inline(never)]
fn ask_slots<const K: usize>(
    list: &[AnyIndexical<K>],
    r: usize,
    group: &Group,
    o: ObjId,
    s: &State<K>,
    kept: &mut [Option<Placed<K>>],
)
    requires k { K ≤ MAX_DIMS }
    requires fits { AllFit (map (λ x. x.cond) list.now) s.now }
    requires object { o.0 < length s.now }
    requires group { IsGroupOf (map (λ x. x.cond) list.now) o.0 r group.now }
    ensures { (marks : List Bool) → RetriesThose (map (λ x. x.cond) list.now) s.now o.0 marks
        (IsInGroup group.now) kept.old kept.new }
{
    let mut known = None;
    for i in 0..kept.len() {
        ask_slot(list, r, group, o, s, &mut known, &mut kept[i]);
    }
}

// Whether the conditions of a group can be in the way, where that is the place which u has alone,
// or 0.
#[inline(always)]
fn can_be_in_the_way(group: &Group, u: ObjId, sole: u8) -> bool
    ensures { result ≡ false → MatchOption group.now.other ⊥ (λ v. (v.0 ≡ u.0)
        × (group.now.other_place ≢ 0) × (group.now.other_place ≢ sole)) }
{
    match group.other {
        Some(v) => group.other_place == 0 || group.other_place == sole || v.0 != u.0,
        None => true,
    }
}

// The same, of which nothing is asked where the conditions cannot be in the way.
fn ask_group<const K: usize>(
    list: &[AnyIndexical<K>],
    b: &RowGroup,
    o: ObjId,
    u: ObjId,
    sole: u8,
    s: &State<K>,
    kept: &mut [Option<Placed<K>>],
)
    requires k { K ≤ MAX_DIMS }
    requires fits { AllFit (map (λ x. x.cond) list.now) s.now }
    requires object { o.0 < length s.now }
    requires sole { (place : ℕ) → is_only (reach s.now u.0).places place ≡ true
        → place ≡ sole }
    requires group { IsGroupOf (map (λ x. x.cond) list.now) o.0 b.now.row b.now.group }
    ensures { (marks : List Bool) → RetriesThose (map (λ x. x.cond) list.now) s.now o.0 marks
        (IsInGroup b.now.group) kept.old kept.new }
{
    if !can_be_in_the_way(&b.group, u, sole) {
        return;
    }
    ask_slots(list, b.row, &b.group, o, s, kept);
}

// The same for each of the groups, which mostly name u.
#[inline(never)]
fn ask_groups<const K: usize>(
    list: &[AnyIndexical<K>],
    groups: &[RowGroup],
    o: ObjId,
    u: usize,
    s: &State<K>,
    kept: &mut [Option<Placed<K>>],
)
    requires k { K ≤ MAX_DIMS }
    requires fits { AllFit (map (λ x. x.cond) list.now) s.now }
    requires object { (o.0 < length s.now) × (u < length s.now) }
    requires groups { (k : ℕ) (b : RowGroup) → slice_get groups.now k ≡ Some b
        → IsGroupOf (map (λ x. x.cond) list.now) o.0 b.row b.group }
    ensures { (marks : List Bool) → RetriesThose (map (λ x. x.cond) list.now) s.now o.0 marks
        (HaveIn groups.now) kept.old kept.new }
{
    let _objects = s.objects();
    let neighbour = ObjId(u as u16);
    let sole = s.sole_place(neighbour);
    for k in 0..groups.len() {
        ask_group(list, &groups[k], o, neighbour, sole, s, kept);
    }
}

// The same for the groups of each object.
fn ask_all<const K: usize>(
    list: &[AnyIndexical<K>],
    pairs: &Pairs,
    o: ObjId,
    s: &State<K>,
    kept: &mut [Option<Placed<K>>],
)
    requires k { K ≤ MAX_DIMS }
    requires fits { AllFit (map (λ x. x.cond) list.now) s.now }
    requires object { o.0 < length s.now }
    requires pairs { AreSomePairs (map (λ x. x.cond) list.now) o.0 (length s.now) pairs.now }
    ensures { (marks : List Bool) → RetriesThose (map (λ x. x.cond) list.now) s.now o.0 marks
        (HaveBeside pairs.now.beside.items) kept.old kept.new }
{
    for u in 0..pairs.beside.len() {
        ask_groups(list, &pairs.beside[u], o, u, s, kept);
    }
}

// Asks at the groups of each marked object, where the object itself is not marked.
fn ask_marked<const K: usize>(
    list: &[AnyIndexical<K>],
    pairs: &Pairs,
    o: ObjId,
    s: &State<K>,
    marks: &Marks,
    kept: &mut [Option<Placed<K>>],
)
    requires k { K ≤ MAX_DIMS }
    requires fits { AllFit (map (λ x. x.cond) list.now) s.now }
    requires object { (o.0 < length s.now) × (length marks.now ≡ length s.now) }
    requires own { slice_index_or marks.now o.0 false ≡ false }
    requires pairs { AreSomePairs (map (λ x. x.cond) list.now) o.0 (length s.now) pairs.now }
    ensures { RetriesThose (map (λ x. x.cond) list.now) s.now o.0 marks.now
        (HaveBeside pairs.now.beside.items) kept.old kept.new }
{
    let mut u = marks.next(0);
    while u < pairs.beside.len() {
        ask_groups(list, &pairs.beside[u], o, u, s, kept);
        u = marks.next(u + 1);
    }
}

// The same for the groups of each marked object, or of each one where the object itself is marked.
fn ask_pairs<const K: usize>(
    list: &[AnyIndexical<K>],
    pairs: &Pairs,
    o: ObjId,
    s: &State<K>,
    marks: &Marks,
    kept: &mut [Option<Placed<K>>],
)
    requires k { K ≤ MAX_DIMS }
    requires fits { AllFit (map (λ x. x.cond) list.now) s.now }
    requires object { (o.0 < length s.now) × (length marks.now ≡ length s.now) }
    requires pairs { AreSomePairs (map (λ x. x.cond) list.now) o.0 (length s.now) pairs.now }
    ensures { RetriesThose (map (λ x. x.cond) list.now) s.now o.0 marks.now
        (HaveBeside pairs.now.beside.items) kept.old kept.new }
{
    if marks.has(o.0 as usize) {
        ask_all(list, pairs, o, s, kept);
    } else {
        ask_marked(list, pairs, o, s, marks, kept);
    }
}

// Asks the conditions of those numbers again that name a marked object.
fn retry_numbers<const K: usize>(
    list: &[AnyIndexical<K>],
    links: &Links,
    numbers: &[u32],
    o: ObjId,
    s: &State<K>,
    marks: &[bool],
    watches: &mut Watches,
    kept: &mut [Option<Placed<K>>],
)
    requires k { K ≤ MAX_DIMS }
    requires fits { AllFit (map (λ x. x.cond) list.now) s.now }
    requires links { AreLinks (map (λ x. x.cond) list.now) (length s.now) links.now }
    requires object { (o.0 < length s.now) × (length marks.now ≡ length s.now) }
    requires numbers { (i : ℕ) → HasNumber numbers.now i
        → (0 < i) × (i - 1 < length list.now) }
    requires hold { Hold (map (λ x. x.cond) list.now) s.now watches.old }
    ensures kept { RetriesThose (map (λ x. x.cond) list.now) s.now o.0 marks.now
        (HasNumber numbers.now) kept.old kept.new }
    ensures hold { Hold (map (λ x. x.cond) list.now) s.now watches.new }
{
    for k in 0..numbers.len() {
        retry_number(list, links, o, s, marks, numbers[k], watches, kept);
    }
}

// The same for the numbers of each marked object.
fn ask_few<const K: usize>(
    list: &[AnyIndexical<K>],
    links: &Links,
    few: &[Vec<u32>],
    o: ObjId,
    s: &State<K>,
    marks: &Marks,
    watches: &mut Watches,
    kept: &mut [Option<Placed<K>>],
)
    requires k { K ≤ MAX_DIMS }
    requires fits { AllFit (map (λ x. x.cond) list.now) s.now }
    requires links { AreLinks (map (λ x. x.cond) list.now) (length s.now) links.now }
    requires object { (o.0 < length s.now) × (length marks.now ≡ length s.now) }
    requires few { length few.now ≤ length s.now }
    requires numbers { (u i : ℕ) → HasNumber (row few.now u) i
        → (0 < i) × (i - 1 < length list.now) }
    requires hold { Hold (map (λ x. x.cond) list.now) s.now watches.old }
    ensures kept { RetriesThose (map (λ x. x.cond) list.now) s.now o.0 marks.now
        (HaveMarked marks.now few.now) kept.old kept.new }
    ensures hold { Hold (map (λ x. x.cond) list.now) s.now watches.new }
{
    let marked = marks.as_slice();
    let mut u = marks.next(0);
    while u < few.len() {
        retry_numbers(list, links, &few[u], o, s, marked, watches, kept);
        u = marks.next(u + 1);
    }
}

// Asks the conditions of those groups again that name a marked object. Where the object itself is
// not marked, those that name few are found by the marked ones.
fn ask_partners<const K: usize>(
    list: &[AnyIndexical<K>],
    links: &Links,
    others: &[RowGroup],
    o: ObjId,
    s: &State<K>,
    marks: &Marks,
    watches: &mut Watches,
    kept: &mut [Option<Placed<K>>],
)
    requires k { K ≤ MAX_DIMS }
    requires fits { AllFit (map (λ x. x.cond) list.now) s.now }
    requires links { AreLinks (map (λ x. x.cond) list.now) (length s.now) links.now }
    requires object { (o.0 < length s.now) × (length marks.now ≡ length s.now) }
    requires numbers { (i : ℕ) → HaveIn others.now i → (0 < i) × (i - 1 < length list.now) }
    requires partners { (d : Partners) → ArePartners links.now.named.items o.0 (length s.now)
        (HaveIn others.now) (slice_index_or links.now.partners.items o.0 d) }
    requires hold { Hold (map (λ x. x.cond) list.now) s.now watches.old }
    ensures kept { RetriesThose (map (λ x. x.cond) list.now) s.now o.0 marks.now
        (HaveIn others.now) kept.old kept.new }
    ensures hold { Hold (map (λ x. x.cond) list.now) s.now watches.new }
{
    let marked = marks.as_slice();
    if marks.has(o.0 as usize) {
        ask_others(list, links, others, o, s, marked, watches, kept);
        return;
    }
    let partners = &links.partners[o.0 as usize];
    ask_few(list, links, &partners.few, o, s, marks, watches, kept);
    retry_numbers(list, links, &partners.many, o, s, marked, watches, kept);
}

// Asks each condition that names the object and a marked one again, at what is kept of the object,
// and forgets where it is refuted. Then all of it stands.
fn ask_again<const K: usize>(
    list: &[AnyIndexical<K>],
    links: &Links,
    o: usize,
    s: &State<K>,
    marks: &Marks,
    watches: &mut Watches,
    kept: &mut [Option<Placed<K>>],
)
    requires k { K ≤ MAX_DIMS }
    requires fits { AllFit (map (λ x. x.cond) list.now) s.now }
    requires links { AreLinks (map (λ x. x.cond) list.now) (length s.now) links.now }
    requires object { (o < length s.now) × (length marks.now ≡ length s.now) }
    requires hold { Hold (map (λ x. x.cond) list.now) s.now watches.old }
    requires stand { StandBut (map (λ x. x.cond) list.now) s.now o marks.now kept.old }
    ensures kept { Stand (map (λ x. x.cond) list.now) s.now o kept.new }
    ensures hold { Hold (map (λ x. x.cond) list.now) s.now watches.new }
{
    let _objects = s.objects();
    let object = ObjId(o as u16);
    let pairs = &links.pairs[o];
    ask_pairs(list, pairs, object, s, marks, kept);
    ask_partners(list, links, &pairs.others, object, s, marks, watches, kept);
}

/// Asks what is kept of the object again where a neighbour changed. Then all of it stands, and no
/// neighbour is marked any more.
pub fn refresh<const K: usize>(
    list: &[AnyIndexical<K>],
    links: &Links,
    o: usize,
    s: &State<K>,
    dirty: &mut [Marks],
    watches: &mut Watches,
    kept: &mut [Vec<Option<Placed<K>>>],
)
    requires k { K ≤ MAX_DIMS }
    requires fits { AllFit (map (λ x. x.cond) list.now) s.now }
    requires links { AreLinks (map (λ x. x.cond) list.now) (length s.now) links.now }
    requires object { (o < length s.now) × (length kept.old ≡ length s.now) }
    requires square { IsSquare (length s.now) dirty.old }
    requires hold { Hold (map (λ x. x.cond) list.now) s.now watches.old }
    requires stand { AllStand (map (λ x. x.cond) list.now) s.now dirty.old kept.old }
    ensures kept { StandsAlone (map (λ x. x.cond) list.now) s.now o kept.old kept.new }
    ensures cleared { IsCleared o dirty.old dirty.new }
    ensures square { IsSquare (length s.now) dirty.new }
    ensures hold { Hold (map (λ x. x.cond) list.now) s.now watches.new }
{
    ask_again(list, links, o, s, &dirty[o], watches, &mut kept[o]);
    dirty[o].clear();
}
