//! Which objects the conditions name, and which conditions name an object.

ghost use Rattle.std.specs.Prelude.{◌≡◌, ℕ, ◌<◌, ◌≤◌, [], false, length, map, slice_index_or, IfOk, IfSome};
ghost use Rattle.indexical.specs.Names.{IsFirstBefore, names};
ghost use Rattle.sweep.specs.Picks.{ArePicks};
ghost use Rattle.fixpoint.specs.Links.{AreLinks, AreMarked, HaveRows, NamedBy, Numbers, SortAllRows, row};
ghost use Rattle.fixpoint.specs.Partners.{HavePartners};

use crate::pairs::{Pairs, pairs_of};
use crate::partners::{Partners, partners_of};
use geo_conditions::{MAX_OBJECTS, ObjId};
use indexical::AnyIndexical;
use object_pruning::{Rows, rows_of};
use smallvec::SmallVec;
use std::alloc::{AllocError, Global};

/// The links between conditions and objects. The numbers of the conditions count from 1.
pub struct Links {
    /// For each condition the objects that it names.
    pub named: Vec<SmallVec<ObjId, 2>>,
    /// For each object the numbers of the conditions that name it.
    pub picks: Vec<Vec<u32>>,
    /// The numbers of the conditions that name no object.
    pub bare: Vec<u32>,
    /// For each object its numbers in rows, by the places that the conditions ask for.
    pub rows: Vec<Rows>,
    /// For each object the groups of its rows by the other objects that the conditions name.
    pub pairs: Vec<Pairs>,
    /// For each object the numbers of its other groups by the other objects that they name.
    pub partners: Vec<Partners>,
}

impl Drop for Links {
    fn drop(self) {
        let Links {
            named: _named,
            picks: _picks,
            bare: _bare,
            rows: _rows,
            pairs: _pairs,
            partners: _partners,
        } = self;
    }
}

// A mark for each object that the condition names, where it has many parts, and so would take many walks.
fn marks_of_many<const K: usize>(
    alloc: Global,
    x: &AnyIndexical<K>,
    objects: usize,
) -> Result<Option<Vec<bool>>, AllocError>
    ensures { IfOk result (λ r. IfSome r (λ v. AreMarked x.now.cond objects v.items)) }
{
    if !x.has_many_parts() {
        return Ok(None);
    }
    let mut marks = Vec::from_elem(alloc, false, objects)?;
    x.mark_named(&mut marks);
    Ok(Some(marks))
}

// The first object that is marked, of those from `from` on.
fn first_marked(marks: &[bool], from: usize) -> Option<ObjId>
    requires { length marks.now ≤ MAX_OBJECTS }
    ensures { IsFirstBefore (λ o. slice_index_or marks.now o false) from (length marks.now) result }
{
    for o in from..marks.len() {
        if marks[o] {
            return Some(ObjId(o as u16));
        }
    }
    None
}

// The first object that the condition names, of those from `from` on and before `objects`.
fn next_named<const K: usize>(
    x: &AnyIndexical<K>,
    marks: Option<&[bool]>,
    from: usize,
    objects: usize,
) -> Option<ObjId>
    requires objects { objects ≤ MAX_OBJECTS }
    requires marks { IfSome marks (λ v. AreMarked x.now.cond objects v.now) }
    ensures { IsFirstBefore (λ o. names o x.now.cond) from objects result }
{
    match marks {
        Some(marks) => first_marked(marks, from),
        None => x.first_named(from, objects),
    }
}

// The objects that the condition names, by marks of them where there are any. Each gets the number of the condition.
fn link_each<const K: usize>(
    alloc: Global,
    x: &AnyIndexical<K>,
    marks: Option<&[bool]>,
    number: u32,
    picks: &mut [Vec<u32>],
) -> Result<SmallVec<ObjId, 2>, AllocError>
    requires objects { length picks.old ≤ MAX_OBJECTS }
    requires marks { IfSome marks (λ v. AreMarked x.now.cond (length picks.old) v.now) }
    ensures named { IfOk result (λ v. NamedBy x.now.cond (length picks.old) v.items) }
    ensures numbers { IfOk result (λ v. Numbers x.now.cond number picks.old picks.new) }
{
    let objects = picks.len();
    let mut named = SmallVec::new(alloc);
    let mut next = 0;
    while let Some(o) = next_named(x, marks, next, objects) {
        named.push(o)?;
        let numbers = &mut picks[o.0 as usize];
        numbers.push(number)?;
        next = o.0 as usize + 1;
    }
    Ok(named)
}

// The same. Where the condition has many parts, its objects are marked first.
fn link<const K: usize>(
    alloc: Global,
    x: &AnyIndexical<K>,
    number: u32,
    picks: &mut [Vec<u32>],
) -> Result<SmallVec<ObjId, 2>, AllocError>
    requires { length picks.old ≤ MAX_OBJECTS }
    ensures named { IfOk result (λ v. NamedBy x.now.cond (length picks.old) v.items) }
    ensures numbers { IfOk result (λ v. Numbers x.now.cond number picks.old picks.new) }
{
    match marks_of_many(alloc, x, picks.len())? {
        Some(marks) => link_each(alloc, x, Some(&marks), number, picks),
        None => link_each(alloc, x, None, number, picks),
    }
}

// A list without numbers for each object.
fn no_picks(alloc: Global, objects: usize) -> Result<Vec<Vec<u32>>, AllocError>
    ensures { IfOk result (λ v. (length v.items ≡ objects) × ((o : ℕ) → row v.items o ≡ [])) }
{
    let mut picks = Vec::new(alloc);
    for _ in 0..objects {
        picks.push(Vec::new(alloc))?;
    }
    Ok(picks)
}

// The rows of each object, by its numbers.
fn all_rows<const K: usize>(
    alloc: Global,
    list: &[AnyIndexical<K>],
    picks: &[Vec<u32>],
) -> Result<Vec<Rows>, AllocError>
    requires objects { length picks.now ≤ MAX_OBJECTS }
    requires picks { (o : ℕ) → o < length picks.now
        → ArePicks (length list.now) (row picks.now o) }
    ensures { IfOk result (λ v.
        HaveRows (map (λ x. x.cond) list.now) picks.now (length picks.now) v.items) }
{
    let mut rows = Vec::new(alloc);
    for o in 0..picks.len() {
        let own = rows_of(alloc, list, &picks[o], ObjId(o as u16))?;
        rows.push(own)?;
    }
    Ok(rows)
}

// The pairs of each object, by its rows and by what each condition names.
fn all_pairs(
    alloc: Global,
    rows: &[Rows],
    named: &[SmallVec<ObjId, 2>],
) -> Result<Vec<Pairs>, AllocError>
    ensures { IfOk result (λ v. SortAllRows named.now rows.now (length rows.now) v.items) }
{
    let objects = rows.len();
    let mut pairs = Vec::new(alloc);
    for o in 0..objects {
        let own = pairs_of(alloc, &rows[o], o, named, objects)?;
        pairs.push(own)?;
    }
    Ok(pairs)
}

// The partners of each object, by its pairs and by what each condition names.
fn all_partners(
    alloc: Global,
    pairs: &[Pairs],
    named: &[SmallVec<ObjId, 2>],
) -> Result<Vec<Partners>, AllocError>
    ensures { IfOk result (λ v. HavePartners named.now pairs.now (length pairs.now)
        (length pairs.now) v.items) }
{
    let objects = pairs.len();
    let mut partners = Vec::new(alloc);
    for o in 0..objects {
        let own = partners_of(alloc, &pairs[o].others, o, named, objects)?;
        partners.push(own)?;
    }
    Ok(partners)
}

/// The links between the conditions and that number of objects. The answer is an error where memory
/// runs out.
pub fn links_of<const K: usize>(
    alloc: Global,
    list: &[AnyIndexical<K>],
    objects: usize,
) -> Result<Links, AllocError>
    requires list { length list.now ≤ 1000000000 }
    requires objects { objects ≤ MAX_OBJECTS }
    ensures { IfOk result (λ l. AreLinks (map (λ x. x.cond) list.now) objects l) }
{
    let mut named = Vec::new(alloc);
    let mut picks = no_picks(alloc, objects)?;
    let mut bare = Vec::new(alloc);
    for i in 0..list.len() {
        let number = i as u32 + 1;
        let those = link(alloc, &list[i], number, &mut picks)?;
        if those.is_empty() {
            bare.push(number)?;
        }
        named.push(those)?;
    }
    let rows = all_rows(alloc, list, &picks)?;
    let pairs = all_pairs(alloc, &rows, &named)?;
    let partners = all_partners(alloc, &pairs, &named)?;
    Ok(Links {
        named,
        picks,
        bare,
        rows,
        pairs,
        partners,
    })
}
