//! Lists of conditions, in which some are taken apart.

ghost use Rattle.std.specs.Prelude.{◌≡◌, ◌+◌, ◌≤◌, ◌++◌, ◌∷◌, [], length, map, replicate, OnOk, IfOk, IfSome};
ghost use Rattle.geo_conditions.specs.declared.cond.Cond.{Cond};
ghost use Rattle.geo_state.specs.Settle.{IsBare};
ghost use Rattle.condition_parts.specs.Parts.{IsAllOf};
ghost use Rattle.condition_parts.specs.Apart.{IsTakenApart, wholes_of};
ghost use Rattle.condition_parts.specs.Made.{HasMade, AddsMade};

use crate::names::names_some;
use crate::parts::{Parts, parts_of};
use derivation::Renumbering;
use geo_conditions::Cond;
use indexical::AnyIndexical;
use std::alloc::{AllocError, Global};

/// The greatest number of conditions of which each has a number in a record.
const MOST_CONDITIONS: usize = 1_000_000_000;

/// A list of conditions, in which some are taken apart.
#[derive(Drop)]
pub struct TakenApart<const K: usize> {
    /// At each place the condition, or one of its parts, and behind them the other parts.
    pub list: Vec<AnyIndexical<K>>,
    /// At each place the condition that was taken apart, where one was.
    pub wholes: Vec<Option<Cond>>,
    /// What the numbers of the list stand for.
    pub numbers: Renumbering,
}

// What is made of the first conditions of a list.
#[derive(Drop)]
struct Made<const K: usize> {
    // for each condition it or one of its parts
    fronts: Vec<AnyIndexical<K>>,
    // for each condition itself, where it was taken apart
    wholes: Vec<Option<Cond>>,
    // the other parts
    rest: Vec<AnyIndexical<K>>,
    // for each of these the number of its condition
    numbers: Vec<u32>,
}

// The parts of a condition, where it is to be taken apart: it names an object, and is not met by two boxes as it is.
fn parts_to_take<const K: usize>(
    alloc: Global,
    x: &AnyIndexical<K>,
) -> Result<Option<Parts>, AllocError>
    ensures parts { IfOk result (λ r. IfSome r (λ parts.
        IsAllOf x.now.cond (parts.others.items ++ parts.first ∷ []))) }
    ensures named { IfOk result (λ r. IfSome r (λ _. IsBare x.now.cond → ⊥)) }
{
    if x.has_boxes() || !names_some(x.cond()) {
        return Ok(None);
    }
    parts_of(alloc, x.cond())
}

// Puts a condition as it is.
fn put_whole<const K: usize>(x: AnyIndexical<K>, made: &mut Made<K>) -> Result<(), AllocError>
    ensures made { OnOk result (AddsMade x.entry.cond made.old made.new) }
    ensures rest { OnOk result (made.new.rest ≡ made.old.rest) }
{
    made.fronts.push(x)?;
    made.wholes.push(None)?;
    Ok(())
}

// Puts further parts behind the others, each with the number of its condition.
fn put_others<const K: usize>(
    parts: Vec<Cond>,
    number: u32,
    rest: &mut Vec<AnyIndexical<K>>,
    numbers: &mut Vec<u32>,
) -> Result<(), AllocError>
    ensures parts { OnOk result (map (λ x. x.cond) rest.new.items
        ≡ map (λ x. x.cond) rest.old.items ++ parts.items) }
    ensures numbers { OnOk result (numbers.new.items
        ≡ numbers.old.items ++ replicate (length parts.items) number) }
{
    for c in parts {
        rest.push(AnyIndexical::from_cond(c))?;
        numbers.push(number)?;
    }
    Ok(())
}

// Puts the parts of a condition; the first one takes its place.
fn put_apart<const K: usize>(
    x: AnyIndexical<K>,
    first: AnyIndexical<K>,
    others: Vec<Cond>,
    number: u32,
    made: &mut Made<K>,
) -> Result<(), AllocError>
    requires number { number ≡ length made.old.fronts.items + 1 }
    requires parts { IsAllOf x.cond (others.items ++ first.cond ∷ []) }
    requires named { IsBare x.cond → ⊥ }
    ensures made { OnOk result (AddsMade x.entry.cond made.old made.new) }
    ensures rest { OnOk result (length made.new.rest.items
        ≡ length made.old.rest.items + length others.items) }
{
    put_others(others, number, &mut made.rest, &mut made.numbers)?;
    made.fronts.push(first)?;
    made.wholes.push(Some(x.into_cond()))?;
    Ok(())
}

// Puts a condition: its parts, where there are several, or one that two boxes meet, and there is room for so many.
fn put_one<const K: usize>(
    alloc: Global,
    x: AnyIndexical<K>,
    room: usize,
    made: &mut Made<K>,
) -> Result<(), AllocError>
    requires { length made.old.rest.items ≤ room }
    ensures made { OnOk result (AddsMade x.entry.cond made.old made.new) }
    ensures rest { OnOk result (length made.new.rest.items ≤ room) }
{
    let parts = match parts_to_take(alloc, &x)? {
        Some(parts) => parts,
        None => return put_whole(x, made),
    };
    let Parts { first, others } = parts;
    let first = AnyIndexical::from_cond(first);
    let before = made.fronts.len();
    if (others.is_empty() && !first.has_boxes())
        || before >= MOST_CONDITIONS
        || others.len() > room - made.rest.len()
    {
        return put_whole(x, made);
    }
    put_apart(x, first, others, before as u32 + 1, made)
}

// Both lists, one behind the other.
fn joined<const K: usize>(
    fronts: Vec<AnyIndexical<K>>,
    rest: Vec<AnyIndexical<K>>,
) -> Result<Vec<AnyIndexical<K>>, AllocError>
    ensures { IfOk result (λ v. map (λ x. x.cond) v.items
        ≡ map (λ x. x.cond) fronts.entry.items ++ map (λ x. x.cond) rest.entry.items) }
{
    let mut list = fronts;
    for x in rest {
        list.push(x)?;
    }
    Ok(list)
}

// What is made of all of them, with at most so many further parts.
fn made_of<const K: usize>(
    alloc: Global,
    list: Vec<AnyIndexical<K>>,
    room: usize,
) -> Result<Made<K>, AllocError>
    ensures made { IfOk result (HasMade (map (λ x. x.cond) list.entry.items)) }
    ensures room { IfOk result (λ made. length made.rest.items ≤ room) }
{
    let count = list.len();
    let mut made = Made {
        fronts: Vec::with_capacity(alloc, count)?,
        wholes: Vec::with_capacity(alloc, count)?,
        rest: Vec::new(alloc),
        numbers: Vec::new(alloc),
    };
    for x in list {
        put_one(alloc, x, room, &mut made)?;
    }
    Ok(made)
}

// Whether the condition is to be taken apart: it has several parts, or one that two boxes meet.
fn is_to_take<const K: usize>(alloc: Global, x: &AnyIndexical<K>) -> Result<bool, AllocError> {
    match parts_to_take(alloc, x)? {
        Some(parts) => {
            let Parts { first, others } = parts;
            let first: AnyIndexical<K> = AnyIndexical::from_cond(first);
            Ok(!others.is_empty() || first.has_boxes())
        }
        None => Ok(false),
    }
}

// Whether none of the conditions is to be taken apart.
fn stay_whole<const K: usize>(alloc: Global, list: &[AnyIndexical<K>]) -> Result<bool, AllocError> {
    for x in list {
        // Most of them are met by two boxes as they are.
        if !x.has_boxes() && is_to_take(alloc, x)? {
            return Ok(false);
        }
    }
    Ok(true)
}

// That many conditions of which none was taken apart.
fn no_wholes(alloc: Global, count: usize) -> Result<Vec<Option<Cond>>, AllocError>
    ensures { IfOk result (λ v. v.items ≡ replicate count None) }
{
    let mut wholes = Vec::with_capacity(alloc, count)?;
    for _ in 0..count {
        wholes.push(None)?;
    }
    Ok(wholes)
}

// The list as it is, with nothing taken apart.
fn left_whole<const K: usize>(
    alloc: Global,
    list: Vec<AnyIndexical<K>>,
) -> Result<TakenApart<K>, AllocError>
    requires { length list.items ≤ 1000000000 }
    ensures apart { IfOk result (λ t. IsTakenApart (map (λ x. x.cond) list.entry.items)
        (map (λ x. x.cond) t.list.items) t.numbers) }
    ensures back { IfOk result (λ t. wholes_of t.wholes.items (map (λ x. x.cond) t.list.items)
        ≡ map (λ x. x.cond) list.entry.items) }
    ensures few { IfOk result (λ t. length t.list.items ≤ 1000000000) }
{
    let count = list.len();
    let wholes = no_wholes(alloc, count)?;
    let numbers = Renumbering {
        same: count as u32,
        others: Vec::new(alloc),
    };
    Ok(TakenApart {
        list,
        wholes,
        numbers,
    })
}

/// Takes conditions apart that ask for several things at once: an object has another shape than some, or else all of some things
/// hold. Each part keeps the number of its condition in the record. A condition with parts that are more than literals stays whole.
pub fn take_apart<const K: usize>(
    alloc: Global,
    list: Vec<AnyIndexical<K>>,
) -> Result<TakenApart<K>, AllocError>
    requires { length list.items ≤ 1000000000 }
    ensures apart { IfOk result (λ t. IsTakenApart (map (λ x. x.cond) list.entry.items)
        (map (λ x. x.cond) t.list.items) t.numbers) }
    ensures back { IfOk result (λ t. wholes_of t.wholes.items (map (λ x. x.cond) t.list.items)
        ≡ map (λ x. x.cond) list.entry.items) }
    ensures few { IfOk result (λ t. length t.list.items ≤ 1000000000) }
{
    if stay_whole(alloc, &list)? {
        return left_whole(alloc, list);
    }
    let count = list.len();
    let Made {
        fronts,
        wholes,
        rest,
        numbers,
    } = made_of(alloc, list, MOST_CONDITIONS - count)?;
    let list = joined(fronts, rest)?;
    let numbers = Renumbering {
        same: count as u32,
        others: numbers,
    };
    Ok(TakenApart {
        list,
        wholes,
        numbers,
    })
}
