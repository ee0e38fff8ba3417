//! How the children of a quantifier come together.

ghost use Rattle.std.specs.Prelude.{◌≡◌, ◌<◌, ◌∷◌, ◌^◌, ◌-ℤ◌, ◌≤ℤ◌, [], MatchResult, map, pos};
ghost use Rattle.linear_conditions.specs.CondTree.{cond_view};
ghost use Rattle.linear_conditions.specs.Folding.{joined};
ghost use Rattle.linear_conditions.specs.declared.fault.GroundFault.TheVariants.{Memory};
ghost use Rattle.rule_ground.specs.Grounding.{body_sign, is_counted, is_idle, manner, quantifier_node, shape_child};

use geo_conditions::{Cond, ObjId};
use linear_conditions::fault::GroundFault;
use linear_conditions::fold::{fold_count, joined, joined_two as paired};
use rule_syntax::tree::QuantKind;
use std::alloc::Global;

/// How the children of a quantifier come together.
#[derive(Clone, Copy)]
pub enum Manner {
    /// All must hold.
    All,
    /// One must hold.
    One,
    /// Those that hold are counted.
    Holding,
    /// Those that do not hold are counted.
    Failing,
}

/// How they come together under plus (true) or minus.
pub fn manner_of(kind: QuantKind, sign: bool) -> Manner
    ensures { result ≡ manner kind sign }
{
    match kind {
        QuantKind::ForAll => { if sign { Manner::All } else { Manner::One } }
        QuantKind::Exists => { if sign { Manner::One } else { Manner::All } }
        QuantKind::AtLeast(_n) => {
            if sign {
                Manner::Holding
            } else {
                Manner::Failing
            }
        }
        QuantKind::AtMost(_n) => {
            if sign {
                Manner::Failing
            } else {
                Manner::Holding
            }
        }
    }
}

/// Whether they are counted.
pub fn is_counted(manner: Manner) -> bool
    ensures { result ≡ is_counted manner }
{
    match manner {
        Manner::All => false,
        Manner::One => false,
        Manner::Holding => true,
        Manner::Failing => true,
    }
}

/// Whether a child that holds, or does not, is idle: it changes nothing of what the others say.
pub fn is_idle(manner: Manner, holds: bool) -> bool
    ensures { result ≡ is_idle manner holds }
{
    match manner {
        Manner::All => holds,
        Manner::One => !holds,
        Manner::Holding => !holds,
        Manner::Failing => !holds,
    }
}

/// The sign of the body: that at most so many hold is said of those that do not.
pub fn body_sign(kind: QuantKind, sign: bool) -> bool
    ensures { result ≡ body_sign kind sign }
{
    match kind {
        QuantKind::ForAll => sign,
        QuantKind::Exists => sign,
        QuantKind::AtLeast(_n) => sign,
        QuantKind::AtMost(_n) => !sign,
    }
}

// How many elements there are behind the first n.
fn behind(elements: usize, n: u32) -> i64
    requires { elements < 2 ^ 62 }
    ensures value { result ≡ pos elements -ℤ pos n }
    ensures few { result ≤ℤ pos (2 ^ 62) }
{
    elements as i64 - i64::from(n)
}

/// The condition of so many elements, from their children.
pub fn quantifier_node(
    alloc: Global,
    kind: QuantKind,
    sign: bool,
    elements: usize,
    children: Vec<Cond>,
) -> Result<Cond, GroundFault>
    requires { elements < 2 ^ 62 }
    ensures { MatchResult result (λ c. cond_view c
        ≡ quantifier_node kind sign elements (map cond_view children.items)) (λ e. e ≡ Memory) }
{
    match kind {
        QuantKind::ForAll => Ok(joined(alloc, sign, children)?),
        QuantKind::Exists => Ok(joined(alloc, !sign, children)?),
        QuantKind::AtLeast(n) => {
            if sign {
                Ok(fold_count(alloc, i64::from(n), children)?)
            } else {
                Ok(fold_count(alloc, behind(elements, n) + 1, children)?)
            }
        }
        QuantKind::AtMost(n) => {
            if sign {
                Ok(fold_count(alloc, behind(elements, n), children)?)
            } else {
                Ok(fold_count(alloc, i64::from(n) + 1, children)?)
            }
        }
    }
}

/// All or one of two conditions.
pub fn joined_two(alloc: Global, all: bool, first: Cond, second: Cond) -> Result<Cond, GroundFault>
    ensures { MatchResult result (λ c. cond_view c
        ≡ joined all (cond_view first ∷ (cond_view second ∷ []))) (λ e. e ≡ Memory) }
{
    Ok(paired(alloc, all, first, second)?)
}

/// The child of an object with its shape at that place.
pub fn shape_child(
    alloc: Global,
    manner: Manner,
    object: ObjId,
    place: u8,
    body: Cond,
) -> Result<Cond, GroundFault>
    ensures { MatchResult result (λ c. cond_view c
        ≡ shape_child manner object.0 place (cond_view body)) (λ e. e ≡ Memory) }
{
    match manner {
        Manner::All => joined_two(alloc, false, Cond::NotShape(object, place), body),
        Manner::One => joined_two(alloc, true, Cond::Shape(object, place), body),
        Manner::Holding => joined_two(alloc, true, Cond::Shape(object, place), body),
        Manner::Failing => joined_two(alloc, true, Cond::Shape(object, place), body),
    }
}
