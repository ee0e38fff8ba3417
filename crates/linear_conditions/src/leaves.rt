//! The linear conditions of a comparison.

ghost use Rattle.std.specs.Prelude.{◌≡◌, ◌+ℤ◌, ◌∷◌, [], FitsSigned, IfOk, map, pos, true};
ghost use Rattle.std.specs.List.{list_all};
ghost use Rattle.std.specs.Int.{w128};
ghost use Rattle.linear_conditions.specs.Sums.{fits_sum};
ghost use Rattle.linear_conditions.specs.CondTree.{cond_view};
ghost use Rattle.linear_conditions.specs.Folding.{fold_linear, joined};
ghost use Rattle.linear_conditions.specs.Leaves.{AreLeaves, IsLeaf, leaf_fits, leaves_of, negated};
ghost use Rattle.linear_conditions.specs.Views.{leaves_view, wide_view};

use crate::fold::{fold_linear, joined_two};
use crate::wide::WideSum;
use geo_conditions::Cond;
use rule_syntax::tree::Rel;
use std::alloc::{AllocError, Global};

/// Forms that must be at most 0: one, both of two, or either of two.
#[derive(Drop)]
pub enum Leaves {
    One(WideSum),
    Both(WideSum, WideSum),
    Either(WideSum, WideSum),
}

/// The form with the other sign.
fn negated(alloc: Global, f: &WideSum) -> Result<WideSum, AllocError>
    requires { fits_sum (wide_view f.now) ≡ true }
    ensures value { IfOk result (λ g. wide_view g ≡ negated (wide_view f.now)) }
    ensures room { IfOk result (λ g. FitsSigned w128 (g.constant +ℤ pos 1)) }
{
    f.scaled(alloc, -1)
}

/// The leaves of a comparison, by the difference of its sides.
pub fn leaves_of(alloc: Global, rel: Rel, f: WideSum) -> Result<Leaves, AllocError>
    requires { fits_sum (wide_view f) ≡ true }
    ensures { IfOk result (λ l. leaves_view l ≡ leaves_of rel (wide_view f)) }
{
    match rel {
        Rel::Le => Ok(Leaves::One(f)),
        Rel::Lt => Ok(Leaves::One(f.plus_one())),
        Rel::Ge => Ok(Leaves::One(negated(alloc, &f)?)),
        Rel::Gt => Ok(Leaves::One(negated(alloc, &f)?.plus_one())),
        Rel::Eq => {
            let g = negated(alloc, &f)?;
            Ok(Leaves::Both(f, g))
        }
        Rel::Ne => {
            let g = negated(alloc, &f)?;
            Ok(Leaves::Either(f.plus_one(), g.plus_one()))
        }
    }
}

/// Whether a leaf's form is within the bounds; one without terms is no leaf.
fn leaf_fits(f: &WideSum) -> bool
    ensures { result ≡ leaf_fits (wide_view f.now) }
{
    !f.has_terms() || f.fits()
}

impl Leaves {
    /// Whether the forms are within the bounds.
    pub fn fit(&self) -> bool
        ensures { result ≡ list_all leaf_fits (leaves_view self.now).forms }
    {
        match self {
            Leaves::One(f) => leaf_fits(f),
            Leaves::Both(f, g) => leaf_fits(f) && leaf_fits(g),
            Leaves::Either(f, g) => leaf_fits(f) && leaf_fits(g),
        }
    }
}

/// Two forms, both of which must be at most 0, or one of them.
fn fold_two(alloc: Global, all: bool, f: &WideSum, g: &WideSum) -> Result<Cond, AllocError>
    requires f { IsLeaf (wide_view f.now) }
    requires g { IsLeaf (wide_view g.now) }
    ensures { IfOk result (λ c. cond_view c
        ≡ joined all (fold_linear (wide_view f.now) ∷ (fold_linear (wide_view g.now) ∷ []))) }
{
    let first = fold_linear(alloc, f)?;
    let second = fold_linear(alloc, g)?;
    joined_two(alloc, all, first, second)
}

/// The condition that the leaves make together.
pub fn fold_leaves(alloc: Global, leaves: &Leaves) -> Result<Cond, AllocError>
    requires { AreLeaves (leaves_view leaves.now).forms }
    ensures { IfOk result (λ c. cond_view c
        ≡ joined (leaves_view leaves.now).all (map fold_linear (leaves_view leaves.now).forms)) }
{
    match leaves {
        Leaves::One(f) => fold_linear(alloc, f),
        Leaves::Both(f, g) => fold_two(alloc, true, f, g),
        Leaves::Either(f, g) => fold_two(alloc, false, f, g),
    }
}
