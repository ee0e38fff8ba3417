//! What grounding counts.

ghost use Rattle.std.specs.Prelude.{◌≡◌, ◌+◌, ◌∷◌, [], if◌then◌else◌, MatchResult};
ghost use Rattle.linear_conditions.specs.Counts.{Done, are_within, count_sums, one_leaf, one_visit, visit, visits, within_limits};
ghost use Rattle.linear_conditions.specs.Faults.{IsPast};
ghost use Rattle.linear_conditions.specs.Sums.{has_terms};
ghost use Rattle.linear_conditions.specs.Views.{leaves_view, wide_view};

use crate::fault::GroundFault;
use crate::leaves::Leaves;
use crate::wide::WideSum;
use std::marker::Model;

const MOST_VISITS: u64 = 20_000_000;

const MOST_LEAVES: u64 = 1_000_000;

const MOST_TERMS: u64 = 8_000_000;

/// Whether counts are within the limits.
fn are_within(visits: u64, leaves: u64, terms: u128) -> bool
    ensures { result ≡ are_within (record { visits = visits; leaves = leaves; terms = terms }) }
{
    visits <= MOST_VISITS && leaves <= MOST_LEAVES && terms <= u128::from(MOST_TERMS)
}

/// How many leaves a form is: none without terms.
fn leaf_count(f: &WideSum) -> u64
    ensures { result ≡ (if has_terms (wide_view f.now) then 1 else 0) }
{
    if f.has_terms() { 1 } else { 0 }
}

/// What was counted so far. It is within the limits.
#[derive(Drop)]
pub struct Counter {
    visits: u64,
    leaves: u64,
    terms: u64,
}

impl Model for Counter {
    ghost use Rattle.std.specs.Prelude.{◌≡◌, true};
    ghost use Rattle.linear_conditions.specs.Counts.{Counts, are_within};

    ghost Value = { Counts };

    ghost view = { λ k. record { visits = k.visits; leaves = k.leaves; terms = k.terms } };

    ghost invariant = { λ k. are_within
        (record { visits = k.visits; leaves = k.leaves; terms = k.terms }) ≡ true };
}

impl Counter {
    /// Nothing is counted yet.
    pub fn new() -> Counter
        ensures { result ≡ record { visits = 0; leaves = 0; terms = 0 } }
    {
        Counter {
            visits: 0,
            leaves: 0,
            terms: 0,
        }
    }

    /// Takes new counts, if they are within the limits.
    fn take(&mut self, visits: u64, leaves: u64, terms: u128) -> Result<(), GroundFault>
        ensures { let o = within_limits
            (record { visits = visits; leaves = leaves; terms = terms }) in
            MatchResult result (λ _. o ≡ Done self.new self.new) (λ e. IsPast o e) }
    {
        if !are_within(visits, leaves, terms) {
            return Err(GroundFault::TooMany);
        }
        self.visits = visits;
        self.leaves = leaves;
        self.terms = terms as u64;
        Ok(())
    }

    /// Counts one visit.
    pub fn visit(&mut self) -> Result<(), GroundFault>
        ensures { MatchResult result (λ _. visit self.old ≡ Done self.new self.new)
            (λ e. IsPast (visit self.old) e) }
    {
        self.take(self.visits + 1, self.leaves, u128::from(self.terms))
    }

    /// Counts several visits.
    pub fn visit_often(&mut self, n: u32) -> Result<(), GroundFault>
        ensures { let o = visits n self.old in
            MatchResult result (λ _. o ≡ Done self.new self.new) (λ e. IsPast o e) }
    {
        self.take(
            self.visits + u64::from(n),
            self.leaves,
            u128::from(self.terms),
        )
    }

    /// Counts one visit, and one leaf.
    pub fn visit_split(&mut self) -> Result<(), GroundFault>
        ensures { let o = within_limits (one_leaf (one_visit self.old)) in
            MatchResult result (λ _. o ≡ Done self.new self.new) (λ e. IsPast o e) }
    {
        self.take(self.visits + 1, self.leaves + 1, u128::from(self.terms))
    }

    /// Counts leaves that have no terms of their own.
    pub fn add_leaves(&mut self, n: u32) -> Result<(), GroundFault>
        ensures { let o = within_limits (record self.old { leaves = self.old.leaves + n }) in
            MatchResult result (λ _. o ≡ Done self.new self.new) (λ e. IsPast o e) }
    {
        self.take(
            self.visits,
            self.leaves + u64::from(n),
            u128::from(self.terms),
        )
    }

    /// Counts one visit, and the leaves of a comparison.
    pub(crate) fn visit_leaves(&mut self, leaves: &Leaves) -> Result<(), GroundFault>
        ensures { let o = within_limits
            (count_sums (leaves_view leaves.now).forms (one_visit self.old)) in
            MatchResult result (λ _. o ≡ Done self.new self.new) (λ e. IsPast o e) }
    {
        match leaves {
            Leaves::One(f) => self.visit_one(f),
            Leaves::Both(f, g) => self.visit_two(f, g),
            Leaves::Either(f, g) => self.visit_two(f, g),
        }
    }

    fn visit_one(&mut self, f: &WideSum) -> Result<(), GroundFault>
        ensures { let o = within_limits (count_sums (wide_view f.now ∷ []) (one_visit self.old)) in
            MatchResult result (λ _. o ≡ Done self.new self.new) (λ e. IsPast o e) }
    {
        self.take(
            self.visits + 1,
            self.leaves + leaf_count(f),
            u128::from(self.terms) + f.len() as u128,
        )
    }

    fn visit_two(&mut self, f: &WideSum, g: &WideSum) -> Result<(), GroundFault>
        ensures { let o = within_limits
            (count_sums (wide_view f.now ∷ (wide_view g.now ∷ [])) (one_visit self.old)) in
            MatchResult result (λ _. o ≡ Done self.new self.new) (λ e. IsPast o e) }
    {
        self.take(
            self.visits + 1,
            self.leaves + leaf_count(f) + leaf_count(g),
            u128::from(self.terms) + f.len() as u128 + g.len() as u128,
        )
    }
}
