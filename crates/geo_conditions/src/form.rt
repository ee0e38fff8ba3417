//! Sums of coordinates with factors, in order of object and dimension.

ghost use Rattle.std.specs.Prelude.{◌≡◌, IfOk, map};
ghost use Rattle.geo_conditions.specs.Form.{IsForm};
ghost use Rattle.geo_conditions.specs.Terms.{term_of};

use crate::object::ObjId;
use smallvec::SmallVec;
use std::alloc::{AllocError, Global};
use std::marker::Model;

/// A coordinate of an object with its factor.
#[derive(Clone, Copy, Default)]
pub struct Term {
    pub object: ObjId,
    pub dimension: usize,
    pub factor: i64,
}

/// A sum of coordinates with factors, and a constant. Most forms compare two coordinates, and lie
/// inline.
pub struct Form {
    terms: SmallVec<Term, 2>,
    constant: i64,
}

impl Drop for Form {
    fn drop(self) {
        let Form {
            terms: _terms,
            constant: _,
        } = self;
    }
}

impl Model for Form {
    ghost use Rattle.geo_conditions.specs.Form.{Sum, IsForm};

    ghost Value = { Sum };

    ghost view = { λ f. record { terms = f.terms.items; constant = f.constant } };

    ghost invariant = { λ f. IsForm f.terms.items f.constant };
}

// A coordinate with its factor as one term.
fn as_term(given: &(ObjId, usize, i64)) -> Term
    ensures { result ≡ term_of given.now }
{
    let (object, dimension, factor) = *given;
    Term {
        object,
        dimension,
        factor,
    }
}

// The terms in a list.
fn listed(alloc: Global, terms: &[(ObjId, usize, i64)]) -> Result<SmallVec<Term, 2>, AllocError>
    ensures { IfOk result (λ list. list.items ≡ map term_of terms.now) }
{
    let mut list = SmallVec::new(alloc);
    for given in terms {
        list.push(as_term(given))?;
    }
    Ok(list)
}

// The terms as a form keeps them; two fill the inline places.
fn terms_of(alloc: Global, terms: &[(ObjId, usize, i64)]) -> Result<SmallVec<Term, 2>, AllocError>
    ensures { IfOk result (λ list. list.items ≡ map term_of terms.now) }
{
    match terms {
        [first, second] => Ok(SmallVec::from_buf(alloc, [as_term(first), as_term(second)])),
        _ => listed(alloc, terms),
    }
}

impl Form {
    /// The form of those terms, which stand in order of object and dimension, each pair once.
    pub fn new(
        alloc: Global,
        terms: &[(ObjId, usize, i64)],
        constant: i64,
    ) -> Result<Form, AllocError>
        requires { IsForm (map term_of terms.now) constant }
        ensures { IfOk result (λ f.
            f ≡ record { terms = map term_of terms.now; constant = constant }) }
    {
        let list = terms_of(alloc, terms)?;
        Ok(Form {
            terms: list,
            constant,
        })
    }

    /// The terms in order of object and dimension.
    pub fn terms(&self) -> &[Term]
        ensures value { result.now ≡ self.now.terms }
        ensures form { IsForm self.now.terms self.now.constant }
    {
        self.terms.as_slice()
    }

    /// What is added to the terms.
    pub fn constant(&self) -> i64
        ensures { result ≡ self.now.constant }
    {
        self.constant
    }
}
