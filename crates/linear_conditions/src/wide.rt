//! Sums of coordinates while they are made, with numbers of 128 bits.

ghost use Rattle.std.specs.Prelude.{◌≡◌, ◌<◌, ◌∷◌, ◌++◌, ◌+ℤ◌, ◌*ℤ◌, ◌&&◌, ◌||◌, [], FitsSigned, IfOk, OnOk, length, nat_lt, pos, slice_index_or, slice_set};
ghost use Rattle.std.specs.Int.{w64, w128};
ghost use Rattle.geo_conditions.specs.Form.{IsForm};
ghost use Rattle.geo_conditions.specs.Terms.{term_of};
ghost use Rattle.linear_conditions.specs.Sums.{add_at, add_sums, constant_sum, fits_sum, has_terms, is_before, is_bounded, is_zero, place_among, raised, same_coordinate, scale, term, unless_zero};
ghost use Rattle.linear_conditions.specs.Leaves.{difference, negated, plus_one};
ghost use Rattle.linear_conditions.specs.Room.{CanAdd, CanScale, HasRoom};
ghost use Rattle.linear_conditions.specs.Views.{atom_view, short_view, wide_term, wide_terms, wide_view};

use crate::short::Short;
use geo_conditions::{Form, ObjId};
use smallvec::SmallVec;
use std::alloc::{AllocError, Global};

/// The greatest factor or constant of a form, either way.
const BOUND: i128 = 1_000_000_000_000_000;

/// A coordinate of an object with a wide factor.
#[derive(Clone, Copy, Default)]
pub struct WideTerm {
    pub object: ObjId,
    pub dimension: usize,
    pub factor: i128,
}

/// A number, or a coordinate of an object.
#[derive(Clone, Copy)]
pub enum Atom {
    Number(i128),
    Coordinate(ObjId, usize),
}

/// A sum of coordinates with factors, and a constant. Most have few terms, and lie inline.
pub struct WideSum {
    terms: SmallVec<WideTerm, 2>,
    constant: i128,
}

impl Drop for WideSum {
    fn drop(self) {
        let WideSum {
            terms: _terms,
            constant: _,
        } = self;
    }
}

fn is_same(a: &WideTerm, t: &WideTerm) -> bool
    ensures { result ≡ same_coordinate (wide_term a.now) (wide_term t.now) }
{
    a.object.0 == t.object.0 && a.dimension == t.dimension
}

fn stands_before(a: &WideTerm, t: &WideTerm) -> bool
    ensures { result ≡ is_before (wide_term a.now) (wide_term t.now) }
{
    a.object.0 < t.object.0 || (a.object.0 == t.object.0 && a.dimension < t.dimension)
}

/// Whether a term stands at the place of another, or before it.
fn belongs_at(a: &WideTerm, t: &WideTerm) -> bool
    ensures { result
        ≡ (same_coordinate (wide_term a.now) (wide_term t.now) || is_before (wide_term a.now)
        (wide_term t.now)) }
{
    is_same(a, t) || stands_before(a, t)
}

/// Where a term belongs.
fn place_for(terms: &[WideTerm], a: &WideTerm) -> usize
    ensures { result ≡ place_among (wide_term a.now) (wide_terms terms.now) }
{
    for place in 0..terms.len() {
        if belongs_at(a, &terms[place]) {
            return place;
        }
    }
    terms.len()
}

/// The coordinate of a term with another one's factor added.
fn raised_term(t: &WideTerm, a: &WideTerm) -> WideTerm
    requires { FitsSigned w128 (t.now.factor +ℤ a.now.factor) }
    ensures { wide_term result
        ≡ term t.now.object.0 t.now.dimension (t.now.factor +ℤ a.now.factor) }
{
    WideTerm {
        object: t.object,
        dimension: t.dimension,
        factor: t.factor + a.factor,
    }
}

/// A term multiplied by a number.
fn scaled_term(t: &WideTerm, z: i128) -> WideTerm
    requires { FitsSigned w128 (z *ℤ t.now.factor) }
    ensures { wide_term result ≡ term t.now.object.0 t.now.dimension (z *ℤ t.now.factor) }
{
    WideTerm {
        object: t.object,
        dimension: t.dimension,
        factor: z * t.factor,
    }
}

/// A term as a form takes it.
fn narrow_term(t: &WideTerm) -> (ObjId, usize, i64)
    requires { FitsSigned w64 t.now.factor }
    ensures { term_of result ≡ wide_term t.now }
{
    (t.object, t.dimension, t.factor as i64)
}

fn is_zero(t: &WideTerm) -> bool
    ensures { result ≡ is_zero t.now.factor }
{
    t.factor == 0
}

/// Appends a term, unless its factor is 0.
fn push_unless_zero(terms: &mut SmallVec<WideTerm, 2>, t: WideTerm) -> Result<(), AllocError>
    ensures { OnOk result (wide_terms terms.new.items ≡ wide_terms terms.old.items
        ++ unless_zero (wide_term t) []) }
{
    if !is_zero(&t) {
        terms.push(t)?;
    }
    Ok(())
}

/// Whether a number is within the bounds of a form.
pub fn is_within(z: i128) -> bool
    ensures { result ≡ is_bounded z }
{
    -BOUND <= z && z <= BOUND
}

/// Whether a number or a coordinate is within the bounds of a form.
pub fn is_atom_within(atom: Atom) -> bool
    ensures { result ≡ fits_sum (atom_view atom) }
{
    match atom {
        Atom::Number(z) => is_within(z),
        Atom::Coordinate(_object, _dimension) => true,
    }
}

impl WideSum {
    /// A sum without terms.
    pub fn constant_of(alloc: Global, z: i128) -> WideSum
        ensures { wide_view result ≡ constant_sum z }
    {
        WideSum {
            terms: SmallVec::new(alloc),
            constant: z,
        }
    }

    /// A coordinate of an object.
    fn coordinate(alloc: Global, object: ObjId, dimension: usize) -> Result<WideSum, AllocError>
        ensures { IfOk result (λ f. wide_view f
            ≡ record { terms = term object.0 dimension (pos 1) ∷ []; constant = pos 0 }) }
    {
        let mut terms = SmallVec::new(alloc);
        terms.push(WideTerm {
            object,
            dimension,
            factor: 1,
        })?;
        Ok(WideSum { terms, constant: 0 })
    }

    /// A number, or a coordinate of an object.
    pub fn of_atom(alloc: Global, atom: Atom) -> Result<WideSum, AllocError>
        ensures { IfOk result (λ f. wide_view f ≡ atom_view atom) }
    {
        match atom {
            Atom::Number(z) => Ok(WideSum::constant_of(alloc, z)),
            Atom::Coordinate(object, dimension) => WideSum::coordinate(alloc, object, dimension),
        }
    }

    /// A form with at most one coordinate.
    pub fn of_short(alloc: Global, f: Short) -> Result<WideSum, AllocError>
        ensures { IfOk result (λ g. wide_view g ≡ short_view f) }
    {
        match f {
            Short::Number(z) => Ok(WideSum::constant_of(alloc, i128::from(z))),
            Short::Shifted(object, dimension, z) => {
                let mut sum = WideSum::coordinate(alloc, object, dimension)?;
                sum.constant = i128::from(z);
                Ok(sum)
            }
        }
    }

    /// What is added to the terms.
    pub fn constant(&self) -> i128
        ensures { result ≡ self.now.constant }
    {
        self.constant
    }

    /// How many terms there are.
    pub fn len(&self) -> usize
        ensures { result ≡ length (wide_view self.now).terms }
    {
        self.terms.len()
    }

    /// Whether there is a term.
    pub fn has_terms(&self) -> bool
        ensures { result ≡ has_terms (wide_view self.now) }
    {
        self.terms.len() != 0
    }

    /// Whether a term of the same coordinate stands at a place.
    fn has_at(&self, place: usize, a: &WideTerm) -> bool
        ensures { result
            ≡ (nat_lt place (length self.now.terms.items)
            && same_coordinate (wide_term a.now)
            (wide_term (slice_index_or self.now.terms.items place a.now))) }
    {
        match self.terms.as_slice().get(place) {
            Some(found) => is_same(a, found),
            None => false,
        }
    }

    /// Writes a term at a place.
    fn put(&mut self, place: usize, t: WideTerm)
        requires place { place < length self.old.terms.items }
        ensures terms { self.new.terms.items ≡ slice_set self.old.terms.items place t }
        ensures constant { self.new.constant ≡ self.old.constant }
    {
        if let Some(found) = self.terms.get_mut(place) {
            *found = t;
        }
    }

    /// Adds to the factor of a term, which goes where it comes to 0.
    fn raise(&mut self, place: usize, a: &WideTerm)
        requires place { place < length self.old.terms.items }
        requires room { HasRoom (wide_view self.old).terms a.now.factor }
        ensures terms { wide_terms self.new.terms.items
            ≡ raised (wide_term a.now) (wide_terms self.old.terms.items) place }
        ensures constant { self.new.constant ≡ self.old.constant }
    {
        let changed = raised_term(&self.terms.as_slice()[place], a);
        if is_zero(&changed) {
            self.terms.remove(place);
        } else {
            self.put(place, changed);
        }
    }

    /// Adds a term: to the factor of its coordinate, or at its place.
    fn add_at(&mut self, a: WideTerm) -> Result<(), AllocError>
        requires { HasRoom (wide_view self.old).terms a.factor }
        ensures terms { OnOk result ((wide_view self.new).terms
            ≡ add_at (wide_term a) (wide_view self.old).terms) }
        ensures constant { self.new.constant ≡ self.old.constant }
    {
        let place = place_for(self.terms.as_slice(), &a);
        if self.has_at(place, &a) {
            self.raise(place, &a);
        } else if !is_zero(&a) {
            self.terms.insert(place, a)?;
        }
        Ok(())
    }

    /// Adds a sum.
    pub fn add(&mut self, other: &WideSum) -> Result<(), AllocError>
        requires { CanAdd (wide_view self.old) (wide_view other.now) }
        ensures { OnOk result (wide_view self.new
            ≡ add_sums (wide_view self.old) (wide_view other.now)) }
    {
        self.constant += other.constant;
        for a in other.terms.as_slice() {
            self.add_at(*a)?;
        }
        Ok(())
    }

    /// Adds a number, or a coordinate of an object.
    pub fn add_atom(&mut self, atom: Atom) -> Result<(), AllocError>
        requires { CanAdd (wide_view self.old) (atom_view atom) }
        ensures { OnOk result (wide_view self.new
            ≡ add_sums (wide_view self.old) (atom_view atom)) }
    {
        match atom {
            Atom::Number(z) => {
                self.constant += z;
                Ok(())
            }
            Atom::Coordinate(object, dimension) => self.add_at(WideTerm {
                object,
                dimension,
                factor: 1,
            }),
        }
    }

    /// Takes a form with at most one coordinate away.
    pub fn subtract_short(&mut self, f: Short) -> Result<(), AllocError>
        requires { CanAdd (wide_view self.old) (negated (short_view f)) }
        ensures { OnOk result (wide_view self.new
            ≡ difference (wide_view self.old) (short_view f)) }
    {
        match f {
            Short::Number(z) => {
                self.constant -= i128::from(z);
                Ok(())
            }
            Short::Shifted(object, dimension, z) => {
                self.constant -= i128::from(z);
                self.add_at(WideTerm {
                    object,
                    dimension,
                    factor: -1,
                })
            }
        }
    }

    /// The sum multiplied by a number. Terms whose factor comes to 0 go.
    pub fn scaled(&self, alloc: Global, z: i128) -> Result<WideSum, AllocError>
        requires { CanScale z (wide_view self.now) }
        ensures { IfOk result (λ f. wide_view f ≡ scale z (wide_view self.now)) }
    {
        let mut terms = SmallVec::new(alloc);
        for t in self.terms.as_slice() {
            push_unless_zero(&mut terms, scaled_term(t, z))?;
        }
        Ok(WideSum {
            terms,
            constant: z * self.constant,
        })
    }

    /// Whether it is within the bounds of a form.
    pub fn fits(&self) -> bool
        ensures { result ≡ fits_sum (wide_view self.now) }
    {
        for t in self.terms.as_slice() {
            if !is_within(t.factor) {
                return false;
            }
        }
        is_within(self.constant)
    }

    /// The same as a form.
    pub fn to_form(&self, alloc: Global) -> Result<Form, AllocError>
        requires { IsForm (wide_view self.now).terms self.now.constant }
        ensures { IfOk result (λ f. f ≡ wide_view self.now) }
    {
        let mut terms: SmallVec<(ObjId, usize, i64), 4> = SmallVec::new(alloc);
        for t in self.terms.as_slice() {
            terms.push(narrow_term(t))?;
        }
        Form::new(alloc, terms.as_slice(), self.constant as i64)
    }

    /// The sum with 1 added.
    pub fn plus_one(self) -> WideSum
        requires { FitsSigned w128 (self.constant +ℤ pos 1) }
        ensures { wide_view result ≡ plus_one (wide_view self) }
    {
        let WideSum { terms, constant } = self;
        WideSum {
            terms,
            constant: constant + 1,
        }
    }
}
