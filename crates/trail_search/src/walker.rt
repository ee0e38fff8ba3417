//! The place of a search in its walk: the state with its open levels, the number of members so
//! far, and how far it still follows its token.

ghost use Rattle.std.specs.Prelude.{◌≡◌, ℕ, ℤ, pos, ◌+◌, ◌-◌, ◌^◌, min, ◌<◌, ◌≤◌, ◌↔◌, ◌≢◌, None, Some, IsTrue, true, false, List, [], ◌∷◌, ◌++◌, length, get_or, slice_set, IfOk, OnOk, MatchBool};
ghost use Rattle.std.specs.List.{All};
ghost use Rattle.geo_conditions.specs.declared.cond.Cond.{Cond};
ghost use Rattle.geo_conditions.specs.Conditions.{FitsIn};
ghost use Rattle.geo_conditions.specs.Reach.{reach, NotEmpty, HasNoEmpty};
ghost use Rattle.geo_conditions.specs.Walk.{Variable as Seen, object_of, IsFirstValue, IsFixed};
ghost use Rattle.derivation.specs.declared.event.Event.{Event as EventOf};
ghost use Rattle.derivation.specs.Events.{Grows};
ghost use Rattle.geo_state.specs.Settle.{SettlesOr};
ghost use Rattle.trail_search.specs.Cursor.{Narrows, IsFrom, IsValueOf, HasDimension};
ghost use Rattle.trail_search.specs.Record.{IsClosedRecord, IsFixedTo, IsRecord, RecordsCases, SettlesRecord};
ghost use Rattle.trail_search.specs.Variables.{variable_of, IsAt, HasOne};
ghost use Rattle.trail_search.specs.Walker.{IsWell, SameWalk, depth, path, FirstBound, IsFresh, Leaves, StaysOn, Tightens, Rests, Searches, IsStuck, IsReady, SettledAs};

use crate::narrow::{bound, first_value, fix, has_after};
use crate::variable::{Variable, after, is_at, place_of, split, token_bound};
use derivation::Recorder;
use geo_base::MAX_DIMS;
use geo_conditions::{ObjId, State};
use geo_state::{Propagate, Settled, Trailed};
use std::alloc::AllocError;
use std::marker::Model;

/// The place of a search in its walk.
pub struct Walker<const K: usize> {
    pub first: State<K>,
    pub variables: Vec<Variable>,
    pub token: Option<Vec<i64>>,
    pub trail: Trailed<K>,
    pub values: Vec<i64>,
    pub along: bool,
    pub walked: u64,
}

impl<const K: usize> Drop for Walker<K> {
    fn drop(self) {
        let Walker {
            first: _first,
            variables: _variables,
            token: _token,
            trail: _trail,
            values: _values,
            along: _,
            walked: _,
        } = self;
    }
}

impl<const K: usize> Model for Walker<K> {
    ghost use Rattle.std.specs.Prelude.{map};
    ghost use Rattle.trail_search.specs.Variables.{variable_of};
    ghost use Rattle.trail_search.specs.Walker.{Position, token_of};

    ghost Value = { Position };

    ghost view = { λ a. record {
      first = a.first;
      variables = map variable_of a.variables.items;
      token = token_of a.token;
      trail = a.trail;
      values = a.values.items;
      along = a.along;
      walked = a.walked;
    } };
}

impl<const K: usize> Walker<K> {
    /// How many levels are open.
    pub fn depth(&self) -> usize
        ensures { result ≡ depth self.now }
    {
        self.trail.depth()
    }

    /// Whether there is no variable.
    pub fn is_bare(&self) -> bool
        ensures { IsTrue result ↔ (self.now.variables ≡ []) }
    {
        self.variables.is_empty()
    }

    /// Whether there is a token.
    pub fn has_token(&self) -> bool
        ensures { IsTrue result ↔ (self.now.token ≢ None) }
    {
        self.token.is_some()
    }

    /// Whether each variable has its value.
    pub fn is_full(&self) -> bool
        ensures { IsTrue result ↔ (depth self.now ≡ length self.now.variables) }
    {
        self.trail.depth() == self.variables.len()
    }

    /// How many members were walked.
    pub fn count(&self) -> u64
        ensures { result ≡ self.now.walked }
    {
        self.walked
    }

    /// Counts the empty tuple.
    pub fn visit_empty(&mut self)
        requires { self.old.walked < 2 ^ 64 - 1 }
        ensures same { SameWalk self.old self.new }
        ensures trail { self.new.trail ≡ self.old.trail }
        ensures values { self.new.values ≡ self.old.values }
        ensures walked { self.new.walked ≡ self.old.walked + 1 }
    {
        self.walked += 1;
    }

    /// The first value of the variable.
    pub fn first_value(&self, x: Variable) -> i64
        requires k { K ≤ MAX_DIMS }
        requires object { object_of (variable_of x) < length self.now.trail.state }
        requires dimension { HasDimension K (variable_of x) }
        requires full { NotEmpty (reach self.now.trail.state (object_of (variable_of x))) }
        ensures first { IsFirstValue self.now.trail.state (variable_of x) result }
        ensures fits { IsValueOf (variable_of x) result }
    {
        first_value(self.trail.state(), x)
    }

    /// Settles the state.
    pub fn settle<P: Propagate<K>, R: Recorder>(
        &mut self,
        prop: &mut P,
        rec: &mut R,
    ) -> Result<Settled, AllocError>
        requires k { K ≤ MAX_DIMS }
        requires well { IsWell K self.old }
        requires objects { length self.old.first ≡ P.objects prop.old }
        requires fits { All (λ c. FitsIn c self.old.first) (P.conditions prop.old) }
        ensures settled { SettledAs (P.conditions prop.old) self.old result self.new }
        ensures state { SettlesOr (P.conditions prop.old) self.old.trail.state result
            self.new.trail.state }
        ensures well { IsWell K self.new }
        ensures same { SameWalk self.old self.new }
        ensures depth { depth self.new ≡ depth self.old }
        ensures walked { self.new.walked ≡ self.old.walked }
        ensures conditions { P.conditions prop.new ≡ P.conditions prop.old }
        ensures number { P.objects prop.new ≡ P.objects prop.old }
        ensures record { IfOk result (λ a. R.keeps ≡ true
            → IsRecord (P.conditions prop.old) self.old (R.list rec.old)
            → SettlesRecord (P.conditions prop.old) a self.new (R.list rec.new)) }
        ensures grows { Grows R.keeps R.list R.refusals rec.old rec.new result }
    {
        prop.settle(&mut self.trail, rec)
    }

    /// Records the two cases of a variable: its first value, and the later ones. Where there are
    /// none, nothing is recorded.
    pub fn record_split<R: Recorder>(
        &self,
        rec: &mut R,
        x: Variable,
        u: i64,
    ) -> Result<(), AllocError>
        requires k { K ≤ MAX_DIMS }
        requires object { object_of (variable_of x) < length self.now.trail.state }
        requires dimension { HasDimension K (variable_of x) }
        requires fits { IsValueOf (variable_of x) u }
        ensures cases { OnOk result (R.keeps ≡ true
            → RecordsCases self.now.trail.state (variable_of x) u
            (R.list rec.old) (R.list rec.new)) }
        ensures grows { Grows R.keeps R.list R.refusals rec.old rec.new result }
    {
        if has_after(self.trail.state(), x, u) {
            rec.add(split::<K>(x, u))
        } else {
            Ok(())
        }
    }

    /// Leaves the token.
    fn stray(&mut self)
        ensures same { SameWalk self.old self.new }
        ensures trail { self.new.trail ≡ self.old.trail }
        ensures values { self.new.values ≡ self.old.values }
        ensures along { self.new.along ≡ false }
        ensures walked { self.new.walked ≡ self.old.walked }
    {
        self.along = false;
    }

    /// Keeps to the token.
    fn follow(&mut self)
        ensures same { SameWalk self.old self.new }
        ensures trail { self.new.trail ≡ self.old.trail }
        ensures values { self.new.values ≡ self.old.values }
        ensures along { self.new.along ≡ true }
        ensures walked { self.new.walked ≡ self.old.walked }
    {
        self.along = true;
    }

    /// The next variable to be fixed.
    pub fn variable(&self) -> Variable
        requires k { K ≤ MAX_DIMS }
        requires number { depth self.now < length self.now.variables }
        ensures { get_or self.now.variables (depth self.now) (variable_of result)
            ≡ variable_of result }
    {
        self.variables[self.trail.depth()]
    }

    /// Opens a level in which the next variable has that value.
    fn enter(&mut self, x: Variable, u: i64)
        requires k { K ≤ MAX_DIMS }
        requires object { object_of (variable_of x) < length self.old.trail.state }
        requires dimension { HasDimension K (variable_of x) }
        requires full { NotEmpty (reach self.old.trail.state (object_of (variable_of x))) }
        requires room { depth self.old < self.old.trail.levels }
        requires number { depth self.old < length self.old.values }
        requires first { IsFirstValue self.old.trail.state (variable_of x) u }
        requires count { self.old.walked < 2 ^ 64 - 1 }
        ensures narrows { Narrows self.old.trail.state self.new.trail.state
            (λ T. IsFixed T (variable_of x) u) }
        ensures fixed { IsFixedTo self.old.trail.state (variable_of x) u self.new.trail.state }
        ensures levels { self.new.trail.levels ≡ self.old.trail.levels }
        ensures restores { self.new.trail.restores
            ≡ self.old.trail.restores ++ self.old.trail.state ∷ [] }
        ensures values { self.new.values ≡ slice_set self.old.values (depth self.old) u }
        ensures same { SameWalk self.old self.new }
        ensures along { self.new.along ≡ self.old.along }
        ensures walked { self.new.walked ≡ self.old.walked + 1 }
    {
        let depth = self.trail.depth();
        self.trail.push_level();
        fix(&mut self.trail, x, u);
        self.values[depth] = u;
        self.walked += 1;
    }

    /// The next bound of the token, if the walk keeps to it with that value.
    fn along_bound(&self, u: i64) -> Option<i64>
        requires k { K ≤ MAX_DIMS }
        requires well { IsWell K self.now }
        requires number { depth self.now < length self.now.variables }
        ensures { StaysOn self.now u result }
    {
        let next = self.trail.depth() + 1;
        if !self.along || next >= self.variables.len() {
            return None;
        }
        match &self.token {
            Some(t) => {
                if t[next - 1] == u {
                    Some(token_bound(&self.variables, t, next))
                } else {
                    None
                }
            }
            None => None,
        }
    }

    /// Takes away the values of the next variable before `v`.
    fn tighten(&mut self, v: i64)
        requires k { K ≤ MAX_DIMS }
        requires well { IsWell K self.old }
        requires number { depth self.old < length self.old.variables }
        ensures tight { Tightens self.old v self.new }
        ensures same { SameWalk self.old self.new }
        ensures levels { self.new.trail.levels ≡ self.old.trail.levels }
        ensures restores { self.new.trail.restores ≡ self.old.trail.restores }
        ensures values { self.new.values ≡ self.old.values }
        ensures along { self.new.along ≡ self.old.along }
        ensures walked { self.new.walked ≡ self.old.walked }
    {
        let x = self.variable();
        bound(&mut self.trail, x, v);
    }

    /// Visits the next variable's first value, and goes below it.
    pub fn descend(&mut self, x: Variable, u: i64)
        requires k { K ≤ MAX_DIMS }
        requires well { IsWell K self.old }
        requires number { depth self.old < length self.old.variables }
        requires variable { get_or self.old.variables (depth self.old) (variable_of x)
            ≡ variable_of x }
        requires full { HasNoEmpty self.old.trail.state }
        requires first { IsFirstValue self.old.trail.state (variable_of x) u }
        requires fits { IsValueOf (variable_of x) u }
        requires count { self.old.walked < 2 ^ 64 - 1 }
        ensures well { IsWell K self.new }
        ensures same { SameWalk self.old self.new }
        ensures walked { self.new.walked ≡ self.old.walked + 1 }
        ensures path { path self.new ≡ path self.old ++ u ∷ [] }
        ensures depth { depth self.new ≡ depth self.old + 1 }
        ensures searches { (cs : List Cond) (w : List (List ℤ)) → Rests cs self.old w
            → Searches cs self.new (w ++ (path self.old ++ u ∷ []) ∷ []) }
        ensures record { self.old.token ≡ None → (cs : List Cond) (old new : List EventOf)
            → RecordsCases self.old.trail.state (variable_of x) u old new
            → IsRecord cs self.old old → IsRecord cs self.new new }
    {
        let _objects = self.trail.state().objects();
        let stay = self.along_bound(u);
        self.enter(x, u);
        match stay {
            Some(v) => self.tighten(v),
            None => self.stray(),
        }
    }

    /// Closes a level. Where its variable has a later value it goes past the level's; false where
    /// it has none.
    fn leave(&mut self) -> bool
        requires k { K ≤ MAX_DIMS }
        requires well { IsWell K self.old }
        requires open { 0 < depth self.old }
        ensures left { Leaves result self.old self.new }
        ensures record { (cs : List Cond) (es : List EventOf) → IsClosedRecord cs self.old es
            → MatchBool result (IsRecord cs self.new es) (IsClosedRecord cs self.new es) }
        ensures same { SameWalk self.old self.new }
        ensures values { self.new.values ≡ self.old.values }
        ensures along { self.new.along ≡ false }
        ensures walked { self.new.walked ≡ self.old.walked }
    {
        self.trail.undo();
        self.along = false;
        let depth = self.trail.depth();
        let x = self.variables[depth];
        let u = self.values[depth];
        if !has_after(self.trail.state(), x, u) {
            return false;
        }
        bound(&mut self.trail, x, after(x, u));
        true
    }

    /// Goes on past the last value that has a later one; false where there is none.
    pub fn retreat(&mut self) -> bool
        requires k { K ≤ MAX_DIMS }
        requires well { IsWell K self.old }
        ensures well { IsWell K self.new }
        ensures same { SameWalk self.old self.new }
        ensures walked { self.new.walked ≡ self.old.walked }
        ensures depth { IsTrue result → depth self.new < depth self.old }
        ensures none { (result ≡ false) → depth self.new ≡ 0 }
        ensures searches { IsTrue result → (cs : List Cond) (w : List (List ℤ))
            → IsStuck cs self.old w → Searches cs self.new w }
        ensures stuck { (result ≡ false) → (cs : List Cond) (w : List (List ℤ))
            → IsStuck cs self.old w → IsStuck cs self.new w }
        ensures record { (cs : List Cond) (es : List EventOf) → IsClosedRecord cs self.old es
            → MatchBool result (IsRecord cs self.new es) (IsClosedRecord cs self.new es) }
    {
        while self.depth() > 0 {
            if self.leave() {
                return true;
            }
        }
        false
    }

    /// The token's bound at the first variable, if there is a token.
    fn first_bound(&self) -> Option<i64>
        requires k { K ≤ MAX_DIMS }
        requires well { IsWell K self.now }
        requires some { 0 < length self.now.variables }
        ensures { FirstBound self.now result }
    {
        match &self.token {
            Some(t) => Some(token_bound(&self.variables, t, 0)),
            None => None,
        }
    }

    /// Sets off on the walk, after the token if there is one.
    pub fn set_off(&mut self)
        requires k { K ≤ MAX_DIMS }
        requires well { IsWell K self.old }
        requires fresh { IsFresh self.old }
        requires some { 0 < length self.old.variables }
        ensures well { IsWell K self.new }
        ensures same { SameWalk self.old self.new }
        ensures walked { self.new.walked ≡ 0 }
        ensures depth { depth self.new ≡ 0 }
        ensures searches { (cs : List Cond) → Searches cs self.new [] }
        ensures unmoved { self.old.token ≡ None → self.new.trail ≡ self.old.trail }
    {
        if let Some(v) = self.first_bound() {
            self.tighten(v);
            self.follow();
        }
    }

    /// Begins the walk: sets off on it, if there is a variable.
    pub fn begin(&mut self)
        requires k { K ≤ MAX_DIMS }
        requires well { IsWell K self.old }
        requires fresh { IsFresh self.old }
        ensures well { IsWell K self.new }
        ensures same { SameWalk self.old self.new }
        ensures walked { self.new.walked ≡ 0 }
        ensures ready { (cs : List Cond) → IsReady cs self.new false }
        ensures unmoved { self.old.token ≡ None → self.new.trail ≡ self.old.trail }
    {
        if !self.is_bare() {
            self.set_off();
        }
    }

    /// The number of the variable that is the place of the object, or its coordinate in that
    /// dimension.
    fn number_of(&self, o: ObjId, d: Option<usize>) -> usize
        requires k { K ≤ MAX_DIMS }
        requires named { HasOne (IsAt o.0 d) self.now.variables }
        ensures within { result < length self.now.variables }
        ensures at { (x : Seen) → IsAt o.0 d (get_or self.now.variables result x) }
    {
        for (i, x) in self.variables.iter().enumerate() {
            if is_at(*x, o, d) {
                return i;
            }
        }
        0
    }

    /// The value of the place of the object.
    pub fn place(&self, o: ObjId) -> u8
        requires k { K ≤ MAX_DIMS }
        requires well { IsWell K self.now }
        requires named { HasOne (IsAt o.0 None) self.now.variables }
        ensures { (i : ℕ) × (i < length self.now.variables)
            × ((x : Seen) → IsAt o.0 None (get_or self.now.variables i x))
            × (pos result ≡ get_or self.now.values i (pos 0)) }
    {
        let i = self.number_of(o, None);
        place_of(self.values[i])
    }

    /// The value of the coordinate of the object.
    pub fn coordinate(&self, o: ObjId, d: usize) -> i64
        requires k { K ≤ MAX_DIMS }
        requires well { IsWell K self.now }
        requires named { HasOne (IsAt o.0 (Some d)) self.now.variables }
        ensures { (i : ℕ) × (i < length self.now.variables)
            × ((x : Seen) → IsAt o.0 (Some d) (get_or self.now.variables i x))
            × (result ≡ get_or self.now.values i (pos 0)) }
    {
        let i = self.number_of(o, Some(d));
        self.values[i]
    }
}
