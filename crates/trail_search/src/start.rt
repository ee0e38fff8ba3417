//! What a search takes before it sets off: its variables, the values of its token, its levels. All
//! memory is taken here.

ghost use Rattle.std.specs.Prelude.{◌≡◌, ◌≤◌, ◌<◌, IfOk, IfSome, length, map, pos};
ghost use Rattle.std.specs.List.{All};
ghost use Rattle.std.specs.Option.{option_copied, option_map};
ghost use Rattle.geo_conditions.specs.Reach.{IsState, TupleIn};
ghost use Rattle.geo_conditions.specs.Walk.{NamesEach, AreOf, object_of, value_in, values, variables_in};
ghost use Rattle.geo_state.specs.Trail.{HasSmallIntervals};
ghost use Rattle.trail_search.specs.Cursor.{HasDimension};
ghost use Rattle.trail_search.specs.Variables.{variable_of};
ghost use Rattle.trail_search.specs.Walker.{IsWell, IsFresh, token_of};

use crate::variable::{Variable, list_variables};
use crate::walker::Walker;
use geo_base::MAX_DIMS;
use geo_conditions::{Layout, SearchOrder, State};
use geo_state::Trailed;
use std::alloc::{AllocError, Global};

/// The value that the tuple gives the variable.
fn value_of<const K: usize>(first: &State<K>, t: &Layout, x: Variable) -> i64
    requires k { K ≤ MAX_DIMS }
    requires inside { TupleIn t.now first.now }
    requires object { object_of (variable_of x) < length first.now }
    requires dimension { HasDimension K (variable_of x) }
    ensures { result ≡ value_in t.now (variable_of x) }
{
    let _objects = first.objects();
    match x {
        Variable::Place(o) => i64::from(t.place(o)),
        Variable::Coordinate(o, d, _) => t.origin(o, d),
    }
}

/// The values that the tuple gives the variables.
fn values_of<const K: usize>(
    alloc: Global,
    first: &State<K>,
    t: &Layout,
    variables: &[Variable],
) -> Result<Vec<i64>, AllocError>
    requires k { K ≤ MAX_DIMS }
    requires inside { TupleIn t.now first.now }
    requires objects { AreOf first.now (map variable_of variables.now) }
    requires dimensions { All (HasDimension K) (map variable_of variables.now) }
    ensures { IfOk result (λ v. v.items ≡ values (map variable_of variables.now) t.now) }
{
    let mut all = Vec::new(alloc);
    for x in variables {
        all.push(value_of(first, t, *x))?;
    }
    Ok(all)
}

/// The values of the token, if one is given.
fn token_values<const K: usize>(
    alloc: Global,
    first: &State<K>,
    after: Option<&Layout>,
    variables: &[Variable],
) -> Result<Option<Vec<i64>>, AllocError>
    requires k { K ≤ MAX_DIMS }
    requires inside { IfSome (option_copied after) (λ t. TupleIn t first.now) }
    requires objects { AreOf first.now (map variable_of variables.now) }
    requires dimensions { All (HasDimension K) (map variable_of variables.now) }
    ensures { IfOk result (λ v. token_of v
        ≡ option_map (values (map variable_of variables.now)) (option_copied after.entry)) }
{
    match after {
        None => Ok(None),
        Some(t) => match values_of(alloc, first, t, variables) {
            Err(e) => Err(e),
            Ok(v) => Ok(Some(v)),
        },
    }
}

/// As many zeros.
fn zeros(alloc: Global, n: usize) -> Result<Vec<i64>, AllocError>
    ensures length { IfOk result (λ v. length v.items ≡ n) }
    ensures zero { IfOk result (λ v. All (λ z. z ≡ pos 0) v.items) }
{
    let mut all = Vec::with_capacity(alloc, n)?;
    for _i in 0..n {
        all.push(0)?;
    }
    Ok(all)
}

/// A walker that has not set off: it stands in the first state.
pub fn start_walker<const K: usize>(
    alloc: Global,
    first: State<K>,
    order: &SearchOrder,
    after: Option<&Layout>,
) -> Result<Walker<K>, AllocError>
    requires k { K ≤ MAX_DIMS }
    requires small { HasSmallIntervals first }
    requires order { NamesEach K first order.now }
    requires token { IfSome (option_copied after) (λ t. TupleIn t first) }
    ensures shape { IfOk result (λ p. IsState K p.first) }
    ensures first { IfOk result (λ p. p.first ≡ first.entry) }
    ensures variables { IfOk result (λ p. p.variables ≡ variables_in order.now) }
    ensures token { IfOk result (λ p. p.token
        ≡ option_map (values (variables_in order.now)) (option_copied after.entry)) }
    ensures well { IfOk result (λ p. IsWell K p) }
    ensures fresh { IfOk result (λ p. IsFresh p) }
{
    let _objects = first.objects();
    let variables = list_variables(alloc, order)?;
    let token = token_values(alloc, &first, after, &variables)?;
    let values = zeros(alloc, variables.len())?;
    let trail = Trailed::start(alloc, first.copy()?, variables.len())?;
    Ok(Walker {
        first,
        variables,
        token,
        trail,
        values,
        along: false,
        walked: 0,
    })
}
