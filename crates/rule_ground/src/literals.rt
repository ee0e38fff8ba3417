//! Linear conditions on one coordinate, or on two.

ghost use Rattle.std.specs.Prelude.{◌≡◌, ◌<◌, ◌+ℤ◌, ◌-ℤ◌, IfOk, [], ◌∷◌, pos, negsuc};
ghost use Rattle.geo_base.specs.Boxes.{coordinate};
ghost use Rattle.geo_conditions.specs.Form.{IsBounded};
ghost use Rattle.linear_conditions.specs.CondTree.{cond_view, linear};
ghost use Rattle.rule_ground.specs.Shapes.{term};

use geo_conditions::{Cond, Form, ObjId};
use std::alloc::{AllocError, Global};

/// The coordinate `d` of `i` with a constant is at most that of `j`, which stands behind `i`.
pub fn at_most(
    alloc: Global,
    i: ObjId,
    j: ObjId,
    d: usize,
    constant: i64,
) -> Result<Cond, AllocError>
    requires order { i.0 < j.0 }
    requires bounded { IsBounded constant }
    ensures { IfOk result (λ c. cond_view c ≡ linear (record {
      terms = term i.0 d (pos 1) ∷ (term j.0 d (negsuc 0) ∷ []);
      constant = constant;
    })) }
{
    Ok(Cond::Lin(Form::new(alloc, &[(i, d, 1), (j, d, -1)], constant)?))
}

/// The coordinate `d` of `j`, which stands behind `i`, with a constant is at most that of `i`.
pub fn at_least(
    alloc: Global,
    i: ObjId,
    j: ObjId,
    d: usize,
    constant: i64,
) -> Result<Cond, AllocError>
    requires order { i.0 < j.0 }
    requires bounded { IsBounded constant }
    ensures { IfOk result (λ c. cond_view c ≡ linear (record {
      terms = term i.0 d (negsuc 0) ∷ (term j.0 d (pos 1) ∷ []);
      constant = constant;
    })) }
{
    Ok(Cond::Lin(Form::new(alloc, &[(i, d, -1), (j, d, 1)], constant)?))
}

/// The constant is at most the coordinate `d` of `o`.
pub fn from_low(alloc: Global, o: ObjId, d: usize, constant: i64) -> Result<Cond, AllocError>
    requires bounded { IsBounded constant }
    ensures { IfOk result (λ c. cond_view c
        ≡ linear (record { terms = term o.0 d (negsuc 0) ∷ []; constant = constant })) }
{
    Ok(Cond::Lin(Form::new(alloc, &[(o, d, -1)], constant)?))
}

/// The coordinate `d` of `o` with the constant is at most 0.
pub fn to_high(alloc: Global, o: ObjId, d: usize, constant: i64) -> Result<Cond, AllocError>
    requires bounded { IsBounded constant }
    ensures { IfOk result (λ c. cond_view c
        ≡ linear (record { terms = term o.0 d (pos 1) ∷ []; constant = constant })) }
{
    Ok(Cond::Lin(Form::new(alloc, &[(o, d, 1)], constant)?))
}
