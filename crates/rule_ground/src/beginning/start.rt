//! The state in which a search begins.

ghost use Rattle.std.specs.Prelude.{◌≡◌, ◌↔◌, ◌≤◌, All, IfOk, length};
ghost use Rattle.geo_base.specs.declared.TheConstants.{MAX_DIMS};
ghost use Rattle.geo_base.specs.Tuple.{Tuple};
ghost use Rattle.geo_conditions.specs.Reach.{TupleIn};
ghost use Rattle.geo_conditions.specs.Regions.{region_of};
ghost use Rattle.problem_data.specs.Cells.{IsWideTuple};
ghost use Rattle.problem_data.specs.WellFormed.{ArePieces};
ghost use Rattle.rule_ground.specs.Start.{HasSmallEnds, first_state, whole_region};

use geo_base::{KBox, Point};
use geo_conditions::State;
use problem_data::problem::{ObjectDef, Problem};
use std::alloc::{AllocError, Global};

// The points within the hulls of an object's ranges.
fn region<const K: usize>(object: &ObjectDef) -> KBox<K>
    requires dimensions { length object.now.pieces ≡ K }
    requires pieces { All ArePieces object.now.pieces }
    ensures { region_of result ≡ whole_region object.now }
{
    let mut lo = Point::filled(0);
    let mut hi = Point::filled(0);
    for d in 0..K {
        let range = object.hull(d);
        lo.set(d, range.low);
        hi.set(d, range.high);
    }
    KBox::new(lo, hi)
}

/// The state in which a search for a layout of the problem begins: each object has all its places,
/// from 1, and the hulls of its ranges. Its tuples are those of the hulls. K is the
/// number of dimensions.
pub fn start_state<const K: usize>(alloc: Global, problem: &Problem) -> Result<State<K>, AllocError>
    requires dims { problem.now.dims ≡ K }
    ensures value { IfOk result (λ s. s ≡ first_state problem.now) }
    ensures tuples { IfOk result (λ s. (t : Tuple) → TupleIn t s ↔ IsWideTuple problem.now t) }
    ensures ends { IfOk result HasSmallEnds }
{
    problem.is_said();
    let mut state = State::new(alloc);
    for object in problem.objects() {
        let places = object.places() as u8;
        state.add_object(places, region(object))?;
    }
    Ok(state)
}
