//! The ends of one box in one dimension, in numbers of 128 bits, so that no sum is too large.
ghost use Rattle.std.specs.Prelude.{◌≡◌, ◌<◌, ◌+ℤ◌, ◌≤ℤ◌, ◌<ℤ◌, ℤ, length};
ghost use Rattle.std.specs.Bool.{OnTrue, OnFalse};
ghost use Rattle.geo_base.specs.Boxes.{coordinate};
ghost use Rattle.geo_base.specs.Tuple.{spot};
ghost use Rattle.problem_data.specs.Cells.{IsIn};

use geo_conditions::{Layout, ObjId};
use problem_data::problem::BoxDef;

// The first number of a box in one dimension, and the first one past it.
fn span(origin: i64, offset: i64, size: i64) -> (i128, i128)
    ensures low { result.0 ≡ origin +ℤ offset }
    ensures high { result.1 ≡ (origin +ℤ offset) +ℤ size }
{
    let low = origin as i128 + offset as i128;
    (low, low + size as i128)
}

/// The first number of the box `a` of the object `o` in the dimension `d`, and the first one past
/// it, where the layout puts the object.
pub fn ends(layout: &Layout, o: ObjId, a: &BoxDef, d: usize) -> (i128, i128)
    requires o { (o.0 < length layout.now) × (d < length (spot layout.now o.0).origin) }
    requires a { (d < length a.now.offsets) × (d < length a.now.sizes) }
    ensures low { result.0 ≡ coordinate (spot layout.now o.0).origin d
        +ℤ coordinate a.now.offsets d }
    ensures high { result.1
        ≡ (coordinate (spot layout.now o.0).origin d +ℤ coordinate a.now.offsets d)
        +ℤ coordinate a.now.sizes d }
{
    let origin = layout.origin(o, d);
    let offset = a.offsets()[d];
    let size = a.sizes()[d];
    span(origin, offset, size)
}

// Whether no number stands from p_low on and below p_high, and from q_low on and below q_high.
fn no_common(p_low: i128, p_high: i128, q_low: i128, q_high: i128) -> bool
    ensures yes { OnTrue result ((c : ℤ) → p_low ≤ℤ c → c <ℤ p_high → q_low ≤ℤ c → c <ℤ q_high
        → ⊥) }
    ensures no { OnFalse result ((c : ℤ)
        × ((p_low ≤ℤ c) × (c <ℤ p_high) × (q_low ≤ℤ c) × (c <ℤ q_high))) }
{
    p_high <= p_low || p_high <= q_low || q_high <= p_low || q_high <= q_low
}

/// Whether the box `a` of the object `o` and the box `b` of the object `u` have no common number in
/// the dimension `d`.
pub fn parts_in(layout: &Layout, o: ObjId, a: &BoxDef, u: ObjId, b: &BoxDef, d: usize) -> bool
    requires o { (o.0 < length layout.now) × (d < length (spot layout.now o.0).origin) }
    requires u { (u.0 < length layout.now) × (d < length (spot layout.now u.0).origin) }
    requires a { (d < length a.now.offsets) × (d < length a.now.sizes) }
    requires b { (d < length b.now.offsets) × (d < length b.now.sizes) }
    ensures yes { OnTrue result ((c : ℤ) → IsIn a.now (spot layout.now o.0).origin d c
        → IsIn b.now (spot layout.now u.0).origin d c → ⊥) }
    ensures no { OnFalse result ((c : ℤ)
        × (IsIn a.now (spot layout.now o.0).origin d c
        × IsIn b.now (spot layout.now u.0).origin d c)) }
{
    let (p_low, p_high) = ends(layout, o, a, d);
    let (q_low, q_high) = ends(layout, u, b, d);
    no_common(p_low, p_high, q_low, q_high)
}
