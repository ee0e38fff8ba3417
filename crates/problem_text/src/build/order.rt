//! The search order and the sides that statements spell.

ghost use Rattle.std.specs.Prelude.{◌≡◌, ◌≤◌, map, length, replicate, IfOk};
ghost use Rattle.std.specs.List.{range_with_len};
ghost use Rattle.problem_data.specs.declared.tree.Side.TheVariants.{Low};
ghost use Rattle.problem_data.specs.View.{order_view, sides_view};
ghost use Rattle.problem_data.specs.Meaning.{order_of, side_of, sides_of};

use crate::build::objects::build_positions;
use problem_data::seen::SeenNames;
use problem_data::tree::{OrderText, Side, SideText, SidesText};
use std::alloc::{AllocError, Global};

/// The numbers from 0 to below n.
fn file_order(alloc: Global, n: usize) -> Result<Vec<u16>, AllocError>
    requires { n ≤ 256 }
    ensures { IfOk result (λ v. v.items ≡ range_with_len 0 n) }
{
    let mut made = Vec::new(alloc);
    for i in 0..n {
        made.push(i as u16)?;
    }
    Ok(made)
}

/// The search order: the one that is stated, or file order. These are the names of the objects.
pub fn build_order(
    alloc: Global,
    met: &SeenNames<'_>,
    orders: &[OrderText],
) -> Result<Vec<u16>, AllocError>
    requires { length met.now ≤ 256 }
    ensures { IfOk result (λ v. v.items ≡ order_of met.now (map order_view orders.now)) }
{
    match orders {
        [] => file_order(alloc, met.len()),
        [first, ..] => build_positions(alloc, met, first.names.as_slice()),
    }
}

fn low_sides(alloc: Global, k: usize) -> Result<Vec<Side>, AllocError>
    ensures { IfOk result (λ v. v.items ≡ replicate k Low) }
{
    let mut made = Vec::new(alloc);
    for _turn in 0..k {
        made.push(Side::Low)?;
    }
    Ok(made)
}

fn stated_sides(alloc: Global, sides: &[SideText]) -> Result<Vec<Side>, AllocError>
    ensures { IfOk result (λ v. v.items ≡ map side_of sides.now) }
{
    let mut made = Vec::new(alloc);
    for one in sides {
        made.push(one.side)?;
    }
    Ok(made)
}

/// The sides: those that are stated, or `low` in each dimension.
pub fn build_sides(alloc: Global, k: usize, sides: &[SidesText]) -> Result<Vec<Side>, AllocError>
    ensures { IfOk result (λ v. v.items ≡ sides_of k (map sides_view sides.now)) }
{
    match sides {
        [] => low_sides(alloc, k),
        [first, ..] => stated_sides(alloc, first.sides.as_slice()),
    }
}
