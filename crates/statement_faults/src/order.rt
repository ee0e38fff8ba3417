//! Faults of the statements of the search order and the sides.

ghost use Rattle.std.specs.Prelude.{◌≡◌, ℕ, List, length, map, IfOk};
ghost use Rattle.problem_data.specs.Tree.{OrderTree, SidesTree};
ghost use Rattle.problem_data.specs.View.{order_view, sides_view};
ghost use Rattle.problem_data.specs.Least.{IsLeast};
ghost use Rattle.problem_data.specs.Faults.{Among, OrderFault, SidesFault, first_place, side_place};

use crate::names::{met_names, not_made};
use crate::numbers::miscount;
use geo_tokens::fault::FaultWord;
use problem_data::fault::{Fault, earlier, fault_if};
use problem_data::seen::SeenNames;
use problem_data::tree::{OrderText, SideText, SidesText};
use std::alloc::{AllocError, Global};

/// The first fault of an order that has so many orders before it, where these are the names of the objects.
fn order_fault(
    alloc: Global,
    made: &SeenNames<'_>,
    index: usize,
    order: &OrderText,
) -> Result<Option<Fault>, AllocError>
    ensures { IfOk result (λ o. (before : List OrderTree) → length before ≡ index
        → IsLeast (OrderFault made.now before (order_view order.now)) o) }
{
    let names = order.names.as_slice();
    let second = fault_if(index >= 1, order.place, FaultWord::Twice);
    let (listed, repeated) = met_names(alloc, names)?;
    let unknown = not_made(made, names);
    let complete = made.is_inside(&listed);
    let incomplete = fault_if(!complete, order.place, FaultWord::Order);
    let last = earlier(unknown, incomplete);
    let others = earlier(repeated, last);
    Ok(earlier(second, others))
}

/// The first fault of the statements of the search order, where these are the names of the objects.
pub fn orders_fault(
    alloc: Global,
    made: &SeenNames<'_>,
    orders: &[OrderText],
) -> Result<Option<Fault>, AllocError>
    ensures { IfOk result (IsLeast (Among (OrderFault made.now) (map order_view orders.now))) }
{
    let mut found = None;
    for (i, order) in orders.iter().enumerate() {
        let here = order_fault(alloc, made, i, order)?;
        found = earlier(found, here);
    }
    Ok(found)
}

fn first_side(sides: &[SideText]) -> u64
    ensures { result ≡ first_place side_place sides.now }
{
    match sides {
        [first, ..] => first.place,
        [] => 0,
    }
}

/// The first fault of sides that have so many statements of sides before them.
fn some_sides_fault(k: usize, index: usize, sides: &SidesText) -> Option<Fault>
    ensures { (before : List SidesTree) → length before ≡ index
        → IsLeast (SidesFault k before (sides_view sides.now)) result }
{
    let list = sides.sides.as_slice();
    let second = fault_if(index >= 1, sides.place, FaultWord::Twice);
    let count = miscount(k, list.len(), first_side(list));
    earlier(second, count)
}

/// The first fault of the statements of sides.
pub fn sides_fault(k: usize, sides: &[SidesText]) -> Option<Fault>
    ensures { IsLeast (Among (SidesFault k) (map sides_view sides.now)) result }
{
    let mut found = None;
    for (i, one) in sides.iter().enumerate() {
        let here = some_sides_fault(k, i, one);
        found = earlier(found, here);
    }
    found
}
