//! The first fault of the items of a list.

ghost use Rattle.std.specs.Prelude.{IfOk};
ghost use Rattle.problem_data.specs.declared.fault.Fault.{Fault};
ghost use Rattle.problem_data.specs.Faults.{Among};
ghost use Rattle.problem_data.specs.Least.{IsLeast};

use problem_data::fault::{Fault, earlier};
use std::alloc::AllocError;

/// What finds the first fault of one item.
pub trait FindFault<T> {
    // the faults of an item
    ghost IsFaultOf: { Self → T → Fault → Type 0 };

    /// The first fault of the item.
    fn fault_of(&self, item: &T) -> Option<Fault>
        ensures { IsLeast (IsFaultOf self.now item.now) result };
}

/// The first fault of the items.
pub fn each_fault<T, F: FindFault<T>>(find: &F, items: &[T]) -> Option<Fault>
    ensures { IsLeast (Among (λ before. F.IsFaultOf find.now) items.now) result }
{
    let mut found = None;
    for item in items {
        let here = find.fault_of(item);
        found = earlier(found, here);
    }
    found
}

/// What finds the first fault of one item, and takes memory for it.
pub trait TryFindFault<T> {
    // the faults of an item
    ghost IsFaultOf: { Self → T → Fault → Type 0 };

    /// The first fault of the item. The answer is an error where memory is short.
    fn try_fault_of(&self, item: &T) -> Result<Option<Fault>, AllocError>
        ensures { IfOk result (IsLeast (IsFaultOf self.now item.now)) };
}

/// The first fault of the items. The answer is an error where memory is short.
pub fn try_each_fault<T, F: TryFindFault<T>>(
    find: &F,
    items: &[T],
) -> Result<Option<Fault>, AllocError>
    ensures { IfOk result (IsLeast (Among (λ before. F.IsFaultOf find.now) items.now)) }
{
    let mut found = None;
    for item in items {
        let here = find.try_fault_of(item)?;
        found = earlier(found, here);
    }
    Ok(found)
}
