//! In which order placed objects come in along a dimension from its high side, each of which has to
//! pass those that stand already; or a cycle of objects, where there is no such order.
//!
//! Which object is in the way of which is found by the ends of boxes (`reach`) and asked once for
//! each pair (`pairs`). Then the object of least number that blocks no other one left comes next,
//! again and again (`order`). Where each one left blocks another one, the walk from the least one
//! to the least one that it blocks meets itself, and that is a cycle (`walk`).
#![tactic(auto)]

mod list;
mod order;
mod pairs;
mod present;
mod reach;
mod walk;

pub use list::ObjList;
pub use order::{Loading, load};
pub use reach::blocks;
