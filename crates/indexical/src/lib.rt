//! Conditions that can be asked for a forbidden box: a box in which an object cannot be.
#![tactic(auto)]

mod any;
mod apart;
mod apart_forbid;
mod bound;
mod counted;
mod cut;
mod facing;
mod first_named;
mod forbidden;
mod form;
mod indexical;
mod late;
mod least;
mod named_marks;
mod nearness;
mod overlap;
mod placed;
mod point;
mod shape_literals;
mod single_bound;
mod sole;
mod sole_making;
mod spared;
mod spared_by;
mod tree;
mod two_boxes;
mod unspared;
mod watched;

pub use any::AnyIndexical;
pub use apart::ApartIndexical;
pub use counted::Counted;
pub use facing::Facing;
pub use forbidden::ForbiddenPart;
pub use indexical::Indexical;
pub use least::least_value_of;
pub use nearness::Nearness;
pub use placed::PlacedBox;
pub use sole::SoleTerm;
pub use sole_making::sole_of;
pub use tree::TreeIndexical;
pub use watched::Watched;
