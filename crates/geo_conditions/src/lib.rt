//! Linear conditions and trees of conditions over placed objects, the states on which they are
//! possible or refuted, and the definitions of supported states and of the walk of a search.
#![tactic(auto)]

mod cond;
mod fitting;
mod form;
mod laws;
mod layout;
mod object;
mod order;
mod refute;
mod shapes;
mod state;

pub use cond::{Cond, Conds};
pub use fitting::{all_fit, fits};
pub use form::{Form, Term};
pub use laws::{
    fronts_begin_the_walk, full_members_are_layouts, greatest_exists, layouts_stay,
    listings_follow_the_walk, prefixes_are_members, refutation_is_monotone, refuted_is_false,
    supported_states_join, values_tell_tuples, walks_are_lists,
};
pub use layout::Layout;
pub use object::{MAX_OBJECTS, MAX_SHAPES, ObjId};
pub use order::SearchOrder;
pub use refute::{least_value_at, refuted, refuted_at};
pub use shapes::ShapeSet;
pub use state::State;
