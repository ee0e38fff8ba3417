//! What a step of a search gives.

/// What one step of a search gives.
#[derive(Clone, Copy)]
pub enum Step {
    /// The next layout within the budget.
    Found,
    /// There is no other layout.
    Ended,
    /// The budget is used up, and the walk goes on.
    Budget,
    /// The recorder wanted memory.
    Memory,
}
