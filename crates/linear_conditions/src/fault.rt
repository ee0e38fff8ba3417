//! Why a comparison, and the formula around it, has no condition.

use std::alloc::{AllocError, AllocFailed};

/// Why a formula has no conditions.
#[derive(Clone, Copy, Debug)]
pub enum GroundFault {
    /// A form is out of bounds.
    Overflow,
    /// More was counted than the limits allow.
    TooMany,
    /// There is no memory.
    Memory,
}

impl From<AllocError> for GroundFault {
    ghost use Rattle.std.specs.Prelude.{◌≡◌};
    ghost use Rattle.linear_conditions.specs.declared.fault.GroundFault.TheVariants.{Memory};

    ghost from_gives = { λ e f. f ≡ Memory };

    fn from(_e: AllocError) -> GroundFault {
        GroundFault::Memory
    }
}

impl<T: Drop> From<AllocFailed<T>> for GroundFault {
    ghost use Rattle.std.specs.Prelude.{◌≡◌};
    ghost use Rattle.linear_conditions.specs.declared.fault.GroundFault.TheVariants.{Memory};

    ghost from_gives = { λ e f. f ≡ Memory };

    fn from(_e: AllocFailed<T>) -> GroundFault {
        GroundFault::Memory
    }
}
