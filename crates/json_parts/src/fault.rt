//! Why a value of JSON is not read.

ghost use Rattle.std.specs.Prelude.{◌≡◌};
ghost use Rattle.json_parts.specs.declared.fault.JsonFault.TheVariants.{Memory};

use std::alloc::AllocError;
use thiserror::Error;

/// Why a value of JSON is not read.
#[derive(Debug, Drop, Error)]
pub enum JsonFault {
    /// The value has not the form.
    #[error("the value has not the form of a problem")]
    Form,
    /// Memory is short.
    #[error("memory is short")]
    Memory,
}

// Written by hand, since a derived one says nothing of which fault it gives.
impl From<AllocError> for JsonFault {
    ghost from_gives = { λ _ e. e ≡ Memory };

    fn from(_: AllocError) -> Self {
        JsonFault::Memory
    }
}
