//! Why a text is refused, and the place.

ghost use Rattle.std.specs.Prelude.{◌≡◌};
ghost use Rattle.geo_tokens.specs.Fault.{fault_bytes};
ghost use Rattle.geo_tokens.specs.declared.fault.TextFault.TheVariants.{Memory};

use std::alloc::{AllocError, AllocFailed};

/// What is wrong with a text.
#[derive(Clone, Copy, Debug, PartialEq, Eq)]
pub enum FaultWord {
    /// A byte that begins no token.
    Byte,
    /// A number that is too large, or with a letter behind it.
    Number,
    /// A name of more than 40 bytes.
    Name,
    /// A token that goes on with no text of the grammar.
    Syntax,
    /// A token that opens more levels than there may be.
    Deep,
    /// Something outside its limits.
    Limit,
    /// A name that is there already.
    Twice,
    /// A name of nothing.
    Unknown,
    /// A range whose low end is above its high end, or a coordinate outside its range.
    Range,
    /// A size outside its limits.
    Size,
    /// An order that leaves something out.
    Order,
    /// Something of another kind than what is wanted.
    Kind,
    /// A call with another number of arguments.
    Args,
    /// A rule that is too large once its macros are replaced.
    Expand,
    /// A product of two coordinates.
    Product,
    /// A number that grows too large.
    Overflow,
    /// Too many conditions.
    Ground,
    /// A token line of another layout.
    Token,
    /// A text that is too long.
    Long,
}

/// Why a text is refused: what is wrong, with how many bytes of the input stand before it; or want of memory.
#[derive(Clone, Copy, Debug)]
pub enum TextFault {
    /// The place, and what is wrong there.
    At(u64, FaultWord),
    /// Memory ran out.
    Memory,
}

impl From<AllocError> for TextFault {
    ghost from_gives = { λ _ e. e ≡ Memory };

    fn from(_e: AllocError) -> TextFault {
        TextFault::Memory
    }
}

impl<T: Drop> From<AllocFailed<T>> for TextFault {
    ghost from_gives = { λ _ e. e ≡ Memory };

    fn from(_e: AllocFailed<T>) -> TextFault {
        TextFault::Memory
    }
}

/// How each fault is named, in the order of the words.
const FAULT_TEXTS: [&[u8]; 19] = [
    b"byte",
    b"number",
    b"name",
    b"syntax",
    b"deep",
    b"limit",
    b"twice",
    b"unknown",
    b"range",
    b"size",
    b"order",
    b"kind",
    b"args",
    b"expand",
    b"product",
    b"overflow",
    b"ground",
    b"token",
    b"long",
];

/// How a fault is named.
pub fn fault_text(word: FaultWord) -> &'static [u8]
    ensures { result.now ≡ fault_bytes word }
{
    FAULT_TEXTS[word as usize]
}
