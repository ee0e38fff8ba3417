//! The two sides of a number in a dimension.

ghost use Rattle.std.specs.Prelude.{◌≡◌};
ghost use Rattle.derivation.specs.Covers.{cut_event};

use crate::event::Event;

/// A side of a number in a dimension: the points up to it, or those from it on.
#[derive(Clone, Copy)]
pub enum Side {
    Upto(u32, i64),
    From(u32, i64),
}

impl Side {
    /// The cut of a box whose first part is this side.
    pub fn cut(self) -> Event
        ensures { result ≡ cut_event self }
    {
        match self {
            Side::Upto(d, v) => Event::Cut(d, v),
            Side::From(d, v) => Event::CutFrom(d, v),
        }
    }
}
