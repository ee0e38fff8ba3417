//! What may come next in the text of a derivation.

ghost use Rattle.std.specs.Prelude.{◌≡◌};
ghost use Rattle.derivation_reading.specs.Terminals.{terminal_of};

use geo_conditions::ObjId;
use geo_tokens::token::{Keyword, Kind, Sym};

/// The part of a coordinate that is spoken of: up to a number, or from it on.
#[derive(Clone, Copy, PartialEq, Eq)]
pub enum Part {
    Upto,
    From,
}

/// Whether a minus stood in front of a number.
#[derive(Clone, Copy, PartialEq, Eq)]
pub enum Sign {
    Plus,
    Minus,
}

/// What is open in a text. It holds what was read of its line before. Dimensions count from 0.
#[derive(Clone, Copy)]
pub enum Symbol {
    /// A whole text.
    Text,
    /// A node.
    Node,
    /// The word behind the last node.
    Qed,
    /// The object of a split.
    SplitObject,
    /// The word `shape`, or a dimension.
    SplitBy(ObjId),
    /// The place of a split.
    SplitShape(ObjId),
    /// The word `upto` or `from`.
    SplitPart(ObjId, u32),
    /// The number of a split, and both nodes.
    SplitNumber(Part, ObjId, u32, Sign),
    /// The object that has no point at one of its places.
    DropObject,
    /// That place.
    DropShape(ObjId),
    /// The object of which a bound moves: its low ends where the part is from a number, its high ends where it is up to one.
    BoundObject(Part),
    /// The dimension in which the bound moves.
    BoundDimension(Part, ObjId),
    /// The new bound.
    BoundNumber(Part, ObjId, u32, Sign),
    /// The list of covers, and the node behind it.
    BoundCovers(Part, ObjId, u32, i64),
    /// The object that has no point.
    GoneObject,
    /// Its list of covers.
    GoneCovers(ObjId),
    /// The number of a condition that is refuted.
    DeadNumber,
    /// What is left of a list of covers of this object.
    Covers(ObjId),
    /// A cover.
    Cover,
    /// The number of the condition that a cover names.
    ByNumber,
    /// The dimension of a cut.
    CutDimension(Part),
    /// The number of a cut, and both covers.
    CutNumber(Part, u32, Sign),
}

/// What a token is in the text of a derivation.
#[derive(Clone, Copy, PartialEq, Eq)]
pub enum Terminal {
    /// A name, or one of the words that are known by their place.
    Name,
    Number(u32),
    /// The word `shape`.
    Shape,
    /// The word `absent`.
    Absent,
    Minus,
    /// The bracket that begins a list of covers.
    Open,
    /// The bracket that ends it.
    Close,
    /// The word `qed`.
    Qed,
    /// A token of no derivation.
    Other,
}

/// What a token of this kind is in the text of a derivation.
pub fn terminal_of(kind: Kind) -> Terminal
    ensures { result ≡ terminal_of kind }
{
    match kind {
        Kind::Name => Terminal::Name,
        Kind::Number(value) => Terminal::Number(value),
        Kind::Word(Keyword::Shape) => Terminal::Shape,
        Kind::Word(Keyword::Absent) => Terminal::Absent,
        Kind::Word(Keyword::Qed) => Terminal::Qed,
        Kind::Symbol(Sym::Minus) => Terminal::Minus,
        Kind::Symbol(Sym::BracketOpen) => Terminal::Open,
        Kind::Symbol(Sym::BracketClose) => Terminal::Close,
        _ => Terminal::Other,
    }
}
