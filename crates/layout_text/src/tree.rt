//! What a layout text says, with the places of its tokens.
//!
//! A place is how many bytes of the text stand before a token.

use problem_data::tree::Int;
use rule_syntax::tree::PlacedName;

/// Where a line puts its object.
#[derive(Drop)]
pub enum PutText {
    /// In the shape of this name, at these coordinates.
    Placed(PlacedName, Vec<Int>),
    /// Nowhere, with the place of the word `absent`.
    Absent(u64),
}

/// A line: the name of an object, and where it is put.
pub struct LineText {
    pub name: PlacedName,
    pub put: PutText,
}

impl Drop for LineText {
    fn drop(self) {
        let LineText {
            name: _name,
            put: _put,
        } = self;
    }
}

/// A group of the token line: which place of the object's list, from 1, and the coordinates.
pub struct GroupText {
    pub shape: u32,
    pub origin: Vec<Int>,
}

impl Drop for GroupText {
    fn drop(self) {
        let GroupText {
            shape: _,
            origin: _origin,
        } = self;
    }
}

/// The token line, with the place of its word. It has no groups where it says `-`.
pub struct TokenText {
    pub place: u64,
    pub groups: Vec<GroupText>,
}

impl Drop for TokenText {
    fn drop(self) {
        let TokenText {
            place: _,
            groups: _groups,
        } = self;
    }
}

/// All that a layout text says. The token line may be left out.
pub struct LayoutText {
    pub lines: Vec<LineText>,
    pub token: Option<TokenText>,
}

impl Drop for LayoutText {
    fn drop(self) {
        let LayoutText {
            lines: _lines,
            token: _token,
        } = self;
    }
}
