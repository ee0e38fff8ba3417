//! What the statements of a text say, with the places of their tokens.
//!
//! A place is how many bytes of the text stand before a token.

ghost use Rattle.std.specs.Prelude.{◌≡◌};
ghost use Rattle.problem_data.specs.Problem.{runs_down};

use rule_syntax::tree::{Expr, Formula, PlacedName};

/// A whole number, with the place of its first token.
#[derive(Clone, Copy)]
pub struct Int {
    pub place: u64,
    pub value: i64,
}

/// A range of whole numbers, both ends included.
#[derive(Clone, Copy)]
pub struct RangeText {
    pub low: Int,
    pub high: Int,
}

/// A box of a shape, with the place of its word `box`.
pub struct BoxText {
    pub place: u64,
    pub offsets: Vec<Int>,
    pub sizes: Vec<Int>,
}

impl Drop for BoxText {
    fn drop(self) {
        let BoxText {
            place: _,
            offsets: _offsets,
            sizes: _sizes,
        } = self;
    }
}

/// The statement of a shape.
#[derive(Drop)]
pub struct ShapeText {
    pub name: PlacedName,
    pub boxes: Vec<BoxText>,
}

/// An attribute of an object.
#[derive(Drop)]
pub struct AttributeText {
    pub name: PlacedName,
    pub value: Int,
}

/// The range of a coordinate, by its pieces.
pub struct PiecesText {
    pub ranges: Vec<RangeText>,
}

impl Drop for PiecesText {
    fn drop(self) {
        let PiecesText { ranges: _ranges } = self;
    }
}

/// The statement of an object, with the place of the word `absent` where it stands.
#[derive(Drop)]
pub struct ObjectText {
    pub name: PlacedName,
    pub shapes: Vec<PlacedName>,
    pub absent: Option<u64>,
    pub pieces: Vec<PiecesText>,
    pub attributes: Vec<AttributeText>,
}

/// The statement of the search order, with the place of its word.
pub struct OrderText {
    pub place: u64,
    pub names: Vec<PlacedName>,
}

impl Drop for OrderText {
    fn drop(self) {
        let OrderText {
            place: _,
            names: _names,
        } = self;
    }
}

/// From which end the values of a coordinate are tried.
#[derive(Clone, Copy)]
pub enum Side {
    Low,
    High,
}

impl Side {
    /// Whether values are tried from the high end down.
    pub fn runs_down(self) -> bool
        ensures { result ≡ runs_down self }
    {
        match self {
            Side::Low => false,
            Side::High => true,
        }
    }
}

/// A side, with its place.
#[derive(Clone, Copy)]
pub struct SideText {
    pub place: u64,
    pub side: Side,
}

/// The statement of the sides, with the place of its word.
pub struct SidesText {
    pub place: u64,
    pub sides: Vec<SideText>,
}

impl Drop for SidesText {
    fn drop(self) {
        let SidesText {
            place: _,
            sides: _sides,
        } = self;
    }
}

/// What a parameter of a macro stands for.
#[derive(Clone, Copy)]
pub enum ParamKind {
    Int,
    Object,
    Box,
}

/// A parameter of a macro.
#[derive(Drop)]
pub struct ParamText {
    pub name: PlacedName,
    pub kind: ParamKind,
}

/// What a macro stands for.
#[derive(Drop)]
pub enum MacroBody {
    Means(Formula),
    Is(Expr),
}

/// The statement of a macro.
#[derive(Drop)]
pub struct MacroText {
    pub name: PlacedName,
    pub params: Vec<ParamText>,
    pub body: MacroBody,
}

/// What a rule asks for.
#[derive(Drop)]
pub enum RuleBody {
    Apart,
    Within(Vec<RangeText>),
    Plain(Formula),
}

/// The statement of a rule.
#[derive(Drop)]
pub struct RuleText {
    pub name: PlacedName,
    pub body: RuleBody,
}

/// A statement.
#[derive(Drop)]
pub enum Statement {
    Shape(ShapeText),
    Object(ObjectText),
    Order(OrderText),
    Sides(SidesText),
    Macro(MacroText),
    Rule(RuleText),
}

/// All that a text says: its version, the number of its dimensions, and its statements.
#[derive(Drop)]
pub struct ProblemText {
    pub version: Int,
    pub dims: Int,
    pub statements: Vec<Statement>,
}
