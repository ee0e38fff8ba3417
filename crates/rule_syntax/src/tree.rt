//! The trees that the tokens of formulas and expressions spell.
//!
//! Each node has the place of its first token: how many bytes of the text stand before it. Brackets make no node.

use geo_tokens::name::Name;

/// A name, with the place where it stands.
#[derive(Drop)]
pub struct PlacedName {
    pub place: u64,
    pub name: Name,
}

/// An expression.
#[cycle(expression)]
pub enum Expr {
    /// A number.
    Num(u64, u32),
    /// A field of an object or a box; the number is the place of the `.`.
    Field(PlacedName, u64, PlacedName),
    /// A name alone.
    Param(PlacedName),
    /// The number of a shape.
    ShapeNum(u64, PlacedName),
    /// A minus in front of a factor.
    Neg(u64, Box<Expr>),
    /// A term, and others that are added and taken away from the left.
    Sum(u64, Box<Expr>, Vec<SumStep>),
    /// A factor, and steps of multiplication and division from the left.
    Prod(u64, Box<Expr>, Vec<ProdStep>),
    /// The least of two.
    Min(u64, Box<Expr>, Box<Expr>),
    /// The greatest of two.
    Max(u64, Box<Expr>, Box<Expr>),
    /// A call of a macro that gives a number.
    CallValue(u64, PlacedName, Vec<Argument>),
}

/// Written out, since a derived one is made and proved anew in each crate that drops an expression.
impl Drop for Expr {
    #[cycle(expression_drop)]
    fn drop(self) {
        match self {
            Expr::Num(_, _) => {}
            Expr::Field(_object, _, _field) => {}
            Expr::Param(_name) => {}
            Expr::ShapeNum(_, _name) => {}
            Expr::Neg(_, _of) => {}
            Expr::Sum(_, _first, _steps) => {}
            Expr::Prod(_, _first, _steps) => {}
            Expr::Min(_, _left, _right) => {}
            Expr::Max(_, _left, _right) => {}
            Expr::CallValue(_, _name, _arguments) => {}
        }
    }
}

/// What is done with a term of a sum behind the first one.
#[cycle(expression)]
#[derive(Drop)]
pub enum SumStep {
    Plus(Expr),
    Minus(Expr),
}

/// What is done with a factor of a product behind the first one. The first number of `Div` and `Mod` is the place of
/// the second one.
#[cycle(expression)]
#[derive(Drop)]
pub enum ProdStep {
    Times(Expr),
    Div(u64, u32),
    Mod(u64, u32),
}

/// An argument of a call, with the place of its first token, which may be a bracket.
#[cycle(expression)]
#[derive(Drop)]
pub struct Argument {
    pub place: u64,
    pub value: Expr,
}

/// How the two sides of a comparison are compared.
#[derive(Clone, Copy)]
pub enum Rel {
    Lt,
    Le,
    Eq,
    Ne,
    Ge,
    Gt,
}

/// Which elements of a collection the body has to hold for.
#[derive(Clone, Copy)]
pub enum QuantKind {
    ForAll,
    Exists,
    AtLeast(u32),
    AtMost(u32),
}

/// What a quantifier's variable ranges over.
pub enum Coll {
    /// All objects.
    Objects,
    /// The listed objects.
    Listed(Vec<PlacedName>),
    /// The boxes of an object's shape.
    BoxesOf(PlacedName),
}

/// Written out, as the drop of an expression is.
impl Drop for Coll {
    fn drop(self) {
        match self {
            Coll::Objects => {}
            Coll::Listed(_names) => {}
            Coll::BoxesOf(_name) => {}
        }
    }
}

/// A formula.
pub enum Formula {
    True(u64),
    False(u64),
    Not(u64, Box<Formula>),
    And(u64, Vec<Formula>),
    Or(u64, Vec<Formula>),
    Implies(u64, Box<Formula>, Box<Formula>),
    Iff(u64, Box<Formula>, Box<Formula>),
    Compare(u64, Box<Expr>, Rel, Box<Expr>),
    Quant(u64, QuantKind, PlacedName, Coll, Box<Formula>),
    /// A call of a macro that gives a formula.
    Call(u64, PlacedName, Vec<Argument>),
}

/// Written out, as the drop of an expression is.
impl Drop for Formula {
    #[cycle(formula_drop)]
    fn drop(self) {
        match self {
            Formula::True(_) => {}
            Formula::False(_) => {}
            Formula::Not(_, _of) => {}
            Formula::And(_, _operands) => {}
            Formula::Or(_, _operands) => {}
            Formula::Implies(_, _left, _right) => {}
            Formula::Iff(_, _left, _right) => {}
            Formula::Compare(_, _left, _, _right) => {}
            Formula::Quant(_, _, _variable, _elements, _body) => {}
            Formula::Call(_, _name, _arguments) => {}
        }
    }
}
