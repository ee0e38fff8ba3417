//! Rules without macros: variables, objects and shapes stand by numbers.

use geo_tokens::name::Name;
use problem_data::problem::RangeDef;
use rule_syntax::tree::{QuantKind, Rel};

/// What a field or a list of boxes is taken of.
#[derive(Clone, Copy)]
pub enum Subject {
    /// The variable of the quantifier that has this number.
    Variable(u32),
    /// An object, by its position from 0.
    Object(usize),
}

/// An expression without macro calls.
#[cycle(plain)]
pub enum PlainExpr {
    Num(u32),
    /// A field of an object or a box.
    Field(Subject, Name),
    /// The number of a shape, given by its position from 0.
    ShapeNum(usize),
    Neg(Box<PlainExpr>),
    Sum(Box<PlainExpr>, Vec<PlainSum>),
    Prod(Box<PlainExpr>, Vec<PlainProd>),
    Min(Box<PlainExpr>, Box<PlainExpr>),
    Max(Box<PlainExpr>, Box<PlainExpr>),
}

/// Written out, since a derived one is made and proved anew in each crate that drops an expression.
impl Drop for PlainExpr {
    #[cycle(plain_drop)]
    fn drop(self) {
        match self {
            PlainExpr::Num(_n) => {}
            PlainExpr::Field(_of, _name) => {}
            PlainExpr::ShapeNum(_shape) => {}
            PlainExpr::Neg(_of) => {}
            PlainExpr::Sum(_first, _steps) => {}
            PlainExpr::Prod(_first, _steps) => {}
            PlainExpr::Min(_left, _right) => {}
            PlainExpr::Max(_left, _right) => {}
        }
    }
}

/// What is done with a term of a sum behind the first one.
#[cycle(plain)]
#[derive(Drop)]
pub enum PlainSum {
    Plus(PlainExpr),
    Minus(PlainExpr),
}

/// What is done with a factor of a product behind the first one.
#[cycle(plain)]
#[derive(Drop)]
pub enum PlainProd {
    Times(PlainExpr),
    Div(u32),
    Mod(u32),
}

/// What a quantifier's variable ranges over.
#[derive(Drop)]
pub enum PlainColl {
    Objects,
    /// Objects, by their positions from 0.
    Listed(Vec<usize>),
    BoxesOf(Subject),
}

/// A formula without macro calls. Each quantifier of a rule has a number of its own for its variable.
pub enum PlainFormula {
    True,
    False,
    Not(Box<PlainFormula>),
    And(Vec<PlainFormula>),
    Or(Vec<PlainFormula>),
    Implies(Box<PlainFormula>, Box<PlainFormula>),
    Iff(Box<PlainFormula>, Box<PlainFormula>),
    Compare(Box<PlainExpr>, Rel, Box<PlainExpr>),
    Quant(QuantKind, u32, PlainColl, Box<PlainFormula>),
}

/// Written out, as that of an expression.
impl Drop for PlainFormula {
    #[cycle(plain_formula_drop)]
    fn drop(self) {
        match self {
            PlainFormula::True => {}
            PlainFormula::False => {}
            PlainFormula::Not(_of) => {}
            PlainFormula::And(_parts) => {}
            PlainFormula::Or(_parts) => {}
            PlainFormula::Implies(_left, _right) => {}
            PlainFormula::Iff(_left, _right) => {}
            PlainFormula::Compare(_left, _rel, _right) => {}
            PlainFormula::Quant(_kind, _variable, _coll, _of) => {}
        }
    }
}

/// What a rule without macros asks for.
pub enum PlainBody {
    /// No two objects share a cell.
    Apart,
    /// Each cell of each object is inside these ranges.
    Within(Vec<RangeDef>),
    /// The formula is true.
    Plain(PlainFormula),
}

/// Written out, as the drop of an expression is.
impl Drop for PlainBody {
    fn drop(self) {
        match self {
            PlainBody::Apart => {}
            PlainBody::Within(_ranges) => {}
            PlainBody::Plain(_formula) => {}
        }
    }
}

/// A rule without macros, with the place of its name in the text.
pub struct PlainRule {
    pub place: u64,
    pub body: PlainBody,
}

/// Written out, as the drop of an expression is.
impl Drop for PlainRule {
    fn drop(self) {
        let PlainRule {
            place: _,
            body: _body,
        } = self;
    }
}
