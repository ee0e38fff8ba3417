//! The statements of a text by their kinds.

ghost use Rattle.std.specs.Prelude.{◌≡◌, ◌++◌, ◌∷◌, [], IfOk, OnOk};
ghost use Rattle.problem_data.specs.View.{statement_view, problem_view};
ghost use Rattle.problem_data.specs.Parts.{parts_of, parts_view, no_statements, add_statement};

use crate::tree::{
    Int, MacroText, ObjectText, OrderText, ProblemText, RuleText, ShapeText, SidesText, Statement,
};
use std::alloc::{AllocError, Global};

/// The version, the number of dimensions, and the statements of each kind in file order.
#[derive(Drop)]
pub struct Parts {
    pub version: Int,
    pub dims: Int,
    pub shapes: Vec<ShapeText>,
    pub objects: Vec<ObjectText>,
    pub orders: Vec<OrderText>,
    pub sides: Vec<SidesText>,
    pub macros: Vec<MacroText>,
    pub rules: Vec<RuleText>,
}

impl Parts {
    fn new(alloc: Global, version: Int, dims: Int) -> Parts
        ensures { parts_view result ≡ no_statements version dims }
    {
        Parts {
            version,
            dims,
            shapes: Vec::new(alloc),
            objects: Vec::new(alloc),
            orders: Vec::new(alloc),
            sides: Vec::new(alloc),
            macros: Vec::new(alloc),
            rules: Vec::new(alloc),
        }
    }

    fn add(&mut self, statement: Statement) -> Result<(), AllocError>
        ensures { OnOk result (parts_view self.new
            ≡ add_statement (parts_view self.old) (statement_view statement)) }
    {
        match statement {
            Statement::Shape(shape) => append(&mut self.shapes, shape),
            Statement::Object(object) => append(&mut self.objects, object),
            Statement::Order(order) => append(&mut self.orders, order),
            Statement::Sides(sides) => append(&mut self.sides, sides),
            Statement::Macro(one) => append(&mut self.macros, one),
            Statement::Rule(rule) => append(&mut self.rules, rule),
        }
    }
}

/// Appends an item.
fn append<T: Drop>(list: &mut Vec<T>, item: T) -> Result<(), AllocError>
    ensures { OnOk result (list.new.items ≡ list.old.items ++ item ∷ []) }
{
    list.push(item)?;
    Ok(())
}

/// The statements of a text by their kinds.
pub fn by_kind(alloc: Global, said: ProblemText) -> Result<Parts, AllocError>
    ensures { IfOk result (λ p. parts_view p ≡ parts_of (problem_view said)) }
{
    let ProblemText {
        version,
        dims,
        statements,
    } = said;
    let mut parts = Parts::new(alloc, version, dims);
    for statement in statements {
        parts.add(statement)?;
    }
    Ok(parts)
}
