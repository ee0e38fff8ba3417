//! How close the parts of formulas and expressions bind, and so where brackets are needed.

ghost use Rattle.std.specs.Prelude.{◌≡◌, nat_lt};
ghost use Rattle.rule_print.specs.Spelled.{expr_level, formula_level};

/// What an expression is, or may be without brackets at some place: a sum, a product or a factor.
#[derive(Clone, Copy)]
pub enum ExprRank {
    Sum,
    Product,
    Factor,
}

/// What a formula is, or may be without brackets at some place.
#[derive(Clone, Copy)]
pub enum FormulaRank {
    Equivalence,
    Implication,
    Disjunction,
    Conjunction,
    Unary,
}

impl ExprRank {
    fn level(self) -> u8
        ensures { result ≡ expr_level self }
    {
        match self {
            ExprRank::Sum => 0,
            ExprRank::Product => 1,
            ExprRank::Factor => 2,
        }
    }

    /// It binds less than the other one, and so stands in brackets where that one may stand.
    pub fn is_looser(self, than: ExprRank) -> bool
        ensures { result ≡ nat_lt (expr_level self) (expr_level than) }
    {
        self.level() < than.level()
    }
}

impl FormulaRank {
    fn level(self) -> u8
        ensures { result ≡ formula_level self }
    {
        match self {
            FormulaRank::Equivalence => 0,
            FormulaRank::Implication => 1,
            FormulaRank::Disjunction => 2,
            FormulaRank::Conjunction => 3,
            FormulaRank::Unary => 4,
        }
    }

    /// It binds less than the other one, and so stands in brackets where that one may stand.
    pub fn is_looser(self, than: FormulaRank) -> bool
        ensures { result ≡ nat_lt (formula_level self) (formula_level than) }
    {
        self.level() < than.level()
    }
}
