//! Comparisons under signs.

ghost use Rattle.std.specs.Prelude.{◌≡◌};
ghost use Rattle.linear_conditions.specs.Leaves.{under};

use rule_syntax::tree::Rel;

/// A comparison under plus (true) or minus.
pub fn compared(sign: bool, rel: Rel) -> Rel
    ensures { result ≡ under sign rel }
{
    if sign {
        return rel;
    }
    match rel {
        Rel::Lt => Rel::Ge,
        Rel::Le => Rel::Gt,
        Rel::Eq => Rel::Ne,
        Rel::Ne => Rel::Eq,
        Rel::Ge => Rel::Lt,
        Rel::Gt => Rel::Le,
    }
}
