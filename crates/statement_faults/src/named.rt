//! What has a name.

ghost use Rattle.std.specs.Prelude.{◌≡◌};
ghost use Rattle.rule_syntax.specs.declared.tree.PlacedName.{PlacedName};

use problem_data::tree::{AttributeText, MacroText, ObjectText, ParamText, RuleText, ShapeText};
use rule_syntax::tree::PlacedName;

/// A part of a text with a name of its own.
pub trait Named {
    ghost name_of: { Self → PlacedName };

    fn placed_name(&self) -> &PlacedName
        ensures { result.now ≡ name_of self.now };
}

impl Named for PlacedName {
    ghost name_of = { λ n. n };

    fn placed_name(&self) -> &PlacedName {
        self
    }
}

impl Named for ShapeText {
    ghost name_of = { λ s. s.name };

    fn placed_name(&self) -> &PlacedName {
        &self.name
    }
}

impl Named for ObjectText {
    ghost name_of = { λ o. o.name };

    fn placed_name(&self) -> &PlacedName {
        &self.name
    }
}

impl Named for AttributeText {
    ghost name_of = { λ a. a.name };

    fn placed_name(&self) -> &PlacedName {
        &self.name
    }
}

impl Named for MacroText {
    ghost name_of = { λ m. m.name };

    fn placed_name(&self) -> &PlacedName {
        &self.name
    }
}

impl Named for ParamText {
    ghost name_of = { λ p. p.name };

    fn placed_name(&self) -> &PlacedName {
        &self.name
    }
}

impl Named for RuleText {
    ghost name_of = { λ r. r.name };

    fn placed_name(&self) -> &PlacedName {
        &self.name
    }
}
