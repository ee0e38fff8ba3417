//! Whether a condition names an object.

ghost use Rattle.std.specs.Prelude.{◌≡◌, true, IsTrue};
ghost use Rattle.geo_state.specs.Settle.{IsBare};

use geo_conditions::Cond;

/// Whether the condition surely names an object: it has a literal that does.
#[cycle(names)]
pub fn names_some(c: &Cond) -> bool
    ensures { IsTrue result → IsBare c.now → ⊥ }
{
    match c {
        Cond::Lin(f) => !f.terms().is_empty(),
        Cond::Shape(_, _) => true,
        Cond::NotShape(_, _) => true,
        Cond::AtLeast(_, children) => {
            for child in children.as_slice() {
                if names_some(child) {
                    return true;
                }
            }
            false
        }
    }
}
