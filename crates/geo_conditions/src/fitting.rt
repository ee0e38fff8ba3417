//! Whether conditions name only what a state has.

ghost use Rattle.std.specs.Prelude.{◌≤◌, ◌↔◌, IsTrue};
ghost use Rattle.std.specs.List.{All};
ghost use Rattle.geo_conditions.specs.Conditions.{FitsIn, AllFit};
ghost use Rattle.geo_conditions.specs.Reach.{Exists};

use crate::cond::Cond;
use crate::form::Form;
use crate::state::State;
use geo_base::MAX_DIMS;

fn form_fits<const K: usize>(f: &Form, s: &State<K>) -> bool
    requires k { K ≤ MAX_DIMS }
    ensures { IsTrue result ↔ All (λ a. Exists s.now a.object.0 a.dimension) f.now.terms }
{
    let objects = s.objects();
    for term in f.terms() {
        if term.object.0 as usize >= objects || term.dimension >= K {
            return false;
        }
    }
    true
}

/// Whether the condition names only objects and dimensions of the state.
pub fn fits<const K: usize>(c: &Cond, s: &State<K>) -> bool
    requires k { K ≤ MAX_DIMS }
    ensures { IsTrue result ↔ FitsIn c.now s.now }
{
    match c {
        Cond::Lin(f) => form_fits(f, s),
        Cond::Shape(o, _) => (o.0 as usize) < s.objects(),
        Cond::NotShape(o, _) => (o.0 as usize) < s.objects(),
        Cond::AtLeast(_, children) => {
            for child in children.as_slice() {
                if !fits(child, s) {
                    return false;
                }
            }
            true
        }
    }
}

/// Whether each of the conditions names only objects and dimensions of the state.
pub fn all_fit<const K: usize>(conds: &[Cond], s: &State<K>) -> bool
    requires k { K ≤ MAX_DIMS }
    ensures { IsTrue result ↔ AllFit conds.now s.now }
{
    for c in conds {
        if !fits(c, s) {
            return false;
        }
    }
    true
}
