//! Fields of objects and boxes, and names that stand for numbers.

ghost use Rattle.std.specs.Prelude.{◌≡◌, ◌||◌, is_some};
ghost use Rattle.rule_names.specs.Mistakes.{first_of};
ghost use Rattle.rule_names.specs.Sight.{names_dimension, is_attribute, is_object_field, is_box_field, same_kind};
ghost use Rattle.rule_names.specs.ScopeView.{scope_view};
ghost use Rattle.rule_names.specs.Names.{field_mistakes, bare_mistakes, shape_mistakes};
ghost use Rattle.rule_names.specs.Table.{AreTables};

use crate::mistake::{Flaw, Mistake, mistake_if};
use crate::scope::{Scope, kind_of, same_kind};
use crate::table::{Tables, position_of};
use geo_tokens::name::Name;
use problem_data::problem::Problem;
use problem_data::tree::ParamKind;
use rule_syntax::tree::PlacedName;

/// A letter and a digit that name one of the first dimensions.
fn names_dimension(dims: usize, letter: u8, field: &Name) -> bool
    ensures { result ≡ names_dimension dims letter field.now }
{
    match field.as_bytes() {
        [first, digit] => {
            *first == letter
                && *digit >= b'1'
                && *digit <= b'9'
                && ((*digit - b'1') as usize) < dims
        }
        _ => false,
    }
}

/// Some object lists an attribute of this name.
fn is_attribute(_problem: &Problem, tables: &Tables, field: &Name) -> bool
    requires { AreTables _problem.now tables.now }
    ensures { result ≡ is_attribute _problem.now field.now }
{
    tables.attributes.has(field.as_bytes())
}

fn is_object_field(problem: &Problem, tables: &Tables, field: &Name) -> bool
    requires { AreTables problem.now tables.now }
    ensures { result ≡ is_object_field problem.now field.now }
{
    field.as_bytes() == b"id".as_slice()
        || field.as_bytes() == b"sid".as_slice()
        || names_dimension(problem.dims(), b'x', field)
        || is_attribute(problem, tables, field)
}

fn is_box_field(problem: &Problem, field: &Name) -> bool
    ensures { result ≡ is_box_field problem.now field.now }
{
    names_dimension(problem.dims(), b't', field) || names_dimension(problem.dims(), b'l', field)
}

/// The mistake of a field of what a name stands for; `dot` is the place of the dot.
pub fn field_mistake(
    problem: &Problem,
    tables: &Tables,
    scope: &Scope,
    of: &PlacedName,
    dot: u64,
    field: &PlacedName,
) -> Option<Mistake>
    requires { AreTables problem.now tables.now }
    ensures { result ≡ first_of
        (field_mistakes problem.now (scope_view scope.now) of.now dot field.now) }
{
    match kind_of(problem, tables, scope, &of.name) {
        None => mistake_if(true, of.place, Flaw::UnknownName),
        Some(ParamKind::Int) => mistake_if(true, dot, Flaw::WrongKind),
        Some(ParamKind::Object) => {
            let known = is_object_field(problem, tables, &field.name);
            mistake_if(!known, field.place, Flaw::UnknownField)
        }
        Some(ParamKind::Box) => {
            let known = is_box_field(problem, &field.name);
            mistake_if(!known, field.place, Flaw::UnknownField)
        }
    }
}

/// Whether a bare name may stand for this kind.
fn may_stand(any_kind: bool, kind: ParamKind) -> bool
    ensures { result ≡ (any_kind || same_kind kind ParamKind.Int) }
{
    any_kind || same_kind(kind, ParamKind::Int)
}

/// The mistake of a bare name; where any kind may stand, it only has to be known.
pub fn bare_mistake(
    problem: &Problem,
    tables: &Tables,
    scope: &Scope,
    any_kind: bool,
    name: &PlacedName,
) -> Option<Mistake>
    requires { AreTables problem.now tables.now }
    ensures { result ≡ first_of
        (bare_mistakes problem.now (scope_view scope.now) any_kind name.now) }
{
    match kind_of(problem, tables, scope, &name.name) {
        None => mistake_if(true, name.place, Flaw::UnknownName),
        Some(kind) => {
            let fits = may_stand(any_kind, kind);
            mistake_if(!fits, name.place, Flaw::WrongKind)
        }
    }
}

/// The mistake of the name of a shape.
pub fn shape_mistake(problem: &Problem, tables: &Tables, name: &PlacedName) -> Option<Mistake>
    requires { AreTables problem.now tables.now }
    ensures { result ≡ first_of (shape_mistakes problem.now name.now) }
{
    let known = position_of(&tables.shapes, name.name.as_bytes()).is_some();
    mistake_if(!known, name.place, Flaw::UnknownName)
}
