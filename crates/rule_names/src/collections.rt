//! What a quantifier ranges over.

ghost use Rattle.std.specs.Prelude.{◌≡◌, ◌++◌, [], IfOk, is_some, not};
ghost use Rattle.rule_syntax.specs.View.{coll_view};
ghost use Rattle.problem_data.specs.Value.{object_position};
ghost use Rattle.rule_names.specs.Mistakes.{first_of, mistake_if};
ghost use Rattle.rule_names.specs.ScopeView.{scope_view};
ghost use Rattle.rule_names.specs.Names.{listed_mistakes, boxes_mistakes, coll_mistakes, element_kind};
ghost use Rattle.rule_names.specs.Table.{AreTables};

use crate::mistake::{Flaw, Mistake, earlier, mistake_if};
use crate::scope::{Scope, kind_of, same_kind};
use crate::table::{Tables, position_of};
use problem_data::problem::Problem;
use problem_data::seen::SeenNames;
use problem_data::tree::ParamKind;
use rule_syntax::tree::{Coll, PlacedName};
use std::alloc::{AllocError, Global};

/// The first mistake of a name in `objects ( )`, which is new there or not.
fn listed_name_mistake(
    problem: &Problem,
    tables: &Tables,
    name: &PlacedName,
    is_new: bool,
) -> Option<Mistake>
    requires { AreTables problem.now tables.now }
    ensures { result ≡ first_of
        (mistake_if (not (is_some (object_position problem.now name.now.name))) name.now.place
        Flaw.UnknownName
        ++ mistake_if (not is_new) name.now.place Flaw.RepeatedName) }
{
    let known = position_of(&tables.objects, name.name.as_bytes()).is_some();
    let unknown = mistake_if(!known, name.place, Flaw::UnknownName);
    let repeated = mistake_if(!is_new, name.place, Flaw::RepeatedName);
    earlier(unknown, repeated)
}

/// The first mistake of the names in `objects ( )`.
fn listed_mistake(
    alloc: Global,
    problem: &Problem,
    tables: &Tables,
    names: &[PlacedName],
) -> Result<Option<Mistake>, AllocError>
    requires { AreTables problem.now tables.now }
    ensures { IfOk result (λ o. o ≡ first_of (listed_mistakes problem.now [] names.now)) }
{
    let mut seen = Box::new(alloc, SeenNames::new(alloc))?;
    let mut found = None;
    'names: for name in names {
        let is_new = seen.meet(name.name.as_bytes())?;
        let here = listed_name_mistake(problem, tables, name, is_new);
        found = earlier(found, here);
    }
    Ok(found)
}

/// The mistake of the name behind `boxes of`.
fn boxes_mistake(
    problem: &Problem,
    tables: &Tables,
    scope: &Scope,
    name: &PlacedName,
) -> Option<Mistake>
    requires { AreTables problem.now tables.now }
    ensures { result ≡ first_of (boxes_mistakes problem.now (scope_view scope.now) name.now) }
{
    match kind_of(problem, tables, scope, &name.name) {
        None => mistake_if(true, name.place, Flaw::UnknownName),
        Some(kind) => {
            let fits = same_kind(kind, ParamKind::Object);
            mistake_if(!fits, name.place, Flaw::WrongKind)
        }
    }
}

/// The first mistake of what a quantifier ranges over.
pub fn coll_mistake(
    alloc: Global,
    problem: &Problem,
    tables: &Tables,
    scope: &Scope,
    coll: &Coll,
) -> Result<Option<Mistake>, AllocError>
    requires { AreTables problem.now tables.now }
    ensures { IfOk result (λ o. o ≡ first_of
        (coll_mistakes problem.now (scope_view scope.now) (coll_view coll.now))) }
{
    match coll {
        Coll::Objects => Ok(None),
        Coll::Listed(names) => listed_mistake(alloc, problem, tables, names.as_slice()),
        Coll::BoxesOf(name) => Ok(boxes_mistake(problem, tables, scope, name)),
    }
}

/// The kind of the elements.
pub fn element_kind(coll: &Coll) -> ParamKind
    ensures { result ≡ element_kind (coll_view coll.now) }
{
    match coll {
        Coll::Objects => ParamKind::Object,
        Coll::Listed(_) => ParamKind::Object,
        Coll::BoxesOf(_) => ParamKind::Box,
    }
}
