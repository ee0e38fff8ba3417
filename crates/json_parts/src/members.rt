//! The members of an object, in the order of their keys.

ghost use Rattle.std.specs.Prelude.{◌≡◌, IfOk, IfErr, OnOk, Err};
ghost use Rattle.serde_json.specs.Data.{Data, Members as MemberList, member, no_members, object};
ghost use Rattle.serde_json.specs.View.{view, members_view};
ghost use Rattle.json_parts.specs.Form.{HasNoFirst, IsObject, IsMember, HasNoMember};

use crate::{FromJson, JsonFault};
use serde_json::Value;
use std::alloc::Global;
use std::collections::btree_map::Iter;

/// The members of an object that were not read yet, in the order of their keys.
#[derive(Drop)]
pub struct Members<'a> {
    rest: Iter<'a, String, Value>,
}

impl<'a> Members<'a> {
    /// The members of the object. The fault is `Form` exactly where the value is none.
    pub fn of(value: &'a Value) -> Result<Members<'a>, JsonFault>
        ensures ok { IfOk result (λ m. view value.now ≡ object (members_view m.rest)) }
        ensures form { IfErr result (λ e. IsObject (view value.now) → ⊥) }
    {
        match value.as_object() {
            Some(map) => Ok(Members { rest: map.iter() }),
            None => Err(JsonFault::Form),
        }
    }

    // The value of the next member. The fault is `Form` exactly where it has not this key.
    fn next(&mut self, key: &str) -> Result<&'a Value, JsonFault>
        ensures ok { IfOk result (λ v. members_view self.old.rest
            ≡ member key.now (view v.now) (members_view self.new.rest)) }
        ensures form { IfErr result (λ e. HasNoFirst (members_view self.old.rest) key.now) }
    {
        match self.rest.next() {
            Some((name, value)) => {
                if name.as_str() == key {
                    Ok(value)
                } else {
                    Err(JsonFault::Form)
                }
            }
            None => Err(JsonFault::Form),
        }
    }

    /// What the next member says. The fault is `Form` exactly where it has not this key, or its value says nothing that
    /// may be said.
    pub fn read<T: FromJson>(&mut self, alloc: Global, key: &str) -> Result<T, JsonFault>
        ensures ok { IfOk result (λ x. IsMember T.IsRight T.json key.now (members_view self.old.rest)
            (T.says x) (members_view self.new.rest)) }
        ensures form { result ≡ Err JsonFault.Form
            → HasNoMember T.IsRight T.json key.now (members_view self.old.rest) }
    {
        let value = self.next(key)?;
        T::from_json(alloc, value)
    }

    /// Nothing is left. The fault is `Form` exactly where a member is.
    pub fn end(self) -> Result<(), JsonFault>
        ensures ok { OnOk result (members_view self.entry.rest ≡ no_members) }
        ensures form { IfErr result (λ e. members_view self.entry.rest ≡ no_members → ⊥) }
    {
        let mut rest = self.rest;
        match rest.next() {
            Some(_) => Err(JsonFault::Form),
            None => Ok(()),
        }
    }
}
