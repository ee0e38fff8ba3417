//! Rules.

ghost use Rattle.std.specs.Prelude.{◌≡◌};
ghost use Rattle.json_sheets.specs.Sheet.{RuleSheetData, rule_sheet, rule_json, IsRuleSheet};

use geo_tokens::name::Name;
use json_parts::{FreeText, FromJson, JsonFault, Members};
use serde_json::Value;
use std::alloc::Global;

/// A rule: its name, and what it asks for.
#[derive(Drop)]
pub struct RuleSheet {
    pub name: Name,
    pub body: FreeText,
}

impl FromJson for RuleSheet {
    ghost Said = { RuleSheetData };

    ghost says = { rule_sheet };

    ghost json = { rule_json };

    ghost IsRight = { IsRuleSheet };

    fn from_json(alloc: Global, value: &Value) -> Result<RuleSheet, JsonFault> {
        let mut members = Members::of(value)?;
        let body = members.read(alloc, "body")?;
        let name = members.read(alloc, "name")?;
        members.end()?;
        Ok(RuleSheet { name, body })
    }
}
