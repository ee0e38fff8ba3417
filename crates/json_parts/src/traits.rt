//! What is read from a value of JSON, and what is written as one.

ghost use Rattle.std.specs.Prelude.{◌≡◌, IfOk, Err};
ghost use Rattle.serde_json.specs.Data.{Data};
ghost use Rattle.serde_json.specs.View.{view};
ghost use Rattle.json_parts.specs.Form.{HasForm, HasNoForm};

use crate::JsonFault;
use serde_json::Value;
use std::alloc::{AllocError, Global};

/// What is read from a value of JSON.
pub trait FromJson: Drop {
    // what is said by a value
    ghost Said: { Type 0 };

    // what a thing says
    ghost says: { Self → Said };

    // the value that says it
    ghost json: { Said → Data };

    // what may be said
    ghost IsRight: { Said → Type 0 };

    /// The thing that the value says. The fault is `Form` exactly where the value says none that may be said.
    fn from_json(alloc: Global, value: &Value) -> Result<Self, JsonFault>
        ensures ok { IfOk result (λ x. HasForm IsRight json (view value.now) (says x)) }
        ensures form { result ≡ Err JsonFault.Form → HasNoForm IsRight json (view value.now) };
}

/// What is written as a value of JSON.
pub trait ToJson {
    // the value
    ghost json: { Self → Data };

    // its texts are text
    ghost IsText: { Self → Type 0 };

    /// The value.
    fn to_json(&self, alloc: Global) -> Result<Value, AllocError>
        requires { IsText self.now }
        ensures { IfOk result (λ v. view v ≡ json self.now) };
}
