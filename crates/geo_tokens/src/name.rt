//! A name, as its bytes.

ghost use Rattle.std.specs.Prelude.{◌≡◌, IfOk, IsTrue, ◌↔◌};
ghost use Rattle.geo_tokens.specs.Bytes.{bytes_of};

use crate::token::Token;
use std::alloc::{AllocError, Global};
use std::marker::Model;

/// A name. It owns its bytes.
pub struct Name {
    bytes: Vec<u8>,
}

impl Drop for Name {
    fn drop(self) {
        let Name { bytes: _bytes } = self;
    }
}

impl Model for Name {
    ghost use Rattle.std.specs.Prelude.{List, ℕ};

    ghost Value = { List ℕ };

    ghost view = { λ n. n.bytes.items };
}

/// The part of a text that a token stands for. Of a token of another text it is what that text has there.
pub fn text_of(text: &[u8], token: Token) -> &[u8]
    ensures { result.now ≡ bytes_of text.now token }
{
    let len = text.len();
    let start = if token.start < len as u64 {
        token.start as usize
    } else {
        len
    };
    let end = if token.end < len as u64 {
        token.end as usize
    } else {
        len
    };
    if start < end {
        &text[start..end]
    } else {
        &text[..0]
    }
}

impl Name {
    /// The name of these bytes.
    pub fn new(alloc: Global, bytes: &[u8]) -> Result<Name, AllocError>
        ensures { IfOk result (λ n. n ≡ bytes.now) }
    {
        Ok(Name {
            bytes: Vec::from_slice(alloc, bytes)?,
        })
    }

    /// The name that a token of a text stands for.
    pub fn of_token(alloc: Global, text: &[u8], token: Token) -> Result<Name, AllocError>
        ensures { IfOk result (λ n. n ≡ bytes_of text.now token) }
    {
        Name::new(alloc, text_of(text, token))
    }

    /// The bytes.
    pub fn as_bytes(&self) -> &[u8]
        ensures { result.now ≡ self.now }
    {
        self.bytes.as_slice()
    }

    /// The same name once more, in memory of its own.
    pub fn try_clone(&self, alloc: Global) -> Result<Name, AllocError>
        ensures { IfOk result (λ n. n ≡ self.now) }
    {
        Name::new(alloc, self.as_bytes())
    }
}

impl PartialEq for Name {
    ghost use Rattle.std.specs.Str.{bytes_eq};
    ghost use Rattle.std.specs.Cmp.Rules.{comparing};
    ghost use Rattle.std.proofs.Common.{rules};

    ghost eq = { λ a b. bytes_eq a b };

    ghost laws = { Prim.search (comparing, rules) };

    /// The two names have the same bytes.
    fn eq(&self, other: &Name) -> bool
        ensures same { IsTrue result ↔ (self.now ≡ other.now) }
        ensures value { result ≡ bytes_eq self.now other.now }
    {
        self.as_bytes() == other.as_bytes()
    }
}

impl Eq for Name {
    ghost use Rattle.std.specs.Cmp.Rules.{comparing};
    ghost use Rattle.std.proofs.Common.{rules};

    ghost laws = { Prim.search (comparing, rules) };
}
