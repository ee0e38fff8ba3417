//! The conditions of a list in which some were taken apart.

ghost use Rattle.std.specs.Prelude.{◌≡◌, IfOk, map};
ghost use Rattle.condition_parts.specs.Apart.{whole_or, wholes_of};

use geo_conditions::Cond;
use indexical::AnyIndexical;
use std::alloc::{AllocError, Global};

// The whole condition, where one was taken apart; else what stands there.
fn whole_at<const K: usize>(whole: Option<Cond>, x: AnyIndexical<K>) -> Cond
    ensures { result ≡ whole_or whole x.entry.cond }
{
    match whole {
        Some(c) => c,
        None => x.into_cond(),
    }
}

/// The conditions that were taken apart, in their order: each that was kept whole, and for the others what stands in their place.
pub fn put_together<const K: usize>(
    alloc: Global,
    list: Vec<AnyIndexical<K>>,
    wholes: Vec<Option<Cond>>,
) -> Result<Vec<Cond>, AllocError>
    ensures { IfOk result (λ v. v.items
        ≡ wholes_of wholes.items (map (λ x. x.cond) list.entry.items)) }
{
    let mut conditions = Vec::with_capacity(alloc, wholes.len())?;
    for (whole, x) in wholes.into_iter().zip(list) {
        conditions.push(whole_at(whole, x))?;
    }
    Ok(conditions)
}
