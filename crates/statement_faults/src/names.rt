//! Faults of lists of names.

ghost use Rattle.std.specs.Prelude.{◌≡◌, map, IfOk};
ghost use Rattle.problem_data.specs.Least.{IsLeast};
ghost use Rattle.problem_data.specs.Faults.{PastLimit, Repeated, NamesFault, NotMade, text_of};
ghost use Rattle.problem_data.specs.Seen.{met};

use crate::named::Named;
use geo_tokens::fault::FaultWord;
use problem_data::fault::{Fault, earlier, fault_if};
use problem_data::seen::SeenNames;
use rule_syntax::tree::PlacedName;
use std::alloc::{AllocError, Global};

/// The first name past the limit.
fn past_limit<T: Named>(most: usize, items: &[T]) -> Option<Fault>
    ensures { IsLeast (PastLimit most (map T.name_of items.now)) result }
{
    let mut found = None;
    for (i, item) in items.iter().enumerate() {
        let name = item.placed_name();
        let here = fault_if(i >= most, name.place, FaultWord::Limit);
        found = earlier(found, here);
    }
    found
}

/// The names of the items, and the first one that is repeated.
pub fn met_names<'a, T: Named>(
    alloc: Global,
    items: &'a [T],
) -> Result<(Box<SeenNames<'a>>, Option<Fault>), AllocError>
    ensures names { IfOk result (λ r. r.0.value ≡ met (map text_of (map T.name_of items.now))) }
    ensures fault { IfOk result (λ r. IsLeast (Repeated (map T.name_of items.now)) r.1) }
{
    let mut seen = Box::new(alloc, SeenNames::new(alloc))?;
    let mut found = None;
    for item in items {
        let name = item.placed_name();
        let is_new = seen.meet(name.name.as_bytes())?;
        let here = fault_if(!is_new, name.place, FaultWord::Twice);
        found = earlier(found, here);
    }
    Ok((seen, found))
}

/// The first name that is past the limit or repeated.
pub fn names_fault<T: Named>(
    alloc: Global,
    most: usize,
    items: &[T],
) -> Result<Option<Fault>, AllocError>
    ensures { IfOk result (IsLeast (NamesFault most (map T.name_of items.now))) }
{
    let (_, repeated) = met_names(alloc, items)?;
    Ok(limited(most, items, repeated))
}

/// The first name that is past the limit or repeated, where the first one that is repeated is known.
pub fn limited<T: Named>(most: usize, items: &[T], repeated: Option<Fault>) -> Option<Fault>
    requires { IsLeast (Repeated (map T.name_of items.now)) repeated }
    ensures { IsLeast (NamesFault most (map T.name_of items.now)) result }
{
    let past = past_limit(most, items);
    earlier(past, repeated)
}

/// The first of the names that is none of those that were made.
pub fn not_made(made: &SeenNames<'_>, names: &[PlacedName]) -> Option<Fault>
    ensures { IsLeast (NotMade made.now names.now) result }
{
    let mut found = None;
    for name in names {
        let there = made.has(name.name.as_bytes());
        let here = fault_if(!there, name.place, FaultWord::Unknown);
        found = earlier(found, here);
    }
    found
}
