//! The walk from one full member to the next: down to the first value of the next variable, and
//! back to the last level whose variable has another value.

ghost use Rattle.std.specs.Prelude.{◌≡◌, ℕ, ℤ, ◌≤◌, ◌<◌, true, false, None, List, [], length};
ghost use Rattle.std.specs.List.{All};
ghost use Rattle.derivation.specs.Events.{Growth};
ghost use Rattle.geo_conditions.specs.Conditions.{FitsIn};
ghost use Rattle.trail_search.specs.Record.{IsRecord, IsUnmoved, RecordsStep};
ghost use Rattle.trail_search.specs.Walker.{IsWell, SameWalk, depth, Searches, Walks, is_answer, GoesOnAs, IsReady, StandsAt};

use crate::step::Step;
use crate::walker::Walker;
use derivation::Recorder;
use geo_base::MAX_DIMS;
use geo_state::{Propagate, Settled};

/// Walks on to the next full member.
fn walk<const K: usize, P: Propagate<K>, R: Recorder>(
    prop: &mut P,
    rec: &mut R,
    walker: &mut Walker<K>,
    budget: u64,
) -> Step
    requires k { K ≤ MAX_DIMS }
    requires well { IsWell K walker.old }
    requires count { walker.old.walked ≤ budget }
    requires open { depth walker.old < length walker.old.variables }
    requires objects { length walker.old.first ≡ P.objects prop.old }
    requires fits { All (λ c. FitsIn c walker.old.first) (P.conditions prop.old) }
    ensures well { IsWell K walker.new }
    ensures same { SameWalk walker.old walker.new }
    ensures conditions { P.conditions prop.new ≡ P.conditions prop.old }
    ensures number { P.objects prop.new ≡ P.objects prop.old }
    ensures grows { Growth R.keeps (R.list rec.old) (R.list rec.new) (R.refusals rec.old)
        (R.refusals rec.new) (is_answer result) }
    ensures walks { (w : List (List ℤ)) → Searches (P.conditions prop.old) walker.old w
        → Walks (P.conditions prop.old) budget walker.old w result walker.new }
    ensures recorded { R.keeps ≡ true → walker.old.token ≡ None
        → IsRecord (P.conditions prop.old) walker.old (R.list rec.old)
        → RecordsStep (P.conditions prop.old) walker.new result (R.list rec.new) }
{
    loop {
        match walker.settle(prop, rec) {
            Err(_) => return Step::Memory,
            Ok(Settled::Dead) => {
                if !walker.retreat() {
                    return Step::Ended;
                }
            }
            Ok(Settled::Kept) => {
                let x = walker.variable();
                let u = walker.first_value(x);
                if walker.count() == budget {
                    return Step::Budget;
                }
                if walker.record_split(rec, x, u).is_err() {
                    return Step::Memory;
                }
                walker.descend(x, u);
                if walker.is_full() {
                    return Step::Found;
                }
            }
        }
    }
}

/// The walk without variables: the empty tuple is its only member, where the first state is
/// supported and there is no token.
fn walk_empty<const K: usize, P: Propagate<K>, R: Recorder>(
    prop: &mut P,
    rec: &mut R,
    walker: &mut Walker<K>,
    budget: u64,
    found: bool,
) -> Step
    requires k { K ≤ MAX_DIMS }
    requires well { IsWell K walker.old }
    requires count { walker.old.walked ≤ budget }
    requires bare { walker.old.variables ≡ [] }
    requires objects { length walker.old.first ≡ P.objects prop.old }
    requires none { length walker.old.first ≡ 0 }
    requires fits { All (λ c. FitsIn c walker.old.first) (P.conditions prop.old) }
    ensures well { IsWell K walker.new }
    ensures same { SameWalk walker.old walker.new }
    ensures conditions { P.conditions prop.new ≡ P.conditions prop.old }
    ensures number { P.objects prop.new ≡ P.objects prop.old }
    ensures grows { Growth R.keeps (R.list rec.old) (R.list rec.new) (R.refusals rec.old)
        (R.refusals rec.new) (is_answer result) }
    ensures walks { IsReady (P.conditions prop.old) walker.old found
        → GoesOnAs (P.conditions prop.old) budget walker.old result walker.new }
    ensures recorded { R.keeps ≡ true → found ≡ false → walker.old.token ≡ None
        → IsUnmoved walker.old → R.list rec.old ≡ []
        → RecordsStep (P.conditions prop.old) walker.new result (R.list rec.new) }
{
    if found {
        return Step::Ended;
    }
    if walker.has_token() {
        return Step::Ended;
    }
    match walker.settle(prop, rec) {
        Err(_) => Step::Memory,
        Ok(Settled::Dead) => Step::Ended,
        Ok(Settled::Kept) => {
            if walker.count() == budget {
                return Step::Budget;
            }
            walker.visit_empty();
            Step::Found
        }
    }
}

/// Walks on, after a full member where one was found.
pub fn go_on<const K: usize, P: Propagate<K>, R: Recorder>(
    prop: &mut P,
    rec: &mut R,
    walker: &mut Walker<K>,
    budget: u64,
    found: bool,
) -> Step
    requires k { K ≤ MAX_DIMS }
    requires well { IsWell K walker.old }
    requires count { walker.old.walked ≤ budget }
    requires stands { StandsAt walker.old found }
    requires named { walker.old.variables ≡ [] → length walker.old.first ≡ 0 }
    requires objects { length walker.old.first ≡ P.objects prop.old }
    requires fits { All (λ c. FitsIn c walker.old.first) (P.conditions prop.old) }
    ensures well { IsWell K walker.new }
    ensures same { SameWalk walker.old walker.new }
    ensures conditions { P.conditions prop.new ≡ P.conditions prop.old }
    ensures number { P.objects prop.new ≡ P.objects prop.old }
    ensures grows { Growth R.keeps (R.list rec.old) (R.list rec.new) (R.refusals rec.old)
        (R.refusals rec.new) (is_answer result) }
    ensures walks { IsReady (P.conditions prop.old) walker.old found
        → GoesOnAs (P.conditions prop.old) budget walker.old result walker.new }
    ensures recorded { R.keeps ≡ true → found ≡ false → walker.old.token ≡ None
        → IsUnmoved walker.old → R.list rec.old ≡ []
        → RecordsStep (P.conditions prop.old) walker.new result (R.list rec.new) }
{
    if walker.is_bare() {
        return walk_empty(prop, rec, walker, budget, found);
    }
    if found && !walker.retreat() {
        return Step::Ended;
    }
    walk(prop, rec, walker, budget)
}
