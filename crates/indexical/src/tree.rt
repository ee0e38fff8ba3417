//! A condition met by its tree: the forbidden box of a sum is found by letting each coordinate run
//! as far as the sum stays positive, that of a count by the parts that are refuted.

ghost use Rattle.std.specs.Prelude.{◌≡◌, ℕ, ◌+◌, ◌<◌, ◌≤◌, true, false, List, length, ℤ, pos, MatchOption};
ghost use Rattle.geo_base.specs.Boxes.{Has};
ghost use Rattle.geo_conditions.specs.Reach.{with_at, just};
ghost use Rattle.geo_conditions.specs.Conditions.{possible, FitsIn};
ghost use Rattle.geo_conditions.specs.Regions.{region_of};
ghost use Rattle.indexical.specs.Forbidden.{Forbids, IsForbiddenBox};

use crate::cut::{cut_form, form_part};
use crate::forbidden::ForbiddenPart;
use crate::indexical::Indexical;
use crate::late::is_found_possible;
use crate::point::tree_possible_at;
use crate::shape_literals::shape_refuted;
use crate::spared_by::tree_spares_by;
use geo_base::{KBox, MAX_DIMS, Point, Steps, Way};
use geo_conditions::{Cond, Conds, ObjId, State};
use std::cell::Cell;
use std::sync::ledger::Ledger;

/// A condition as the tree that it is.
#[derive(Drop)]
pub struct TreeIndexical {
    cond: Cond,
}

impl TreeIndexical {
    /// The indexical of that condition. It takes no memory.
    pub fn new(c: Cond) -> TreeIndexical
        ensures { result.cond ≡ c }
    {
        TreeIndexical { cond: c }
    }
}

/// Cuts the box down by each of the parts, of which one is enough. It is as it was from the first
/// one on that is possible.
#[cycle(cut)]
fn cut_by_each<const K: usize>(
    n: i64,
    children: &Conds,
    s: &State<K>,
    o: ObjId,
    place: u8,
    c: &Point<K>,
    way: &Way<K>,
    b: &mut KBox<K>,
) -> bool
    requires fits { FitsIn (Cond.AtLeast n children.now) s.now }
    requires one { n ≡ pos 1 }
    requires object { o.0 < length s.now }
    requires inside { Has K b.old.lo.coordinates b.old.hi.coordinates c.now.coordinates }
    ensures cut { result ≡ true → IsForbiddenBox K (Cond.AtLeast n children.now) s.now o.0 place
        c.now.coordinates (region_of b.old) (region_of b.new) }
    ensures possible { result ≡ false → possible (Cond.AtLeast n children.now)
        (with_at s.now o.0 place (just c.now.coordinates)) ≡ true }
    ensures same { result ≡ false → b.new ≡ b.old }
{
    // The state has K dimensions.
    let _objects = s.objects();
    let whole = *b;
    for child in children.as_slice() {
        if !cut_tree(child, s, o, place, c, way, b) {
            *b = whole;
            return false;
        }
    }
    true
}

/// Cuts the box down by the first of the parts that is refuted, where all are asked for.
#[cycle(cut)]
fn cut_by_first<const K: usize>(
    n: i64,
    children: &Conds,
    s: &State<K>,
    o: ObjId,
    place: u8,
    c: &Point<K>,
    way: &Way<K>,
    b: &mut KBox<K>,
) -> bool
    requires fits { FitsIn (Cond.AtLeast n children.now) s.now }
    requires all { n ≡ pos (length children.now.items.items) }
    requires object { o.0 < length s.now }
    requires inside { Has K b.old.lo.coordinates b.old.hi.coordinates c.now.coordinates }
    ensures cut { result ≡ true → IsForbiddenBox K (Cond.AtLeast n children.now) s.now o.0 place
        c.now.coordinates (region_of b.old) (region_of b.new) }
    ensures possible { result ≡ false → possible (Cond.AtLeast n children.now)
        (with_at s.now o.0 place (just c.now.coordinates)) ≡ true }
    ensures same { result ≡ false → b.new ≡ b.old }
{
    // The state has K dimensions.
    let _objects = s.objects();
    for child in children.as_slice() {
        if cut_tree(child, s, o, place, c, way, b) {
            return true;
        }
    }
    false
}

/// Cuts the box down part by part, by the parts that are refuted, until too few are left that may
/// be true.
#[cycle(cut)]
fn cut_by_some<const K: usize>(
    n: i64,
    children: &Conds,
    s: &State<K>,
    o: ObjId,
    place: u8,
    c: &Point<K>,
    way: &Way<K>,
    b: &mut KBox<K>,
) -> bool
    requires fits { FitsIn (Cond.AtLeast n children.now) s.now }
    requires object { o.0 < length s.now }
    requires inside { Has K b.old.lo.coordinates b.old.hi.coordinates c.now.coordinates }
    ensures cut { result ≡ true → IsForbiddenBox K (Cond.AtLeast n children.now) s.now o.0 place
        c.now.coordinates (region_of b.old) (region_of b.new) }
    ensures possible { result ≡ false → possible (Cond.AtLeast n children.now)
        (with_at s.now o.0 place (just c.now.coordinates)) ≡ true }
    ensures same { result ≡ false → b.new ≡ b.old }
{
    // The state has K dimensions.
    let _objects = s.objects();
    let whole = *b;
    let least = i128::from(n);
    let mut open = children.len();
    let mut sure: usize = 0;
    for child in children.as_slice() {
        if cut_tree(child, s, o, place, c, way, b) {
            open -= 1;
            if (open as i128) < least {
                return true;
            }
        } else {
            sure += 1;
            if least <= sure as i128 {
                *b = whole;
                return false;
            }
        }
    }
    if (open as i128) < least {
        return true;
    }
    *b = whole;
    false
}

/// Cuts the box down by parts of which so many are asked for.
#[cycle(cut)]
#[inline(always)]
fn cut_by_parts<const K: usize>(
    n: i64,
    children: &Conds,
    s: &State<K>,
    o: ObjId,
    place: u8,
    c: &Point<K>,
    way: &Way<K>,
    b: &mut KBox<K>,
) -> bool
    requires fits { FitsIn (Cond.AtLeast n children.now) s.now }
    requires object { o.0 < length s.now }
    requires inside { Has K b.old.lo.coordinates b.old.hi.coordinates c.now.coordinates }
    ensures cut { result ≡ true → IsForbiddenBox K (Cond.AtLeast n children.now) s.now o.0 place
        c.now.coordinates (region_of b.old) (region_of b.new) }
    ensures possible { result ≡ false → possible (Cond.AtLeast n children.now)
        (with_at s.now o.0 place (just c.now.coordinates)) ≡ true }
    ensures same { result ≡ false → b.new ≡ b.old }
{
    if n == 1 {
        cut_by_each(n, children, s, o, place, c, way, b)
    } else if i128::from(n) == children.len() as i128 {
        cut_by_first(n, children, s, o, place, c, way, b)
    } else {
        cut_by_some(n, children, s, o, place, c, way, b)
    }
}

/// Cuts a box that has the point c down to a forbidden box of the condition, and says whether the
/// condition is refuted with the object at c. Where it is not, the box stays as it was. It is
/// inlined where parts are cut by, so that a literal on a shape takes no call.
#[cycle(cut)]
#[inline(always)]
fn cut_tree<const K: usize>(
    cond: &Cond,
    s: &State<K>,
    o: ObjId,
    place: u8,
    c: &Point<K>,
    way: &Way<K>,
    b: &mut KBox<K>,
) -> bool
    requires fits { FitsIn cond.now s.now }
    requires object { o.0 < length s.now }
    requires inside { Has K b.old.lo.coordinates b.old.hi.coordinates c.now.coordinates }
    ensures cut { result ≡ true → IsForbiddenBox K cond.now s.now o.0 place
        c.now.coordinates (region_of b.old) (region_of b.new) }
    ensures possible { result ≡ false → possible cond.now
        (with_at s.now o.0 place (just c.now.coordinates)) ≡ true }
    ensures same { result ≡ false → b.new ≡ b.old }
{
    match cond {
        Cond::Lin(f) => cut_form(f, s, o, place, c, way, b),
        Cond::Shape(_, _) => shape_refuted(cond, s, o, place),
        Cond::NotShape(_, _) => shape_refuted(cond, s, o, place),
        Cond::AtLeast(n, children) => cut_by_parts(*n, children, s, o, place, c, way, b),
    }
}

/// The forbidden box of a condition. Where one of its last parts shows that it is possible, nothing is cut.
pub fn forbid_tree<const K: usize>(
    cond: &Cond,
    s: &State<K>,
    o: ObjId,
    place: u8,
    c: &Point<K>,
    region: &KBox<K>,
    way: &Way<K>,
) -> Option<KBox<K>>
    requires fits { FitsIn cond.now s.now }
    requires object { o.0 < length s.now }
    requires inside { Has K region.now.lo.coordinates region.now.hi.coordinates c.now.coordinates }
    ensures { MatchOption result
        (possible cond.now (with_at s.now o.0 place (just c.now.coordinates)) ≡ true)
        (λ b. IsForbiddenBox K cond.now s.now o.0 place c.now.coordinates
        (region_of region.now) (region_of b)) }
{
    if is_found_possible(cond, s, o, place, &KBox::new(*c, *c)) {
        return None;
    }
    let mut b = *region;
    if cut_tree(cond, s, o, place, c, way, &mut b) {
        Some(b)
    } else {
        None
    }
}

/// What a condition forbids of the region with the object at that place: nothing where it surely spares it there. The part that spared
/// an object last is asked first.
pub fn tree_part<const K: usize>(
    cond: &Cond,
    s: &State<K>,
    o: ObjId,
    place: u8,
    region: &KBox<K>,
    last: &Cell<u16>,
) -> ForbiddenPart<K>
    requires k { K ≤ MAX_DIMS }
    requires fits { FitsIn cond.now s.now }
    requires object { o.0 < length s.now }
    ensures { Forbids K cond.now s.now o.0 place (region_of region.now) result }
{
    match cond {
        Cond::Lin(f) => form_part(f, s, o, place, region),
        _ if tree_spares_by(cond, s, o, place, last) => ForbiddenPart::Nothing,
        _ => ForbiddenPart::Unknown,
    }
}

impl<const K: usize> Indexical<K> for TreeIndexical {
    ghost cond = { λ x. x.cond };

    fn forbid<L: Ledger>(
        &self,
        s: &State<K>,
        o: ObjId,
        place: u8,
        c: &Point<K>,
        region: &KBox<K>,
        way: &Way<K>,
        steps: &mut Steps<L>,
    ) -> Option<KBox<K>> {
        steps.tick();
        forbid_tree(&self.cond, s, o, place, c, region, way)
    }

    fn is_possible_at(&self, s: &State<K>, o: ObjId, place: u8, c: &Point<K>) -> bool {
        tree_possible_at(&self.cond, s, o, place, c)
    }

    fn forbidden_part(
        &self,
        s: &State<K>,
        o: ObjId,
        place: u8,
        region: &KBox<K>,
    ) -> ForbiddenPart<K> {
        tree_part(&self.cond, s, o, place, region, &Cell::new(0))
    }
}
