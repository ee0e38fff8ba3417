//! A hundred fixed objects of two boxes each, and one that moves among them.

ghost use Rattle.std.specs.Prelude.{◌≡◌, ℕ, ◌+◌, ◌-◌, ◌^◌, ◌<◌, ◌≤◌, ◌++◌, ◌∷◌, [], length, map, pos, negsuc, IfOk, OnOk, ◌≤ℤ◌};
ghost use Rattle.geo_base.specs.Ways.{IsSmallPoint};
ghost use Rattle.geo_conditions.specs.Conditions.{AllFit, FitsIn};
ghost use Rattle.geo_conditions.specs.Form.{IsBounded};
ghost use Rattle.sweep.specs.Picks.{ArePicks};

use geo_base::{KBox, Point};
use geo_conditions::{Cond, Conds, Form, MAX_OBJECTS, ObjId, State, fits};
use indexical::{AnyIndexical, Counted, Indexical, TreeIndexical};
use std::alloc::{AllocError, Global};

/// How many objects stand still.
const FIXED: u16 = 100;

/// The size of the moving object's box.
const MOVING: u32 = 50_000;

/// Numbers that look drawn: those of a linear congruential generator.
#[derive(Drop)]
struct Draws {
    last: u64,
    ghost small: { last < 2 ^ 31 },
}

impl Draws {
    fn new() -> Draws {
        Draws { last: 1 }
    }

    fn next(&mut self) -> u64
        ensures { result < 2 ^ 15 }
    {
        self.last = (1_103_515_245 * self.last + 12_345) % 2_147_483_648;
        self.last / 65_536
    }

    /// The next number below the bound.
    fn below(&mut self, bound: u32) -> u32
        requires { 0 < bound }
        ensures { result < bound }
    {
        let high = self.next();
        let low = self.next();
        ((high * 32_768 + low) % u64::from(bound)) as u32
    }
}

/// The ranges of the moving object.
pub fn ranges() -> KBox<3>
    ensures { IsSmallPoint 3 result.lo.coordinates × IsSmallPoint 3 result.hi.coordinates }
{
    KBox::new(Point::filled(0), Point::filled(1_000_000))
}

/// A point where a fixed object stands.
fn drawn_point(draws: &mut Draws) -> Point<3> {
    let mut p = Point::filled(0);
    for d in 0..3 {
        p.set(d, i64::from(draws.below(1_200_001)) - 400_000);
    }
    p
}

/// The moving object, and the others at drawn points.
pub fn scene(alloc: Global) -> Result<State<3>, AllocError>
    ensures { IfOk result (λ s. 0 < length s) }
{
    let mut draws = Draws::new();
    let mut s = State::new(alloc);
    let first = ranges();
    s.add_object(1, first)?;
    'objects: for _ in 0..FIXED {
        let p = drawn_point(&mut draws);
        if s.objects() < MAX_OBJECTS {
            let held = KBox::new(p, p);
            s.add_object(1, held)?;
        }
    }
    Ok(s)
}

/// The literal that the moving object ends before another one's box begins.
fn ends_before(alloc: Global, other: ObjId, d: usize, constant: i64) -> Result<Cond, AllocError>
    requires other { 0 < other.0 }
    requires constant { IsBounded constant }
{
    let terms = [(ObjId(0), d, 1), (other, d, -1)];
    Ok(Cond::Lin(Form::new(alloc, &terms, constant)?))
}

/// The literal that another object's box ends before the moving one begins.
fn begins_behind(alloc: Global, other: ObjId, d: usize, constant: i64) -> Result<Cond, AllocError>
    requires other { 0 < other.0 }
    requires constant { IsBounded constant }
{
    let terms = [(ObjId(0), d, -1), (other, d, 1)];
    Ok(Cond::Lin(Form::new(alloc, &terms, constant)?))
}

/// The literals of one dimension for a box of another object.
fn add_literals(
    alloc: Global,
    parts: &mut Conds,
    other: ObjId,
    d: usize,
    offset: u32,
    size: u32,
) -> Result<(), AllocError>
    requires { 0 < other.0 }
{
    let before = i64::from(MOVING) - i64::from(offset);
    let behind = i64::from(offset) + i64::from(size);
    parts.push(ends_before(alloc, other, d, before)?)?;
    parts.push(begins_behind(alloc, other, d, behind)?)?;
    Ok(())
}

/// The condition of a drawn box of a fixed object.
fn condition(alloc: Global, draws: &mut Draws, other: ObjId) -> Result<Cond, AllocError>
    requires { 0 < other.0 }
{
    let mut parts = Conds::new(alloc);
    for d in 0..3 {
        let offset = draws.below(200_001);
        let size = 330_000 + draws.below(120_001);
        add_literals(alloc, &mut parts, other, d, offset, size)?;
    }
    Ok(Cond::AtLeast(1, parts))
}

/// Appends an indexical whose condition fits the state.
fn add<I: Indexical<3> + Drop>(list: &mut Vec<I>, x: I, _s: &State<3>) -> Result<(), AllocError>
    requires fits { FitsIn (I.cond x) _s.now }
    requires all { AllFit (map I.cond list.old.items) _s.now }
    ensures { OnOk result (AllFit (map I.cond list.new.items) _s.now) }
{
    list.push(x)?;
    Ok(())
}

/// The conditions as trees.
pub fn trees(alloc: Global, s: &State<3>) -> Result<Vec<Counted<TreeIndexical>>, AllocError>
    ensures { IfOk result (λ v. AllFit (map (λ x. x.inner.cond) v.items) s.now) }
{
    let mut draws = Draws::new();
    let mut list = Vec::new(alloc);
    for k in 0..2 * FIXED {
        let cond = condition(alloc, &mut draws, ObjId(k / 2 + 1))?;
        if fits(&cond, s) {
            add(&mut list, Counted::new(TreeIndexical::new(cond)), s)?;
        }
    }
    Ok(list)
}

/// The same conditions, each met by its boxes.
pub fn boxes(alloc: Global, s: &State<3>) -> Result<Vec<Counted<AnyIndexical<3>>>, AllocError>
    ensures { IfOk result (λ v. AllFit (map (λ x. x.inner.cond) v.items) s.now) }
{
    let mut draws = Draws::new();
    let mut list = Vec::new(alloc);
    for k in 0..2 * FIXED {
        let cond = condition(alloc, &mut draws, ObjId(k / 2 + 1))?;
        if fits(&cond, s) {
            add(&mut list, Counted::new(AnyIndexical::from_cond(cond)), s)?;
        }
    }
    Ok(list)
}

/// The numbers of that many conditions.
pub fn numbers(alloc: Global, n: usize) -> Result<Vec<u32>, AllocError>
    requires { n ≤ 1000 }
    ensures { IfOk result (λ v. ArePicks n v.items) }
{
    let mut list = Vec::new(alloc);
    for k in 0..n {
        list.push(k as u32 + 1)?;
    }
    Ok(list)
}
