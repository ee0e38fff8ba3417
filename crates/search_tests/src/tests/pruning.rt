//! The pruning of one object, by hand: its events, what it leaves open and the supports that it keeps.

ghost use Rattle.std.specs.Prelude.{ℕ, List, map, IfOk};
ghost use Rattle.geo_conditions.specs.declared.cond.Cond.{Cond};
ghost use Rattle.geo_conditions.specs.Conditions.{AllFit};
ghost use Rattle.geo_conditions.specs.Reach.{Reach};
ghost use Rattle.object_pruning.specs.Kept.{AllSupport};

use crate::tests::events::are_same;
use crate::tests::indexicals::indexicals;
use crate::tests::lines::difference;
use crate::tests::literals::{A, B, C, of_one, of_two, state};
use derivation::{Event, Log, NoRecord, Recorder};
use geo_conditions::{Cond, Conds, ObjId, State, all_fit, fits};
use geo_state::{Trailed, is_small};
use indexical::AnyIndexical;
use object_pruning::{Placed, prune_kept, prune_object, slots};
use std::alloc::{AllocError, Global};
use std::test::Fail;

/// A literal with a constant: on the first origin x alone, or with the second origin y.
#[derive(Clone, Copy)]
enum Literal {
    /// `x + constant <= 0`.
    AtMost(i8),
    /// `- x + constant <= 0`.
    AtLeast(i8),
    /// `x - y + constant <= 0`.
    Ahead(i8),
    /// `y - x + constant <= 0`.
    Behind(i8),
}

/// Where the first object has that shape, one of the literals is true.
fn of_shape(alloc: Global, place: u8, literals: &[Literal]) -> Result<Cond, AllocError> {
    let mut parts = Conds::new(alloc);
    parts.push(Cond::NotShape(A, place))?;
    for literal in literals {
        parts.push(match *literal {
            Literal::AtMost(constant) => of_one(alloc, 0, 1, constant)?,
            Literal::AtLeast(constant) => of_one(alloc, 0, -1, constant)?,
            Literal::Ahead(constant) => of_two(alloc, 0, true, constant)?,
            Literal::Behind(constant) => of_two(alloc, 0, false, constant)?,
        })?;
    }
    Ok(Cond::AtLeast(1, parts))
}

/// The cells of the first object lie in 0 to 9, and none of them is one of the second object's: its first shape has the cells 0 and
/// 1, its second one the cells -4 to 0 from its origin, and the second object has three cells.
const CONDITIONS: &[(u8, &[Literal])] = &[
    (1, &[Literal::AtMost(-8)]),
    (1, &[Literal::Ahead(2), Literal::Behind(3)]),
    (2, &[Literal::Ahead(1), Literal::Behind(7)]),
    (2, &[Literal::AtLeast(4)]),
];

/// Those of the conditions that fit the state.
fn conditions(alloc: Global, s: &State<1>) -> Result<Vec<AnyIndexical<1>>, AllocError>
    ensures { IfOk result (λ list. AllFit (map (λ x. x.cond) list.items) s.now) }
{
    let mut list = Vec::new(alloc);
    for row in CONDITIONS {
        let c = of_shape(alloc, row.0, row.1)?;
        if fits(&c, s) {
            list.push(AnyIndexical::from_cond(c))?;
        }
    }
    Ok(list)
}

/// The short shape has its origin in 3 to 8 and the long one in 7 to 9.
const BOTH_SHAPES: &[Event] = &[
    Event::Raise(A, 0, 3),
    Event::Cover(1),
    Event::Cut(0, 2),
    Event::By(2),
    Event::By(1),
    Event::Cover(2),
    Event::Cut(0, 6),
    Event::By(3),
    Event::By(1),
    Event::EndCovers,
];

/// The short shape has its origin in 0 to 1 or 6 to 8, and the long one has no room.
const ONE_SHAPE: &[Event] = &[
    Event::Drop(A, 2),
    Event::CutFrom(0, 3),
    Event::By(3),
    Event::CutFrom(0, 0),
    Event::By(4),
    Event::By(1),
    Event::Lower(A, 0, 8),
    Event::Cover(1),
    Event::CutFrom(0, 9),
    Event::By(1),
    Event::By(1),
    Event::EndCovers,
];

/// The same where the range ends at 8: no bound moves.
const NO_BOUND: &[Event] = &[
    Event::Drop(A, 2),
    Event::CutFrom(0, 3),
    Event::By(3),
    Event::CutFrom(0, 0),
    Event::By(4),
    Event::By(1),
];

/// Neither shape has its origin in 2 to 5.
const NO_POINT: &[Event] = &[
    Event::Drop(A, 1),
    Event::CutFrom(0, 2),
    Event::By(2),
    Event::By(1),
    Event::Drop(A, 2),
    Event::CutFrom(0, 3),
    Event::By(3),
    Event::CutFrom(0, 2),
    Event::By(4),
    Event::By(1),
    Event::Gone(A),
    Event::EndCovers,
];

/// The range of the first object, the first cell of the second one, the range and the shapes that the pruning leaves to the first
/// object, and the events.
type Row = ((i64, i64), i64, (i64, i64), [bool; 3], &'static [Event]);

const BOTH: [bool; 3] = [true, true, false];

const SHORT: [bool; 3] = [true, false, false];

const ROWS: &[Row] = &[
    ((0, 9), 0, (3, 9), BOTH, BOTH_SHAPES),
    ((0, 9), 3, (0, 8), SHORT, ONE_SHAPE),
    ((0, 8), 3, (0, 8), SHORT, NO_BOUND),
    ((2, 5), 3, (2, 5), [false; 3], NO_POINT),
    ((3, 9), 0, (3, 9), BOTH, &[]),
];

/// Whether the first object has that range, and just those of its first three shapes.
fn is_open(s: &State<1>, (lo, hi): (i64, i64), shapes: [bool; 3]) -> bool {
    if s.objects() != 3 {
        return false;
    }
    let range = s.interval(A, 0);
    range.lo == lo
        && range.hi == hi
        && s.has_shape(A, 1) == shapes[0]
        && s.has_shape(A, 2) == shapes[1]
        && s.has_shape(A, 3) == shapes[2]
}

/// Slots of an object on a line, with nothing kept.
fn blank<const N: usize>() -> [Option<Placed<1>>; N]
    ensures { (cs : List Cond) → (S : List Reach) → (o : ℕ) → AllSupport cs S o result }
{
    [None; N]
}

/// Whether the pruning of a row, with nothing kept before it, has its events and leaves what it says. No condition names the third
/// object.
fn is_right(
    alloc: Global,
    row: &Row,
    kept: &mut [Option<Placed<1>>],
    hints: &mut [Option<Placed<1>>],
) -> Result<bool, AllocError>
    requires { (cs : List Cond) → (S : List Reach) → (o : ℕ) → AllSupport cs S o kept.old }
{
    let (range, fixed, left, shapes, events) = *row;
    let s = state(
        alloc,
        &[(2, range.0, range.1), (1, fixed, fixed), (3, -5, 5)],
    )?;
    let list = conditions(alloc, &s)?;
    if list.len() != 4 || s.objects() != 3 || !is_small(&s) {
        return Ok(false);
    }
    let mut t = Trailed::start(alloc, s, 0)?;
    let mut rec = Log::new(alloc);
    prune_kept(&mut t, A, &list, &[1, 2, 3, 4], None, kept, hints, &mut rec)?;
    Ok(is_open(t.state(), left, shapes) && are_same(rec.events(), events))
}

#[test]
fn an_object_of_two_shapes(rt: HostRuntime) -> Result<(), Fail> {
    for row in ROWS {
        assert!(rt; is_right(rt.alloc(), row, &mut blank::<0>(), &mut blank::<0>())?);
    }
    Ok(())
}

/// How many supports are kept, where each of them lies beside the second object with the cells 0 to 2; none otherwise.
fn supports(kept: &[Option<Placed<1>>]) -> usize {
    let mut some: usize = 0;
    for slot in kept {
        if let Some(q) = slot {
            let x = q.point.get(0);
            let beside = match q.place {
                1 => 3 <= x && x <= 8,
                2 => 7 <= x && x <= 9,
                _ => false,
            };
            if !beside {
                return 0;
            }
            some = some.saturating_add(1);
        }
    }
    some
}

#[test]
fn supports_are_kept(rt: HostRuntime) -> Result<(), Fail> {
    let mut kept = blank::<18>();
    assert!(rt; is_right(rt.alloc(), &ROWS[0], &mut kept, &mut blank::<18>())?);
    assert!(rt; slots::<1>() == kept.len() && supports(&kept) >= 2);
    Ok(())
}

/// A box of `size` of the first object's shape at that place, and a box of `other` cells of the
/// object o, do not overlap.
fn apart(
    alloc: Global,
    (place, size): (u8, i8),
    (o, other): (ObjId, i8),
) -> Result<Cond, AllocError> {
    let mut parts = Conds::new(alloc);
    parts.push(Cond::NotShape(A, place))?;
    parts.push(difference(alloc, (A, o, size))?)?;
    parts.push(difference(alloc, (o, A, other))?)?;
    Ok(Cond::AtLeast(1, parts))
}

/// An object of two shapes, of the sizes 3 and 1, and the objects B of size 2 and C of size 1.
fn beside_two(alloc: Global) -> Result<Vec<Cond>, AllocError> {
    let mut list = Vec::new(alloc);
    for shape in [(1, 3), (2, 1)] {
        list.push(apart(alloc, shape, (B, 2))?)?;
        list.push(apart(alloc, shape, (C, 1))?)?;
    }
    Ok(list)
}

/// Whether both shapes are kept, with the loosest bounds over them: of the long shape 2 to 6, of the
/// short one 2 to 8.
fn is_loosest<R: Recorder>(alloc: Global, rec: &mut R) -> Result<bool, AllocError> {
    let s = state(alloc, &[(2, 0, 9), (1, 0, 0), (1, 9, 9)])?;
    let list = beside_two(alloc)?;
    if list.len() != 4 || s.objects() != 3 || !is_small(&s) || !all_fit(&list, &s) {
        return Ok(false);
    }
    let list = indexicals::<1>(alloc, list)?;
    if list.len() != 4 {
        return Ok(false);
    }
    let mut t = Trailed::start(alloc, s, 0)?;
    prune_object(&mut t, A, &list, &[1, 2, 3, 4], rec)?;
    Ok(is_open(t.state(), (2, 8), BOTH))
}

#[test]
fn the_bounds_are_the_loosest_over_the_shapes(rt: HostRuntime) -> Result<(), Fail> {
    assert!(rt; is_loosest(rt.alloc(), &mut NoRecord::new())?);
    assert!(rt; is_loosest(rt.alloc(), &mut Log::new(rt.alloc()))?);
    Ok(())
}
