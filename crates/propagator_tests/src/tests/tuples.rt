//! All tuples of a small problem, and which of them are layouts.

ghost use Rattle.std.specs.Prelude.{◌≤◌, map};
ghost use Rattle.rule_expand.specs.Rules.{plain_rule_data};
ghost use Rattle.propagator_tests.specs.Ready.{IsReady};

use crate::tests::task::is_good;
use geo_tokens::fault::TextFault;
use layout_text::read_layout;
use problem_data::problem::{ObjectDef, PiecesDef, Problem};
use problem_data::tree::Side;
use rule_expand::plain::PlainRule;
use std::alloc::{AllocError, Global};

/// Where an object is put: its place, from 1, and its origin. The place behind those of its shapes
/// is that of an absent object.
pub struct Put {
    pub place: u8,
    pub origin: Vec<i64>,
}

impl Drop for Put {
    fn drop(self) {
        let Put {
            place: _,
            origin: _origin,
        } = self;
    }
}

/// A number that is taken apart, the last digit first.
#[derive(Drop)]
struct Digits {
    rest: u32,
}

impl Digits {
    /// The last digit to a base, which goes.
    fn take(&mut self, base: u32) -> u32
        requires { 1 ≤ base }
    {
        let digit = self.rest % base;
        self.rest /= base;
        digit
    }
}

/// How many numbers there are, from `low` to `high`.
fn width(low: i64, high: i64) -> u32
    ensures { 1 ≤ result }
{
    u32::try_from(high.abs_diff(low))
        .unwrap_or(u32::MAX)
        .saturating_add(1)
}

/// How many numbers a range has in its pieces.
fn numbers(range: &PiecesDef) -> u32
    ensures { 1 ≤ result }
{
    let mut count = 0u32;
    for piece in range.ranges() {
        count = count.saturating_add(width(piece.low, piece.high));
    }
    count.max(1)
}

/// The number of a range behind so many others.
fn number_behind(range: &PiecesDef, before: u32) -> i64 {
    let mut rest = before;
    for piece in range.ranges() {
        let width = width(piece.low, piece.high);
        if rest < width {
            return piece.low.saturating_add(i64::from(rest));
        }
        rest -= width;
    }
    0
}

/// How many shapes an object has.
fn shapes(object: &ObjectDef) -> u8
    ensures { 1 ≤ result }
{
    u8::try_from(object.shapes().len())
        .unwrap_or(u8::MAX)
        .max(1)
}

/// How many spots an object has where it is present.
fn spots_present(object: &ObjectDef) -> u32 {
    let mut count = u32::from(shapes(object));
    for range in object.pieces() {
        count = count.saturating_mul(numbers(range));
    }
    count
}

/// How many spots an object has.
fn spots(object: &ObjectDef) -> u32
    ensures { 1 ≤ result }
{
    spots_present(object)
        .saturating_add(u32::from(object.may_be_absent()))
        .max(1)
}

/// How many tuples a problem has.
pub fn number_of_tuples(problem: &Problem) -> u32 {
    let mut count = 1u32;
    for object in problem.objects() {
        count = count.saturating_mul(spots(object));
    }
    count
}

/// The value of a range that is tried first.
fn first_value(range: &PiecesDef, side: Side) -> i64 {
    let piece = match side {
        Side::Low => range.ranges().first(),
        Side::High => range.ranges().last(),
    };
    match (piece, side) {
        (Some(piece), Side::Low) => piece.low,
        (Some(piece), Side::High) => piece.high,
        (None, _) => 0,
    }
}

/// The spot of an object that is absent.
fn absent_spot(alloc: Global, problem: &Problem, object: &ObjectDef) -> Result<Put, AllocError> {
    let mut origin = Vec::new(alloc);
    for (range, side) in object.pieces().iter().zip(problem.sides()) {
        origin.push(first_value(range, *side))?;
    }
    let place = shapes(object).saturating_add(1);
    Ok(Put { place, origin })
}

/// The spot with that number of an object that is present.
fn present_spot(alloc: Global, object: &ObjectDef, number: u32) -> Result<Put, AllocError> {
    let mut origin = Vec::new(alloc);
    let mut digits = Digits { rest: number };
    let place = digits.take(u32::from(shapes(object)));
    for range in object.pieces() {
        let before = digits.take(numbers(range));
        origin.push(number_behind(range, before))?;
    }
    let place = u8::try_from(place).unwrap_or(0).saturating_add(1);
    Ok(Put { place, origin })
}

/// The spot with that number of an object; the last one is that where it is absent.
fn spot(
    alloc: Global,
    problem: &Problem,
    object: &ObjectDef,
    number: u32,
) -> Result<Put, AllocError> {
    if number < spots_present(object) {
        present_spot(alloc, object, number)
    } else {
        absent_spot(alloc, problem, object)
    }
}

/// The tuple with that number.
fn tuple(alloc: Global, problem: &Problem, number: u32) -> Result<Vec<Put>, AllocError> {
    let mut digits = Digits { rest: number };
    let mut puts = Vec::new(alloc);
    for object in problem.objects() {
        let number = digits.take(spots(object));
        puts.push(spot(alloc, problem, object, number)?)?;
    }
    Ok(puts)
}

/// The name of the shape at a place of an object.
fn shape_name<'a>(problem: &'a Problem, object: &ObjectDef, place: u8) -> &'a [u8] {
    for (i, shape) in object.shapes().iter().enumerate() {
        if i + 1 == usize::from(place) {
            if let Some(shape) = problem.shapes().get(usize::from(*shape)) {
                return shape.name().as_bytes();
            }
        }
    }
    b"?"
}

/// Appends the line of an object in a layout text.
fn push_line(
    alloc: Global,
    problem: &Problem,
    object: &ObjectDef,
    put: &Put,
    text: &mut Vec<u8>,
) -> Result<(), AllocError> {
    text.extend_from_slice(object.name().as_bytes())?;
    if put.place > shapes(object) {
        text.extend_from_slice(b" absent\n")?;
        return Ok(());
    }
    push_place(alloc, problem, object, put, text)
}

/// Appends in which shape and where an object is put.
fn push_place(
    alloc: Global,
    problem: &Problem,
    object: &ObjectDef,
    put: &Put,
    text: &mut Vec<u8>,
) -> Result<(), AllocError> {
    text.extend_from_slice(b" as ")?;
    text.extend_from_slice(shape_name(problem, object, put.place))?;
    text.extend_from_slice(b" at")?;
    for x in &put.origin {
        text.extend_from_slice(format!(in alloc; " {x}")?.as_bytes())?;
    }
    text.push(b'\n')?;
    Ok(())
}

/// The layout text of a tuple.
fn layout_text(alloc: Global, problem: &Problem, puts: &[Put]) -> Result<Vec<u8>, AllocError> {
    let mut text = Vec::from_slice(alloc, b"layout\n")?;
    for (object, put) in problem.objects().iter().zip(puts) {
        push_line(alloc, problem, object, put, &mut text)?;
    }
    Ok(text)
}

/// Whether the tuple is a layout.
pub fn is_layout(
    alloc: Global,
    problem: &Problem,
    rules: &[PlainRule],
    puts: &[Put],
) -> Result<bool, TextFault>
    requires { IsReady problem.now (map plain_rule_data rules.now) }
{
    let text = layout_text(alloc, problem, puts)?;
    let layout = read_layout(alloc, problem, text.as_slice(), 0)?;
    Ok(is_good(problem, rules, &layout))
}

/// All layouts of a problem with that number of tuples.
pub fn layouts(
    alloc: Global,
    problem: &Problem,
    rules: &[PlainRule],
    tuples: u32,
) -> Result<Vec<Vec<Put>>, TextFault>
    requires { IsReady problem.now (map plain_rule_data rules.now) }
{
    let mut found = Vec::new(alloc);
    for number in 0..tuples {
        let puts = tuple(alloc, problem, number)?;
        if is_layout(alloc, problem, rules, puts.as_slice())? {
            found.push(puts)?;
        }
    }
    Ok(found)
}

/// Appends what comes first in a comparison of two tuples: the place, then each coordinate, negated
/// where it is tried from the high end.
fn push_key(problem: &Problem, put: &Put, key: &mut Vec<i64>) -> Result<(), AllocError> {
    key.push(i64::from(put.place))?;
    for (x, side) in put.origin.iter().zip(problem.sides()) {
        key.push(match side {
            Side::Low => *x,
            Side::High => (*x).wrapping_neg(),
        })?;
    }
    Ok(())
}

/// The numbers by which tuples are compared in search order: those of an object that is tried
/// sooner come sooner.
fn key_of(alloc: Global, problem: &Problem, puts: &[Put]) -> Result<Vec<i64>, AllocError> {
    let mut key = Vec::new(alloc);
    for o in problem.search_order() {
        if let Some(put) = puts.get(usize::from(*o)) {
            push_key(problem, put, &mut key)?;
        }
    }
    Ok(key)
}

/// The keys of some tuples.
pub fn keys_of(
    alloc: Global,
    problem: &Problem,
    tuples: &[Vec<Put>],
) -> Result<Vec<Vec<i64>>, AllocError> {
    let mut keys = Vec::new(alloc);
    for puts in tuples {
        keys.push(key_of(alloc, problem, puts.as_slice())?)?;
    }
    Ok(keys)
}
