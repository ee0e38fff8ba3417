//! The stack of the trail, and a state that many levels change.

ghost use Rattle.std.specs.Prelude.{◌≡◌, ◌+◌, ◌≤◌, ◌<◌, [], length};
ghost use Rattle.geo_state.specs.Trail.{IsSmallEnd};

use geo_base::{KBox, Point};
use geo_conditions::{ObjId, State};
use geo_state::{Trailed, is_small};
use std::alloc::{AllocError, Global};
use std::test::Fail;
use trail_arena::TrailStack;

/// As many objects of three shapes in 0 to 1,000,000 by 0 to 1,000,000.
fn open_state(alloc: Global, objects: usize) -> Result<State<2>, AllocError> {
    let mut s = State::new(alloc);
    for _ in 0..objects {
        if s.objects() < 200 {
            let region = KBox::new(Point::filled(0), Point::filled(1_000_000));
            s.add_object(3, region)?;
        }
    }
    Ok(s)
}

/// Whether the object is the same in both states.
fn is_same_object(a: &State<2>, b: &State<2>, o: ObjId) -> bool
    requires first { o.0 < length a.now }
    requires second { o.0 < length b.now }
{
    let mut same = true;
    for d in 0..2 {
        same &= a.interval(o, d) == b.interval(o, d);
    }
    for place in 1..=16 {
        same &= a.has_shape(o, place) == b.has_shape(o, place);
    }
    same
}

fn is_same(a: &State<2>, b: &State<2>) -> bool {
    if a.objects() != b.objects() {
        return false;
    }
    let mut same = true;
    for o in 0..a.objects() {
        same &= is_same_object(a, b, ObjId(o as u16));
    }
    same
}

/// Raises a low end to that number, if it is below.
fn raise(t: &mut Trailed<2>, o: ObjId, d: usize, v: i64)
    requires object { o.0 < length t.old.state }
    requires dimension { d < 2 }
    requires small { IsSmallEnd v }
    ensures levels { t.new.levels ≡ t.old.levels }
    ensures restores { t.new.restores ≡ t.old.restores }
{
    let low = t.state().interval(o, d).lo;
    if low < v {
        t.set_low(o, d, v);
    }
}

/// Lowers a high end to that number, if it is above.
fn lower(t: &mut Trailed<2>, o: ObjId, d: usize, v: i64)
    requires object { o.0 < length t.old.state }
    requires dimension { d < 2 }
    requires small { IsSmallEnd v }
    ensures levels { t.new.levels ≡ t.old.levels }
    ensures restores { t.new.restores ≡ t.old.restores }
{
    let high = t.state().interval(o, d).hi;
    if v < high {
        t.set_high(o, d, v);
    }
}

/// The change of that number: an end of an object moves, or it loses a place.
fn change(t: &mut Trailed<2>, number: usize)
    requires number { number ≤ 1000000 }
    ensures levels { t.new.levels ≡ t.old.levels }
    ensures restores { t.new.restores ≡ t.old.restores }
{
    let objects = t.state().objects();
    if objects == 0 {
        return;
    }
    let o = ObjId((number % objects) as u16);
    let d = number / 7 % 2;
    match number % 5 {
        0 | 1 => raise(t, o, d, number as i64),
        4 => t.drop_shape(o, (number / 3 % 3 + 1) as u8),
        _ => lower(t, o, d, (1_000_000 - number) as i64),
    }
}

/// So many changes, from that number on.
fn change_often(t: &mut Trailed<2>, from: usize, count: usize)
    requires { from + count ≤ 1000000 }
    ensures levels { t.new.levels ≡ t.old.levels }
    ensures restores { t.new.restores ≡ t.old.restores }
{
    for i in 0..count {
        change(t, from + i);
    }
}

/// Opens 50 levels and makes so many changes on each. Gives a copy of the state of each level.
fn descend(alloc: Global, t: &mut Trailed<2>, count: usize) -> Result<Vec<State<2>>, AllocError>
    requires count { count ≤ 1000 }
    requires levels { t.old.levels ≡ 50 }
    requires restores { t.old.restores ≡ [] }
{
    let mut copies = Vec::new(alloc);
    for level in 0..50 {
        copies.push(t.state().copy()?)?;
        t.push_level();
        change_often(t, level * count, count);
    }
    Ok(copies)
}

/// Closes the levels, and says of how many the state is the copy.
fn ascend(t: &mut Trailed<2>, copies: Vec<State<2>>) -> usize {
    let mut same = 0;
    for copy in copies.into_iter().rev() {
        if t.depth() > 0 {
            t.undo();
            if same < 1000 && is_same(t.state(), &copy) {
                same += 1;
            }
        }
    }
    same
}

/// How many of the states differ from the one before them.
fn differ(copies: &[State<2>]) -> usize {
    let mut count = 0;
    for i in 1..copies.len() {
        if count < 1000 && !is_same(&copies[i - 1], &copies[i]) {
            count += 1;
        }
    }
    count
}

/// Makes that many changes over 50 levels and undoes them: how many levels changed the state that
/// they began in, and how many gave it back.
fn there_and_back(alloc: Global, objects: usize, count: usize) -> Result<(usize, usize), AllocError>
    requires { count ≤ 1000 }
{
    let s = open_state(alloc, objects)?;
    if !is_small(&s) {
        return Ok((0, 0));
    }
    let mut t = Trailed::start(alloc, s, 50)?;
    let copies = descend(alloc, &mut t, count)?;
    let changed = differ(&copies);
    Ok((changed, ascend(&mut t, copies)))
}

#[test]
fn a_thousand_changes_are_undone_level_by_level(rt: HostRuntime) -> Result<(), Fail> {
    // 1,000 changes of 7 objects; one object that each level changes a hundred times; many objects
    for (objects, count) in [(7, 20), (1, 100), (60, 20)] {
        let (changed, same) = there_and_back(rt.alloc(), objects, count)?;
        assert!(rt; changed == 49 && same == 50);
    }
    Ok(())
}

/// Pushes the numbers from `from` on while there is room and `count` is not reached.
fn push_all(s: &mut TrailStack<u64>, from: u64, count: u64)
    requires { from + count ≤ 1000000 }
{
    for i in 0..count {
        if s.spare() > 0 {
            s.push(from + i);
        }
    }
}

/// Pops all numbers. Whether they come down to 1.
fn pops_down(s: &mut TrailStack<u64>, from: u64) -> bool {
    let mut down = true;
    for wanted in (1..=from).rev() {
        down &= s.pop() == Some(wanted);
    }
    down && s.pop().is_none()
}

#[test]
fn a_stack_gives_back_what_it_was_given(rt: HostRuntime) -> Result<(), Fail> {
    let mut s = TrailStack::new(rt.alloc());
    assert!(rt; s.pop().is_none() && s.len() == 0 && s.spare() == 0);
    s.reserve(3)?;
    push_all(&mut s, 1, 3);
    assert!(rt; s.len() == 3 && s.pop() == Some(3) && s.len() == 2 && s.spare() >= 1);
    assert!(rt; s.pop() == Some(2) && s.pop() == Some(1) && s.pop().is_none());
    Ok(())
}

#[test]
fn a_stack_goes_over_its_blocks(rt: HostRuntime) -> Result<(), Fail> {
    let mut s = TrailStack::new(rt.alloc());
    for end in 1..20 {
        s.reserve(end)?;
        let len = s.len();
        if len < 1000 {
            push_all(&mut s, len as u64 + 1, 5);
        }
    }
    // each turn makes room for `end` items at least, and five go in where there is room for them
    let count = s.len() as u64;
    assert!(rt; count == 1 + 2 + 3 + 4 + 5 * 15 && pops_down(&mut s, count));
    Ok(())
}

#[test]
fn a_stack_refuses_more_than_memory_holds(rt: HostRuntime) -> Result<(), Fail> {
    let mut s = TrailStack::new(rt.alloc());
    s.reserve(2)?;
    push_all(&mut s, 1, 1);
    assert!(rt; s.reserve(usize::MAX).is_err() && s.len() == 1 && s.spare() == 1);
    assert!(rt; pops_down(&mut s, 1));
    Ok(())
}
