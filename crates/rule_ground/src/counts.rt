//! How many conditions there are, counted before they are made.

ghost use Rattle.std.specs.Prelude.{◌≡◌, ◌+◌, ◌-◌, ◌*◌, ◌<◌, ◌≤◌, List, length};
ghost use Rattle.problem_data.specs.Problem.{RangeData};
ghost use Rattle.rule_ground.specs.Apart.{apart_behind, apart_conditions};
ghost use Rattle.rule_ground.specs.BoxCounts.{box_count};
ghost use Rattle.rule_ground.specs.Shapes.{HasSmallShapes, IsPlace};
ghost use Rattle.rule_values.specs.Shapes.{boxes_at};
ghost use Rattle.rule_ground.specs.Within.{within_conditions};

use crate::shapes::{Placed, boxes, places};
use geo_conditions::ObjId;
use problem_data::problem::Problem;

// How many boxes the object has with that shape.
fn boxes_with(problem: &Problem, at: Placed) -> u64
    requires shapes { HasSmallShapes problem.now }
    requires at { IsPlace problem.now at.object.0 at.place }
    ensures value { result ≡ length (boxes_at problem.now at.object.0 at.place) }
    ensures few { result ≤ 16 }
{
    boxes(problem, at).len() as u64
}

// How many boxes the object has with all its shapes.
fn box_count(problem: &Problem, o: ObjId) -> u64
    requires shapes { HasSmallShapes problem.now }
    requires o { o.0 < length problem.now.objects }
    ensures value { result ≡ box_count problem.now o.0 }
    ensures few { result ≤ 256 }
{
    problem.is_said();
    let mut count = 0;
    for before in 0..places(problem, o) {
        let at = Placed {
            object: o,
            place: before + 1,
        };
        count += boxes_with(problem, at);
    }
    count
}

// How many conditions two objects have.
fn count_pair(problem: &Problem, i: ObjId, j: ObjId) -> u64
    requires shapes { HasSmallShapes problem.now }
    requires i { i.0 < length problem.now.objects }
    requires j { j.0 < length problem.now.objects }
    ensures value { result ≡ box_count problem.now i.0 * box_count problem.now j.0 }
    ensures few { result ≤ 65536 }
{
    let own = box_count(problem, i);
    let others = box_count(problem, j);
    own * others
}

// How many conditions an object has with those behind it.
fn count_behind(problem: &Problem, i: u16) -> u64
    requires shapes { HasSmallShapes problem.now }
    requires i { i < length problem.now.objects }
    ensures value { result ≡ length (apart_behind problem.now i) }
    ensures few { result ≤ 200 * 65536 }
{
    problem.is_said();
    let count = problem.objects().len() as u16;
    let mut sum = 0;
    for j in i + 1..count {
        sum += count_pair(problem, ObjId(i), ObjId(j));
    }
    sum
}

/// How many conditions `apart` has.
pub fn count_apart(problem: &Problem) -> u64
    requires shapes { HasSmallShapes problem.now }
    ensures value { result ≡ length (apart_conditions problem.now) }
    ensures few { result ≤ 200 * (200 * 65536) }
{
    problem.is_said();
    let count = problem.objects().len() as u16;
    let mut sum = 0;
    for i in 0..count {
        sum += count_behind(problem, i);
    }
    sum
}

/// How many conditions `within` has; they do not depend on the ranges.
pub fn count_within(problem: &Problem) -> u64
    requires shapes { HasSmallShapes problem.now }
    ensures value { (ranges : List RangeData)
        → result ≡ length (within_conditions problem.now ranges) }
    ensures few { result ≤ 200 * (200 * 65536) }
{
    problem.is_said();
    let count = problem.objects().len() as u16;
    let each = problem.dims() as u64 * 2;
    let mut sum = 0;
    for o in 0..count {
        sum += box_count(problem, ObjId(o)) * each;
    }
    sum
}
