//! Sweeps one object among two hundred boxes in ranges of a million in each of three dimensions, and
//! prints the points that it finds and how many questions it asks. Without words it sweeps by boxes
//! and by trees, without and with a record, upwards and downwards. With the words FORM RECORD WAY
//! TIMES, as `boxes none up 1000`, it does that one thing so many times.
#![tactic(auto)]

ghost use Rattle.std.specs.Prelude.{◌≡◌, ◌<◌, length, map};
ghost use Rattle.geo_conditions.specs.Conditions.{AllFit};
ghost use Rattle.sweep.specs.Picks.{ArePicks};

use derivation::{Log, NoRecord, Recorder};
use geo_base::{Point, Steps, Way};
use geo_conditions::{ObjId, State};
use indexical::{Counted, Indexical};
use std::alloc::{AllocError, Global};
use std::marker::Brand;
use std::sync::ledger::{Blank, Ledger};
use std::{env, io};
use sweep::sweep;

mod scene;

use scene::{boxes, numbers, ranges, scene, trees};

/// What is swept.
#[derive(Clone, Copy)]
struct Task {
    trees: bool,
    keeps: bool,
    up: bool,
    times: u64,
}

/// What one lead dimension gave: the point, and how often the conditions were asked in all.
#[derive(Clone, Copy)]
struct Row {
    point: Option<Point<3>>,
    questions: u64,
}

/// How often the conditions were asked.
fn questions<I>(list: &[Counted<I>]) -> u64 {
    let mut sum: u64 = 0;
    for x in list {
        sum = sum.wrapping_add(x.questions());
    }
    sum
}

/// One sweep of the first object.
fn sweep_once<L: Ledger, I: Indexical<3>>(
    s: &State<3>,
    list: &[Counted<I>],
    picks: &[u32],
    way: &Way<3>,
    log: &mut Option<Log>,
    steps: &mut Steps<L>,
) -> Result<Option<Point<3>>, AllocError>
    requires object { 0 < length s.now }
    requires fits { AllFit (map (λ x. I.cond x.inner) list.now) s.now }
    requires picks { ArePicks (length list.now) picks.now }
{
    let region = ranges();
    match log {
        Some(log) => {
            log.cut_back(0);
            sweep(s, ObjId(0), 1, &region, list, picks, way, log, steps)
        }
        None => {
            let mut none = NoRecord::new();
            sweep(s, ObjId(0), 1, &region, list, picks, way, &mut none, steps)
        }
    }
}

/// The sweeps of a task with that lead dimension.
fn sweep_lead<L: Ledger, I: Indexical<3>>(
    alloc: Global,
    task: &Task,
    lead: usize,
    s: &State<3>,
    list: &[Counted<I>],
    steps: &mut Steps<L>,
) -> Result<Row, AllocError>
    requires lead { lead < 3 }
    requires object { 0 < length s.now }
    requires fits { AllFit (map (λ x. I.cond x.inner) list.now) s.now }
{
    let picks = numbers(alloc, list.len().min(1000))?;
    let way = Way::new(lead, task.up);
    let mut log = if task.keeps {
        Some(Log::new(alloc))
    } else {
        None
    };
    let before = questions(list);
    let mut point = None;
    for _ in 0..task.times {
        point = sweep_once(s, list, &picks, &way, &mut log, steps)?;
    }
    let questions = questions(list).wrapping_sub(before);
    Ok(Row { point, questions })
}

/// The sweeps of a task, by the form that it names.
fn sweep_task<L: Ledger>(
    alloc: Global,
    task: &Task,
    lead: usize,
    steps: &mut Steps<L>,
) -> Result<Row, AllocError>
    requires { lead < 3 }
{
    let s = scene(alloc)?;
    if task.trees {
        let list = trees(alloc, &s)?;
        sweep_lead(alloc, task, lead, &s, &list, steps)
    } else {
        let list = boxes(alloc, &s)?;
        sweep_lead(alloc, task, lead, &s, &list, steps)
    }
}

/// Prints what one lead dimension of a task gave.
fn print_row(rt: &HostRuntime, task: &Task, lead: usize, row: &Row) -> io::Result<()> {
    let form = if task.trees { "trees" } else { "boxes" };
    let record = if task.keeps { "log" } else { "none" };
    let way = if task.up { "up" } else { "down" };
    match row.point {
        Some(p) => println!(rt;
            "{form} {record} {way} {lead}: at {} {} {}, {} questions",
            p.get(0),
            p.get(1),
            p.get(2),
            row.questions
        ),
        None => println!(rt;
            "{form} {record} {way} {lead}: nowhere, {} questions",
            row.questions
        ),
    }
}

/// Does a task, and prints a line for each lead dimension.
fn report<L: Ledger>(rt: &HostRuntime, task: &Task, steps: &mut Steps<L>) -> io::Result<()> {
    for lead in 0..3 {
        let row = sweep_task(rt.alloc(), task, lead, steps)?;
        print_row(rt, task, lead, &row)?;
    }
    Ok(())
}

/// The number that a word writes.
fn number(word: &String) -> Option<u64> {
    word.as_str().parse::<u64>().ok()
}

/// The task that the words name.
fn task_of(words: &[String]) -> Option<Task> {
    let [form, record, way, times] = words else {
        return None;
    };
    Some(Task {
        trees: form.as_str() == "trees",
        keeps: record.as_str() == "log",
        up: way.as_str() == "up",
        times: number(times)?,
    })
}

/// Does the task, or each one once where there is none.
fn run<L: Ledger>(blank: Blank, rt: &HostRuntime, task: Option<Task>) -> io::Result<()>
    requires name { blank.name ≡ L.name }
    requires parts { blank.parts ≡ L.parts }
    requires some { 0 < blank.parts }
{
    let mut steps = Steps::<L>::new(blank);
    match task {
        Some(task) => report(rt, &task, &mut steps),
        None => {
            for trees in [false, true] {
                for keeps in [false, true] {
                    for up in [true, false] {
                        let task = Task {
                            trees,
                            keeps,
                            up,
                            times: 1,
                        };
                        report(rt, &task, &mut steps)?;
                    }
                }
            }
            Ok(())
        }
    }
}

fn main(rt: HostRuntime) -> io::Result<()> {
    let mut words = Vec::new(rt.alloc());
    if let Ok(mut all) = env::args(&rt) {
        let _program = all.next();
        for word in all {
            words.push(word)?;
        }
    }
    run::<Brand>(Blank::new(1), &rt, task_of(&words))
}
