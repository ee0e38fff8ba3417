//! How far a check has come: a machine over events, which is total, so that no event needs a word on what came before it.

ghost use Rattle.std.specs.Prelude.{◌≡◌, ◌+◌, ◌-◌, ◌^◌, ◌<◌, ◌≤◌, length, reverse, OnOk, OnErr};
ghost use Rattle.std.specs.List.{All};
ghost use Rattle.geo_conditions.specs.Reach.{reach, with_at};
ghost use Rattle.derivation.specs.Cuts.{far};
ghost use Rattle.derivation.specs.declared.event.Event.TheVariants.{Dead};
ghost use Rattle.derivation_check.specs.declared.progress.Owner.TheVariants as owners;
ghost use Rattle.geo_conditions.specs.Conditions.{AllFit};
ghost use Rattle.derivation.specs.Covers.{IsCut, refutes};
ghost use Rattle.derivation_check.specs.Machine.{back, left, start, noted, finish, split, go_first, go_second, drop_from, list_from, with_boxes, copied, forked, rest, named, closed, leaf, by_leaf, step};
ghost use Rattle.derivation_check.specs.Judges.{answer};
ghost use Rattle.derivation_check.specs.Fits.{HalfFits, TaskFits, OwnerFits};
ghost use Rattle.derivation.specs.Fits.{IsPlace, EventFits};

use crate::cuts::{keep_first, keep_second, next_there};
use crate::open_box::OpenBox;
use crate::saved::{Saved, put_back, saved_of};
use derivation::{Event, Half, Side};
use geo_base::MAX_DIMS;
use geo_conditions::{Cond, ObjId, State, refuted, refuted_at};
use std::alloc::{AllocError, Global};
use std::marker::Model;

/// An open node: a split whose second part is still to come, or a node whose last part is open.
#[derive(Clone, Copy)]
pub enum Task {
    Again(ObjId, Half, Saved),
    Last(Saved),
}

/// What a list of covers belongs to: an object that has no point, or a bound that moves to a side.
#[derive(Clone, Copy)]
pub enum Owner {
    Gone,
    Bound(Side),
}

/// What is read: a node; the cover of a place that is dropped; or a list of covers, with the place from which the next one counts
/// and the place of the last one.
#[derive(Clone, Copy)]
pub enum Work {
    AtNode,
    OfDrop(ObjId, u8),
    OfList(ObjId, Owner, u8, u8),
}

/// The answer: the derivation is valid, or the number of the first node that fails. Nodes count from 1, in text order.
#[derive(Clone, Copy)]
pub enum Checked {
    Yes,
    No(u64),
}

/// Whether the condition of that number exists and is refuted.
fn refutes_on<const K: usize>(cs: &[Cond], i: u32, s: &State<K>) -> bool
    requires k { K ≤ MAX_DIMS }
    requires fits { AllFit cs.now s.now }
    ensures { result ≡ refutes cs.now i s.now }
{
    if i == 0 {
        return false;
    }
    match cs.get((i - 1) as usize) {
        Some(c) => refuted(c, s),
        None => false,
    }
}

/// Whether it exists and is refuted with the object at the place in the box.
fn refutes_at<const K: usize>(
    cs: &[Cond],
    i: u32,
    s: &State<K>,
    o: ObjId,
    place: u8,
    b: &OpenBox<K>,
) -> bool
    requires k { K ≤ MAX_DIMS }
    requires fits { AllFit cs.now s.now }
    requires object { o.0 < length s.now }
    ensures { result ≡ refutes cs.now i (with_at s.now o.0 place b.now) }
{
    if i == 0 {
        return false;
    }
    match cs.get((i - 1) as usize) {
        Some(c) => refuted_at(c, s, o, place, &b.ends()),
        None => false,
    }
}

/// A node has ended: back to the first part that is open, and on to the second. It takes no memory.
fn finish<const K: usize>(state: &mut State<K>, tasks: &mut Vec<Task>)
    requires k { K ≤ MAX_DIMS }
    requires fits { All (TaskFits (length state.old) K) tasks.old.items }
    ensures state { state.new ≡ back (reverse tasks.old.items) state.old }
    ensures tasks { reverse tasks.new.items ≡ left (reverse tasks.old.items) }
    ensures fits { All (TaskFits (length state.new) K) tasks.new.items }
    ensures objects { length state.new ≡ length state.old }
{
    let mut n = tasks.len();
    while n > 0 {
        let task = tasks[n - 1];
        match task {
            Task::Last(old) => {
                put_back(state, &old);
                n -= 1;
            }
            Task::Again(o, half, old) => {
                let rest = Task::Last(old);
                put_back(state, &old);
                keep_second(state, o, half);
                tasks[n - 1] = rest;
                tasks.truncate(n);
                return;
            }
        }
    }
    tasks.clear();
}

/// How far a check has come.
pub struct Progress<const K: usize> {
    state: State<K>,
    tasks: Vec<Task>,
    work: Work,
    boxes: Vec<OpenBox<K>>,
    nodes: u64,
    failed: Option<u64>,
}

impl<const K: usize> Drop for Progress<K> {
    fn drop(self) {
        let Progress {
            state: _state,
            tasks: _tasks,
            work: _work,
            boxes: _boxes,
            nodes: _,
            failed: _,
        } = self;
    }
}

impl<const K: usize> Model for Progress<K> {
    ghost use Rattle.std.specs.Prelude.{reverse, length};
    ghost use Rattle.std.specs.List.{All};
    ghost use Rattle.derivation_check.specs.Machine.{Machine};
    ghost use Rattle.derivation_check.specs.Fits.{TaskFits, WorkFits};

    ghost Value = { Machine };

    ghost view = { λ p. record {
      state = p.state;
      tasks = reverse p.tasks.items;
      work = p.work;
      boxes = reverse p.boxes.items;
      nodes = p.nodes;
      failed = p.failed;
    } };

    ghost invariant = { λ p. All (TaskFits (length p.state) K) p.tasks.items
        × WorkFits (length p.state) K p.work };
}

impl<const K: usize> Progress<K> {
    /// At the first state, with nothing given. It takes no memory.
    pub fn start(alloc: Global, first: State<K>) -> Progress<K>
        ensures { result ≡ start first.entry }
    {
        Progress {
            state: first,
            tasks: Vec::new(alloc),
            work: Work::AtNode,
            boxes: Vec::new(alloc),
            nodes: 0,
            failed: None,
        }
    }

    /// What the first failure so far says of the derivation.
    pub fn verdict(&self) -> Checked
        ensures { result ≡ answer self.now.failed }
    {
        match self.failed {
            None => Checked::Yes,
            Some(n) => Checked::No(n),
        }
    }

    fn note(&mut self, met: bool)
        ensures { self.new ≡ noted self.old met }
    {
        if !met && self.failed.is_none() {
            self.failed = Some(self.nodes);
        }
    }

    fn end_node(&mut self)
        requires k { K ≤ MAX_DIMS }
        ensures { self.new ≡ finish self.old.tasks self.old }
    {
        finish(&mut self.state, &mut self.tasks);
        self.work = Work::AtNode;
    }

    fn split(&mut self, o: ObjId, half: Half) -> Result<(), AllocError>
        requires k { K ≤ MAX_DIMS }
        requires object { o.0 < length self.old.state }
        requires half { HalfFits K half }
        requires count { self.old.nodes < 2 ^ 64 - 1 }
        ensures ok { OnOk result (self.new ≡ split self.old o half) }
        ensures err { OnErr result (self.new ≡ self.old) }
    {
        self.tasks
            .push(Task::Again(o, half, saved_of(&self.state, o, half)))?;
        keep_first(&mut self.state, o, half);
        self.nodes += 1;
        Ok(())
    }

    fn go_first(&mut self, o: ObjId, half: Half) -> Result<(), AllocError>
        requires k { K ≤ MAX_DIMS }
        requires object { o.0 < length self.old.state }
        requires half { HalfFits K half }
        ensures ok { OnOk result (self.new ≡ go_first self.old o half) }
        ensures err { OnErr result (self.new ≡ self.old) }
    {
        self.tasks.push(Task::Last(saved_of(&self.state, o, half)))?;
        keep_first(&mut self.state, o, half);
        self.work = Work::AtNode;
        Ok(())
    }

    fn go_second(&mut self, o: ObjId, half: Half) -> Result<(), AllocError>
        requires k { K ≤ MAX_DIMS }
        requires object { o.0 < length self.old.state }
        requires half { HalfFits K half }
        ensures ok { OnOk result (self.new ≡ go_second self.old o half) }
        ensures err { OnErr result (self.new ≡ self.old) }
    {
        self.tasks.push(Task::Last(saved_of(&self.state, o, half)))?;
        keep_second(&mut self.state, o, half);
        self.work = Work::AtNode;
        Ok(())
    }

    fn drop_place(&mut self, o: ObjId, place: u8) -> Result<(), AllocError>
        requires k { K ≤ MAX_DIMS }
        requires object { o.0 < length self.old.state }
        requires place { IsPlace place }
        requires count { self.old.nodes < 2 ^ 64 - 1 }
        ensures ok { OnOk result (self.new ≡ drop_from self.old o place) }
        ensures err { OnErr result (self.new ≡ self.old) }
    {
        let whole = OpenBox::new(self.state.region(o));
        self.boxes.push(whole)?;
        self.work = Work::OfDrop(o, place);
        self.nodes += 1;
        Ok(())
    }

    fn open_list(&mut self, o: ObjId, owner: Owner, b: OpenBox<K>) -> Result<(), AllocError>
        requires k { K ≤ MAX_DIMS }
        requires object { o.0 < length self.old.state }
        requires owner { OwnerFits K owner }
        requires count { self.old.nodes < 2 ^ 64 - 1 }
        ensures ok { OnOk result (self.new ≡ list_from self.old o owner b.entry) }
        ensures err { OnErr result (self.new ≡ self.old) }
    {
        self.boxes.push(b)?;
        self.work = Work::OfList(o, owner, 1, 0);
        self.nodes += 1;
        Ok(())
    }

    // The box that is to be covered is put on once more.
    fn copy_box(&mut self) -> Result<(), AllocError>
        requires k { K ≤ MAX_DIMS }
        ensures ok { OnOk result (self.new ≡ with_boxes self.old (copied self.old.boxes)) }
        ensures err { OnErr result (self.new ≡ self.old) }
    {
        let n = self.boxes.len();
        if n > 0 {
            let b = self.boxes[n - 1];
            self.boxes.push(b)?;
        }
        Ok(())
    }

    // The box that is to be covered gives way to its two parts.
    fn fork(&mut self, side: Side) -> Result<(), AllocError>
        requires k { K ≤ MAX_DIMS }
        requires side { IsCut K side }
        ensures ok { OnOk result (self.new ≡ with_boxes self.old (forked side self.old.boxes)) }
        ensures err { OnErr result (self.new ≡ self.old) }
    {
        let n = self.boxes.len();
        if n > 0 {
            let b = self.boxes[n - 1];
            self.boxes.push(b.near(side))?;
            self.boxes[n - 1] = b.far(side);
        }
        Ok(())
    }

    fn take_box(&mut self)
        requires k { K ≤ MAX_DIMS }
        ensures { self.new ≡ with_boxes self.old (rest self.old.boxes) }
    {
        self.boxes.pop();
    }

    // A cover of this place is to come: it is the next one that is left.
    fn name(&mut self, place: u8) -> Result<(), AllocError>
        requires k { K ≤ MAX_DIMS }
        requires place { IsPlace place }
        ensures ok { OnOk result (self.new ≡ named self.old.work place self.old) }
        ensures err { OnErr result (self.new ≡ self.old) }
    {
        if let Work::OfList(o, owner, from, _) = self.work {
            let met = match next_there(&self.state.places(o), from) {
                Some(next) => next == place,
                None => false,
            };
            self.copy_box()?;
            self.note(met);
            self.work = Work::OfList(o, owner, place + 1, place);
        }
        Ok(())
    }

    // The list of covers has ended: no place is left.
    fn end_covers(&mut self) -> Result<(), AllocError>
        requires k { K ≤ MAX_DIMS }
        ensures ok { OnOk result (self.new ≡ closed self.old.work self.old) }
        ensures err { OnErr result (self.new ≡ self.old) }
    {
        if let Work::OfList(o, owner, from, _) = self.work {
            let met = next_there(&self.state.places(o), from).is_none();
            match owner {
                Owner::Gone => {
                    self.note(met);
                    self.take_box();
                    self.end_node();
                }
                Owner::Bound(side) => {
                    self.go_first(o, Half::OfSide(side))?;
                    self.note(met);
                    self.take_box();
                }
            }
        }
        Ok(())
    }

    fn holds_at(&self, cs: &[Cond], i: u32, b: &OpenBox<K>) -> bool
        requires k { K ≤ MAX_DIMS }
        requires fits { AllFit cs.now self.now.state }
        ensures { result ≡ leaf cs.now i self.now.work self.now.state b.now }
    {
        match self.work {
            Work::AtNode => true,
            Work::OfDrop(o, place) | Work::OfList(o, _, _, place) => {
                b.is_empty() || refutes_at(cs, i, &self.state, o, place, b)
            }
        }
    }

    // A leaf of a cover; behind the last one of a place that is dropped comes its rest.
    fn by(&mut self, cs: &[Cond], i: u32) -> Result<(), AllocError>
        requires k { K ≤ MAX_DIMS }
        requires fits { AllFit cs.now self.old.state }
        ensures ok { OnOk result (self.new ≡ by_leaf cs.now i self.old.boxes self.old) }
        ensures err { OnErr result (self.new ≡ self.old) }
    {
        let n = self.boxes.len();
        if n > 0 {
            let b = self.boxes[n - 1];
            let met = self.holds_at(cs, i, &b);
            if n == 1 {
                if let Work::OfDrop(o, place) = self.work {
                    self.go_second(o, Half::OfPlace(place))?;
                }
            }
            self.note(met);
            self.take_box();
        }
        Ok(())
    }

    fn dead(&mut self, cs: &[Cond], i: u32)
        requires k { K ≤ MAX_DIMS }
        requires fits { AllFit cs.now self.old.state }
        requires count { self.old.nodes < 2 ^ 64 - 1 }
        ensures { self.new ≡ step cs.now self.old (Dead i) }
    {
        self.nodes += 1;
        let met = refutes_on(cs, i, &self.state);
        self.note(met);
        self.end_node();
    }

    // A bound moves to a side: the rest of the region is to be covered.
    fn bound(&mut self, o: ObjId, side: Side) -> Result<(), AllocError>
        requires k { K ≤ MAX_DIMS }
        requires object { o.0 < length self.old.state }
        requires side { IsCut K side }
        requires count { self.old.nodes < 2 ^ 64 - 1 }
        ensures ok { OnOk result (self.new ≡ list_from self.old o (owners.Bound side)
            (far side (reach self.old.state o.0).region)) }
        ensures err { OnErr result (self.new ≡ self.old) }
    {
        let rest = OpenBox::new(self.state.region(o)).far(side);
        self.open_list(o, Owner::Bound(side), rest)
    }

    /// Takes one event more.
    pub fn give(&mut self, cs: &[Cond], e: Event) -> Result<(), AllocError>
        requires k { K ≤ MAX_DIMS }
        requires fits { AllFit cs.now self.old.state }
        requires event { EventFits (length self.old.state) K e }
        requires count { self.old.nodes < 2 ^ 64 - 1 }
        ensures ok { OnOk result (self.new ≡ step cs.now self.old e) }
        ensures err { OnErr result (self.new ≡ self.old) }
    {
        match e {
            Event::SplitShape(o, place) => self.split(o, Half::OfPlace(place)),
            Event::SplitUpto(o, d, v) => self.split(o, Half::OfSide(Side::Upto(d, v))),
            Event::SplitFrom(o, d, v) => self.split(o, Half::OfSide(Side::From(d, v))),
            Event::Drop(o, place) => self.drop_place(o, place),
            Event::Raise(o, d, v) => self.bound(o, Side::From(d, v)),
            Event::Lower(o, d, v) => self.bound(o, Side::Upto(d, v)),
            Event::Gone(o) => {
                let whole = OpenBox::new(self.state.region(o));
                self.open_list(o, Owner::Gone, whole)
            }
            Event::Dead(i) => {
                self.dead(cs, i);
                Ok(())
            }
            Event::Cover(place) => self.name(place),
            Event::EndCovers => self.end_covers(),
            Event::By(i) => self.by(cs, i),
            Event::Cut(d, v) => self.fork(Side::Upto(d, v)),
            Event::CutFrom(d, v) => self.fork(Side::From(d, v)),
        }
    }
}
