//! Entries of objects as they were, and how they are put back.
ghost use Rattle.std.specs.Prelude.{◌≡◌, ◌+◌, ◌<◌, ◌≤◌, ◌⊎◌, [], ◌∷◌, ◌++◌, length, take, drop, slice_index, slice_set};
ghost use Rattle.std.specs.List.{All};
ghost use Rattle.geo_conditions.specs.Reach.{reach};
ghost use Rattle.geo_state.specs.Undo.{state_before, marks_before, entry_of};

use geo_base::{Interval, KBox, MAX_DIMS};
use geo_conditions::{ObjId, ShapeSet, State};
use std::marker::Model;
use trail_arena::TrailStack;

/// What was open to an object before a level changed it, and the greatest open level that had saved
/// it then, 0 if none had.
#[derive(Clone, Copy)]
pub struct Saved<const K: usize> {
    object: u16,
    level: usize,
    places: ShapeSet,
    region: KBox<K>,
}

impl<const K: usize> Model for Saved<K> {
    ghost use Rattle.geo_state.specs.Undo.{Entry};

    ghost Value = { Entry };

    ghost use Rattle.std.specs.Prelude.{◌≡◌, length};
    ghost use Rattle.geo_conditions.specs.declared.object.TheConstants.{MAX_SHAPES};
    ghost use Rattle.geo_conditions.specs.Regions.{region_of};

    ghost view = { λ s. record {
      object = s.object;
      reach = record { places = s.places; region = region_of s.region };
      level = s.level;
    } };

    ghost invariant = { λ s. (length s.places ≡ MAX_SHAPES)
        × (length s.region.lo.coordinates ≡ K) × (length s.region.hi.coordinates ≡ K) };

    ghost inverse = { λ e. record {
      object = e.object;
      level = e.level;
      places = e.reach.places;
      region = record {
        lo = record { coordinates = e.reach.region.lo };
        hi = record { coordinates = e.reach.region.hi };
      };
    } };
}

impl<const K: usize> Saved<K> {
    fn of(state: &State<K>, o: ObjId, level: usize) -> Saved<K>
        requires k { K ≤ MAX_DIMS }
        requires object { o.0 < length state.now }
        ensures { result ≡ entry_of state.now o.0 level }
    {
        Saved {
            object: o.0,
            level,
            places: state.places(o),
            region: state.region(o),
        }
    }

    /// The object, and the level that had saved it.
    fn mark(&self) -> (ObjId, usize)
        ensures object { result.0.0 ≡ self.now.object }
        ensures level { result.1 ≡ self.now.level }
    {
        (ObjId(self.object), self.level)
    }

    fn put_back(&self, state: &mut State<K>)
        requires k { K ≤ MAX_DIMS }
        requires object { self.now.object < length state.old }
        ensures { state.new ≡ slice_set state.old self.now.object self.now.reach }
    {
        let _objects = state.objects();
        let o = ObjId(self.object);
        state.set_places(o, self.places);
        for d in 0..K {
            let v = Interval {
                lo: self.region.lo.get(d),
                hi: self.region.hi.get(d),
            };
            state.set_interval(o, d, v);
        }
    }
}

/// Saves an object for the last of `depth` levels, unless it has saved it already. It takes no
/// memory.
pub fn save<const K: usize>(
    state: &State<K>,
    saved: &mut TrailStack<Saved<K>>,
    marks: &mut [usize],
    depth: usize,
    o: ObjId,
)
    requires k { K ≤ MAX_DIMS }
    requires object { o.0 < length state.now }
    requires marks { length marks.old ≡ length state.now }
    requires mark { slice_index marks.old o.0 ≤ depth }
    requires room { slice_index marks.old o.0 < depth → 0 < saved.old.spare }
    ensures marks { marks.new ≡ slice_set marks.old o.0 depth }
    ensures items { ((slice_index marks.old o.0 < depth) × (saved.new.items ≡ saved.old.items
        ++ entry_of state.now o.0 (slice_index marks.old o.0) ∷ []))
        ⊎ ((depth ≤ slice_index marks.old o.0) × (saved.new.items ≡ saved.old.items)) }
    ensures room { length saved.new.items + saved.new.spare
        ≡ length saved.old.items + saved.old.spare }
{
    let level = marks[o.0 as usize];
    if level < depth {
        saved.push(Saved::of(state, o, level));
        marks[o.0 as usize] = depth;
    }
}

/// Puts back all entries but the first `left`, the last one first. It takes no memory.
pub fn put_back<const K: usize>(
    state: &mut State<K>,
    saved: &mut TrailStack<Saved<K>>,
    marks: &mut [usize],
    left: usize,
)
    requires k { K ≤ MAX_DIMS }
    requires left { left ≤ length saved.old.items }
    requires marks { length marks.old ≡ length state.old }
    requires exist { All (λ e. e.object < length state.old) saved.old.items }
    ensures state { state.new ≡ state_before state.old (drop left saved.old.items) }
    ensures marks { marks.new ≡ marks_before marks.old (drop left saved.old.items) }
    ensures items { saved.new.items ≡ take left saved.old.items }
    ensures room { length saved.new.items + saved.new.spare
        ≡ length saved.old.items + saved.old.spare }
{
    while saved.len() > left {
        if let Some(entry) = saved.pop() {
            let (o, level) = entry.mark();
            entry.put_back(state);
            marks[o.0 as usize] = level;
        }
    }
}
