//! What is left to an object, and its parts. A place or a dimension that is not there changes
//! nothing.

ghost use Rattle.std.specs.Prelude.{◌≤◌};

use derivation::{Half, Side};
use geo_base::{Interval, KBox, MAX_DIMS};
use geo_conditions::{MAX_SHAPES, ObjId, ShapeSet, State};
use std::alloc::{AllocError, Global};

/// The places and the region that are left to an object. What has the same version is the same.
#[derive(Clone, Copy)]
pub struct Reach<const K: usize> {
    pub places: ShapeSet,
    pub region: KBox<K>,
    version: u64,
}

/// What is left to each object.
pub struct Reaches<const K: usize> {
    pub state: State<K>,
    /// For each object the version of what is left to it.
    pub versions: Vec<u64>,
    /// The last version so far.
    last: u64,
}

impl<const K: usize> Drop for Reaches<K> {
    fn drop(self) {
        let Reaches {
            state: _state,
            versions: _versions,
            last: _,
        } = self;
    }
}

impl<const K: usize> Reaches<K> {
    /// What is left to each object on the first state.
    pub fn start(alloc: Global, first: &State<K>) -> Result<Reaches<K>, AllocError>
        requires { K ≤ MAX_DIMS }
    {
        Ok(Reaches {
            state: first.copy()?,
            versions: vec![in alloc; 0; first.objects()]?,
            last: 0,
        })
    }

    /// What is left to the object, where there is such an object.
    pub fn get(&self, o: ObjId) -> Option<Reach<K>>
        requires { K ≤ MAX_DIMS }
    {
        match self.versions.get(o.0 as usize) {
            Some(version) if (o.0 as usize) < self.state.objects() => Some(Reach {
                places: self.state.places(o),
                region: self.state.region(o),
                version: *version,
            }),
            _ => None,
        }
    }

    /// Leaves this to the object, where there is such an object.
    pub fn put(&mut self, o: ObjId, reach: &Reach<K>)
        requires { K ≤ MAX_DIMS }
    {
        set_reach(&mut self.state, o, reach);
        let at = o.0 as usize;
        if at < self.versions.len() {
            self.versions[at] = reach.version;
        }
    }

    /// Leaves a part to it of what was left.
    pub fn put_part(&mut self, o: ObjId, part: &Reach<K>)
        requires { K ≤ MAX_DIMS }
    {
        self.last = self.last.saturating_add(1);
        let mut newer = *part;
        newer.version = self.last;
        self.put(o, &newer);
    }
}

// Leaves this to the object, where there is such an object.
fn set_reach<const K: usize>(s: &mut State<K>, o: ObjId, reach: &Reach<K>)
    requires { K ≤ MAX_DIMS }
{
    if (o.0 as usize) < s.objects() {
        s.set_places(o, reach.places);
        for d in 0..K {
            if (o.0 as usize) < s.objects() {
                let lo = reach.region.lo.get(d);
                let hi = reach.region.hi.get(d);
                s.set_interval(o, d, Interval { lo, hi });
            }
        }
    }
}

fn upto<const K: usize>(b: &KBox<K>, d: usize, v: i64) -> KBox<K> {
    let hi = b.hi();
    if d < K {
        KBox::new(b.lo(), hi.with(d, hi.get(d).min(v)))
    } else {
        *b
    }
}

fn from<const K: usize>(b: &KBox<K>, d: usize, v: i64) -> KBox<K> {
    let lo = b.lo();
    if d < K {
        KBox::new(lo.with(d, lo.get(d).max(v)), b.hi())
    } else {
        *b
    }
}

/// The part of the box on the side.
pub fn near<const K: usize>(b: &KBox<K>, side: Side) -> KBox<K> {
    match side {
        Side::Upto(d, v) => upto(b, d as usize, v),
        Side::From(d, v) => from(b, d as usize, v),
    }
}

/// The rest of it.
pub fn far<const K: usize>(b: &KBox<K>, side: Side) -> KBox<K> {
    match side {
        Side::Upto(d, v) => from(b, d as usize, v.saturating_add(1)),
        Side::From(d, v) => upto(b, d as usize, v.saturating_sub(1)),
    }
}

impl<const K: usize> Reach<K> {
    /// The first part of a split.
    pub fn first(&self, half: Half) -> Reach<K> {
        let mut part = *self;
        match half {
            Half::OfPlace(place) => {
                let there = self.places.has(place);
                part.places = ShapeSet::up_to(0);
                part.set_place(place, there);
            }
            Half::OfSide(side) => part.region = near(&self.region, side),
        }
        part
    }

    /// The second part of it.
    pub fn second(&self, half: Half) -> Reach<K> {
        let mut part = *self;
        match half {
            Half::OfPlace(place) => part.set_place(place, false),
            Half::OfSide(side) => part.region = far(&self.region, side),
        }
        part
    }

    fn set_place(&mut self, place: u8, there: bool) {
        if 1 <= place && place as usize <= MAX_SHAPES {
            self.places.set(place, there);
        }
    }
}
