//! States: what is open to each object, its places as a set and its coordinates as intervals. They
//! lie in one list, in file order.

ghost use Rattle.std.specs.Prelude.{◌≡◌, ◌≢◌, ℕ, ◌+◌, ◌-◌, ◌<◌, ◌≤◌, length, List, [], ◌∷◌, ◌++◌, slice_set, IfOk, OnOk, OnErr, true, false};
ghost use Rattle.geo_conditions.specs.Reach.{low, high, has, reach, place_in, is_only, dims, with_interval, with_low, with_high, with_place, with_places, without, first_places, IsState};
ghost use Rattle.geo_conditions.specs.Regions.{region_of};

use crate::object::{MAX_OBJECTS, MAX_SHAPES, ObjId};
use crate::shapes::ShapeSet;
use geo_base::{Interval, KBox, MAX_DIMS};
use std::alloc::{AllocError, Global};
use std::marker::Model;

/// What is open to one object.
#[derive(Clone, Copy)]
struct Held<const K: usize> {
    places: ShapeSet,
    region: KBox<K>,
}

impl<const K: usize> Model for Held<K> {
    ghost use Rattle.std.specs.Prelude.{◌≡◌, length};
    ghost use Rattle.geo_conditions.specs.declared.object.TheConstants.{MAX_SHAPES};
    ghost use Rattle.geo_conditions.specs.Reach.{Reach};

    ghost Value = { Reach };

    ghost use Rattle.geo_conditions.specs.Regions.{region_of};

    ghost view = { λ h. record { places = h.places; region = region_of h.region } };

    ghost invariant = { λ h. (length h.places ≡ MAX_SHAPES)
        × (length h.region.lo.coordinates ≡ K) × (length h.region.hi.coordinates ≡ K) };

    ghost inverse = { λ r. record {
      places = r.places;
      region = record {
        lo = record { coordinates = r.region.lo };
        hi = record { coordinates = r.region.hi };
      };
    } };
}

impl<const K: usize> Held<K> {
    fn set_interval(&mut self, d: usize, v: Interval)
        requires k { K ≤ MAX_DIMS }
        requires dimension { d < K }
        ensures { self.new ≡ with_interval self.old d v.lo v.hi }
    {
        let region = self.region;
        self.region = KBox::new(region.lo.with(d, v.lo), region.hi.with(d, v.hi));
    }

    fn set_low(&mut self, d: usize, v: i64)
        requires k { K ≤ MAX_DIMS }
        requires dimension { d < K }
        ensures { self.new ≡ with_low self.old d v }
    {
        let region = self.region;
        self.region = KBox::new(region.lo.with(d, v), region.hi);
    }

    fn set_high(&mut self, d: usize, v: i64)
        requires k { K ≤ MAX_DIMS }
        requires dimension { d < K }
        ensures { self.new ≡ with_high self.old d v }
    {
        let region = self.region;
        self.region = KBox::new(region.lo, region.hi.with(d, v));
    }

    fn set_places(&mut self, places: ShapeSet)
        ensures { self.new ≡ with_places self.old places }
    {
        self.places = places;
    }

    fn set_shape(&mut self, place: u8, there: bool)
        requires place { (1 ≤ place) × (place ≤ MAX_SHAPES) }
        ensures { self.new ≡ with_place self.old place there }
    {
        self.places.set(place, there);
    }
}

/// A state: for each object its places, and an interval in each dimension.
pub struct State<const K: usize> {
    objects: Vec<Held<K>>,
}

/// Written out, since a derived one is made and proved anew wherever a state is dropped.
impl<const K: usize> Drop for State<K> {
    fn drop(self) {
        let State { objects: _objects } = self;
    }
}

impl<const K: usize> Model for State<K> {
    ghost use Rattle.std.specs.Prelude.{List};
    ghost use Rattle.geo_conditions.specs.Reach.{Reach, IsState};

    ghost Value = { List Reach };

    ghost view = { λ s. s.objects.items };

    ghost invariant = { λ s. IsState K s.objects.items };
}

impl<const K: usize> State<K> {
    /// The state without objects. It takes no memory.
    pub fn new(alloc: Global) -> State<K>
        requires k { K ≤ MAX_DIMS }
        ensures { result ≡ [] }
    {
        State {
            objects: Vec::new(alloc),
        }
    }

    /// Appends an object that has the shapes from 1 to `shapes` and that region. After an error the
    /// state is as before.
    pub fn add_object(&mut self, shapes: u8, region: KBox<K>) -> Result<(), AllocError>
        requires k { K ≤ MAX_DIMS }
        requires shapes { (1 ≤ shapes) × (shapes ≤ MAX_SHAPES) }
        requires objects { length self.old < MAX_OBJECTS }
        ensures ok { OnOk result (self.new ≡ self.old
            ++ record { places = first_places shapes; region = region_of region.entry } ∷ []) }
        ensures err { OnErr result (self.new ≡ self.old) }
    {
        let places = ShapeSet::up_to(shapes);
        self.objects.push(Held { places, region })?;
        Ok(())
    }

    /// The same state again.
    pub fn copy(&self) -> Result<State<K>, AllocError>
        requires k { K ≤ MAX_DIMS }
        ensures { IfOk result (λ t. t ≡ self.now) }
    {
        let objects = Vec::from_slice(*self.objects.allocator(), &self.objects)?;
        Ok(State { objects })
    }

    /// Takes over another state of as many objects. It takes no memory.
    pub fn copy_from(&mut self, from: &State<K>)
        requires k { K ≤ MAX_DIMS }
        requires objects { length self.old ≡ length from.now }
        ensures { self.new ≡ from.now }
    {
        self.objects.copy_from_slice(&from.objects);
    }

    /// How many objects there are.
    pub fn objects(&self) -> usize
        ensures number { result ≡ length self.now }
        ensures shape { IsState K self.now }
    {
        self.objects.len()
    }

    /// Whether the shape at that place is open to the object.
    pub fn has_shape(&self, o: ObjId, place: u8) -> bool
        requires k { K ≤ MAX_DIMS }
        requires object { o.0 < length self.now }
        ensures { result ≡ has self.now o.0 place }
    {
        let held = &self.objects[o.0 as usize];
        held.places.has(place)
    }

    /// Whether the shape at that place is open to the object, and no other.
    pub fn is_only_shape(&self, o: ObjId, place: u8) -> bool
        requires k { K ≤ MAX_DIMS }
        requires object { o.0 < length self.now }
        ensures { result ≡ is_only (reach self.now o.0).places place }
    {
        let held = &self.objects[o.0 as usize];
        held.places.is_only(place)
    }

    /// The place that is left alone to the object; 0 where none is left, or several are.
    pub fn sole_place(&self, o: ObjId) -> u8
        requires k { K ≤ MAX_DIMS }
        requires object { o.0 < length self.now }
        ensures alone { result ≢ 0 → is_only (reach self.now o.0).places result ≡ true }
        ensures only { (place : ℕ) → is_only (reach self.now o.0).places place ≡ true
            → place ≡ result }
    {
        let held = &self.objects[o.0 as usize];
        held.places.sole()
    }

    /// The numbers that are open to a coordinate of the object.
    pub fn interval(&self, o: ObjId, d: usize) -> Interval
        requires k { K ≤ MAX_DIMS }
        requires object { o.0 < length self.now }
        requires dimension { d < K }
        ensures lo { result.lo ≡ low self.now o.0 d }
        ensures hi { result.hi ≡ high self.now o.0 d }
    {
        let held = &self.objects[o.0 as usize];
        Interval {
            lo: held.region.lo.get(d),
            hi: held.region.hi.get(d),
        }
    }

    /// The points that are open to the object.
    pub fn region(&self, o: ObjId) -> KBox<K>
        requires k { K ≤ MAX_DIMS }
        requires object { o.0 < length self.now }
        ensures value { region_of result ≡ (reach self.now o.0).region }
        ensures dimensions { dims self.now o.0 ≡ K }
        ensures places { length (reach self.now o.0).places ≡ MAX_SHAPES }
    {
        let held = &self.objects[o.0 as usize];
        held.region
    }

    /// The places that are left to an object.
    pub fn places(&self, o: ObjId) -> ShapeSet
        requires k { K ≤ MAX_DIMS }
        requires object { o.0 < length self.now }
        ensures value { result ≡ (reach self.now o.0).places }
        ensures whole { length result ≡ MAX_SHAPES }
    {
        let held = &self.objects[o.0 as usize];
        held.places
    }

    /// Gives an object other places, and changes nothing else.
    pub fn set_places(&mut self, o: ObjId, places: ShapeSet)
        requires k { K ≤ MAX_DIMS }
        requires object { o.0 < length self.old }
        ensures { self.new ≡ slice_set self.old o.0 (with_places (reach self.old o.0) places) }
    {
        let held = &mut self.objects[o.0 as usize];
        held.set_places(places);
    }

    /// Changes the interval of one coordinate, and nothing else.
    pub fn set_interval(&mut self, o: ObjId, d: usize, v: Interval)
        requires k { K ≤ MAX_DIMS }
        requires object { o.0 < length self.old }
        requires dimension { d < K }
        ensures { self.new
            ≡ slice_set self.old o.0 (with_interval (reach self.old o.0) d v.lo v.hi) }
    {
        let held = &mut self.objects[o.0 as usize];
        held.set_interval(d, v);
    }

    /// Changes the low end of one coordinate, and nothing else.
    pub fn set_low(&mut self, o: ObjId, d: usize, v: i64)
        requires k { K ≤ MAX_DIMS }
        requires object { o.0 < length self.old }
        requires dimension { d < K }
        ensures { self.new ≡ slice_set self.old o.0 (with_low (reach self.old o.0) d v) }
    {
        let held = &mut self.objects[o.0 as usize];
        held.set_low(d, v);
    }

    /// Changes the high end of one coordinate, and nothing else.
    pub fn set_high(&mut self, o: ObjId, d: usize, v: i64)
        requires k { K ≤ MAX_DIMS }
        requires object { o.0 < length self.old }
        requires dimension { d < K }
        ensures { self.new ≡ slice_set self.old o.0 (with_high (reach self.old o.0) d v) }
    {
        let held = &mut self.objects[o.0 as usize];
        held.set_high(d, v);
    }

    /// Puts a shape in, or takes it out, and changes nothing else.
    pub fn set_shape(&mut self, o: ObjId, place: u8, there: bool)
        requires k { K ≤ MAX_DIMS }
        requires object { o.0 < length self.old }
        requires place { (1 ≤ place) × (place ≤ MAX_SHAPES) }
        ensures { self.new
            ≡ slice_set self.old o.0 (with_place (reach self.old o.0) place there) }
    {
        let held = &mut self.objects[o.0 as usize];
        held.set_shape(place, there);
    }

    /// Takes a shape out, and changes nothing else.
    pub fn drop_shape(&mut self, o: ObjId, place: u8)
        requires k { K ≤ MAX_DIMS }
        requires object { o.0 < length self.old }
        requires place { (1 ≤ place) × (place ≤ MAX_SHAPES) }
        ensures { self.new ≡ slice_set self.old o.0 (without (reach self.old o.0) place) }
    {
        self.set_shape(o, place, false);
    }
}
