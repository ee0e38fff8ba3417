//! Points and intervals of whole numbers.

ghost use Rattle.std.specs.Prelude.{◌≡◌, ◌≢◌, ℕ, ◌<◌, length, slice_set};
ghost use Rattle.geo_base.specs.Boxes.{coordinate};

/// A point: one coordinate for each dimension.
#[derive(Clone, Copy, Debug)]
pub struct Point<const K: usize> {
    pub coordinates: [i64; K],
}

impl<const K: usize> Point<K> {
    /// The point with the same coordinate in each dimension.
    pub fn filled(v: i64) -> Self
        ensures each { (d : ℕ) → d < K → coordinate result.coordinates d ≡ v }
        ensures dimensions { length result.coordinates ≡ K }
    {
        Point {
            coordinates: [v; K],
        }
    }

    /// How many coordinates there are: one for each of the K dimensions.
    #[inline(always)]
    pub fn dimensions(&self) -> usize
        ensures number { result ≡ K }
        ensures list { length self.now.coordinates ≡ K }
    {
        self.coordinates.len()
    }

    /// The coordinate in the dimension `d`.
    #[inline(always)]
    pub fn get(&self, d: usize) -> i64
        requires { d < K }
        ensures { result ≡ coordinate self.now.coordinates d }
    {
        self.coordinates[d]
    }

    /// Changes the coordinate in the dimension `d`, and no other.
    #[inline(always)]
    pub fn set(&mut self, d: usize, v: i64)
        requires { d < K }
        ensures whole { self.new.coordinates ≡ slice_set self.old.coordinates d v }
        ensures same { coordinate self.new.coordinates d ≡ v }
        ensures others { (e : ℕ) → e ≢ d →
            coordinate self.new.coordinates e ≡ coordinate self.old.coordinates e }
    {
        self.coordinates[d] = v;
    }

    /// The point with another coordinate in the dimension `d`.
    #[inline(always)]
    pub fn with(self, d: usize, v: i64) -> Self
        requires { d < K }
        ensures whole { result.coordinates ≡ slice_set self.entry.coordinates d v }
        ensures same { coordinate result.coordinates d ≡ v }
        ensures others { (e : ℕ) → e ≢ d →
            coordinate result.coordinates e ≡ coordinate self.entry.coordinates e }
    {
        let mut changed = self;
        changed.coordinates[d] = v;
        changed
    }
}

/// The numbers from `lo` to `hi`, both included; none where `lo > hi`.
#[derive(Clone, Copy, Debug, PartialEq, Eq)]
pub struct Interval {
    pub lo: i64,
    pub hi: i64,
}
