//! Where in the record of a sweep the open cuts stand, one for each dimension by significance:
//! their numbers are put in when the jump is known.

ghost use Rattle.std.specs.Prelude.{◌≡◌, ◌≢◌, ℕ, ◌<◌, slice_index};

/// Where the cuts that hold a place stand in a record, one for each dimension by significance.
#[derive(Clone, Copy)]
pub struct Marks<const K: usize> {
    pub places: [usize; K],
}

impl<const K: usize> Marks<K> {
    /// No mark is set: each is 0.
    pub fn new() -> Self
        ensures { (p : ℕ) → p < K → slice_index result.places p ≡ 0 }
    {
        Marks { places: [0; K] }
    }

    #[inline(always)]
    pub fn get(&self, p: usize) -> usize
        requires { p < K }
        ensures { result ≡ slice_index self.now.places p }
    {
        self.places[p]
    }

    #[inline(always)]
    pub fn set(&mut self, p: usize, mark: usize)
        requires { p < K }
        ensures same { slice_index self.new.places p ≡ mark }
        ensures others { (e : ℕ) → e ≢ p →
            slice_index self.new.places e ≡ slice_index self.old.places e }
    {
        self.places[p] = mark;
    }
}
