//! Which of two things comes first.

ghost use Rattle.std.specs.Prelude.{◌≡◌, Bool};
ghost use Rattle.geo_tokens.specs.First.{earlier_by};

/// Things of which one may come after another.
pub trait InOrder: Copy {
    // whether the one comes after the other
    ghost comes_after: { Self → Self → Bool };

    /// Whether it comes after the other one.
    fn is_after(&self, other: &Self) -> bool
        ensures { result ≡ comes_after self.now other.now };
}

/// The one of two that comes first, or the only one.
pub fn earlier<T: InOrder>(a: Option<T>, b: Option<T>) -> Option<T>
    ensures { result ≡ earlier_by T.comes_after a b }
{
    match (a, b) {
        (Some(f), Some(g)) => { if f.is_after(&g) { Some(g) } else { Some(f) } }
        (Some(f), None) => Some(f),
        (None, g) => g,
    }
}
