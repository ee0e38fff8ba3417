//! Spans of whole numbers.

ghost use Rattle.std.specs.Prelude.{◌≡◌, ◌↔◌, ◌^◌, ◌<◌, IsTrue};
ghost use Rattle.std.specs.Prelude.{◌+ℤ◌, ◌-ℤ◌, ◌≤ℤ◌, negsuc, pos};
ghost use Rattle.std.specs.Int.{int_max, int_min};
ghost use Rattle.layout_drawing.specs.Drawing.{width};

/// Whole numbers from `low` to `high`, both included. There is one at least.
#[derive(Clone, Copy)]
pub struct Span {
    pub low: i128,
    pub high: i128,
    ghost filled: { low ≤ℤ high },
    ghost from: { negsuc (2 ^ 70) ≤ℤ low },
    ghost to: { high ≤ℤ pos (2 ^ 70) },
}

impl Span {
    /// Whether the number lies in the span.
    pub fn has(&self, number: i128) -> bool
        ensures { IsTrue result
            ↔ ((self.now.low ≤ℤ number) × (number ≤ℤ self.now.high)) }
    {
        self.low <= number && number <= self.high
    }

    /// The least span that holds both.
    pub fn joined(&self, other: &Span) -> Span
        ensures low { result.low ≡ int_min self.now.low other.now.low }
        ensures high { result.high ≡ int_max self.now.high other.now.high }
    {
        Span {
            low: self.low.min(other.low),
            high: self.high.max(other.high),
        }
    }

    /// How many of its numbers stand before this one.
    pub fn place_of(&self, number: i128) -> usize
        requires from { self.now.low ≤ℤ number }
        requires to { number ≤ℤ self.now.high }
        requires few { width self.now.low self.now.high < 2 ^ 64 }
        ensures { self.now.low +ℤ pos result ≡ number }
    {
        (number - self.low) as usize
    }

    /// The number that has so many others before it.
    pub fn nth(&self, place: usize) -> i128
        requires { place < width self.now.low self.now.high }
        ensures { result ≡ self.now.low +ℤ pos place }
    {
        self.low + place as i128
    }

    /// The number that has so many others behind it.
    pub fn nth_back(&self, place: usize) -> i128
        requires { place < width self.now.low self.now.high }
        ensures { result ≡ self.now.high -ℤ pos place }
    {
        self.high - place as i128
    }

    /// How many numbers it has.
    pub fn width(&self) -> u128
        ensures { result ≡ width self.now.low self.now.high }
    {
        (self.high - self.low + 1) as u128
    }
}
