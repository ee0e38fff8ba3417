//! Pseudorandom numbers from a seed.

ghost use Rattle.std.specs.Prelude.{◌≡◌, ◌<◌, ◌^◌};
ghost use Rattle.problem_generator.specs.Draws.{next_state, drawn_from};

const MULTIPLIER: u64 = 1_103_515_245;

const INCREMENT: u64 = 12_345;

const STATES: u64 = 1 << 31;

const LOW_STATES: u32 = 1 << 16;

/// A linear congruential generator, by its state. Draws come from the upper bits, which vary most.
#[derive(Drop)]
pub struct Draws {
    pub state: u32,
    ghost within: { state < 2 ^ 31 },
}

impl Draws {
    /// A number below `limit`.
    pub fn draw(&mut self, limit: u32) -> u32
        requires { 0 < limit }
        ensures number { result ≡ drawn_from self.new.state limit }
        ensures below { result < limit }
        ensures state { self.new.state ≡ next_state self.old.state }
    {
        self.state = ((MULTIPLIER * u64::from(self.state) + INCREMENT) % STATES) as u32;
        self.state / LOW_STATES % limit
    }
}
