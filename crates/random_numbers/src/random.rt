//! Numbers that look random, the same in every run: the high bits of a linear congruential generator of 64 bits.

ghost use Rattle.std.specs.Prelude.{◌<◌, ◌≤◌};

/// The generator.
#[derive(Drop)]
pub struct Random {
    state: u64,
}

impl Random {
    /// The generator from a seed on.
    pub fn new(seed: u64) -> Self {
        Random { state: seed }
    }

    /// A number below a bound.
    pub fn below(&mut self, bound: u32) -> u32
        requires { 0 < bound }
        ensures { result < bound }
    {
        self.state = self
            .state
            .wrapping_mul(6364136223846793005)
            .wrapping_add(1442695040888963407);
        ((self.state >> 33) % u64::from(bound)) as u32
    }

    /// A byte.
    pub fn byte(&mut self) -> u8 {
        self.below(256) as u8
    }

    /// A word.
    pub fn word(&mut self) -> u16 {
        self.below(65536) as u16
    }
}
