//! Numbers that look drawn, the same in each run.
ghost use Rattle.std.specs.Prelude.{◌<◌};

/// A linear congruential generator, with the constants of Knuth's MMIX.
#[derive(Drop)]
pub struct Draws {
    state: u64,
}

impl Draws {
    /// The numbers that follow from this seed.
    pub fn from_seed(seed: u64) -> Draws {
        Draws { state: seed }
    }

    fn step(&mut self) {
        self.state = self
            .state
            .wrapping_mul(6_364_136_223_846_793_005)
            .wrapping_add(1_442_695_040_888_963_407);
    }

    /// The next number below the end.
    pub fn below(&mut self, end: u64) -> u64
        requires { 0 < end }
        ensures { result < end }
    {
        self.step();
        (self.state >> 33) % end
    }

    /// The next number of 16 bits.
    pub fn word(&mut self) -> u16 {
        self.step();
        (self.state >> 48) as u16
    }
}
