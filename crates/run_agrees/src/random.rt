//! A generator of numbers that follow from a seed.

ghost use Rattle.std.specs.Prelude.{◌<◌};

/// A linear congruential generator of 64 bits, of which the high bits are given out.
#[derive(Clone, Copy, Debug)]
pub struct Random {
    state: u64,
}

impl Random {
    ghost use Rattle.std.specs.Prelude.{◌<◌};

    /// Returns the generator of a seed.
    pub fn new(seed: u64) -> Random {
        Random { state: seed }
    }

    /// Continues with the next state, and returns its bytes, the high ones first.
    fn bytes(&mut self) -> [u8; 8] {
        self.state = self
            .state
            .wrapping_mul(6_364_136_223_846_793_005)
            .wrapping_add(1_442_695_040_888_963_407);
        self.state.to_be_bytes()
    }

    /// Returns the next number of 32 bits.
    fn word(&mut self) -> u32 {
        let [a, b, c, d, ..] = self.bytes();
        u32::from_be_bytes([a, b, c, d])
    }

    /// Returns the next number below another.
    pub fn below(&mut self, limit: u32) -> u32
        requires { 0 < limit }
        ensures { result < limit }
    {
        self.word() % limit
    }

    /// Writes a number below 256 over each byte.
    pub fn fill(&mut self, bytes: &mut [u8]) {
        for byte in bytes {
            let [high, ..] = self.bytes();
            *byte = high;
        }
    }
}
