// Random bytes.

/// A linear congruence (Knuth, "The Art of Computer Programming", 3.3.4).
#[derive(Drop)]
pub struct Random {
    pub state: u64,
}

impl Random {
    pub fn byte(&mut self) -> u8 {
        self.state = self
            .state
            .wrapping_mul(6_364_136_223_846_793_005)
            .wrapping_add(1_442_695_040_888_963_407);
        ((self.state >> 33) & 255) as u8
    }
}
