//! Numbers in an order that a seed settles.

/// Numbers in an order that a seed settles.
#[derive(Drop)]
pub struct Random {
    state: u64,
}

impl Random {
    pub fn new(seed: u64) -> Self {
        Random { state: seed }
    }

    /// The next number.
    pub fn next(&mut self) -> u32 {
        self.state = self
            .state
            .wrapping_mul(6_364_136_223_846_793_005)
            .wrapping_add(1_442_695_040_888_963_407);
        (self.state / 0x1_0000_0000) as u32
    }

    /// A number below another, and 0 where that is 0.
    pub fn below(&mut self, limit: u32) -> u32 {
        self.next().checked_rem(limit).unwrap_or(0)
    }

    /// A number below 4.
    pub fn few(&mut self) -> u32 {
        self.next() / 0x4000_0000
    }

    pub fn byte(&mut self) -> u8 {
        (self.next() / 0x100_0000) as u8
    }

    pub fn chance(&mut self) -> bool {
        self.few() < 2
    }
}
