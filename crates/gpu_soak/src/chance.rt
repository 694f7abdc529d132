//! A seeded generator of numbers, so that a soak can be made again.

/// The state of a generator.
#[derive(Clone, Copy)]
pub(crate) struct Chance {
    state: u64,
}

impl Chance {
    /// A generator of this seed.
    pub(crate) fn new(seed: u64) -> Chance {
        let mut chance = Chance { state: seed };
        chance.draw();
        chance
    }

    /// The next number: the upper half of a linear congruence, whose lower bits repeat too soon.
    pub(crate) fn draw(&mut self) -> u32 {
        self.state = self
            .state
            .wrapping_mul(6_364_136_223_846_793_005)
            .wrapping_add(1_442_695_040_888_963_407);
        (self.state / 4_294_967_296) as u32
    }

    /// A gate that holds its caller up for some time.
    pub(crate) fn hold_up(&mut self) {
        if self.draw() % 4 == 0 {
            for _ in 0..self.draw() % 1024 {
                self.draw();
            }
        }
    }
}
