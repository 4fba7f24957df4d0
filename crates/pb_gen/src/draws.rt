//! Draws of pseudo-random numbers.
ghost use Rattle.std.specs.Prelude.{◌≡◌, ◌<◌, ◌^◌};
ghost use Rattle.pb_gen.specs.Draws.{draw, state_after};

/// A linear congruential generator, with the state after the last draw.
#[derive(Drop)]
pub struct Draws {
    state: u32,
}

impl Draws {
    /// Starts the draws of a seed.
    pub fn new(seed: u32) -> Self
        ensures { result.state ≡ seed }
    {
        Draws { state: seed }
    }

    /// Returns the next draw, from 0 to 65,535.
    pub fn take(&mut self) -> u32
        ensures drawn { result ≡ draw self.old.state 0 }
        ensures small { result < 2 ^ 16 }
        ensures state { self.new.state ≡ state_after 1 self.old.state }
    {
        self.state = self
            .state
            .wrapping_mul(1_664_525)
            .wrapping_add(1_013_904_223);
        self.state / 65_536
    }
}
