//! How often something has failed.
ghost use Rattle.std.specs.Prelude.{◌≡◌, true, false};
ghost use Rattle.pb_base.specs.FaultCounts.{Rose};

use crate::fault::Failed;
use std::marker::Model;

/// How often something has failed, from 0 on. At its last value it stands still.
#[derive(Drop)]
pub struct FaultCount {
    count: u64,
}

impl Model for FaultCount {
    ghost use Rattle.std.specs.Prelude.{ℕ, ◌<◌, ◌^◌};

    ghost Value = { ℕ };

    ghost view = { λ c. c.count };

    ghost invariant = { λ c. c.count < 2 ^ 64 };
}

impl FaultCount {
    /// Nothing has failed yet.
    pub fn new() -> Self
        ensures { result ≡ 0 }
    {
        FaultCount { count: 0 }
    }

    /// One more fault, and the answer that tells of it: the count rises by one, up to its last value.
    pub fn rise(&mut self) -> Failed
        // The count rose by one, or has reached its last value.
        ensures { Rose self.old self.new }
    {
        self.count = self.count.saturating_add(1);
        Failed
    }

    /// One more, where that is so.
    pub fn rise_if(&mut self, is_so: bool)
        // If there was a fault, the count rose by one, or has reached its last value.
        ensures so { is_so ≡ true → Rose self.old self.new }
        // If there was none, it is as it was.
        ensures not_so { is_so ≡ false → self.new ≡ self.old }
    {
        if is_so {
            let _ = self.rise();
        }
    }
}
