// Which calls of a desk in memory fail.
ghost use Rattle.std.specs.Prelude.{◌≡◌, [], false};
ghost use Rattle.pb_desk.specs.Memory.{next_after, is_to_fail};

use pb_base::Ids;

/// The numbers of the calls that fail, counted from 1, and how many calls there were.
#[derive(Drop)]
pub struct FaultPlan {
    pub fails: Ids,
    pub calls: u64,
}

impl FaultPlan {
    /// Counts a call, and says whether it is to fail.
    pub fn is_failing(&mut self) -> bool
        ensures same { self.new.fails ≡ self.old.fails }
        ensures counted { self.new.calls ≡ next_after self.old.calls }
        ensures listed { result ≡ is_to_fail self.old.fails self.old.calls }
        ensures steady { self.old.fails ≡ [] → result ≡ false }
    {
        self.calls = self.calls.saturating_add(1);
        self.fails.as_slice().contains(&self.calls)
    }
}
