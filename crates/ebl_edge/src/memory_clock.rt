//! A clock in memory.
ghost use Rattle.std.specs.Prelude.{◌≡◌, [], ◌∷◌, Some};
ghost use Rattle.ebl_base.specs.Faults.{risen};
ghost use Rattle.ebl_edge.specs.Clock.{Gives, clock_given};

use crate::clock::Clock;
use ebl_base::Moment;

/// A clock that gives the same moment at each call and counts its calls. After 2^64 - 1 calls it tells nothing more.
#[derive(Clone, Copy, Debug)]
pub struct MemoryClock {
    moment: Moment,
    calls: u64,
}

impl MemoryClock {
    /// A clock that stands at this moment; it has given none yet.
    pub fn new(moment: Moment) -> Self
        ensures given { clock_given result ≡ Some [] }
        ensures moment { result.moment ≡ moment }
        ensures uncalled { result.calls ≡ 0 }
    {
        MemoryClock { moment, calls: 0 }
    }

    /// How many moments the clock gave, at most 2^64 - 1.
    pub fn calls(&self) -> u64
        ensures { result ≡ self.now.calls }
    {
        self.calls
    }
}

impl Clock for MemoryClock {
    ghost given = { λ clock. clock_given clock };

    fn now(&mut self) -> Moment
        ensures gives { Gives (clock_given self.old) (result ∷ []) (clock_given self.new) }
        // The same moment again.
        ensures same { result ≡ self.old.moment }
        ensures stands { self.new.moment ≡ self.old.moment }
        ensures counted { self.new.calls ≡ risen self.old.calls }
    {
        self.calls = self.calls.saturating_add(1);
        self.moment
    }
}
