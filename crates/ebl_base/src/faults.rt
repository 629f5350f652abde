//! Counting faults.
ghost use Rattle.std.specs.Prelude.{◌≡◌, ◌≤◌};
ghost use Rattle.ebl_base.specs.Faults.{risen};

use crate::failed::Failed;

/// Counts a fault and answers it. A count saturates at 2^64 - 1.
pub fn count_fault(faults: &mut u64) -> Failed
    ensures counted { faults.new ≡ risen faults.old }
    ensures later { faults.old ≤ faults.new }
{
    *faults = faults.saturating_add(1);
    Failed
}
