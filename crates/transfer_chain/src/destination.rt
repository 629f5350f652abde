//! Where a chain takes its bill.
ghost use Rattle.std.specs.Prelude.{◌≡◌, ◌↔◌, [], IsNone};
ghost use Rattle.bill_chain.specs.Chain.{destination};
ghost use Rattle.transfer_chain.specs.Checked.{IsChecked};

use bill_chain::destination;
use ebl_base::{Chain, PlatformCode};

/// The destination of a chain: the platform of the party that has possession after it. Of a checked chain it is `None`
/// if and only if the chain is empty. Each transaction is folded once; no signature is looked at.
pub fn dest(chain: &Chain) -> Option<PlatformCode>
    ensures value { result ≡ destination chain.now }
    ensures none { IsChecked chain.now → IsNone result ↔ (chain.now ≡ []) }
{
    destination(chain.as_slice())
}
