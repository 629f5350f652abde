//! The last link of a chain, and whether it has an entry.
ghost use Rattle.std.specs.Prelude.{◌≡◌, option_copied};
ghost use Rattle.bill_chain.specs.Chain.{ends_in, has_entry, last_of};

use ebl_base::{ChainLink, Checksum};

/// The last link of a chain; `None` if and only if it is empty.
pub fn last_link(chain: &[ChainLink]) -> Option<&ChainLink>
    ensures { option_copied result ≡ last_of chain.now }
{
    chain.last()
}

/// Whether this is the name of a chain's last entry.
pub fn ends_in(chain: &[ChainLink], name: Checksum) -> bool
    ensures { result ≡ ends_in name chain.now }
{
    match last_link(chain) {
        Some(link) => link.name == name,
        None => false,
    }
}

/// Whether a chain has an entry of this name.
pub fn has_entry(chain: &[ChainLink], name: Checksum) -> bool
    ensures { result ≡ has_entry name chain.now }
{
    chain.iter().any(|link| link.name == name)
}
