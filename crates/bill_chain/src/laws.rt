//! What holds of every chain. The functions do nothing: their contracts are the laws.
ghost use Rattle.std.specs.Prelude.{◌≡◌, true, Some, List, [], ◌∷◌, ◌++◌};
ghost use Rattle.bill_chain.specs.Chain.{goes_beyond, has_entry, last_of};
ghost use Rattle.ebl_base.specs.declared.chain.ChainLink.{ChainLink};
ghost use Rattle.ebl_base.specs.declared.checksum.Checksum.{Checksum};

/// The last link of a chain and one link more is this one.
pub fn added_link_is_the_last()
    ensures { (chain : List ChainLink) (link : ChainLink) → last_of (chain ++ link ∷ []) ≡ Some link }
{}

/// A chain and one link more has its entry.
pub fn added_link_is_there()
    ensures { (chain : List ChainLink) (link : ChainLink) → has_entry link.name (chain ++ link ∷ []) ≡ true }
{}

/// A chain has each entry of its links behind a front.
pub fn entry_behind_a_front_is_there()
    ensures { (name : Checksum) (front rest : List ChainLink)
        → has_entry name rest ≡ true → has_entry name (front ++ rest) ≡ true }
{}

/// A chain that goes on beyond another one has each of its entries.
pub fn chain_beyond_has_every_entry()
    ensures { (before chain : List ChainLink) (name : Checksum)
        → goes_beyond before chain ≡ true → has_entry name before ≡ true → has_entry name chain ≡ true }
{}
