//! What a frame changes in the standing of its bill.
ghost use Rattle.std.specs.Prelude.{◌≡◌, ◌∷◌, [], ◌++◌, ℕ, List, IfOk, false, length, nat_lt, option_copied};
ghost use Rattle.std.specs.Option.{option_or, option_map_or};
ghost use Rattle.ebl_base.specs.Checksum.{checksum_eq};
ghost use Rattle.ebl_base.specs.declared.checksum.Checksum.{Checksum};
ghost use Rattle.ebl_base.specs.declared.chain.ChainLink.{ChainLink};
ghost use Rattle.ebl_base.specs.declared.transaction.Transaction.{Transaction};
ghost use Rattle.bill_chain.specs.Chain.{has_entry};
ghost use Rattle.envelope_manifest.specs.declared.manifest.Manifest.{Manifest};
ghost use Rattle.ebl_base.specs.declared.signed_text.SignedText.{SignedText};
ghost use Rattle.bill_diary.specs.declared.record.Record.{Record};
ghost use Rattle.bill_diary.specs.declared.record.Record.TheVariants.{Signed, Acted, Parted, Settled, Regained, Taken};
ghost use Rattle.bill_diary.specs.Known.{taken_chain};
ghost use Rattle.bill_diary.specs.Place.{is_left};
ghost use Rattle.title_register.specs.Standing.{left_by, over_if, standing_of, standing_with, unless_shorter};

use crate::known_chain::KnownChain;
use crate::past::Past;
use crate::standing::Standing;
use bill_chain::{has_entry, last_link};
use ebl_base::{Chain, ChainLink, Checksum, Copied, Items, NoMemory, Transaction, TransactionList};
use std::alloc::Global;

/// What becomes of the entry that is parting.
#[derive(Drop)]
pub(crate) enum PartingChange {
    /// It stays as it is.
    Same,
    /// No entry is parting any more.
    Over,
    /// This entry is parting.
    Begins(ChainLink),
}

/// What changes in a standing. It has all memory that the standing after it needs.
#[derive(Drop)]
pub(crate) struct Change {
    /// The chain that is known now. `None` where it stays.
    pub(crate) known: Option<KnownChain>,
    pub(crate) parting: PartingChange,
    /// Whether the last entry of the known chain is settled now.
    pub(crate) left: bool,
    /// The transactions that were made since the last Taken. `None` where they stay.
    pub(crate) since: Option<TransactionList>,
}

/// Nothing changes.
pub(crate) fn no_change(standing: &Standing) -> Change
    ensures { standing_with result standing.now ≡ standing.now }
{
    Change {
        known: None,
        parting: PartingChange::Same,
        left: standing.left,
        since: None,
    }
}

/// A Signed with this transaction.
pub(crate) fn signed(
    alloc: Global,
    standing: &Standing,
    transaction: Transaction,
) -> Result<Change, NoMemory>
    ensures { (bill : Checksum) (document : List ℕ) (h : List Record) → standing.now ≡ standing_of h
        → IfOk result (λ c. standing_with c standing.now ≡ standing_of (Signed bill document transaction ∷ h)) }
{
    let known = if standing.known.is_none() {
        Some(KnownChain::empty())
    } else {
        None
    };
    Ok(Change {
        known,
        parting: PartingChange::Same,
        left: standing.left,
        since: Some(followed(alloc, &standing.since, transaction)?),
    })
}

/// An Acted with this transaction.
pub(crate) fn acted(
    alloc: Global,
    standing: &Standing,
    transaction: Transaction,
) -> Result<Change, NoMemory>
    ensures { (bill : Checksum) (h : List Record) → standing.now ≡ standing_of h
        → IfOk result (λ c. standing_with c standing.now ≡ standing_of (Acted bill transaction ∷ h)) }
{
    Ok(Change {
        known: None,
        parting: PartingChange::Same,
        left: standing.left,
        since: Some(followed(alloc, &standing.since, transaction)?),
    })
}

// A list of transactions, followed by one more.
fn followed(
    alloc: Global,
    list: &TransactionList,
    next: Transaction,
) -> Result<TransactionList, NoMemory>
    ensures { IfOk result (λ longer. longer ≡ list.now ++ next ∷ []) }
{
    let mut longer = list.copy(alloc)?;
    longer.push(next)?;
    Ok(longer)
}

/// A Parted of this entry, with the records before it.
pub(crate) fn parted(
    alloc: Global,
    standing: &Standing,
    before: &Past<'_>,
    link: &ChainLink,
) -> Result<Change, NoMemory>
    ensures { (bill : Checksum) (manifest : Manifest) (text : SignedText) → standing.now ≡ standing_of before.now
        → IfOk result (λ c. standing_with c standing.now
        ≡ standing_of (Parted bill link.now manifest text ∷ before.now)) }
{
    let parting = if before.is_over(link.name) {
        PartingChange::Over
    } else {
        PartingChange::Begins(link.copy(alloc)?)
    };
    Ok(Change {
        known: None,
        parting,
        left: standing.left,
        since: None,
    })
}

/// A Settled of this entry, with the records before it.
pub(crate) fn settled(
    alloc: Global,
    standing: &Standing,
    before: &Past<'_>,
    entry: Checksum,
) -> Result<Change, NoMemory>
    ensures { (bill : Checksum) → standing.now ≡ standing_of before.now
        → IfOk result (λ c. standing_with c standing.now ≡ standing_of (Settled bill entry ∷ before.now)) }
{
    let known = unless_shorter(before.settled_chain(alloc, entry)?, &standing.known);
    let left = left_with(entry, known_now(&known, &standing.known), before);
    Ok(Change {
        known,
        parting: over_if(names(&standing.parting, entry)),
        left,
        since: None,
    })
}

/// A Regained of this entry.
pub(crate) fn regained(standing: &Standing, entry: Checksum) -> Change
    ensures { (bill : Checksum) (h : List Record) → standing.now ≡ standing_of h
        → standing_with result standing.now ≡ standing_of (Regained bill entry ∷ h) }
{
    Change {
        known: None,
        parting: over_if(names(&standing.parting, entry)),
        left: standing.left,
        since: None,
    }
}

/// A Taken whose chain this is. The records before it say which entries are settled.
pub(crate) fn taken(
    alloc: Global,
    standing: &Standing,
    before: &Past<'_>,
    chain: Option<&Chain>,
) -> Result<Change, NoMemory>
    ensures { (bill entry : Checksum) (h : List Record) → standing.now ≡ standing_of h
        → taken_chain entry h ≡ option_copied chain.entry
        → ((some_chain : List ChainLink) → is_left some_chain h ≡ is_left some_chain before.now)
        → IfOk result (λ c. standing_with c standing.now ≡ standing_of (Taken bill entry ∷ h)) }
{
    let known = unless_shorter(shared(alloc, chain)?, &standing.known);
    let left = match known_now(&known, &standing.known) {
        Some(chain) => before.is_left(chain.as_slice()),
        None => false,
    };
    Ok(Change {
        known,
        parting: over_if(comes_along(&standing.parting, chain)),
        left,
        since: Some(Items::new(alloc)),
    })
}

// Whether the entry that is parting has this name.
fn names(parting: &Option<ChainLink>, entry: Checksum) -> bool
    ensures { result ≡ option_map_or (λ link. checksum_eq entry link.name) parting.now false }
{
    match parting {
        Some(link) => entry == link.name,
        None => false,
    }
}

// Whether the entry that is parting is one of a chain.
fn comes_along(parting: &Option<ChainLink>, chain: Option<&Chain>) -> bool
    ensures { result ≡ option_map_or (λ link. option_map_or (has_entry link.name) (option_copied chain.entry) false)
        parting.now false }
{
    let Some(link) = parting else {
        return false;
    };
    match chain {
        Some(chain) => has_entry(chain.as_slice(), link.name),
        None => false,
    }
}

fn over_if(over: bool) -> PartingChange
    ensures { result ≡ over_if over }
{
    if over {
        PartingChange::Over
    } else {
        PartingChange::Same
    }
}

// A chain that is recorded, unless a longer one is known.
fn unless_shorter(told: Option<KnownChain>, known: &Option<KnownChain>) -> Option<KnownChain>
    ensures { result ≡ unless_shorter told known.now }
{
    let chain = told?;
    if is_longer(known, chain.as_slice()) {
        None
    } else {
        Some(chain)
    }
}

// Whether a chain is known that is longer than this one.
fn is_longer(known: &Option<KnownChain>, chain: &[ChainLink]) -> bool
    ensures { result ≡ option_map_or (λ k. nat_lt (length chain.now) (length k)) known.now false }
{
    match known {
        Some(known) => chain.len() < known.len(),
        None => false,
    }
}

/// The chain that is known after a change.
pub(crate) fn known_now<'a>(
    change: &'a Option<KnownChain>,
    known: &'a Option<KnownChain>,
) -> Option<&'a KnownChain>
    ensures { option_copied result ≡ option_or change.now known.now }
{
    match change {
        Some(chain) => Some(chain),
        None => known.as_ref(),
    }
}

// Whether the last entry of the chain that is known, if one is, is settled, with a further Settled.
fn left_with(entry: Checksum, known: Option<&KnownChain>, before: &Past<'_>) -> bool
    ensures { (bill : Checksum)
        → result ≡ left_by (option_copied known.entry) (Settled bill entry ∷ before.now) }
{
    match known {
        Some(chain) => is_left_with(entry, chain.as_slice(), before),
        None => false,
    }
}

// Whether the last entry of a chain is settled, with a further Settled.
fn is_left_with(entry: Checksum, chain: &[ChainLink], before: &Past<'_>) -> bool
    ensures { (bill : Checksum) → result ≡ is_left chain.now (Settled bill entry ∷ before.now) }
{
    match last_link(chain) {
        Some(link) => entry == link.name || before.is_left(chain),
        None => false,
    }
}

// The same chain, if there is one, with the title after it.
fn shared(alloc: Global, chain: Option<&Chain>) -> Result<Option<KnownChain>, NoMemory>
    ensures { IfOk result (λ same. same ≡ option_copied chain.entry) }
{
    match chain {
        Some(chain) => Ok(Some(KnownChain::of(chain.copy(alloc)?))),
        None => Ok(None),
    }
}
