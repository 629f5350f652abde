//! The chains that the records of a bill tell, in one pass from the oldest record on.
ghost use Rattle.std.specs.Prelude.{◌≡◌, ◌∷◌, [], ◌++◌, Some, None, IfOk, IfSome, OnOk, List, find, length, nat_lt, false, map, option_copied, option_map, reverse, MatchOption};
ghost use Rattle.bill_diary.specs.declared.record.Record.{Record};
ghost use Rattle.bill_diary.specs.declared.record.Record.TheVariants.{Taken, Settled};
ghost use Rattle.bill_diary.specs.History.{record_at};
ghost use Rattle.std.specs.Option.{option_map_or};
ghost use Rattle.ebl_base.specs.Checksum.{checksum_eq};
ghost use Rattle.ebl_base.specs.declared.checksum.Checksum.{Checksum};
ghost use Rattle.bill_chain.specs.Chain.{ends_in};
ghost use Rattle.bill_diary.specs.Known.{longer};
ghost use Rattle.bill_diary.specs.KnownChains.{IsToldBy, known_with, settled_among};

use crate::links::Links;
use crate::record::Record;
use crate::record_ref::RecordRef;
use bill_chain::ends_in;
use ebl_base::{Chain, ChainLink, Checksum, NoMemory};
use std::alloc::Global;

/// An entry that was parted, with the chain that its Settled would tell.
#[derive(Drop)]
pub(crate) struct PartedEntry<'a> {
    entry: Checksum,
    chain: Option<Links<'a>>,
}

/// What the records so far tell: the known chain, the chains that came, and the entries that were parted, each list
/// with the newest at its end.
#[derive(Drop)]
pub(crate) struct KnownChains<'a> {
    known: Option<Links<'a>>,
    begun: Vec<&'a Chain>,
    parted: Vec<PartedEntry<'a>>,
}

impl<'a> KnownChains<'a> {
    /// No record tells nothing.
    pub(crate) fn nothing(alloc: Global) -> Self
        ensures { IsToldBy [] result }
    {
        KnownChains {
            known: None,
            begun: Vec::new(alloc),
            parted: Vec::new(alloc),
        }
    }

    /// The known chain.
    pub(crate) fn known(self) -> Option<Links<'a>>
        ensures { result ≡ self.entry.known }
    {
        self.known
    }

    // One more chain is recorded, if any is: the known one stays where it is longer.
    fn tell(&mut self, more: Option<Links<'a>>)
        ensures known { self.new.known ≡ known_with more.entry self.old.known }
        ensures begun { self.new.begun ≡ self.old.begun }
        ensures parted { self.new.parted ≡ self.old.parted }
    {
        if let Some(links) = more {
            if !is_longer(&self.known, &links) {
                self.known = Some(links);
            }
        }
    }

    // The chain of a Taken.
    fn taken(&self, entry: Checksum) -> Option<&'a Chain>
        ensures { option_copied result
            ≡ option_copied (find (λ chain. ends_in entry chain.now) (reverse self.now.begun.items)) }
    {
        self.begun
            .iter()
            .rev()
            .find(|chain| ends_in(chain.as_slice(), entry))
            .copied()
    }

    // The chain of a Settled.
    fn settled(&self, alloc: Global, entry: Checksum) -> Result<Option<Links<'a>>, NoMemory>
        ensures { IfOk result (λ chain. chain ≡ settled_among entry self.now.parted.items) }
    {
        match self.parted_entry(entry) {
            Some(parted) => copy_of(alloc, &parted.chain),
            None => Ok(None),
        }
    }

    // The last Parted of an entry.
    fn parted_entry(&self, entry: Checksum) -> Option<&PartedEntry<'a>>
        ensures { option_copied result ≡ find (λ d. checksum_eq d.entry entry) (reverse self.now.parted.items) }
    {
        self.parted.iter().rev().find(|d| d.entry == entry)
    }

    // A Parted: what its Settled would tell.
    fn part(&mut self, alloc: Global, link: &'a ChainLink) -> Result<(), NoMemory>
        ensures known { self.new.known ≡ self.old.known }
        ensures begun { self.new.begun ≡ self.old.begun }
        ensures parted { OnOk result (self.new.parted.items ≡ self.old.parted.items
            ++ record { entry = link.now.name; chain = option_map (λ c. c ++ link.now ∷ []) self.old.known } ∷ []) }
    {
        let chain = followed(alloc, &self.known, link)?;
        self.parted.push(PartedEntry {
            entry: link.name,
            chain,
        })?;
        Ok(())
    }

    // A Taken of this entry.
    fn take(&mut self, alloc: Global, entry: Checksum) -> Result<(), NoMemory>
        ensures { (bill : Checksum) (h : List Record)
            → IsToldBy h self.old → OnOk result (IsToldBy (Taken bill entry ∷ h) self.new) }
    {
        let more = links_of(alloc, self.taken(entry))?;
        self.tell(more);
        Ok(())
    }

    // A Settled of this entry.
    fn settle(&mut self, alloc: Global, entry: Checksum) -> Result<(), NoMemory>
        ensures { (bill : Checksum) (h : List Record)
            → IsToldBy h self.old → OnOk result (IsToldBy (Settled bill entry ∷ h) self.new) }
    {
        let more = self.settled(alloc, entry)?;
        self.tell(more);
        Ok(())
    }

    /// One record more. Where allocation fails, what was kept must be discarded.
    pub(crate) fn add(&mut self, alloc: Global, next: RecordRef<'a>) -> Result<(), NoMemory>
        ensures { (h : List Record)
            → IsToldBy h self.old → OnOk result (IsToldBy (record_at next.entry ∷ h) self.new) }
    {
        match next {
            RecordRef::Kept(kept) => self.add_kept(alloc, kept),
            RecordRef::Taken { entry, .. } => self.take(alloc, entry),
        }
    }

    fn add_kept(&mut self, alloc: Global, next: &'a Record) -> Result<(), NoMemory>
        ensures { (h : List Record) → IsToldBy h self.old → OnOk result (IsToldBy (next.now ∷ h) self.new) }
    {
        match next {
            Record::Signed { .. } => {
                self.tell(Some(Links::new(alloc)));
                Ok(())
            }
            Record::Begun { chain, .. } => {
                self.begun.push(chain)?;
                Ok(())
            }
            Record::Taken { entry, .. } => self.take(alloc, *entry),
            Record::Parted { link, .. } => self.part(alloc, link),
            Record::Settled { entry, .. } => self.settle(alloc, *entry),
            _ => Ok(()),
        }
    }
}

// Whether there are links, and more of them than the others.
fn is_longer(links: &Option<Links>, other: &Links) -> bool
    ensures { result ≡ option_map_or (λ l. nat_lt (length other.now) (length l)) links.now false }
{
    match links {
        Some(links) => other.len() < links.len(),
        None => false,
    }
}

// The links of a chain, if there is one.
fn links_of<'a>(alloc: Global, chain: Option<&'a Chain>) -> Result<Option<Links<'a>>, NoMemory>
    ensures { IfOk result (λ links. links ≡ option_copied chain.entry) }
{
    match chain {
        Some(chain) => Ok(Some(Links::of(alloc, chain.as_slice())?)),
        None => Ok(None),
    }
}

// A copy of the links, if there are any.
fn copy_of<'a>(alloc: Global, links: &Option<Links<'a>>) -> Result<Option<Links<'a>>, NoMemory>
    ensures { IfOk result (λ same. same ≡ links.now) }
{
    match links {
        Some(links) => Ok(Some(links.copy(alloc)?)),
        None => Ok(None),
    }
}

// The links of a chain, if there is one, followed by one link more.
fn followed<'a>(
    alloc: Global,
    links: &Option<Links<'a>>,
    link: &'a ChainLink,
) -> Result<Option<Links<'a>>, NoMemory>
    ensures { IfOk result (λ whole. whole ≡ option_map (λ c. c ++ link.now ∷ []) links.now) }
{
    match links {
        Some(links) => {
            let mut links = links.copy(alloc)?;
            links.push(link)?;
            Ok(Some(links))
        }
        None => Ok(None),
    }
}
