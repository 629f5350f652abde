//! What the records of a bill say, by what is kept of it and by the numbers of frames. Where these don't decide, which
//! no sound diary comes to, its records are gone over.
ghost use Rattle.std.specs.Prelude.{◌≡◌, ◌++◌, ◌∷◌, [], ℕ, List, IfOk, IfSome, MatchOption, None, Some, option_copied};
ghost use Rattle.std.specs.List.{list_any};
ghost use Rattle.ebl_base.specs.declared.checksum.Checksum.{Checksum};
ghost use Rattle.bill_chain.specs.Chain.{has_entry};
ghost use Rattle.bill_diary.specs.declared.record.Record.TheVariants.{Begun};
ghost use Rattle.bill_diary.specs.History.{history};
ghost use Rattle.bill_diary.specs.Known.{last_begun, settled_chain, taken_chain};
ghost use Rattle.bill_diary.specs.Place.{is_left, is_over, is_regained, is_settled, taken_chains};
ghost use Rattle.title_register.specs.declared.frame_key.FrameKey.{FrameKey};
ghost use Rattle.title_register.specs.BillState.{state_of};
ghost use Rattle.title_register.specs.Frames.{number_in, number_of, record_numbered};
ghost use Rattle.title_register.specs.Past.{is_among};

use crate::bill_state::BillState;
use crate::frame_key::FrameKey;
use crate::frame_numbers::FrameNumbers;
use crate::known_chain::KnownChain;
use bill_chain::{ends_in, last_link};
use bill_diary::{Frame, History, Record, RecordRef, settled_chain};
use ebl_base::{Chain, ChainLink, Checksum, NoMemory};
use envelope_manifest::Manifest;
use std::alloc::Global;
use std::marker::Model;
use upload_state::reference_of;

/// The records of a bill, newest first, as contracts see them.
#[derive(Drop)]
pub(crate) struct Past<'a> {
    frames: &'a [Frame],
    numbers: &'a FrameNumbers,
    state: &'a BillState,
    bill: Checksum,
}

impl<'a> Model for Past<'a> {
    ghost use Rattle.std.specs.Prelude.{List};
    ghost use Rattle.bill_diary.specs.declared.record.Record.{Record};
    ghost use Rattle.bill_diary.specs.History.{history};
    ghost use Rattle.title_register.specs.Kept.{AreKept};

    ghost Value = { List Record };

    ghost view = { λ s. history s.bill s.frames.now };

    ghost invariant = { λ s. AreKept s.frames.now s.numbers.now s.state.now s.bill };
}

/// A chain that came, with its manifest.
#[derive(Clone, Copy)]
pub struct Received<'a> {
    pub chain: &'a Chain,
    pub manifest: &'a Manifest,
}

impl<'a> Past<'a> {
    /// The records of a bill in some frames, of which this is kept.
    pub(crate) fn of(
        frames: &'a [Frame],
        numbers: &'a FrameNumbers,
        state: &'a BillState,
        bill: Checksum,
    ) -> Self
        requires numbers_are { (key : FrameKey) → number_in numbers.now.numbers key ≡ number_of key frames.now }
        requires state_is { state.now ≡ state_of (history bill frames.now) }
        ensures { result ≡ history bill frames.now }
    {
        Past {
            frames,
            numbers,
            state,
            bill,
        }
    }

    // The same records, to be gone over.
    fn history(&self) -> History<'a>
        ensures { result ≡ self.now }
    {
        History::of(self.frames, self.bill)
    }

    /// Whether the parting of an entry is over: it is settled or regained, or a chain with it was taken.
    pub(crate) fn is_over(&self, entry: Checksum) -> bool
        ensures { result ≡ is_over entry self.now }
    {
        self.is_settled(entry) || self.is_regained(entry) || self.has_arrived(entry)
    }

    /// Whether a Settled names the last link of a chain.
    pub(crate) fn is_left(&self, chain: &[ChainLink]) -> bool
        ensures { result ≡ is_left chain.now self.now }
    {
        match last_link(chain) {
            Some(link) => self.is_settled(link.name),
            None => false,
        }
    }

    // Whether an entry is settled.
    fn is_settled(&self, entry: Checksum) -> bool
        ensures { result ≡ is_settled entry self.now }
    {
        self.numbers
            .number(FrameKey::Settled(self.bill, entry))
            .is_some()
    }

    // Whether an entry is regained.
    fn is_regained(&self, entry: Checksum) -> bool
        ensures { result ≡ is_regained entry self.now }
    {
        self.numbers
            .number(FrameKey::Regained(self.bill, entry))
            .is_some()
    }

    // Whether a chain with the entry was taken.
    fn has_arrived(&self, entry: Checksum) -> bool
        ensures { result ≡ list_any (has_entry entry) (taken_chains self.now) }
    {
        is_among(self.state.arrived.as_slice(), entry)
    }

    /// The chain of a Taken of this entry: that of the last Begun that ends in the entry.
    pub(crate) fn taken_chain(&self, entry: Checksum) -> Option<&'a Chain>
        ensures { option_copied result ≡ taken_chain entry self.now }
    {
        match self.received(entry) {
            Some(came) => Some(came.chain),
            None => None,
        }
    }

    /// What came with the last Begun of a chain that ends in this entry.
    pub(crate) fn received(&self, entry: Checksum) -> Option<Received<'a>>
        ensures { MatchOption result (last_begun entry self.now ≡ None)
            (λ came. last_begun entry self.now
            ≡ Some (record { chain = came.chain.now; manifest = came.manifest.now })) }
    {
        last_received(self.frames, self.numbers, self.bill, entry)
    }

    /// The chain that a Settled of this entry tells: the known chain before the last Parted of the entry, followed by
    /// the entry. `None` where the entry wasn't parted, or no chain was known then.
    pub(crate) fn settled_chain(
        &self,
        alloc: Global,
        entry: Checksum,
    ) -> Result<Option<KnownChain>, NoMemory>
        ensures { IfOk result (λ chain. chain ≡ settled_chain entry self.now) }
    {
        let standing = &self.state.standing;
        if self.state.fresh {
            if let Some(known) = &standing.known {
                if let Some(link) = &standing.parting {
                    if link.name == entry {
                        return Ok(Some(known.followed_by(alloc, link)?));
                    }
                }
            }
        }
        Ok(settled_chain(alloc, self.history(), entry)?.map(KnownChain::of))
    }
}

/// Whether a name is among some.
pub(crate) fn is_among(names: &[Checksum], name: Checksum) -> bool
    ensures { result ≡ is_among names.now name }
{
    names.iter().any(|other| *other == name)
}

/// What came with the last Begun of a bill whose chain ends in an entry, by the frames' numbers. Only where the last
/// Begun with the reference of both is another one, or none is there, are the records of the bill gone over.
pub(crate) fn last_received<'a>(
    frames: &'a [Frame],
    numbers: &'a FrameNumbers,
    bill: Checksum,
    entry: Checksum,
) -> Option<Received<'a>>
    requires { (key : FrameKey) → number_in numbers.now.numbers key ≡ number_of key frames.now }
    ensures { MatchOption result (last_begun entry (history bill frames.now) ≡ None)
        (λ came. last_begun entry (history bill frames.now)
        ≡ Some (record { chain = came.chain.now; manifest = came.manifest.now })) }
{
    match received_by_number(frames, numbers, bill, entry) {
        Some(came) => Some(came),
        None => last_begun(History::of(frames, bill), entry),
    }
}

// The same, if the last Begun with the reference of the bill and the entry is of these.
fn received_by_number<'a>(
    frames: &'a [Frame],
    numbers: &'a FrameNumbers,
    bill: Checksum,
    entry: Checksum,
) -> Option<Received<'a>>
    requires { (key : FrameKey) → number_in numbers.now.numbers key ≡ number_of key frames.now }
    ensures { IfSome result (λ came. last_begun entry (history bill frames.now)
        ≡ Some (record { chain = came.chain.now; manifest = came.manifest.now })) }
{
    let number = numbers.number(FrameKey::Begun(reference_of(bill, entry)));
    let begun = begun_numbered(frames, number)?;
    if begun.bill == bill && ends_in(begun.chain.as_slice(), entry) {
        Some(Received {
            chain: begun.chain,
            manifest: begun.manifest,
        })
    } else {
        None
    }
}

// What is wanted of a Begun.
#[derive(Clone, Copy)]
struct Came<'a> {
    bill: Checksum,
    chain: &'a Chain,
    manifest: &'a Manifest,
}

// The Begun that the frame of a number keeps, if it keeps one.
fn begun_numbered<'a>(frames: &'a [Frame], number: Option<usize>) -> Option<Came<'a>>
    ensures { IfSome result (λ came. (body : List ℕ) × (record_numbered frames.now number
        ≡ Some (Begun came.bill came.chain.now came.manifest.now body))) }
{
    match frames.get(number?)? {
        Frame::One(kept) | Frame::BegunTaken(kept) => begun_in(kept),
    }
}

fn begun_in(kept: &Record) -> Option<Came<'_>>
    ensures { IfSome result (λ came. (body : List ℕ)
        × (kept.now ≡ Begun came.bill came.chain.now came.manifest.now body)) }
{
    match kept {
        Record::Begun {
            bill,
            chain,
            manifest,
            ..
        } => Some(Came {
            bill: *bill,
            chain,
            manifest,
        }),
        _ => None,
    }
}

// What came with the last Begun of a chain that ends in this entry.
fn last_begun<'a>(mut h: History<'a>, entry: Checksum) -> Option<Received<'a>>
    ensures { MatchOption result (last_begun entry h.entry ≡ None)
        (λ came. last_begun entry h.entry ≡ Some (record { chain = came.chain.now; manifest = came.manifest.now })) }
{
    while let Some(record) = h.next() {
        if let RecordRef::Kept(
            Record::Begun {
                chain,
                manifest,
                ..
            },
        ) = record
        {
            if ends_in(chain.as_slice(), entry) {
                return Some(Received { chain, manifest });
            }
        }
    }
    None
}
