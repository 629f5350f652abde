//! Records of a bill that is parted with: a Parted, a Settled, a Regained.
ghost use Rattle.std.specs.Prelude.{◌≡◌, ◌≢◌, ◌+◌, ◌++◌, ◌∷◌, [], ◌↔◌, count_by, IfNone, IfOk, IfSome, IsTrue};
ghost use Rattle.ebl_base.specs.declared.transaction.Transaction.{Transaction};
ghost use Rattle.bill_diary.specs.History.{history};
ghost use Rattle.bill_diary.specs.Place.{place_of, title_at};
ghost use Rattle.bill_diary.specs.Sound.{IsParting, is_parted};
ghost use Rattle.bill_diary.specs.Titles.{unplaced};
ghost use Rattle.title_register.specs.PlaceRef.{place_view};
ghost use Rattle.record_bytes.specs.Forms.{IsParted};
ghost use Rattle.transfer_judge.specs.Legal.{PartsLegally};
ghost use Rattle.legal_frames.specs.Rows.{IsNextAt, IsNextEntry, MovesOut, is_parting_with, leaves_on};

use crate::envelope::{is_manifest_by, is_signed_by};
use crate::places::is_parting_with;
use bill_diary::PartedRef;
use ebl_base::{
    Chain, Checksum, Entry, MAX_CHAIN_ENTRIES, MAX_ENTRY_TRANSACTIONS, NoMemory, PlatformCode,
    Transaction, TransactionList,
};
use envelope_manifest::{Manifest, Piece};
use party_roster::Roster;
use signed_envelope::KeyRing;
use std::alloc::Global;
use title_fold::{FoldRefusal, Title, apply, moves, possessor};
use title_register::{PlaceRef, Register};
use transfer_judge::last_name;

// ---- an entry is sent

/// Whether a Parted may follow.
pub(crate) fn may_part<G: KeyRing>(
    alloc: Global,
    roster: &Roster,
    ring: &G,
    me: PlatformCode,
    register: &Register,
    parted: PartedRef<'_>,
) -> Result<bool, NoMemory>
    requires { IsParted parted.bill parted.link.now parted.manifest.now parted.manifest_text.now }
    ensures { IfOk result (λ may. IsTrue may ↔ PartsLegally roster.now (G.keys ring.now) me
        (history parted.entry.bill register.now.diary) parted.entry.bill parted.entry.link.now parted.entry.manifest.now
        parted.entry.manifest_text.now) }
{
    if !is_next_after(roster, me, register, parted.bill, &parted.link.entry) {
        return Ok(false);
    }
    if !are_listed(parted.manifest, register.pieces(parted.bill)) {
        return Ok(false);
    }
    let signed = is_signed_by(alloc, ring, me, &parted.link.text)?;
    if !signed {
        return Ok(false);
    }
    is_manifest_by(
        alloc,
        ring,
        me,
        parted.bill,
        parted.link.name,
        parted.manifest,
        parted.manifest_text,
    )
}

// Whether an entry is the next that parts with a bill, where it is.
fn is_next_after(
    roster: &Roster,
    me: PlatformCode,
    register: &Register,
    bill: Checksum,
    entry: &Entry,
) -> bool
    ensures { let h = history bill register.now.diary in IsTrue result
        ↔ IsNextAt roster.now me bill (count_by is_parted h) entry.now (unplaced (title_at (place_of h))) (place_of h) }
{
    is_next_at(
        roster,
        me,
        bill,
        register.partings(bill),
        entry,
        register.title(bill),
        register.place(bill),
    )
}

fn is_next_at(
    roster: &Roster,
    me: PlatformCode,
    bill: Checksum,
    parted: usize,
    entry: &Entry,
    title: Result<Option<Title>, FoldRefusal>,
    place: PlaceRef<'_>,
) -> bool
    ensures { IsTrue result ↔ IsNextAt roster.now me bill parted entry.now title (place_view place.entry) }
{
    match place {
        PlaceRef::Held { known, since } => is_next(me, bill, parted, known, entry)
            && moves_out(roster, title, since, entry.transactions.as_slice()),
        _ => false,
    }
}

// Whether an entry is the next attempt after a known chain.
fn is_next(me: PlatformCode, bill: Checksum, parted: usize, known: &Chain, entry: &Entry) -> bool
    ensures { IsTrue result ↔ IsNextEntry me bill parted known.now entry.now }
{
    known.len() < MAX_CHAIN_ENTRIES
        && entry.platform == me
        && entry.bill == bill
        && entry.previous == last_name(known)
        && parted.checked_add(1) == Some(entry.attempt as usize)
        && entry.transactions.len() <= MAX_ENTRY_TRANSACTIONS
}

// Whether transactions are those made since and one more, which moves from this title to a listed platform.
fn moves_out(
    roster: &Roster,
    title: Result<Option<Title>, FoldRefusal>,
    since: &TransactionList,
    transactions: &[Transaction],
) -> bool
    ensures { IsTrue result ↔ MovesOut roster.now title since.now transactions.now }
{
    let Some(last) = one_more(since.as_slice(), transactions) else {
        return false;
    };
    leaves_on(roster, title, &last)
}

// The transaction that stands behind others.
fn one_more(since: &[Transaction], transactions: &[Transaction]) -> Option<Transaction>
    ensures found { IfSome result (λ last. transactions.now ≡ since.now ++ last ∷ []) }
    ensures none { IfNone result ((last : Transaction) → transactions.now ≢ since.now ++ last ∷ []) }
{
    let mut rest = transactions;
    for t in since {
        let [other, behind @ ..] = rest else {
            return None;
        };
        if !is_same_transaction(t, other) {
            return None;
        }
        rest = behind;
    }
    match rest {
        [last] => Some(*last),
        _ => None,
    }
}

fn is_same_transaction(t: &Transaction, other: &Transaction) -> bool
    ensures { IsTrue result ↔ (t.now ≡ other.now) }
{
    t.kind == other.kind
        && t.actor == other.actor
        && t.recipient == other.recipient
        && t.time == other.time
}

// Whether a transaction is taken on a title, and moves to a listed platform.
fn leaves_on(roster: &Roster, title: Result<Option<Title>, FoldRefusal>, t: &Transaction) -> bool
    ensures { result ≡ leaves_on roster.now t.now title }
{
    let Ok(before) = title else { return false };
    let Ok(after) = apply(before, t) else {
        return false
    };
    moves(before, after) && roster.has_platform(possessor(after).platform)
}

// Whether a manifest lists these documents.
fn are_listed(manifest: &Manifest, listed: &[Piece]) -> bool
    ensures { IsTrue result ↔ (manifest.now.documents ≡ listed.now) }
{
    are_same(manifest.documents.as_slice(), listed)
}

// Whether two lists of documents are one.
fn are_same(listed: &[Piece], others: &[Piece]) -> bool
    ensures { IsTrue result ↔ (listed.now ≡ others.now) }
{
    let mut rest = others;
    for piece in listed {
        let [other, behind @ ..] = rest else {
            return false;
        };
        if !is_same(piece, other) {
            return false;
        }
        rest = behind;
    }
    rest.is_empty()
}

fn is_same(piece: &Piece, other: &Piece) -> bool
    ensures { IsTrue result ↔ (piece.now ≡ other.now) }
{
    piece.size == other.size
        && piece.checksum == other.checksum
        && piece.name.as_str() == other.name.as_str()
        && piece.media.as_str() == other.media.as_str()
}

// ---- how it ends

/// Whether a Settled or a Regained of this entry may follow.
pub(crate) fn may_end(register: &Register, bill: Checksum, entry: Checksum) -> bool
    ensures { IsTrue result ↔ IsParting (history bill register.now.diary) entry }
{
    is_parting_with(entry, register.place(bill))
}
