//! Records of a bill that is received: a Stored, a Taken, a Declined.
ghost use Rattle.std.specs.Prelude.{◌≡◌, ◌↔◌, IfOk, IsTrue};
ghost use Rattle.std.specs.List.{list_any};
ghost use Rattle.bill_diary.specs.History.{history, newest_first, record_at};
ghost use Rattle.bill_diary.specs.Receiving.{is_declined};
ghost use Rattle.document_checksum.specs.Digest.{checksum_of};
ghost use Rattle.bill_diary.specs.Sound.{IsSound, MayDecline, MayStore};
ghost use Rattle.title_register.specs.PlaceRef.{place_view};
ghost use Rattle.record_bytes.specs.Forms.{IsDeclined};
ghost use Rattle.transfer_judge.specs.Legal.{TakesLegally};
ghost use Rattle.transfer_judge.specs.declared.judgement.Judgement.TheVariants.{Accept};
ghost use Rattle.legal_frames.specs.Rows.{is_cause, is_listed_as, lists_as};

use crate::places::{is_absent, is_held};
use bill_chain::ends_in;
use bill_diary::{Frame, History, Record, RecordRef};
use document_checksum::checksum;
use ebl_base::{ByteList, Checksum, Code, Evidence, NoMemory, PlatformCode, Reason};
use envelope_manifest::{Manifest, Piece};
use party_roster::Roster;
use std::alloc::Global;
use title_register::{PlaceRef, Register, are_there, last_declined};
use transfer_judge::{Judgement, judge};

// ---- a document comes

/// Whether a Stored of this bill may follow.
pub(crate) fn may_store(
    me: PlatformCode,
    register: &Register,
    bill: Checksum,
    entry: Checksum,
    name: Checksum,
    bytes: &ByteList,
) -> bool
    requires { IsSound me register.now.diary }
    ensures { IsTrue result ↔ MayStore (history bill register.now.diary) entry name bytes.now }
{
    if !is_named(bytes, name) {
        return false;
    }
    if !is_listed(register, bill, entry, name, bytes.len()) {
        return false;
    }
    !are_there(me, register, bill, name, bytes.as_slice())
}

fn is_named(bytes: &ByteList, name: Checksum) -> bool
    ensures { IsTrue result ↔ (checksum_of bytes.now ≡ name) }
{
    checksum(bytes.as_slice()) == name
}

// Whether a Begun of the entry lists a document with this checksum and this size. The last one is asked first: in
// whatever a platform wrote down it is that one.
#[tactic(auto, using(crate::proofs::ReceivingLemmas::listings))]
fn is_listed(
    register: &Register,
    bill: Checksum,
    entry: Checksum,
    name: Checksum,
    size: usize,
) -> bool
    ensures { result ≡ list_any (lists_as entry name size) (history bill register.now.diary) }
{
    match register.received(bill, entry) {
        Some(came) => has_listed(came.manifest, name, size)
            || was_listed(register.frames(), bill, entry, name, size),
        None => false,
    }
}

// Whether any Begun of the entry lists such a document.
fn was_listed(
    frames: &[Frame],
    bill: Checksum,
    entry: Checksum,
    name: Checksum,
    size: usize,
) -> bool
    ensures { result ≡ list_any (lists_as entry name size) (history bill frames.now) }
{
    let mut left = History::of(frames, bill);
    while let Some(record) = left.next() {
        if lists_as(record, entry, name, size) {
            return true;
        }
    }
    false
}

fn lists_as(one: RecordRef, entry: Checksum, name: Checksum, size: usize) -> bool
    ensures { result ≡ lists_as entry name size (record_at one.entry) }
{
    match one {
        RecordRef::Kept(kept) => match kept {
            Record::Begun {
                chain,
                manifest,
                ..
            } => ends_in(chain.as_slice(), entry) && has_listed(manifest, name, size),
            _ => false,
        },
        RecordRef::Taken { .. } => false,
    }
}

fn has_listed(manifest: &Manifest, name: Checksum, size: usize) -> bool
    ensures { result ≡ list_any (is_listed_as name size) manifest.now.documents }
{
    manifest
        .documents
        .as_slice()
        .iter()
        .any(|piece| is_listed_as(name, size, piece))
}

fn is_listed_as(name: Checksum, size: usize, piece: &Piece) -> bool
    ensures { result ≡ is_listed_as name size piece.now }
{
    piece.checksum == name && piece.size as usize == size
}

// ---- a chain is taken

/// Whether a Taken of this bill may follow, in a frame of its own.
pub(crate) fn may_take(
    alloc: Global,
    roster: &Roster,
    me: PlatformCode,
    register: &Register,
    bill: Checksum,
    entry: Checksum,
) -> Result<bool, NoMemory>
    requires { IsSound me register.now.diary }
    ensures { IfOk result (λ may. IsTrue may ↔ TakesLegally roster.now me (newest_first register.now.diary)
        (history bill register.now.diary) bill entry) }
{
    let Some(came) = register.received(bill, entry) else {
        return Ok(false);
    };
    let judgement = judge(alloc, register, roster, me, came.chain, came.manifest)?;
    Ok(is_accepted(&judgement))
}

/// Whether the judgement is to receive the bill.
pub(crate) fn is_accepted(judgement: &Judgement) -> bool
    ensures { IsTrue result ↔ (judgement.now ≡ Accept) }
{
    match judgement {
        Judgement::Accept => true,
        _ => false,
    }
}

// ---- a chain is declined

/// Whether a Declined of this bill may follow.
pub(crate) fn may_decline(
    register: &Register,
    bill: Checksum,
    entry: Checksum,
    code: Code,
    reason: Reason,
    evidence: &Evidence,
) -> bool
    requires { IsDeclined bill entry code reason evidence.now }
    ensures { IsTrue result ↔ MayDecline (newest_first register.now.diary) (history bill register.now.diary)
        entry code reason evidence.now }
{
    if register.taken(entry) {
        return false;
    }
    if is_declined(register, entry) {
        return false;
    }
    is_cause(register.place(bill), reason, evidence)
}

// Whether an entry was declined by any record.
fn is_declined(register: &Register, entry: Checksum) -> bool
    ensures { result ≡ is_declined entry (newest_first register.now.diary) }
{
    match last_declined(register, entry) {
        Some(_) => true,
        None => false,
    }
}

// Whether an entry may be declined for this reason where its bill stands here.
fn is_cause(place: PlaceRef<'_>, reason: Reason, evidence: &Evidence) -> bool
    ensures { result ≡ is_cause (place_view place.entry) reason evidence.now }
{
    match reason {
        Reason::Parts => !is_absent(place),
        Reason::Party => !is_held(place) && evidence.own.is_none() && evidence.theirs.is_none(),
        _ => false,
    }
}
