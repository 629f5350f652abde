//! Judging a chain by what a platform wrote down.
ghost use Rattle.std.specs.Prelude.{◌≡◌, IfOk};
ghost use Rattle.bill_diary.specs.History.{history, newest_first};
ghost use Rattle.bill_diary.specs.Pieces.{is_there, missing_of};
ghost use Rattle.transfer_judge.specs.Judgement.{judgement_at_place, judgement_here, judgement_by};
ghost use Rattle.transfer_judge.specs.declared.judgement.Judgement.TheVariants.{Declined};

use crate::dispute::dispute;
use crate::judgement::Judgement;
use bill_chain::{last_link, possessor_after};
use bill_diary::Declination;
use ebl_base::{
    Chain, ChainLink, Checksum, ChecksumList, Copied, Items, NoMemory, Party, PlatformCode,
};
use envelope_manifest::Manifest;
use party_roster::Roster;
use std::alloc::Global;
use title_register::{Register, last_declined};

/// What a platform makes of a chain with its manifest, by the diary of its register: the first of the seven judgements
/// that applies.
///
/// `me` is the platform. Whether the last entry was taken or declined goes by the entry's name alone over the whole
/// diary; the rest goes by the records of the bill that the last entry names, whatever the manifest names. An empty
/// chain ends elsewhere.
///
/// It goes over no record: a few searches of ordered maps, one for each document, and the names of both chains.
pub fn judge(
    alloc: Global,
    register: &Register,
    roster: &Roster,
    me: PlatformCode,
    c: &Chain,
    m: &Manifest,
) -> Result<Judgement, NoMemory>
    ensures { IfOk result (λ judgement. judgement
        ≡ judgement_by roster.now me (newest_first register.now.diary) c.now m.now) }
{
    let Some(last) = last_link(c.as_slice()) else {
        return Ok(Judgement::Elsewhere);
    };
    let Some(receiver) = possessor_after(c.as_slice()) else {
        return Ok(Judgement::Elsewhere);
    };
    if receiver.platform != me {
        return Ok(Judgement::Elsewhere);
    }
    judge_here(alloc, register, roster, last, receiver, c, m)
}

// The judgement of a chain that ends here.
fn judge_here(
    alloc: Global,
    register: &Register,
    roster: &Roster,
    last: &ChainLink,
    receiver: Party,
    c: &Chain,
    m: &Manifest,
) -> Result<Judgement, NoMemory>
    ensures { IfOk result (λ judgement. judgement ≡ judgement_here
        roster.now last.now.entry.bill (newest_first register.now.diary) last.now.name receiver c.now m.now) }
{
    if register.taken(last.name) {
        return Ok(Judgement::Duplicate);
    }
    match last_declined(register, last.name) {
        Some(declined) => declined_again(alloc, declined),
        None => judge_at_place(alloc, register, roster, last.entry.bill, receiver, c, m),
    }
}

fn declined_again(alloc: Global, declined: Declination) -> Result<Judgement, NoMemory>
    ensures { IfOk result (λ judgement. judgement
        ≡ Declined declined.entry.code declined.entry.reason declined.entry.evidence.now) }
{
    Ok(Judgement::Declined {
        code: declined.code,
        reason: declined.reason,
        evidence: declined.evidence.copy(alloc)?,
    })
}

// The judgement by what is kept of the bill.
fn judge_at_place(
    alloc: Global,
    register: &Register,
    roster: &Roster,
    bill: Checksum,
    receiver: Party,
    c: &Chain,
    m: &Manifest,
) -> Result<Judgement, NoMemory>
    ensures { IfOk result (λ judgement. judgement
        ≡ judgement_at_place roster.now (history bill register.now.diary) receiver c.now m.now) }
{
    if let Some(evidence) = dispute(alloc, register.place(bill), c)? {
        return Ok(Judgement::Parts(evidence));
    }
    if !roster.knows(receiver) {
        return Ok(Judgement::Unknown);
    }
    let missing = missing(alloc, register, bill, m)?;
    if missing.is_empty() {
        return Ok(Judgement::Accept);
    }
    Ok(Judgement::Missing(missing))
}

// The documents of a manifest whose bytes aren't there for the bill.
fn missing(
    alloc: Global,
    register: &Register,
    bill: Checksum,
    m: &Manifest,
) -> Result<ChecksumList, NoMemory>
    ensures { IfOk result (λ list. list ≡ missing_of m.now (history bill register.now.diary)) }
{
    let mut missing = Items::new(alloc);
    for piece in m.documents.as_slice() {
        if !has_bytes(register, bill, piece.checksum) {
            missing.push(piece.checksum)?;
        }
    }
    Ok(missing)
}

// Whether the bytes of a document are there for a bill.
fn has_bytes(register: &Register, bill: Checksum, checksum: Checksum) -> bool
    ensures { result ≡ is_there (history bill register.now.diary) checksum }
{
    register.kept(bill, checksum).is_some()
}
