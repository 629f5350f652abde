//! Whether a frame may follow a legal diary.
ghost use Rattle.std.specs.Prelude.{◌↔◌, IfOk, IsTrue};
ghost use Rattle.bill_diary.specs.declared.frame.Frame.TheVariants.{BegunTaken};
ghost use Rattle.bill_diary.specs.declared.record.Record.TheVariants.{Begun};
ghost use Rattle.bill_diary.specs.History.{newest_first};
ghost use Rattle.bill_diary.specs.Sound.{IsSound};
ghost use Rattle.record_bytes.specs.Forms.{HasSpelling, IsBegun};
ghost use Rattle.record_bytes.specs.Grammar.{kept};
ghost use Rattle.transfer_judge.specs.Legal.{FollowsDiaryLegally, IsReceivable};
ghost use Rattle.legal_frames.specs.Rows.{Follows};

use crate::envelope::judge_new;
use crate::holding::{may_act, may_attach, may_sign};
use crate::parting::{may_end, may_part};
use crate::receiving::{is_accepted, may_decline, may_store, may_take};
use bill_diary::{BegunRef, Frame, PartedRef, Record};
use ebl_base::{NoMemory, PlatformCode};
use party_roster::Roster;
use signed_envelope::KeyRing;
use std::alloc::Global;
use title_register::Register;
use transfer_judge::Judgement;

/// Whether a frame may follow the legal diary of a register, of the platform `me`, under this roster and these keys.
///
/// The frame has a spelling, as each that `record_bytes::frame_read` answers: its names and values are those of its
/// texts, and aren't tested again. Of the diary no more is needed than that it is sound.
///
/// Each signature of a Begun and a Parted is verified once, each text read once. The rest is a few searches of ordered
/// maps, whatever the length of the diary: its records are gone over only where two entries of a bill have one
/// reference, or two documents one checksum, and once for a frame that may not follow.
pub fn may_follow<G: KeyRing>(
    alloc: Global,
    roster: &Roster,
    ring: &G,
    me: PlatformCode,
    register: &Register,
    frame: &Frame,
) -> Result<bool, NoMemory>
    requires sound { IsSound me register.now.diary }
    requires spelled { HasSpelling (kept frame.now) }
    ensures { IfOk result (λ may. IsTrue may
        ↔ FollowsDiaryLegally roster.now (G.keys ring.now) me register.now.diary frame.now) }
{
    match frame {
        Frame::One(kept) => record_may_follow(alloc, roster, ring, me, register, kept),
        Frame::BegunTaken(kept) => taken_may_follow(alloc, roster, ring, me, register, kept),
    }
}

// Whether a record may follow in a frame of its own.
fn record_may_follow<G: KeyRing>(
    alloc: Global,
    roster: &Roster,
    ring: &G,
    me: PlatformCode,
    register: &Register,
    one: &Record,
) -> Result<bool, NoMemory>
    requires sound { IsSound me register.now.diary }
    requires spelled { HasSpelling one.now }
    ensures { IfOk result (λ may. IsTrue may
        ↔ Follows roster.now (G.keys ring.now) me (newest_first register.now.diary) one.now) }
{
    match one {
        Record::Signed {
            bill,
            document,
            transaction,
        } => may_sign(alloc, roster, me, register, *bill, document, transaction),
        Record::Acted { bill, transaction } => Ok(may_act(register, *bill, transaction)),
        Record::Attached { bill, piece, bytes } => Ok(may_attach(register, *bill, piece, bytes)),
        Record::Parted {
            bill,
            link,
            manifest,
            manifest_text,
        } => {
            let parted = PartedRef {
                bill: *bill,
                link,
                manifest,
                manifest_text,
            };
            may_part(alloc, roster, ring, me, register, parted)
        }
        Record::Settled { bill, entry } | Record::Regained { bill, entry } => Ok(may_end(
            register, *bill, *entry,
        )),
        Record::Begun {
            bill,
            chain,
            manifest,
            body,
        } => {
            let begun = BegunRef {
                bill: *bill,
                chain,
                manifest,
                body,
            };
            may_begin(alloc, roster, ring, me, register, begun)
        }
        Record::Stored {
            bill,
            entry,
            checksum,
            bytes,
        } => Ok(may_store(me, register, *bill, *entry, *checksum, bytes)),
        Record::Taken { bill, entry } => may_take(alloc, roster, me, register, *bill, *entry),
        Record::Declined {
            bill,
            entry,
            code,
            reason,
            evidence,
        } => Ok(may_decline(register, *bill, *entry, *code, *reason, evidence)),
    }
}

// Whether a Begun may follow in a frame of its own: its envelope is right and new, and is received, now or once its
// documents are there.
fn may_begin<G: KeyRing>(
    alloc: Global,
    roster: &Roster,
    ring: &G,
    me: PlatformCode,
    register: &Register,
    begun: BegunRef<'_>,
) -> Result<bool, NoMemory>
    requires sound { IsSound me register.now.diary }
    requires spelled { IsBegun begun.bill begun.chain.now begun.manifest.now begun.body.now }
    ensures { IfOk result (λ may. IsTrue may ↔ Follows roster.now (G.keys ring.now) me (newest_first register.now.diary)
        (Begun begun.entry.bill begun.entry.chain.now begun.entry.manifest.now begun.entry.body.now)) }
{
    let judged = judge_new(alloc, roster, ring, me, register, begun)?;
    match judged {
        Some(judgement) => Ok(is_receivable(&judgement)),
        None => Ok(false),
    }
}

fn is_receivable(judgement: &Judgement) -> bool
    ensures { IsTrue result ↔ IsReceivable judgement.now }
{
    match judgement {
        Judgement::Accept | Judgement::Missing(_) => true,
        _ => false,
    }
}

// Whether a Begun may follow that is taken at once: its envelope is right and new, and is received now.
fn taken_may_follow<G: KeyRing>(
    alloc: Global,
    roster: &Roster,
    ring: &G,
    me: PlatformCode,
    register: &Register,
    one: &Record,
) -> Result<bool, NoMemory>
    requires sound { IsSound me register.now.diary }
    requires spelled { HasSpelling one.now }
    ensures { IfOk result (λ may. IsTrue may
        ↔ FollowsDiaryLegally roster.now (G.keys ring.now) me register.now.diary (BegunTaken one.now)) }
{
    match one {
        Record::Begun {
            bill,
            chain,
            manifest,
            body,
        } => {
            let begun = BegunRef {
                bill: *bill,
                chain,
                manifest,
                body,
            };
            may_begin_taken(alloc, roster, ring, me, register, begun)
        }
        _ => Ok(false),
    }
}

fn may_begin_taken<G: KeyRing>(
    alloc: Global,
    roster: &Roster,
    ring: &G,
    me: PlatformCode,
    register: &Register,
    begun: BegunRef<'_>,
) -> Result<bool, NoMemory>
    requires sound { IsSound me register.now.diary }
    requires spelled { IsBegun begun.bill begun.chain.now begun.manifest.now begun.body.now }
    ensures { IfOk result (λ may. IsTrue may ↔ FollowsDiaryLegally roster.now (G.keys ring.now) me register.now.diary
        (BegunTaken (Begun begun.entry.bill begun.entry.chain.now begun.entry.manifest.now begun.entry.body.now))) }
{
    let judged = judge_new(alloc, roster, ring, me, register, begun)?;
    match judged {
        Some(judgement) => Ok(is_accepted(&judgement)),
        None => Ok(false),
    }
}
