//! The records of a diary that a register finds by their numbers. Each costs one search of an ordered map.
ghost use Rattle.std.specs.Prelude.{◌≡◌, MatchOption, None, Some, false, option_copied};
ghost use Rattle.bill_diary.specs.declared.record.Record.TheVariants.{Begun, Parted};
ghost use Rattle.document_checksum.specs.Digest.{checksum_of};
ghost use Rattle.bill_diary.specs.History.{history, newest_first, record_at};
ghost use Rattle.bill_diary.specs.Pieces.{are_there, brings_bytes};
ghost use Rattle.bill_diary.specs.Receiving.{last_declined};
ghost use Rattle.bill_diary.specs.Searches.{bytes_in, first_bytes, last_body, last_parted_record, signed_text};
ghost use Rattle.bill_diary.specs.Sound.{IsSound, is_parted, last_with_reference};
ghost use Rattle.title_register.specs.Frames.{body_begun, declination, document_signed, is_begun};

use crate::register::Register;
use bill_diary::{BegunRef, Declination, Frame, History, PartedRef, Record, RecordRef};
use ebl_base::{ByteList, Checksum, PlatformCode, Reference};

/// The last Begun, of any bill, whose envelope has this reference.
pub fn last_with_reference(register: &Register, reference: Reference) -> Option<BegunRef<'_>>
    ensures { MatchOption result (last_with_reference reference (newest_first register.now.diary) ≡ None)
        (λ begun. last_with_reference reference (newest_first register.now.diary)
        ≡ Some (Begun begun.bill begun.chain.now begun.manifest.now begun.body.now)) }
{
    begun_in(register.record_at(register.begun(reference)?)?)
}

// The parts of a record, if it is a Begun.
fn begun_in(kept: &Record) -> Option<BegunRef<'_>>
    ensures { MatchOption result (is_begun kept.now ≡ false)
        (λ begun. kept.now ≡ Begun begun.bill begun.chain.now begun.manifest.now begun.body.now) }
{
    match kept {
        Record::Begun {
            bill,
            chain,
            manifest,
            body,
        } => Some(BegunRef {
            bill: *bill,
            chain,
            manifest,
            body,
        }),
        _ => None,
    }
}

/// The last Parted of a bill.
pub fn last_parted_record(register: &Register, bill: Checksum) -> Option<PartedRef<'_>>
    ensures { MatchOption result (last_parted_record (history bill register.now.diary) ≡ None)
        (λ parted. last_parted_record (history bill register.now.diary)
        ≡ Some (Parted parted.bill parted.link.now parted.manifest.now parted.manifest_text.now)) }
{
    parted_in(register.record_at(register.parted(bill)?)?)
}

// The parts of a record, if it is a Parted.
fn parted_in(kept: &Record) -> Option<PartedRef<'_>>
    ensures { MatchOption result (is_parted kept.now ≡ false)
        (λ parted. kept.now ≡ Parted parted.bill parted.link.now parted.manifest.now parted.manifest_text.now) }
{
    match kept {
        Record::Parted {
            bill,
            link,
            manifest,
            manifest_text,
        } => Some(PartedRef {
            bill: *bill,
            link,
            manifest,
            manifest_text,
        }),
        _ => None,
    }
}

/// The last Declined of an entry.
pub fn last_declined(register: &Register, entry: Checksum) -> Option<Declination<'_>>
    ensures { MatchOption result (last_declined entry (newest_first register.now.diary) ≡ None)
        (λ declined. last_declined entry (newest_first register.now.diary)
        ≡ Some (record { code = declined.code; reason = declined.reason; evidence = declined.evidence.now })) }
{
    declination_in(register.record_at(register.declined(entry)?)?)
}

// Why an entry was declined, if the record is a Declined.
fn declination_in(kept: &Record) -> Option<Declination<'_>>
    ensures { MatchOption result (declination kept.now ≡ None) (λ declined. declination kept.now
        ≡ Some (record { code = declined.code; reason = declined.reason; evidence = declined.evidence.now })) }
{
    match kept {
        Record::Declined {
            code,
            reason,
            evidence,
            ..
        } => Some(Declination {
            code: *code,
            reason: *reason,
            evidence,
        }),
        _ => None,
    }
}

/// The bytes of a document that were there first for a bill: attached, or stored.
pub fn first_bytes(register: &Register, bill: Checksum, checksum: Checksum) -> Option<&ByteList>
    ensures { option_copied result ≡ first_bytes checksum (history bill register.now.diary) }
{
    bytes_kept(
        register.record_at(register.kept(bill, checksum)?)?,
        checksum,
    )
}

// The bytes of this checksum that a record brought.
fn bytes_kept(kept: &Record, checksum: Checksum) -> Option<&ByteList>
    ensures { option_copied result ≡ bytes_in checksum kept.now }
{
    match kept {
        Record::Attached { piece, bytes, .. } => if piece.checksum == checksum {
            Some(bytes)
        } else {
            None
        },
        Record::Stored {
            checksum: other,
            bytes,
            ..
        } => if *other == checksum {
            Some(bytes)
        } else {
            None
        },
        _ => None,
    }
}

/// Whether these bytes are there for a bill of the platform `me`: attached, or stored. They are asked for by their
/// checksum. Only where other bytes have the same one are the records of the bill gone over.
#[tactic(auto, using(crate::proofs::BytesLemmas::found_bytes))]
pub fn are_there(
    me: PlatformCode,
    register: &Register,
    bill: Checksum,
    checksum: Checksum,
    bytes: &[u8],
) -> bool
    requires sound { IsSound me register.now.diary }
    requires named { checksum ≡ checksum_of bytes.now }
    ensures { result ≡ are_there (history bill register.now.diary) bytes.now }
{
    match first_bytes(register, bill, checksum) {
        Some(first) => first.as_slice() == bytes || are_among(register.frames(), bill, bytes),
        None => false,
    }
}

fn are_among(frames: &[Frame], bill: Checksum, bytes: &[u8]) -> bool
    ensures { result ≡ are_there (history bill frames.now) bytes.now }
{
    let mut left = History::of(frames, bill);
    while let Some(record) = left.next() {
        if brings_bytes(record, bytes) {
            return true;
        }
    }
    false
}

fn brings_bytes(one: RecordRef, bytes: &[u8]) -> bool
    ensures { result ≡ brings_bytes bytes.now (record_at one.entry) }
{
    match one {
        RecordRef::Kept(kept) => match kept {
            Record::Attached { bytes: other, .. } | Record::Stored { bytes: other, .. } =>
                other.as_slice() == bytes,
            _ => false,
        },
        RecordRef::Taken { .. } => false,
    }
}

/// The canonical text of the document of a bill that was signed here.
pub fn signed_text(register: &Register, bill: Checksum) -> Option<&ByteList>
    ensures { option_copied result ≡ signed_text (history bill register.now.diary) }
{
    document_in(register.record_at(register.signed(bill)?)?)
}

// The text of the document that a record signed.
fn document_in(kept: &Record) -> Option<&ByteList>
    ensures { option_copied result ≡ document_signed kept.now }
{
    match kept {
        Record::Signed { document, .. } => Some(document),
        _ => None,
    }
}

/// The body that came last with a bill, which has its document.
pub fn last_body(register: &Register, bill: Checksum) -> Option<&ByteList>
    ensures { option_copied result ≡ last_body (history bill register.now.diary) }
{
    body_in(register.record_at(register.came(bill)?)?)
}

// The body that a record began with.
fn body_in(kept: &Record) -> Option<&ByteList>
    ensures { option_copied result ≡ body_begun kept.now }
{
    match kept {
        Record::Begun { body, .. } => Some(body),
        _ => None,
    }
}
