//! The records of each kind, from their fields.
ghost use Rattle.std.specs.Prelude.{◌≡◌, ◌≢◌, ℕ, IfOk, IfSome, IfNone};
ghost use Rattle.ebl_base.specs.declared.checksum.Checksum.{Checksum};
ghost use Rattle.ebl_base.specs.declared.reason.Reason.{Reason};
ghost use Rattle.record_bytes.specs.Forms.{IsCause};
ghost use Rattle.record_bytes.specs.Grammar.{cause_byte};
ghost use Rattle.record_bytes.specs.Reading.{Finds, AreFields, AreTwoNames};

use crate::evidence::evidence_of;
use crate::fields::{byte_at, name_at, names_at, one_text, two_texts};
use crate::texts::{bill_of, link_of, manifest_of, piece_of, transaction_of};
use bill_diary::Record;
use ebl_base::{ByteList, Checksum, NoMemory, Reason, SignedText};
use std::alloc::Global;

/// The record of a kind but a Begun, from its fields. None if and only if they are no such record's.
pub(crate) fn record_of(alloc: Global, tag: u8, fields: &[u8]) -> Result<Option<Record>, NoMemory>
    requires { tag ≢ 7 }
    ensures { IfOk result (Finds (AreFields tag fields.now)) }
{
    match tag {
        1 => signed(alloc, fields),
        2 => acted(alloc, fields),
        3 => attached(alloc, fields),
        4 => parted(alloc, fields),
        5 => Ok(settled(fields)),
        6 => Ok(regained(fields)),
        8 => stored(alloc, fields),
        9 => Ok(taken(fields)),
        10 => declined(alloc, fields),
        _ => Ok(None),
    }
}

fn signed(alloc: Global, fields: &[u8]) -> Result<Option<Record>, NoMemory>
    ensures { IfOk result (Finds (AreFields 1 fields.now)) }
{
    let Some((document, transaction)) = two_texts(fields) else {
        return Ok(None);
    };
    let Some(transaction) = transaction_of(alloc, transaction)? else {
        return Ok(None);
    };
    let Some(bill) = bill_of(alloc, document)? else {
        return Ok(None);
    };
    Ok(Some(Record::Signed {
        bill,
        document: ByteList::from_slice(alloc, document)?,
        transaction,
    }))
}

fn acted(alloc: Global, fields: &[u8]) -> Result<Option<Record>, NoMemory>
    ensures { IfOk result (Finds (AreFields 2 fields.now)) }
{
    let Some((bill, rest)) = name_at(fields) else {
        return Ok(None);
    };
    let Some(text) = one_text(rest) else {
        return Ok(None);
    };
    let Some(transaction) = transaction_of(alloc, text)? else {
        return Ok(None);
    };
    Ok(Some(Record::Acted { bill, transaction }))
}

fn attached(alloc: Global, fields: &[u8]) -> Result<Option<Record>, NoMemory>
    ensures { IfOk result (Finds (AreFields 3 fields.now)) }
{
    let Some((bill, rest)) = name_at(fields) else {
        return Ok(None);
    };
    let Some((piece, bytes)) = two_texts(rest) else {
        return Ok(None);
    };
    let Some(piece) = piece_of(alloc, piece)? else {
        return Ok(None);
    };
    Ok(Some(Record::Attached {
        bill,
        piece,
        bytes: ByteList::from_slice(alloc, bytes)?,
    }))
}

fn parted(alloc: Global, fields: &[u8]) -> Result<Option<Record>, NoMemory>
    ensures { IfOk result (Finds (AreFields 4 fields.now)) }
{
    let Some((bill, rest)) = name_at(fields) else {
        return Ok(None);
    };
    let Some((entry, manifest)) = two_texts(rest) else {
        return Ok(None);
    };
    let Some(link) = link_of(alloc, signed_text(alloc, entry)?)? else {
        return Ok(None);
    };
    let manifest_text = signed_text(alloc, manifest)?;
    let Some(manifest) = manifest_of(alloc, &manifest_text)? else {
        return Ok(None);
    };
    Ok(Some(Record::Parted {
        bill,
        link,
        manifest,
        manifest_text,
    }))
}

fn signed_text(alloc: Global, bytes: &[u8]) -> Result<SignedText, NoMemory>
    ensures { IfOk result (λ text. text.0 ≡ bytes.now) }
{
    SignedText::from_bytes(alloc, ByteList::from_slice(alloc, bytes)?)
}

// The names of a bill and an entry that the fields are.
fn two_names(fields: &[u8]) -> Option<(Checksum, Checksum)>
    ensures found { IfSome result (λ p. AreTwoNames fields.now p.0 p.1) }
    ensures none { IfNone result ((bill entry : Checksum) → ¬ AreTwoNames fields.now bill entry) }
{
    let (bill, entry, rest) = names_at(fields)?;
    if rest.is_empty() {
        Some((bill, entry))
    } else {
        None
    }
}

fn settled(fields: &[u8]) -> Option<Record>
    ensures { Finds (AreFields 5 fields.now) result }
{
    let (bill, entry) = two_names(fields)?;
    Some(Record::Settled { bill, entry })
}

fn regained(fields: &[u8]) -> Option<Record>
    ensures { Finds (AreFields 6 fields.now) result }
{
    let (bill, entry) = two_names(fields)?;
    Some(Record::Regained { bill, entry })
}

fn taken(fields: &[u8]) -> Option<Record>
    ensures { Finds (AreFields 9 fields.now) result }
{
    let (bill, entry) = two_names(fields)?;
    Some(Record::Taken { bill, entry })
}

fn stored(alloc: Global, fields: &[u8]) -> Result<Option<Record>, NoMemory>
    ensures { IfOk result (Finds (AreFields 8 fields.now)) }
{
    let Some((bill, entry, rest)) = names_at(fields) else {
        return Ok(None);
    };
    let Some((checksum, rest)) = name_at(rest) else {
        return Ok(None);
    };
    let Some(bytes) = one_text(rest) else {
        return Ok(None);
    };
    Ok(Some(Record::Stored {
        bill,
        entry,
        checksum,
        bytes: ByteList::from_slice(alloc, bytes)?,
    }))
}

fn declined(alloc: Global, fields: &[u8]) -> Result<Option<Record>, NoMemory>
    ensures { IfOk result (Finds (AreFields 10 fields.now)) }
{
    let Some((bill, entry, rest)) = names_at(fields) else {
        return Ok(None);
    };
    let Some((cause, rest)) = byte_at(rest) else {
        return Ok(None);
    };
    let Some(reason) = reason_of(cause) else {
        return Ok(None);
    };
    let Some(evidence) = evidence_of(alloc, rest)? else {
        return Ok(None);
    };
    Ok(Some(Record::Declined {
        bill,
        entry,
        code: reason.code(),
        reason,
        evidence,
    }))
}

// The reason that a byte tells.
fn reason_of(cause: u8) -> Option<Reason>
    ensures found { IfSome result (λ reason. IsCause reason × (cause_byte reason ≡ cause)) }
    ensures none { IfNone result ((reason : Reason) → IsCause reason → cause_byte reason ≢ cause) }
{
    match cause {
        1 => Some(Reason::Party),
        2 => Some(Reason::Parts),
        _ => None,
    }
}
