//! Evidence: how many texts, then the own one behind a byte 1, then theirs behind a byte 2.
ghost use Rattle.std.specs.Prelude.{◌≡◌, ◌∷◌, ◌++◌, IfOk, OnOk};
ghost use Rattle.record_bytes.specs.Fields.{text_bytes};
ghost use Rattle.record_bytes.specs.Reading.{Finds, IsCompactOf, IsCompactField, IsTheirs, IsMarked, IsEvidenceText};

use crate::fields::{byte_at, one_text, text_at};
use ebl_base::{ByteList, Evidence, MAX_SIGNED_TEXT, NoMemory, SignedText};
use signed_envelope::is_compact;
use std::alloc::Global;

/// The byte in front of the own text, and of theirs.
pub(crate) const OWN: u8 = 1;

pub(crate) const THEIRS: u8 = 2;

/// The evidence that the bytes are, each text in the compact layout. None if and only if they are none.
pub(crate) fn evidence_of(alloc: Global, bytes: &[u8]) -> Result<Option<Evidence>, NoMemory>
    ensures { IfOk result (Finds (IsEvidenceText bytes.now)) }
{
    let Some((count, rest)) = byte_at(bytes) else {
        return Ok(None);
    };
    match count {
        0 => Ok(no_texts(rest)),
        1 => one_of(alloc, rest),
        2 => both_of(alloc, rest),
        _ => Ok(None),
    }
}

fn no_texts(rest: &[u8]) -> Option<Evidence>
    ensures { Finds (IsMarked 0 rest.now) result }
{
    if rest.is_empty() {
        Some(Evidence {
            own: None,
            theirs: None,
        })
    } else {
        None
    }
}

fn one_of(alloc: Global, rest: &[u8]) -> Result<Option<Evidence>, NoMemory>
    ensures { IfOk result (Finds (IsMarked 1 rest.now)) }
{
    let Some((mark, rest)) = byte_at(rest) else {
        return Ok(None);
    };
    match mark {
        OWN => own_of(alloc, rest),
        THEIRS => theirs_of(alloc, rest),
        _ => Ok(None),
    }
}

fn own_of(alloc: Global, rest: &[u8]) -> Result<Option<Evidence>, NoMemory>
    ensures { IfOk result (Finds (IsMarked 1 (1 ∷ rest.now))) }
{
    match compact_field(alloc, rest)? {
        Some(text) => Ok(Some(Evidence {
            own: Some(text),
            theirs: None,
        })),
        None => Ok(None),
    }
}

fn theirs_of(alloc: Global, rest: &[u8]) -> Result<Option<Evidence>, NoMemory>
    ensures { IfOk result (Finds (IsMarked 1 (2 ∷ rest.now))) }
{
    match compact_field(alloc, rest)? {
        Some(text) => Ok(Some(Evidence {
            own: None,
            theirs: Some(text),
        })),
        None => Ok(None),
    }
}

fn both_of(alloc: Global, rest: &[u8]) -> Result<Option<Evidence>, NoMemory>
    ensures { IfOk result (Finds (IsMarked 2 rest.now)) }
{
    let Some((mark, rest)) = byte_at(rest) else {
        return Ok(None);
    };
    if mark != OWN {
        return Ok(None);
    }
    own_and_theirs(alloc, rest)
}

fn own_and_theirs(alloc: Global, rest: &[u8]) -> Result<Option<Evidence>, NoMemory>
    ensures { IfOk result (Finds (IsMarked 2 (1 ∷ rest.now))) }
{
    let Some((own, rest)) = text_at(rest) else {
        return Ok(None);
    };
    let Some(own) = compact_of(alloc, own)? else {
        return Ok(None);
    };
    let Some(theirs) = theirs_behind(alloc, rest)? else {
        return Ok(None);
    };
    Ok(Some(Evidence {
        own: Some(own),
        theirs: Some(theirs),
    }))
}

// Their text, behind its byte.
fn theirs_behind(alloc: Global, rest: &[u8]) -> Result<Option<SignedText>, NoMemory>
    ensures { IfOk result (Finds (IsTheirs rest.now)) }
{
    let Some((mark, rest)) = byte_at(rest) else {
        return Ok(None);
    };
    if mark != THEIRS {
        return Ok(None);
    }
    compact_field(alloc, rest)
}

// The text that the bytes are, where it is in the compact layout.
fn compact_field(alloc: Global, bytes: &[u8]) -> Result<Option<SignedText>, NoMemory>
    ensures { IfOk result (Finds (IsCompactField bytes.now)) }
{
    match one_text(bytes) {
        Some(text) => compact_of(alloc, text),
        None => Ok(None),
    }
}

// The text with these bytes, where it is in the compact layout.
fn compact_of(alloc: Global, bytes: &[u8]) -> Result<Option<SignedText>, NoMemory>
    ensures { IfOk result (Finds (IsCompactOf bytes.now)) }
{
    if is_compact(alloc, bytes, MAX_SIGNED_TEXT)? {
        let bytes = ByteList::from_slice(alloc, bytes)?;
        Ok(Some(SignedText::from_bytes(alloc, bytes)?))
    } else {
        Ok(None)
    }
}
