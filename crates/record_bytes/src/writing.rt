//! Frames as they are written.
ghost use Rattle.std.specs.Prelude.{◌≡◌, ◌∷◌, [], ◌++◌, IfOk, OnOk, Some, None, option_copied, option_map};
ghost use Rattle.std.specs.List.{flat_map};
ghost use Rattle.std.specs.Option.{option_to_list};
ghost use Rattle.ebl_base.specs.declared.chain.ChainLink.{ChainLink};
ghost use Rattle.document_checksum.specs.Digest.{IsChecksum};
ghost use Rattle.canonical_json.specs.Canon.{canon};
ghost use Rattle.chain_entry.specs.Writing.{transaction_value};
ghost use Rattle.envelope_manifest.specs.Piece.{piece_value};
ghost use Rattle.bill_diary.specs.declared.record.Record.TheVariants.{Taken};
ghost use Rattle.bill_diary.specs.History.{taken_after};
ghost use Rattle.record_bytes.specs.Fields.{count_of, evidence_bytes, four_bytes, marked, text_bytes};
ghost use Rattle.record_bytes.specs.Forms.{AreNames, HasNames};
ghost use Rattle.record_bytes.specs.Grammar.{cause_byte, frame_bytes, kept, record_bytes};

use crate::canonical::{piece_text, transaction_text};
use bill_chain::last_link;
use bill_diary::{Frame, Record};
use ebl_base::{
    ByteList, ChainLink, Checksum, Evidence, NoMemory, Reason, SignedText, Transaction,
};
use envelope_manifest::Piece;
use std::alloc::Global;

/// The bytes of a frame, as `docs/journal.md` has them.
///
/// They spell the frame, so that [`frame_read`](crate::frame_read) gives it again, if its names and values are those of
/// its texts within their limits, as in each sound diary.
pub fn frame_write(alloc: Global, frame: &Frame) -> Result<ByteList, NoMemory>
    ensures text { IfOk result (λ bytes. bytes ≡ frame_bytes frame.now) }
    ensures names { IfOk result (λ bytes. HasNames (kept frame.now)) }
{
    let mut out = ByteList::new(alloc);
    match frame {
        Frame::One(record) => push_record(alloc, &mut out, record)?,
        Frame::BegunTaken(begun) => {
            push_record(alloc, &mut out, begun)?;
            push_taken_after(&mut out, begun)?;
        }
    }
    Ok(out)
}

/// Puts the bytes of the Taken that follows a Begun, that of its chain's last entry, at the end.
pub(crate) fn push_taken_after(out: &mut ByteList, begun: &Record) -> Result<(), NoMemory>
    ensures { OnOk result (out.new ≡ out.old ++ flat_map record_bytes (option_to_list (taken_after begun.now))) }
{
    let Record::Begun { bill, chain, .. } = begun else {
        return Ok(());
    };
    push_taken(out, *bill, last_link(chain.as_slice()))
}

fn push_taken(out: &mut ByteList, bill: Checksum, last: Option<&ChainLink>) -> Result<(), NoMemory>
    ensures { OnOk result (out.new ≡ out.old ++ flat_map record_bytes
        (option_to_list (option_map (λ (link : ChainLink). Taken bill link.name) (option_copied last.entry)))) }
{
    match last {
        Some(link) => push_named(out, 9, bill, link.name),
        None => Ok(()),
    }
}

fn push_record(alloc: Global, out: &mut ByteList, kept: &Record) -> Result<(), NoMemory>
    ensures text { OnOk result (out.new ≡ out.old ++ record_bytes kept.now) }
    ensures names { OnOk result (HasNames kept.now) }
{
    match kept {
        Record::Signed {
            document,
            transaction,
            ..
        } => push_signed(alloc, out, document, transaction),
        Record::Acted { bill, transaction } => push_acted(alloc, out, *bill, transaction),
        Record::Attached { bill, piece, bytes } => push_attached(alloc, out, *bill, piece, bytes),
        Record::Parted {
            bill,
            link,
            manifest_text,
            ..
        } => push_parted(out, *bill, &link.text, manifest_text),
        Record::Settled { bill, entry } => push_named(out, 5, *bill, *entry),
        Record::Regained { bill, entry } => push_named(out, 6, *bill, *entry),
        Record::Begun { body, .. } => push_begun(out, body),
        Record::Stored {
            bill,
            entry,
            checksum,
            bytes,
        } => push_stored(out, *bill, *entry, *checksum, bytes),
        Record::Taken { bill, entry } => push_named(out, 9, *bill, *entry),
        Record::Declined {
            bill,
            entry,
            reason,
            evidence,
            ..
        } => push_declined(out, *bill, *entry, *reason, evidence),
    }
}

fn push_signed(
    alloc: Global,
    out: &mut ByteList,
    document: &ByteList,
    transaction: &Transaction,
) -> Result<(), NoMemory>
    ensures { OnOk result (out.new ≡ out.old
        ++ 1 ∷ (text_bytes document.now ++ text_bytes (canon (transaction_value transaction.now)))) }
{
    out.push(1)?;
    push_text(out, document.as_slice())?;
    push_transaction(alloc, out, transaction)
}

fn push_acted(
    alloc: Global,
    out: &mut ByteList,
    bill: Checksum,
    transaction: &Transaction,
) -> Result<(), NoMemory>
    ensures text { OnOk result (out.new ≡ out.old
        ++ 2 ∷ (bill.0 ++ text_bytes (canon (transaction_value transaction.now)))) }
    ensures names { OnOk result (IsChecksum bill) }
{
    out.push(2)?;
    push_name(out, bill)?;
    push_transaction(alloc, out, transaction)
}

fn push_attached(
    alloc: Global,
    out: &mut ByteList,
    bill: Checksum,
    piece: &Piece,
    bytes: &ByteList,
) -> Result<(), NoMemory>
    ensures text { OnOk result (out.new ≡ out.old
        ++ 3 ∷ (bill.0 ++ (text_bytes (canon (piece_value piece.now)) ++ text_bytes bytes.now))) }
    ensures names { OnOk result (IsChecksum bill) }
{
    let text = piece_text(alloc, piece)?;
    push_texts(out, 3, bill, text.as_slice(), bytes.as_slice())
}

fn push_parted(
    out: &mut ByteList,
    bill: Checksum,
    entry: &SignedText,
    manifest: &SignedText,
) -> Result<(), NoMemory>
    ensures text { OnOk result (out.new ≡ out.old
        ++ 4 ∷ (bill.0 ++ (text_bytes entry.now.0 ++ text_bytes manifest.now.0))) }
    ensures names { OnOk result (IsChecksum bill) }
{
    push_texts(out, 4, bill, entry.0.as_slice(), manifest.0.as_slice())
}

// A record of a name and two texts.
fn push_texts(
    out: &mut ByteList,
    tag: u8,
    bill: Checksum,
    first: &[u8],
    second: &[u8],
) -> Result<(), NoMemory>
    ensures text { OnOk result (out.new ≡ out.old
        ++ tag ∷ (bill.0 ++ (text_bytes first.now ++ text_bytes second.now))) }
    ensures names { OnOk result (IsChecksum bill) }
{
    out.push(tag)?;
    push_name(out, bill)?;
    push_text(out, first)?;
    push_text(out, second)
}

// A record of two names alone.
fn push_named(out: &mut ByteList, tag: u8, bill: Checksum, entry: Checksum) -> Result<(), NoMemory>
    ensures text { OnOk result (out.new ≡ out.old ++ tag ∷ (bill.0 ++ entry.0)) }
    ensures names { OnOk result (AreNames bill entry) }
{
    out.push(tag)?;
    push_name(out, bill)?;
    push_name(out, entry)
}

fn push_begun(out: &mut ByteList, body: &ByteList) -> Result<(), NoMemory>
    ensures { OnOk result (out.new ≡ out.old ++ 7 ∷ text_bytes body.now) }
{
    out.push(7)?;
    push_text(out, body.as_slice())
}

fn push_stored(
    out: &mut ByteList,
    bill: Checksum,
    entry: Checksum,
    checksum: Checksum,
    bytes: &ByteList,
) -> Result<(), NoMemory>
    ensures text { OnOk result (out.new ≡ out.old
        ++ 8 ∷ (bill.0 ++ (entry.0 ++ (checksum.0 ++ text_bytes bytes.now)))) }
    ensures names { OnOk result (AreNames bill entry × IsChecksum checksum) }
{
    push_named(out, 8, bill, entry)?;
    push_name(out, checksum)?;
    push_text(out, bytes.as_slice())
}

fn push_declined(
    out: &mut ByteList,
    bill: Checksum,
    entry: Checksum,
    reason: Reason,
    evidence: &Evidence,
) -> Result<(), NoMemory>
    ensures text { OnOk result (out.new ≡ out.old
        ++ 10 ∷ (bill.0 ++ (entry.0 ++ cause_byte reason ∷ evidence_bytes evidence.now))) }
    ensures names { OnOk result (AreNames bill entry) }
{
    push_named(out, 10, bill, entry)?;
    out.push(cause_byte(reason))?;
    push_evidence(out, evidence)
}

fn cause_byte(reason: Reason) -> u8
    ensures { result ≡ cause_byte reason }
{
    match reason {
        Reason::Party => 1,
        Reason::Parts => 2,
        _ => 0,
    }
}

fn push_evidence(out: &mut ByteList, evidence: &Evidence) -> Result<(), NoMemory>
    ensures { OnOk result (out.new ≡ out.old ++ evidence_bytes evidence.now) }
{
    out.push(count_of(&evidence.own) + count_of(&evidence.theirs))?;
    push_marked(out, 1, &evidence.own)?;
    push_marked(out, 2, &evidence.theirs)
}

fn count_of(text: &Option<SignedText>) -> u8
    ensures { result ≡ count_of text.now }
{
    match text {
        Some(_) => 1,
        None => 0,
    }
}

// A text that may be left out, behind the byte that tells which it is.
fn push_marked(out: &mut ByteList, mark: u8, text: &Option<SignedText>) -> Result<(), NoMemory>
    ensures { OnOk result (out.new ≡ out.old ++ marked mark text.now) }
{
    let Some(text) = text else {
        return Ok(());
    };
    out.push(mark)?;
    push_text(out, text.0.as_slice())
}

fn push_transaction(
    alloc: Global,
    out: &mut ByteList,
    transaction: &Transaction,
) -> Result<(), NoMemory>
    ensures { OnOk result (out.new ≡ out.old ++ text_bytes (canon (transaction_value transaction.now))) }
{
    let text = transaction_text(alloc, transaction)?;
    push_text(out, text.as_slice())
}

// A text behind its length.
fn push_text(out: &mut ByteList, text: &[u8]) -> Result<(), NoMemory>
    ensures { OnOk result (out.new ≡ out.old ++ text_bytes text.now) }
{
    out.extend_from_slice(&four_bytes(text.len()))?;
    out.extend_from_slice(text)
}

// The four low bytes of a number, the highest first.
#[tactic(auto, unfolding(crate::specs::Fields::four_bytes))]
fn four_bytes(number: usize) -> [u8; 4]
    ensures { result ≡ four_bytes number }
{
    let [_, _, _, _, a, b, c, d] = (number as u64).to_be_bytes();
    [a, b, c, d]
}

fn push_name(out: &mut ByteList, name: Checksum) -> Result<(), NoMemory>
    ensures text { OnOk result (out.new ≡ out.old ++ name.0) }
    ensures form { OnOk result (IsChecksum name) }
{
    out.extend_from_slice(name.0.as_slice())
}
