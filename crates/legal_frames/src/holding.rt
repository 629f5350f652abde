//! Records of a bill that is held or begins: a Signed, an Acted, an Attached.
ghost use Rattle.std.specs.Prelude.{◌≡◌, ◌≤◌, ◌↔◌, IfOk, IsTrue, Some};
ghost use Rattle.ebl_base.specs.declared.checksum.Checksum.{Checksum};
ghost use Rattle.ebl_base.specs.declared.limits.TheConstants.{MAX_DOCUMENT_SIZE};
ghost use Rattle.envelope_manifest.specs.Piece.{IsPiece};
ghost use Rattle.party_roster.specs.RosterRecord.{carrier};
ghost use Rattle.bill_diary.specs.History.{history};
ghost use Rattle.bill_diary.specs.Sound.{MayAct, MayAttach};
ghost use Rattle.bill_diary.specs.Texts.{IsDocumentOf};
ghost use Rattle.title_register.specs.PlaceRef.{place_view};
ghost use Rattle.chain_entry.specs.Form.{IsTransaction};
ghost use Rattle.record_bytes.specs.Forms.{IsSigned};
ghost use Rattle.transfer_judge.specs.Legal.{SignsLegally};
ghost use Rattle.legal_frames.specs.Rows.{HasRoom, IsSignBy, is_absent, stays_at, stays_on};

use crate::places::is_absent;
use canonical_json::read_if_any;
use ebl_base::{
    ByteList, Checksum, Kind, MAX_DOCUMENTS, NoMemory, Party, PlatformCode, Transaction,
};
use envelope_manifest::Piece;
use party_roster::Roster;
use std::alloc::Global;
use title_fold::{FoldRefusal, Title, apply, moves};
use title_register::{PlaceRef, Register};
use transfer_judge::{fits_beside, lists, most_with};
use transport_document::{Document, DocumentFault, document_texts_read_back};
use upload_state::fits;

// ---- a document is signed

/// Whether a Signed of this bill may follow.
pub(crate) fn may_sign(
    alloc: Global,
    roster: &Roster,
    me: PlatformCode,
    register: &Register,
    bill: Checksum,
    document: &ByteList,
    t: &Transaction,
) -> Result<bool, NoMemory>
    requires { IsSigned bill document.now t.now }
    ensures { IfOk result (λ may. IsTrue may
        ↔ SignsLegally roster.now me (history bill register.now.diary) bill document.now t.now) }
{
    if !is_sign_by(me, t) {
        return Ok(false);
    }
    if !is_absent(register.place(bill)) {
        return Ok(false);
    }
    let document = document_of(alloc, document)?;
    Ok(is_carrier(roster, &document, t.actor))
}

fn is_sign_by(me: PlatformCode, t: &Transaction) -> bool
    ensures { IsTrue result ↔ IsSignBy me t.now }
{
    t.kind == Kind::Sign && t.recipient.is_none() && t.actor.platform == me
}

// The document of which this is the text.
fn document_of(alloc: Global, text: &ByteList) -> Result<Document, NoMemory>
    requires { (bill : Checksum) × IsDocumentOf bill text.now }
    ensures { (bill : Checksum) (is : IsDocumentOf bill text.now)
        → IfOk result (λ document. document ≡ is.document) }
{
    document_texts_read_back();
    let Some(json) = read_if_any(alloc, text.as_slice())? else {
        unreachable!()
    };
    match Document::of_json(alloc, &json) {
        Ok(document) => Ok(document),
        Err(DocumentFault::NoMemory) => Err(NoMemory),
        Err(_) => unreachable!(),
    }
}

// Whether a party is the roster's carrier of a document.
fn is_carrier(roster: &Roster, document: &Document, party: Party) -> bool
    ensures { IsTrue result ↔ (carrier roster.now document.now.provider document.now.code ≡ Some party) }
{
    roster.carrier(document.provider(), document.code()) == Some(party)
}

// ---- a party acts

/// Whether an Acted of this bill may follow.
pub(crate) fn may_act(register: &Register, bill: Checksum, t: &Transaction) -> bool
    requires { IsTransaction t.now }
    ensures { IsTrue result ↔ MayAct (history bill register.now.diary) t.now }
{
    stays_at(register.place(bill), register.title(bill), t)
}

// Whether a transaction is taken at a place with this title, and stays.
fn stays_at(place: PlaceRef<'_>, title: Result<Option<Title>, FoldRefusal>, t: &Transaction) -> bool
    ensures { result ≡ stays_at t.now title (place_view place.entry) }
{
    match place {
        PlaceRef::Held { since, .. } => stays_on(title, since.len(), t),
        _ => false,
    }
}

// Whether a transaction is taken after so many since the known chain, and stays.
fn stays_on(title: Result<Option<Title>, FoldRefusal>, made: usize, t: &Transaction) -> bool
    ensures { result ≡ stays_on made t.now title }
{
    let Ok(before) = title else { return false };
    let Ok(after) = apply(before, t) else {
        return false
    };
    !moves(before, after) && made < most_with(t.kind)
}

// ---- a document is attached

/// Whether an Attached of this bill may follow.
pub(crate) fn may_attach(
    register: &Register,
    bill: Checksum,
    piece: &Piece,
    bytes: &ByteList,
) -> bool
    requires { IsPiece piece.now }
    ensures { IsTrue result ↔ MayAttach (history bill register.now.diary) piece.now bytes.now }
{
    if !register.may_act(bill) {
        return false;
    }
    if !fits(piece, bytes.as_slice()) {
        return false;
    }
    has_room(register.pieces(bill), piece)
}

// Whether a document is new beside others, and within the limits with them.
fn has_room(listed: &[Piece], piece: &Piece) -> bool
    requires { piece.now.size ≤ MAX_DOCUMENT_SIZE }
    ensures { IsTrue result ↔ HasRoom listed.now piece.now }
{
    !lists(listed, piece.checksum)
        && listed.len() < MAX_DOCUMENTS
        && fits_beside(listed, piece.size)
}
