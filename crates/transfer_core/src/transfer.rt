//! A transfer of a bill that is under way from here, its start, and its uploads.
ghost use Rattle.std.specs.Prelude.{◌≡◌, ◌≢◌, ◌++◌, ◌∷◌, [], List, IfErr, IfOk, None, OnOk, Some, option_map};
ghost use Rattle.std.specs.Option.{option_to_list};
ghost use Rattle.canonical_json.specs.View.{view};
ghost use Rattle.bill_diary.specs.History.{history};
ghost use Rattle.bill_chain.specs.Chain.{platform_with};
ghost use Rattle.bill_diary.specs.Place.{place_of, tag_of, title_at};
ghost use Rattle.bill_diary.specs.Sound.{IsSound};
ghost use Rattle.bill_diary.specs.declared.bill_place.BillPlace.TheVariants.{Parting};
ghost use Rattle.transfer_chain.specs.Checked.{texts_of};
ghost use Rattle.canonical_json.specs.Reading.{value_in};
ghost use Rattle.platform_machine.specs.Transfer.{IsStartBody, IsUnderWay, NothingUnderWay, SendsStart, document_in, document_of_body, if_read, put_of, reference_at, uploads_of};
ghost use Rattle.transfer_core.specs.Transfer.{transfer_view};

use bill_diary::{PartedRef, Record};
use canonical_json::{Json, read_if_any};
use ebl_base::{
    ByteList, Chain, ChainLink, Checksum, ChecksumList, Copied, Items, NoMemory, PlaceTag,
    PlatformCode, Reference, SignedText, TextList,
};
use envelope_manifest::{Body, BodyFault, Piece};
use platform_requests::{Message, MessageList};
use std::alloc::Global;
use title_fold::possessor;
use title_register::{PlaceRef, Register, first_bytes, last_body, last_parted_record, signed_text};
use upload_state::reference_of;

/// A transfer of a bill that is under way from here.
#[derive(Clone, Copy)]
pub(crate) struct Transfer<'a> {
    /// The known chain.
    pub(crate) known: &'a Chain,
    /// What was written when the entry that follows it parted.
    pub(crate) parted: PartedRef<'a>,
    /// Where the entry moves possession.
    pub(crate) to: PlatformCode,
}

/// The transfer of a bill that is under way; where the bill isn't parting, where it is.
///
/// In a sound diary the entry that is parting has its record, and moves possession to some platform.
pub(crate) fn under_way(
    me: PlatformCode,
    register: &Register,
    bill: Checksum,
) -> Result<Transfer<'_>, PlaceTag>
    requires { IsSound me register.now.diary }
    ensures found { IfOk result (λ t. IsUnderWay bill (history bill register.now.diary) (transfer_view t)) }
    ensures nothing { IfErr result (λ tag. NothingUnderWay (history bill register.now.diary)) }
    ensures tag { IfErr result (λ tag. tag ≡ tag_of (place_of (history bill register.now.diary))) }
{
    match register.place(bill) {
        PlaceRef::Parting { known, entry } => Ok(transfer_of(me, register, bill, known, entry)),
        _ => Err(register.tag(bill)),
    }
}

// The transfer of a bill that is parting with this entry.
#[tactic(auto, using(crate::proofs::WayLemmas::ways))]
fn transfer_of<'a>(
    me: PlatformCode,
    register: &'a Register,
    bill: Checksum,
    known: &'a Chain,
    entry: &'a ChainLink,
) -> Transfer<'a>
    requires sound { IsSound me register.now.diary }
    requires parting { place_of (history bill register.now.diary) ≡ Parting known.now entry.now }
    ensures { IsUnderWay bill (history bill register.now.diary) (transfer_view result) }
{
    let Some(parted) = last_parted_record(register, bill) else {
        unreachable!()
    };
    let Some(to) = platform_at(register, bill) else {
        unreachable!()
    };
    Transfer { known, parted, to }
}

// The platform of the possessor at the place of a bill.
fn platform_at(register: &Register, bill: Checksum) -> Option<PlatformCode>
    ensures { result ≡ platform_with (title_at (place_of (history bill register.now.diary))) }
{
    match register.title(bill) {
        Ok(Some(title)) => Some(possessor(title).platform),
        Ok(None) | Err(_) => None,
    }
}

/// The start of a transfer: the bill's document, the manifest's text, and the texts of the known chain, followed by
/// that of the entry. The document is read again, from the text that was signed here or the body that came last.
pub(crate) fn start_message(
    alloc: Global,
    register: &Register,
    bill: Checksum,
    known: &Chain,
    link: &ChainLink,
    manifest_text: &SignedText,
    to: PlatformCode,
) -> Result<MessageList, NoMemory>
    requires { document_in (history bill register.now.diary) ≢ None }
    ensures { IfOk result (SendsStart bill (history bill register.now.diary) (known.now ++ link.now ∷ [])
        manifest_text.now to) }
{
    let body = start_body(alloc, register, bill, known, link, manifest_text)?;
    let mut messages = Items::new(alloc);
    messages.push(Message::Start { to, bill, body })?;
    Ok(messages)
}

fn start_body(
    alloc: Global,
    register: &Register,
    bill: Checksum,
    known: &Chain,
    link: &ChainLink,
    manifest_text: &SignedText,
) -> Result<ByteList, NoMemory>
    requires { document_in (history bill register.now.diary) ≢ None }
    ensures { IfOk result
        (IsStartBody (history bill register.now.diary) (known.now ++ link.now ∷ []) manifest_text.now) }
{
    let Some(document) = document_in(alloc, register, bill)? else {
        unreachable!()
    };
    let manifest = manifest_text.copy(alloc)?;
    let texts = texts_of(alloc, known, link)?;
    written(alloc, document, manifest, texts)
}

// The canonical text of the body with these parts.
fn written(
    alloc: Global,
    document: Json,
    manifest: SignedText,
    chain: TextList,
) -> Result<ByteList, NoMemory>
    ensures { (h : List Record) (links : List ChainLink) (text : SignedText) → document_in h ≡ Some (view document)
        → manifest ≡ text → chain ≡ texts_of links → IfOk result (IsStartBody h links text) }
{
    let body = Body {
        document,
        manifest,
        chain,
    };
    body.write(alloc)
}

// The document of a bill: the one that was signed here, or else the one that came with the last body.
fn document_in(alloc: Global, register: &Register, bill: Checksum) -> Result<Option<Json>, NoMemory>
    ensures { IfOk result (λ any. option_map view any ≡ document_in (history bill register.now.diary)) }
{
    match signed_text(register, bill) {
        Some(text) => value_of(alloc, text),
        None => match last_body(register, bill) {
            Some(body) => document_of_body(alloc, body),
            None => Ok(None),
        },
    }
}

// The value that a text is, if it is one.
fn value_of(alloc: Global, text: &ByteList) -> Result<Option<Json>, NoMemory>
    ensures { IfOk result (λ any. option_map view any ≡ if_read (value_in text.now)) }
{
    read_if_any(alloc, text.as_slice())
}

// The document of a body, if it is one.
fn document_of_body(alloc: Global, body: &ByteList) -> Result<Option<Json>, NoMemory>
    ensures { IfOk result (λ any. option_map view any ≡ document_of_body body.now) }
{
    match Body::read(alloc, body.as_slice()) {
        Ok(body) => Ok(Some(body.document)),
        Err(BodyFault::BodyForm(_)) => Ok(None),
        Err(BodyFault::NoMemory) => Err(NoMemory),
    }
}

// The texts of a chain and of the entry that follows it.
#[tactic(auto, using(crate::proofs::StepLemmas::texts))]
fn texts_of(alloc: Global, known: &Chain, link: &ChainLink) -> Result<TextList, NoMemory>
    ensures { IfOk result (λ texts. texts ≡ texts_of (known.now ++ link.now ∷ [])) }
{
    let mut texts = Items::new(alloc);
    let mut left = known.as_slice();
    while let Some((next, rest)) = left.split_first() {
        texts.push(next.text.copy(alloc)?)?;
        left = rest;
    }
    texts.push(link.text.copy(alloc)?)?;
    Ok(texts)
}

/// The documents of a transfer that are asked for, in the manifest's order, and then the finish.
pub(crate) fn uploads(
    alloc: Global,
    register: &Register,
    bill: Checksum,
    t: &Transfer<'_>,
    missing: &ChecksumList,
) -> Result<MessageList, NoMemory>
    ensures { IfOk result (λ list. list
        ≡ uploads_of bill (history bill register.now.diary) (transfer_view t.now) missing.now) }
{
    let mut messages = Items::new(alloc);
    let mut left = t.parted.manifest.documents.as_slice();
    while let Some((piece, rest)) = left.split_first() {
        push_if_any(
            &mut messages,
            put_of(alloc, register, bill, t, missing, piece)?,
        )?;
        left = rest;
    }
    messages.push(Message::Finish {
        to: t.to,
        bill,
        reference: reference_at(bill, t),
    })?;
    Ok(messages)
}

fn push_if_any(messages: &mut MessageList, message: Option<Message>) -> Result<(), NoMemory>
    ensures { OnOk result (messages.new ≡ messages.old ++ option_to_list message) }
{
    match message {
        Some(message) => messages.push(message),
        None => Ok(()),
    }
}

// The document, if it is asked for, with the bytes that were there first.
fn put_of(
    alloc: Global,
    register: &Register,
    bill: Checksum,
    t: &Transfer<'_>,
    missing: &ChecksumList,
    piece: &Piece,
) -> Result<Option<Message>, NoMemory>
    ensures { IfOk result (λ put. put
        ≡ put_of bill (history bill register.now.diary) (transfer_view t.now) missing.now piece.now) }
{
    if !missing.as_slice().contains(&piece.checksum) {
        return Ok(None);
    }
    match first_bytes(register, bill, piece.checksum) {
        Some(bytes) => Ok(Some(Message::Put {
            to: t.to,
            bill,
            reference: reference_at(bill, t),
            checksum: piece.checksum,
            bytes: bytes.copy(alloc)?,
        })),
        None => Ok(None),
    }
}

/// The reference under which the documents of a transfer are sent.
pub(crate) fn reference_at(bill: Checksum, t: &Transfer<'_>) -> Reference
    ensures { result ≡ reference_at bill (transfer_view t.now) }
{
    reference_of(bill, t.parted.link.name)
}
