//! The texts of a family, each with its name.
ghost use Rattle.std.specs.Prelude.{◌≡◌, [], ◌∷◌, ◌++◌, map, option_map, IfOk, OnOk, Some};
ghost use Rattle.std.specs.List.{flat_map};
ghost use Rattle.envelope_manifest.specs.Body.{body_view};
ghost use Rattle.bill_diary.specs.History.{records_of};
ghost use Rattle.closed_family.specs.Bytes.{bytes_of};
ghost use Rattle.closed_family.specs.Texts.{named, body_in, texts_of, texts_of_body, named_texts, texts_in};

use crate::family::{Family, Member};
use bill_diary::{Diary, Frame, Record};
use canonical_json::write;
use document_checksum::checksum;
use ebl_base::{ByteList, Chain, Checksum, Copied, NoMemory, SharedBytes};
use envelope_manifest::{Body, BodyFault};
use std::alloc::Global;
use std::marker::Model;

/// The bytes of a text.
#[derive(Drop)]
pub enum Text<'a> {
    /// Those that stand in a record.
    Lent(&'a [u8]),
    /// Those that were written out of a body.
    Made(SharedBytes),
}

impl<'a> Text<'a> {
    fn as_slice(&self) -> &[u8]
        ensures { result.now ≡ bytes_of self.now }
    {
        match self {
            Text::Lent(bytes) => bytes,
            Text::Made(bytes) => bytes.as_slice(),
        }
    }
}

/// A text with its name.
#[derive(Drop)]
pub struct NamedText<'a> {
    name: Checksum,
    text: Text<'a>,
}

impl<'a> Model for NamedText<'a> {
    ghost use Rattle.closed_family.specs.Bytes.{bytes_of};
    ghost use Rattle.closed_family.specs.Texts.{Named};

    ghost Value = { Named };

    ghost view = { λ s. record { name = s.name; text = bytes_of s.text } };
}

impl<'a> NamedText<'a> {
    /// The text under this name, whatever name it has.
    pub fn new(name: Checksum, text: Text<'a>) -> Self
        ensures { result ≡ record { name = name; text = bytes_of text.entry } }
    {
        NamedText { name, text }
    }

    // The text under the name that it has.
    fn of(text: Text<'a>) -> Self
        ensures { result ≡ named (bytes_of text.entry) }
    {
        let name = checksum(text.as_slice());
        NamedText::new(name, text)
    }

    /// Its name.
    pub fn name(&self) -> Checksum
        ensures { result ≡ self.now.name }
    {
        self.name
    }

    /// Its bytes.
    pub fn as_slice(&self) -> &[u8]
        ensures { result.now ≡ self.now.text }
    {
        self.text.as_slice()
    }
}

/// The texts of a family under their names, by platform, shard, frame and record: of a Signed the document, of a Parted
/// the entry and the manifest, of a Begun the document, the manifest and the chain. `NoMemory` where memory runs out.
///
/// What stands in a record isn't copied.
pub fn texts_in(alloc: Global, family: &Family) -> Result<Vec<NamedText<'_>>, NoMemory>
    ensures { IfOk result (λ texts. texts.items ≡ texts_in family.now) }
{
    let mut texts = Vec::new(alloc);
    for member in family.as_slice() {
        push_member(alloc, &mut texts, member)?;
    }
    Ok(texts)
}

fn push_member<'a>(
    alloc: Global,
    texts: &mut Vec<NamedText<'a>>,
    member: &'a Member,
) -> Result<(), NoMemory>
    ensures { OnOk result (texts.new.items
        ≡ texts.old.items ++ named_texts (flat_map (λ d. flat_map records_of d) member.now.diaries)) }
{
    for diary in member.diaries.as_slice() {
        push_diary(alloc, texts, diary)?;
    }
    Ok(())
}

fn push_diary<'a>(
    alloc: Global,
    texts: &mut Vec<NamedText<'a>>,
    diary: &'a Diary,
) -> Result<(), NoMemory>
    ensures { OnOk result (texts.new.items
        ≡ texts.old.items ++ named_texts (flat_map records_of diary.now)) }
{
    for frame in diary.as_slice() {
        push_frame(alloc, texts, frame)?;
    }
    Ok(())
}

fn push_frame<'a>(
    alloc: Global,
    texts: &mut Vec<NamedText<'a>>,
    frame: &'a Frame,
) -> Result<(), NoMemory>
    ensures { OnOk result (texts.new.items ≡ texts.old.items ++ named_texts (records_of frame.now)) }
{
    match frame {
        Frame::One(record) => push_record(alloc, texts, record),
        // The Taken that follows has no text.
        Frame::BegunTaken(begun) => push_record(alloc, texts, begun),
    }
}

fn push_record<'a>(
    alloc: Global,
    texts: &mut Vec<NamedText<'a>>,
    source: &'a Record,
) -> Result<(), NoMemory>
    ensures { OnOk result (texts.new.items ≡ texts.old.items ++ map named (texts_of source.now)) }
{
    match source {
        Record::Signed { document, .. } => push_lent(texts, document.as_slice()),
        Record::Parted {
            link,
            manifest_text,
            ..
        } => {
            push_lent(texts, link.text.0.as_slice())?;
            push_lent(texts, manifest_text.0.as_slice())
        }
        Record::Begun { chain, body, .. } => {
            push_body(alloc, texts, body)?;
            push_chain(texts, chain)
        }
        _ => Ok(()),
    }
}

fn push_lent<'a>(texts: &mut Vec<NamedText<'a>>, bytes: &'a [u8]) -> Result<(), NoMemory>
    ensures { OnOk result (texts.new.items ≡ texts.old.items ++ named bytes.now ∷ []) }
{
    texts.push(NamedText::of(Text::Lent(bytes)))?;
    Ok(())
}

fn push_chain<'a>(texts: &mut Vec<NamedText<'a>>, chain: &'a Chain) -> Result<(), NoMemory>
    ensures { OnOk result (texts.new.items
        ≡ texts.old.items ++ map named (map (λ link. link.text.0) chain.now)) }
{
    for link in chain.as_slice() {
        push_lent(texts, link.text.0.as_slice())?;
    }
    Ok(())
}

// The document and the manifest of a body, where the bytes are one.
fn push_body(
    alloc: Global,
    texts: &mut Vec<NamedText<'_>>,
    bytes: &ByteList,
) -> Result<(), NoMemory>
    ensures { OnOk result (texts.new.items
        ≡ texts.old.items ++ map named (texts_of_body (body_in bytes.now))) }
{
    match body_in(alloc, bytes)? {
        Some(body) => push_parts(alloc, texts, &body),
        None => Ok(()),
    }
}

fn push_parts(alloc: Global, texts: &mut Vec<NamedText<'_>>, body: &Body) -> Result<(), NoMemory>
    ensures { OnOk result (texts.new.items
        ≡ texts.old.items ++ map named (texts_of_body (Some (body_view body.now)))) }
{
    let document = write(alloc, &body.document)?;
    push_made(texts, SharedBytes::from_vec(alloc, document.into_vec())?)?;
    push_made(texts, body.manifest.0.copy(alloc)?)
}

fn push_made(texts: &mut Vec<NamedText<'_>>, bytes: SharedBytes) -> Result<(), NoMemory>
    ensures { OnOk result (texts.new.items ≡ texts.old.items ++ named bytes ∷ []) }
{
    texts.push(NamedText::of(Text::Made(bytes)))?;
    Ok(())
}

// The body that bytes are.
fn body_in(alloc: Global, bytes: &ByteList) -> Result<Option<Body>, NoMemory>
    ensures { IfOk result (λ body. option_map body_view body ≡ body_in bytes.now) }
{
    match Body::read(alloc, bytes.as_slice()) {
        Ok(body) => Ok(Some(body)),
        Err(BodyFault::BodyForm(_)) => Ok(None),
        Err(BodyFault::NoMemory) => Err(NoMemory),
    }
}
