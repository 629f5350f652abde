//! The links of a chain's texts: each text is verified, read and named once.
ghost use Rattle.std.specs.Prelude.{◌≡◌, ◌++◌, ◌∷◌, [], IfOk, IfErr, OnOk};
ghost use Rattle.transfer_chain.specs.Checked.{texts_of};
ghost use Rattle.transfer_chain.specs.GoodChain.{IsLink, AreLinks};
ghost use Rattle.transfer_chain.specs.Refusal.{IsTextRefused};
ghost use Rattle.transfer_chain.specs.Steps.{IsTextFault, refusal_at};

use crate::fault::ChainRefusal;
use chain_entry::{EntryFault, EntryField, decode};
use document_checksum::checksum;
use ebl_base::{ChainLink, Copied, MAX_SIGNED_TEXT, NoMemory, SignedText};
use signed_envelope::{BadSigned, KeyRing, verify_any};
use std::alloc::Global;

/// What is wrong with a text.
#[derive(Clone, Copy, Debug, PartialEq, Eq)]
pub(crate) enum TextFault {
    Signature(BadSigned),
    Form(EntryField),
    Signer,
    NoMemory,
}

impl TextFault {
    // The refusal of the text at this place.
    fn at(self, place: usize) -> ChainRefusal
        ensures { result ≡ refusal_at place self }
    {
        match self {
            TextFault::Signature(why) => ChainRefusal::BadSignature(place, why),
            TextFault::Form(field) => ChainRefusal::EntryForm(place, field),
            TextFault::Signer => ChainRefusal::WrongSigner(place),
            TextFault::NoMemory => ChainRefusal::NoMemory,
        }
    }
}

impl From<BadSigned> for TextFault {
    ghost use Rattle.transfer_chain.specs.Steps.{signature_fault};

    ghost from_gives = { λ why fault. fault ≡ signature_fault why };

    fn from(why: BadSigned) -> TextFault {
        match why {
            BadSigned::NoMemory => TextFault::NoMemory,
            why => TextFault::Signature(why),
        }
    }
}

impl From<EntryFault> for TextFault {
    ghost use Rattle.transfer_chain.specs.Steps.{entry_fault};

    ghost from_gives = { λ e fault. fault ≡ entry_fault e };

    fn from(fault: EntryFault) -> TextFault {
        match fault {
            EntryFault::EntryForm(field) => TextFault::Form(field),
            EntryFault::NoMemory => TextFault::NoMemory,
        }
    }
}

impl From<NoMemory> for TextFault {
    ghost use Rattle.transfer_chain.specs.declared.verify_texts.TextFault.TheVariants as faults;

    ghost from_gives = { λ _ fault. fault ≡ faults.NoMemory };

    fn from(_: NoMemory) -> TextFault {
        TextFault::NoMemory
    }
}

/// The links of the texts, or the first text that is wrong. A text that is that of the known link at its place isn't
/// verified again.
pub(crate) fn links_of<G: KeyRing>(
    alloc: Global,
    ring: &G,
    known: &[ChainLink],
    texts: &[SignedText],
) -> Result<Vec<ChainLink>, ChainRefusal>
    requires { AreLinks (G.keys ring.now) (texts_of known.now) known.now }
    ensures ok { IfOk result (λ links. AreLinks (G.keys ring.now) texts.now links.items) }
    ensures err { IfErr result (IsTextRefused (G.keys ring.now) texts.now) }
{
    let mut links = match Vec::with_capacity(alloc, texts.len()) {
        Ok(links) => links,
        Err(_) => return Err(ChainRefusal::NoMemory),
    };
    for (place, text) in texts.iter().enumerate() {
        let link = match link_at(alloc, ring, known, place, text) {
            Ok(link) => link,
            Err(fault) => return Err(fault.at(place)),
        };
        push(&mut links, link)?;
    }
    Ok(links)
}

fn push(links: &mut Vec<ChainLink>, link: ChainLink) -> Result<(), NoMemory>
    ensures { OnOk result (links.new.items ≡ links.old.items ++ link ∷ []) }
{
    links.push(link)?;
    Ok(())
}

// The link of the text at this place: the known one there, if it is of the same bytes.
fn link_at<G: KeyRing>(
    alloc: Global,
    ring: &G,
    known: &[ChainLink],
    place: usize,
    text: &SignedText,
) -> Result<ChainLink, TextFault>
    requires { AreLinks (G.keys ring.now) (texts_of known.now) known.now }
    ensures ok { IfOk result (IsLink (G.keys ring.now) text.now) }
    ensures err { IfErr result (IsTextFault (G.keys ring.now) text.now) }
{
    if let Some(link) = known.get(place) {
        if link.text.0.as_slice() == text.0.as_slice() {
            let link = link.copy(alloc)?;
            return Ok(link);
        }
    }
    link_of(alloc, ring, text)
}

fn link_of<G: KeyRing>(alloc: Global, ring: &G, text: &SignedText) -> Result<ChainLink, TextFault>
    ensures ok { IfOk result (IsLink (G.keys ring.now) text.now) }
    ensures err { IfErr result (IsTextFault (G.keys ring.now) text.now) }
{
    let verified = verify_any(alloc, ring, text.0.as_slice(), MAX_SIGNED_TEXT)?;
    let entry = decode(alloc, &verified.payload)?;
    if entry.platform != verified.platform {
        return Err(TextFault::Signer);
    }
    let name = checksum(text.0.as_slice());
    let text = text.copy(alloc)?;
    Ok(ChainLink { text, name, entry })
}
