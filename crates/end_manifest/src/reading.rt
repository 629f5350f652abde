//! The manifest that a text is, and the reason with which a chain's refusal is answered.
ghost use Rattle.std.specs.Prelude.{◌≡◌, ◌↔◌, IfErr, IfOk, IsTrue};
ghost use Rattle.end_manifest.specs.EndManifest.{AreNames, IsEndFault, IsManifestRefused, Manifests, reason_for};

use ebl_base::{ChainLink, Checksum, MAX_SIGNED_TEXT, Reason, SignedText};
use envelope_manifest::{Manifest, ManifestFault, decode};
use signed_envelope::{BadSigned, KeyRing, verify_text};
use std::alloc::Global;
use transfer_chain::ChainRefusal;

/// Why a text is not taken as the manifest of a chain.
#[derive(Clone, Copy, Debug)]
pub enum EndFault {
    /// It is refused for this reason.
    Refused(Reason),
    /// Memory ran out.
    NoMemory,
}

/// The reason with which a chain's refusal is answered; running out of memory has none.
pub fn reason_for(refusal: ChainRefusal) -> Option<Reason>
    ensures { result ≡ reason_for refusal }
{
    match refusal {
        ChainRefusal::Empty | ChainRefusal::TooLong => Some(Reason::Length),
        ChainRefusal::BadSignature(i, _) => Some(Reason::Signature(i)),
        ChainRefusal::EntryForm(i, _) => Some(Reason::Entry(i)),
        ChainRefusal::WrongSigner(i) => Some(Reason::Signer(i)),
        ChainRefusal::BrokenLink(i) => Some(Reason::Link(i)),
        ChainRefusal::WrongBill(i) => Some(Reason::Bill(i)),
        ChainRefusal::Carrier => Some(Reason::Carrier),
        ChainRefusal::WrongPlatform(i) => Some(Reason::Platform(i)),
        ChainRefusal::Fold(i, _, _) => Some(Reason::Fold(i)),
        ChainRefusal::Move(i) => Some(Reason::Move(i)),
        ChainRefusal::NoMemory => None,
    }
}

/// The manifest that a text is: signed by the platform of `end`, the last entry of its chain, and naming the bill and
/// that entry. `Refused` has the first reason that applies: `ManifestSignature` where that platform didn't sign it
/// within 16,384 bytes, `ManifestForm` where its payload is no manifest, `ManifestNames` where that names another bill
/// or entry.
pub fn read_manifest<G: KeyRing>(
    alloc: Global,
    ring: &G,
    bill: Checksum,
    end: &ChainLink,
    text: &SignedText,
) -> Result<Manifest, EndFault>
    ensures ok { IfOk result (Manifests (G.keys ring.now) bill end.now text.now) }
    ensures err { IfErr result (IsEndFault (IsManifestRefused (G.keys ring.now) bill end.now text.now)) }
{
    let payload = match verify_text(
        alloc,
        ring,
        text.0.as_slice(),
        end.entry.platform,
        MAX_SIGNED_TEXT,
    ) {
        Ok(payload) => payload,
        Err(BadSigned::NoMemory) => return Err(EndFault::NoMemory),
        Err(_) => return Err(EndFault::Refused(Reason::ManifestSignature)),
    };
    let manifest = match decode(alloc, &payload) {
        Ok(manifest) => manifest,
        Err(ManifestFault::NoMemory) => return Err(EndFault::NoMemory),
        Err(_) => return Err(EndFault::Refused(Reason::ManifestForm)),
    };
    if !are_names(bill, end, &manifest) {
        return Err(EndFault::Refused(Reason::ManifestNames));
    }
    Ok(manifest)
}

// Whether a manifest names this bill and the last entry.
fn are_names(bill: Checksum, end: &ChainLink, manifest: &Manifest) -> bool
    ensures { IsTrue result ↔ AreNames bill end.now manifest.now }
{
    manifest.bill == bill && manifest.last == end.name
}
