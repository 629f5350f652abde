//! Signed texts as they are composed.
ghost use Rattle.std.specs.Prelude.{◌≡◌, ◌≤◌, ◌<◌, ◌+◌, ◌*◌, ◌++◌, ◌∷◌, [], length, IfOk, OnOk};
ghost use Rattle.std.specs.String.{string_bytes};
ghost use Rattle.canonical_json.specs.Canon.{canon};
ghost use Rattle.canonical_json.specs.Lawful.{IsLawful};
ghost use Rattle.canonical_json.specs.View.{view};
ghost use Rattle.ebl_base.specs.Faults.{Rose};
ghost use Rattle.ebl_base.specs.PlatformCode.{code_text};
ghost use Rattle.ebl_base.specs.declared.signature.Signature.{Signature};
ghost use Rattle.signed_envelope.specs.Compact.{base64url, signing_input};
ghost use Rattle.signed_envelope.specs.Header.{header_text};
ghost use Rattle.signed_envelope.specs.SignedText.{IsComposed, IsTooLong};
ghost use Rattle.signed_envelope.specs.declared.fault.ComposeFault.TheVariants.{Sign, TooLong};

use crate::alg::Alg;
use crate::fault::ComposeFault;
use crate::key_ring::KeyRing;
use base64::engine::general_purpose::URL_SAFE_NO_PAD;
use canonical_json::{Json, write};
use ebl_base::{ByteList, NoMemory, PlatformCode, SignedText};
use std::alloc::Global;

/// The text of a payload of this platform, signed by the ring, in at most `most` bytes.
///
/// Its header is `{"alg":"HS256","kid":"ALPH"}` with the ring's algorithm and the platform, its payload canonical.
/// Sign comes only when the ring's count of faults rose. TooLong comes only when the text with some signature that the
/// keys take as the platform's passes the limit: the one that the ring made, though no contract shows which that is. So
/// it comes only when the payload's canonical text is long, for a limit of 16,384 bytes more than 12,192.
pub fn compose<G: KeyRing>(
    alloc: Global,
    ring: &mut G,
    who: PlatformCode,
    payload: &Json,
    most: usize,
) -> Result<SignedText, ComposeFault>
    requires { IsLawful (view payload.now) }
    ensures ok { IfOk result (λ t. (s : Signature) × IsComposed (G.keys ring.old) t.0 who (view payload.now) s) }
    ensures fits { IfOk result (λ t. length t.0 ≤ most) }
    ensures sign { result ≡ Err Sign → Rose (G.faults ring.old) (G.faults ring.new) }
    ensures too_long { result ≡ Err TooLong → IsTooLong (G.keys ring.old) most who (view payload.now) }
    ensures long { result ≡ Err TooLong → 3 * most < 4 * length (canon (view payload.now)) + 380 }
    ensures later { G.faults ring.old ≤ G.faults ring.new }
    ensures same { G.keys ring.new ≡ G.keys ring.old }
{
    let mut text = input(alloc, ring.alg(), who, payload)?;
    let Ok(signature) = ring.sign(who, text.as_bytes()) else {
        return Err(ComposeFault::Sign);
    };
    push_part(&mut text, signature.as_bytes())?;
    if text.len() > most {
        return Err(ComposeFault::TooLong);
    }
    let bytes = ByteList::from_vec(text.into_bytes());
    Ok(SignedText::from_bytes(alloc, bytes)?)
}

// The text that is signed.
fn input(alloc: Global, alg: Alg, who: PlatformCode, payload: &Json) -> Result<String, NoMemory>
    ensures text { IfOk result (λ t. string_bytes t ≡ signing_input (header_text alg who) (canon (view payload.now))) }
    ensures code { IfOk result (λ t. length (code_text who) ≤ 4) }
{
    let header = header(alloc, alg, who)?;
    let payload = write(alloc, payload)?;
    let mut text = String::new(alloc);
    push_base64url(&mut text, header.as_slice())?;
    push_part(&mut text, payload.as_slice())?;
    Ok(text)
}

fn header(alloc: Global, alg: Alg, who: PlatformCode) -> Result<ByteList, NoMemory>
    ensures text { IfOk result (λ bytes. bytes ≡ header_text alg who) }
    ensures code { IfOk result (λ bytes. length (code_text who) ≤ 4) }
{
    let mut text = ByteList::from_slice(alloc, b"{\"alg\":\"")?;
    text.extend_from_slice(alg.text().as_bytes())?;
    text.extend_from_slice(b"\",\"kid\":\"")?;
    text.extend_from_slice(who.as_bytes())?;
    text.extend_from_slice(b"\"}")?;
    Ok(text)
}

// Puts a full stop and a part at the end.
fn push_part(text: &mut String, bytes: &[u8]) -> Result<(), NoMemory>
    ensures { OnOk result (string_bytes text.new ≡ string_bytes text.old ++ 46 ∷ base64url bytes.now) }
{
    text.push('.')?;
    push_base64url(text, bytes)
}

#[tactic(auto, unfolding(crate::specs::Compact::base64url))]
fn push_base64url(text: &mut String, bytes: &[u8]) -> Result<(), NoMemory>
    ensures { OnOk result (string_bytes text.new ≡ string_bytes text.old ++ base64url bytes.now) }
{
    URL_SAFE_NO_PAD.encode_string(bytes, text)?;
    Ok(())
}
