//! The header of a signed text, as it is read.
ghost use Rattle.std.specs.Prelude.{◌≡◌, ◌++◌, codes, IfOk, IfErr, IfSome};
ghost use Rattle.canonical_json.specs.View.{view};
ghost use Rattle.ebl_base.specs.PlatformCode.{IsCode};
ghost use Rattle.signed_envelope.specs.Alg.{alg_text};
ghost use Rattle.signed_envelope.specs.Header.{header_text, names_alg, signer_of};
ghost use Rattle.signed_envelope.specs.Steps.{HasSigner, IsHeaderRefused};

use crate::alg::Alg;
use crate::fault::BadSigned;
use canonical_json::{Json, member_of, read_if_any, text_of};
use ebl_base::PlatformCode;
use std::alloc::Global;

/// The platform that a header names, under this algorithm.
pub(crate) fn signer(alloc: Global, alg: Alg, header: &[u8]) -> Result<PlatformCode, BadSigned>
    ensures ok { IfOk result (λ who. HasSigner alg header.now who) }
    ensures err { IfErr result (λ e. IsHeaderRefused alg header.now e) }
{
    if let Some(who) = written_signer(alg, header) {
        return Ok(who);
    }
    let Some(head) = read_if_any(alloc, header)? else {
        return Err(BadSigned::HeaderForm);
    };
    let Some(who) = named(alg, &head) else {
        return Err(BadSigned::HeaderForm);
    };
    if member_of(&head, "crit").is_some() {
        return Err(BadSigned::Critical);
    }
    Ok(who)
}

// The platform of a header that is written as `compose` writes it. Such a header needn't be read.
fn written_signer(alg: Alg, header: &[u8]) -> Option<PlatformCode>
    ensures { IfSome result (λ who. (header.now ≡ header_text alg who) × IsCode who) }
{
    let code = header.strip_prefix(front(alg))?.strip_suffix(b"\"}")?;
    PlatformCode::try_new(code)
}

// What stands before the platform in a header that `compose` writes.
fn front(alg: Alg) -> &'static [u8]
    ensures { result.now ≡ codes "{\"alg\":\"" ++ alg_text alg ++ codes "\",\"kid\":\"" }
{
    match alg {
        Alg::Hs256 => b"{\"alg\":\"HS256\",\"kid\":\"",
        Alg::Es256 => b"{\"alg\":\"ES256\",\"kid\":\"",
    }
}

fn named(alg: Alg, head: &Json) -> Option<PlatformCode>
    ensures { result ≡ signer_of alg (view head.now) }
{
    if !names_alg(alg, head) {
        return None;
    }
    let kid = text_of(head, "kid")?;
    PlatformCode::try_new(kid.as_str().as_bytes())
}

fn names_alg(alg: Alg, head: &Json) -> bool
    ensures { result ≡ names_alg alg (view head.now) }
{
    match text_of(head, "alg") {
        Some(text) => text.as_str() == alg.text(),
        None => false,
    }
}
