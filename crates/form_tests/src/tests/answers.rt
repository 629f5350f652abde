//! Responses sealed and unsealed under test keys.
ghost use Rattle.std.specs.Prelude.{◌≡◌, None};
ghost use Rattle.pint_responses.specs.Response.{IsSealable};

mod form;
mod largest;
mod rounds;

use ebl_base::{Checksum, ChecksumList, Code, Evidence, PlatformCode, Reason, SignedText};
use pint_responses::{Response, SealFault, UnsealFault, seal, unseal};
use std::alloc::Global;
use test_signer::KeyedRing;

// A response without evidence, which stands where it has names.
fn response(
    code: Code,
    reason: Option<Reason>,
    name: Option<Checksum>,
    missing: ChecksumList,
) -> Response
    ensures missing { result.missing ≡ missing }
    ensures own { result.evidence.own ≡ None }
    ensures theirs { result.evidence.theirs ≡ None }
{
    Response {
        code,
        bill: name,
        last: name,
        standing: name.is_some(),
        reason,
        missing,
        evidence: Evidence {
            own: None,
            theirs: None,
        },
    }
}

// A response, sealed by this platform.
fn sealed_by(alloc: Global, who: PlatformCode, r: &Response) -> Result<SignedText, SealFault>
    requires { IsSealable r.now }
{
    let mut ring = KeyedRing::derived();
    seal(alloc, &mut ring, who, r)
}

// The response that a text of this platform is.
fn unsealed(alloc: Global, who: PlatformCode, text: &[u8]) -> Result<Response, UnsealFault> {
    let ring = KeyedRing::derived();
    unseal(alloc, &ring, text, who)
}

// Why a text is none of this platform.
fn unseal_fault(alloc: Global, who: PlatformCode, text: &[u8]) -> Option<UnsealFault> {
    unsealed(alloc, who, text).err()
}
