//! The parts of a text in the compact layout.
ghost use Rattle.std.specs.Prelude.{◌≡◌, ◌≢◌, ◌∷◌, ◌++◌, ◌==◌, ℕ, List, IfOk, IfSome, IfNone};
ghost use Rattle.std.specs.List.{position};
ghost use Rattle.base64.specs.GeneralPurpose.{IsBytes};
ghost use Rattle.signed_envelope.specs.Compact.{HasNoStop, base64url};
ghost use Rattle.signed_envelope.specs.declared.fault.SplitFault.TheVariants.{NotCompact};

use crate::fault::SplitFault;
use base64::DecodeAllocError;
use base64::engine::general_purpose::URL_SAFE_NO_PAD;
use ebl_base::ByteList;
use std::alloc::Global;

/// The bytes of a part in its one strict spelling.
#[tactic(auto, unfolding(crate::specs::Compact::base64url))]
pub(crate) fn decoded(alloc: Global, part: &[u8]) -> Result<ByteList, SplitFault>
    ensures ok { IfOk result (λ bytes. IsBytes bytes × (part.now ≡ base64url bytes)) }
    ensures other { result ≡ Err NotCompact → (bytes : List ℕ) → IsBytes bytes → part.now ≢ base64url bytes }
{
    match URL_SAFE_NO_PAD.decode(alloc, part) {
        Ok(bytes) => Ok(ByteList::from_vec(bytes)),
        Err(DecodeAllocError::OutOfMemory) => Err(SplitFault::NoMemory),
        Err(DecodeAllocError::DecodeError(_)) => Err(SplitFault::NotCompact),
    }
}

fn stop_of(text: &[u8]) -> Option<usize>
    ensures { result ≡ position (λ byte. byte == 46) text.now }
{
    text.iter().position(|byte| *byte == b'.')
}

/// What stands before and behind the first full stop.
pub(crate) fn cut(text: &[u8]) -> Option<(&[u8], &[u8])>
    ensures found { IfSome result (λ x. HasNoStop x.0.now × (text.now ≡ x.0.now ++ 46 ∷ x.1.now)) }
    ensures none { IfNone result (HasNoStop text.now) }
{
    let at = stop_of(text)?;
    Some((&text[..at], &text[at + 1..]))
}
