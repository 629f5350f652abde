//! The keys that anybody can derive.
ghost use Rattle.std.specs.Prelude.{◌≡◌, ◌++◌, codes, Some};
ghost use Rattle.sha2.specs.Sha256.{sha256};
ghost use Rattle.ebl_base.specs.PlatformCode.{code_text};
ghost use Rattle.test_signer.specs.Keys.{derived_key, tag_of};

use crate::hmac::hmac_sha256;
use ebl_base::PlatformCode;
use sha2::{Digest, Sha256};

/// The tag of a platform's derived key for the input.
pub(crate) fn derived_tag(who: PlatformCode, input: &[u8]) -> [u8; 32]
    ensures { Some result ≡ tag_of (derived_key who) input.now }
{
    hmac_sha256(&derived_key(who), input)
}

fn derived_key(who: PlatformCode) -> [u8; 32]
    ensures { Some result ≡ derived_key who }
{
    let mut hasher = Sha256::new();
    hasher.update(b"EBL-TEST-KEY-".as_slice());
    hasher.update(who.as_bytes());
    hasher.finalize()
}
