//! Tags, and the signatures that they are.
ghost use Rattle.std.specs.Prelude.{◌≡◌, bytes_eq};
ghost use Rattle.ebl_base.specs.Signature.{IsSignature, signature_bytes};

use ebl_base::Signature;

/// The signature that is this tag.
pub(crate) fn signature_of(tag: &[u8; 32]) -> Signature
    ensures bytes { signature_bytes result ≡ tag.now }
    ensures form { IsSignature result }
{
    Signature::try_new(tag).unwrap()
}

/// Whether two tags are equal. Where they are of one length it goes through all bytes, so that its time doesn't tell
/// which byte differs, as far as the shape of the code goes: no claim is proved of it.
pub(crate) fn are_equal(tag: &[u8], other: &[u8]) -> bool
    ensures { result ≡ bytes_eq tag.now other.now }
{
    if tag.len() != other.len() {
        return false;
    }
    let mut difference = 0;
    for (i, byte) in tag.iter().enumerate() {
        difference |= *byte ^ other[i];
    }
    difference == 0
}
