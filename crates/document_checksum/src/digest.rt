//! The checksum of a text.
ghost use Rattle.std.specs.Prelude.{◌≡◌};
ghost use Rattle.document_checksum.specs.Digest.{checksum_of};

use ebl_base::Checksum;
use sha2::{Digest, Sha256};

/// The SHA-256 checksum of a text of any length (FIPS 180-4, section 6.2), which is the text's name. Allocates nothing.
pub fn checksum(bytes: &[u8]) -> Checksum
    ensures { result ≡ checksum_of bytes.now }
{
    Checksum(Sha256::digest(bytes))
}
