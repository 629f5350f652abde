//! The references of uploads, and their texts.
ghost use Rattle.std.specs.Prelude.{◌≡◌, ◌<◌, All, IfSome, length, slice_index, take};
ghost use Rattle.ebl_base.specs.Reference.{reference_of};
ghost use Rattle.upload_state.specs.Reference.{IsReference, reference_in, reference_text};

use ebl_base::{Checksum, Reference};
use uuid::Uuid;

/// The reference of an upload: byte 0 of the bill's name, then bytes 1 to 15 of the name of the last entry of its
/// chain.
pub fn reference_of(bill: Checksum, last: Checksum) -> Reference
    ensures value { result ≡ reference_of bill last }
    ensures form { IsReference result }
{
    let mut bytes = first_bytes(last.0.as_slice());
    bytes[0] = first_byte(bill.0.as_slice());
    Reference(bytes)
}

fn first_bytes(text: &[u8]) -> [u8; 16]
    requires { length text.now ≡ 32 }
    ensures value { result ≡ take 16 text.now }
    ensures bytes { All (λ b. b < 256) result }
{
    let mut bytes = [0; 16];
    bytes.copy_from_slice(&text[..16]);
    bytes
}

fn first_byte(text: &[u8]) -> u8
    requires { length text.now ≡ 32 }
    ensures value { result ≡ slice_index text.now 0 }
    ensures byte { result < 256 }
{
    text[0]
}

/// The text of a reference: 36 characters, lower case with hyphens (RFC 9562, section 4).
pub fn reference_text(reference: Reference) -> [u8; 36]
    ensures { result ≡ reference_text reference }
{
    let mut buffer = Uuid::encode_buffer();
    let chars = Uuid::from_bytes(reference.0)
        .hyphenated()
        .encode_lower(&mut buffer);
    let mut text = [0; 36];
    text.copy_from_slice(chars.as_bytes());
    text
}

/// The reference that a text is. None exactly when it is in none of the forms of a UUID: 32 hexadecimal digits; these
/// with hyphens, in 8, 4, 4, 4 and 12; so in braces; so behind `urn:uuid:`. Digits and that prefix are in either case.
pub fn reference_from(text: &[u8]) -> Option<Reference>
    ensures value { result ≡ reference_in text.now }
    ensures form { IfSome result (λ reference. IsReference reference) }
{
    match Uuid::try_parse_ascii(text) {
        Ok(id) => Some(Reference(id.into_bytes())),
        Err(_) => None,
    }
}
