//! The text of a checksum, and the checksum with a text.
ghost use Rattle.std.specs.Prelude.{◌≡◌, ◌<◌, ◌↔◌, None, length, if◌then◌else◌, IsSome, IfSome};
ghost use Rattle.std.specs.List.{AllPass};
ghost use Rattle.hex.specs.Hex.{hex_digit_value};
ghost use Rattle.document_checksum.specs.Text.{checksum_text, checksum_of_text, is_lower_digit};

use ebl_base::Checksum;
use hex::encode_to_slice;

// The value of a digit in lower case.
fn digit_value(character: u8) -> Option<u8>
    ensures value { result ≡ (if is_lower_digit character then hex_digit_value character else None) }
    ensures small { IfSome result (λ value. value < 16) }
{
    match character {
        b'0'..=b'9' => Some(character - b'0'),
        b'a'..=b'f' => Some(character - b'a' + 10),
        _ => None,
    }
}

/// The text of a checksum: two hexadecimal digits for each byte, in lower case (RFC 4648, section 8).
///
/// Allocates nothing.
pub fn to_text(checksum: Checksum) -> [u8; 64]
    ensures { result ≡ checksum_text checksum }
{
    let mut text = [0; 64];
    encode_to_slice(checksum.0.as_slice(), &mut text).unwrap();
    text
}

/// The checksum with this text; `None` exactly when the text isn't 64 characters `0` to `9`, `a` to `f`.
///
/// Allocates nothing.
pub fn from_text(text: &[u8]) -> Option<Checksum>
    ensures form { IsSome result ↔ (length text.now ≡ 64) × AllPass is_lower_digit text.now }
    ensures value { result ≡ checksum_of_text text.now }
{
    if text.len() != 64 {
        return None;
    }
    let mut bytes = [0; 32];
    'bytes: for at in 0..32 {
        let high = digit_value(text[2 * at])?;
        let low = digit_value(text[2 * at + 1])?;
        bytes[at] = high * 16 + low;
    }
    Some(Checksum(bytes))
}
