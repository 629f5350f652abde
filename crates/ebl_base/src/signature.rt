//! Signatures.
ghost use Rattle.std.specs.Prelude.{◌≡◌, ◌≤◌, length, IfSome};
ghost use Rattle.ebl_base.specs.Signature.{IsSignature, signature_of, signature_bytes};

use crate::front::put_text;

/// A signature: 1 to 64 bytes.
#[derive(Clone, Copy, Debug, PartialEq, Eq)]
pub struct Signature {
    // The bytes, and zeros behind them.
    bytes: [u8; 64],
    len: u8,
}

impl Signature {
    /// The most bytes of a signature.
    pub const MOST: usize = 64;

    /// The signature of these bytes; `None` if and only if they are none or more than 64.
    pub fn try_new(bytes: &[u8]) -> Option<Signature>
        ensures value { result ≡ signature_of bytes.now }
        ensures bytes { IfSome result (λ s. signature_bytes s ≡ bytes.now) }
        ensures form { IfSome result (λ s. IsSignature s) }
    {
        if bytes.is_empty() || bytes.len() > Signature::MOST {
            return None;
        }
        let mut room = [0; 64];
        put_text(&mut room, 0, bytes);
        Some(Signature {
            bytes: room,
            len: bytes.len() as u8,
        })
    }

    /// The bytes.
    pub fn as_bytes(&self) -> &[u8]
        ensures bytes { result.now ≡ signature_bytes self.now }
        ensures most { length result.now ≤ 64 }
    {
        &self.bytes[..(self.len as usize).min(Signature::MOST)]
    }
}
