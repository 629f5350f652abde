//! The compact layout: a signed text's three parts.
ghost use Rattle.std.specs.Prelude.{◌≡◌, Ok, true, false, IfOk};
ghost use Rattle.signed_envelope.specs.Compact.{IsCompact, IsCompactText};
ghost use Rattle.signed_envelope.specs.declared.compact.Parts.{Parts};
ghost use Rattle.signed_envelope.specs.declared.fault.SplitFault.TheVariants.{NotCompact};

use crate::fault::SplitFault;
use crate::part::{cut, decoded};
use ebl_base::{ByteList, Copied, NoMemory, Signature};
use std::alloc::Global;

/// The parts of a signed text.
#[derive(Debug, Drop)]
pub struct Parts {
    /// The header's text, in JSON.
    pub header: ByteList,
    /// The payload's text, in JSON.
    pub payload: ByteList,
    pub signature: Signature,
    /// How many bytes of the text are signed: the first two parts and the full stop between them.
    pub input_len: usize,
}

impl Copied for Parts {
    fn copy(&self, alloc: Global) -> Result<Self, NoMemory> {
        let header = self.header.copy(alloc)?;
        let payload = self.payload.copy(alloc)?;
        Ok(Parts {
            header,
            payload,
            signature: self.signature,
            input_len: self.input_len,
        })
    }
}

/// The parts of a text in the compact layout of at most `most` bytes (RFC 7515, section 7.1).
///
/// It looks at each byte a few times.
pub fn split(alloc: Global, text: &[u8], most: usize) -> Result<Parts, SplitFault>
    ensures ok { IfOk result (λ parts. IsCompact most text.now parts) }
    ensures not_compact { result ≡ Err NotCompact → (parts : Parts) → ¬ IsCompact most text.now parts }
{
    if text.len() > most {
        return Err(SplitFault::NotCompact);
    }
    let Some((header, behind)) = cut(text) else {
        return Err(SplitFault::NotCompact);
    };
    let Some((payload, signature)) = cut(behind) else {
        return Err(SplitFault::NotCompact);
    };
    let input_len = header.len() + 1 + payload.len();
    let header = decoded(alloc, header)?;
    let payload = decoded(alloc, payload)?;
    let signature = decoded(alloc, signature)?;
    match Signature::try_new(signature.as_slice()) {
        Some(signature) => Ok(Parts {
            header,
            payload,
            signature,
            input_len,
        }),
        None => Err(SplitFault::NotCompact),
    }
}

/// Whether a text is in the compact layout within `most` bytes (RFC 7515, section 7.1). It decodes the parts.
pub fn is_compact(alloc: Global, text: &[u8], most: usize) -> Result<bool, NoMemory>
    ensures yes { result ≡ Ok true → IsCompactText most text.now }
    ensures no { result ≡ Ok false → ¬ IsCompactText most text.now }
{
    match split(alloc, text, most) {
        Ok(_) => Ok(true),
        Err(SplitFault::NotCompact) => Ok(false),
        Err(SplitFault::NoMemory) => Err(NoMemory),
    }
}
