//! Signed texts.
ghost use Rattle.std.specs.Prelude.{◌≡◌, IfOk};

use crate::items::{ByteList, Copied, Items};
use crate::no_memory::NoMemory;
use crate::shared_items::SharedBytes;
use std::alloc::Global;

/// The bytes of a signed text (RFC 7515). Those of a text that was made or verified are in the compact layout (section
/// 7.1), so in ASCII; those of a text that was only read may be any. A copy has the same bytes in the same place.
#[derive(Debug, Drop)]
pub struct SignedText(pub SharedBytes);

/// Signed texts in their order.
pub type TextList = Items<SignedText>;

impl SignedText {
    /// The signed text of these bytes, which stay where they are.
    pub fn from_bytes(alloc: Global, bytes: ByteList) -> Result<Self, NoMemory>
        ensures { IfOk result (λ text. text.0 ≡ bytes) }
    {
        Ok(SignedText(SharedBytes::from_vec(alloc, bytes.into_vec())?))
    }
}

impl Copied for SignedText {
    fn copy(&self, alloc: Global) -> Result<Self, NoMemory> {
        Ok(SignedText(self.0.copy(alloc)?))
    }
}
