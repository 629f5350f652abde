//! Where two chains of a bill differ.
ghost use Rattle.std.specs.Prelude.{◌≡◌, IfOk};

use crate::items::Copied;
use crate::no_memory::NoMemory;
use crate::signed_text::SignedText;
use std::alloc::Global;

/// The two entries at which chains of a bill first differ.
#[derive(Debug, Drop)]
pub struct Evidence {
    /// The entry of the chain that is known here; none if that chain is empty.
    pub own: Option<SignedText>,
    /// The entry of the chain that was shown.
    pub theirs: Option<SignedText>,
}

impl Copied for Evidence {
    fn copy(&self, alloc: Global) -> Result<Self, NoMemory> {
        let own = copy_of(alloc, &self.own)?;
        let theirs = copy_of(alloc, &self.theirs)?;
        Ok(Evidence { own, theirs })
    }
}

fn copy_of(alloc: Global, text: &Option<SignedText>) -> Result<Option<SignedText>, NoMemory>
    ensures { IfOk result (λ copy. copy ≡ text.now) }
{
    match text {
        Some(text) => Ok(Some(text.copy(alloc)?)),
        None => Ok(None),
    }
}
