//! Why a frame was not written.
ghost use Rattle.std.specs.Prelude.{◌≡◌};
ghost use Rattle.journaled_shard.specs.declared.unwritten.Unwritten.TheVariants as why;

use ebl_base::NoMemory;

// Why a frame was not written down.
#[derive(Clone, Copy, Debug, PartialEq, Eq)]
pub(crate) enum Unwritten {
    // The journal has no room for it.
    Full,
    // The disk failed: the frame is loose.
    Disk,
    NoMemory,
}

impl From<NoMemory> for Unwritten {
    ghost from_gives = { λ _ e. e ≡ why.NoMemory };

    fn from(_: NoMemory) -> Unwritten {
        Unwritten::NoMemory
    }
}
