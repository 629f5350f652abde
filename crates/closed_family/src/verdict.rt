//! What a survey of a family finds.
ghost use Rattle.std.specs.Prelude.{◌≡◌};
ghost use Rattle.closed_family.specs.Lack.{lack_text};

use ebl_base::{Checksum, Copied, NoMemory, PlatformCode, SignedText};
use std::alloc::Global;

/// What a platform has to say of an entry.
#[derive(Clone, Copy, Debug, PartialEq, Eq)]
pub enum Lack {
    /// That it parted with the bill by the entry.
    Parted,
    /// That it took the chain that ends in the entry.
    Taken,
    /// That it declined the entry for good.
    Declined,
}

impl Lack {
    /// `PARTED`, `TAKEN` or `DECLINED`.
    pub fn as_str(self) -> &'static str
        ensures { result.now ≡ lack_text self }
    {
        match self {
            Lack::Parted => "PARTED",
            Lack::Taken => "TAKEN",
            Lack::Declined => "DECLINED",
        }
    }
}

/// What a survey of a family finds, the first in the order of the family.
#[derive(Debug, Drop)]
pub enum Verdict {
    /// No two different texts share a name, and nothing is lacking. A sound family is closed then, and it is safe.
    Consistent,
    /// Two different texts of the family share this name.
    SameName(Checksum),
    /// A record of another platform needs one that this platform's diary lacks.
    Lacks {
        platform: PlatformCode,
        /// Which record it lacks.
        what: Lack,
        /// The text of the entry of which it is.
        text: SignedText,
    },
}

impl Copied for Verdict {
    fn copy(&self, alloc: Global) -> Result<Self, NoMemory> {
        match self {
            Verdict::Consistent => Ok(Verdict::Consistent),
            Verdict::SameName(name) => Ok(Verdict::SameName(*name)),
            Verdict::Lacks {
                platform,
                what,
                text,
            } => Ok(Verdict::Lacks {
                platform: *platform,
                what: *what,
                text: text.copy(alloc)?,
            }),
        }
    }
}
