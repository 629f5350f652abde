//! How a bill is on one platform, as a holder is shown it.

use ebl_base::{Checksum, PlaceTag};
use title_fold::Title;

/// How a bill is on one platform, as a holder is shown it.
#[derive(Clone, Copy, Debug, PartialEq, Eq)]
pub struct View {
    /// The bill's name.
    pub bill: Checksum,
    /// Where the bill is by this platform's diary.
    pub place: PlaceTag,
    /// How many entries its known chain has.
    pub entries: u32,
    /// Its title there; none if and only if the bill is absent.
    pub title: Option<Title>,
}
