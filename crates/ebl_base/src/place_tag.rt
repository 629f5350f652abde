//! Where a bill is, on one platform.

/// Where a bill is, on one platform.
#[derive(Clone, Copy, Debug, PartialEq, Eq)]
pub enum PlaceTag {
    /// The platform doesn't know the bill.
    Absent,
    /// The platform holds the bill: unless it has ended, its possessor may act there.
    Held,
    /// The platform has sent the bill to another one, which hasn't answered for good.
    Parting,
    /// Another platform has received the bill from this one.
    Gone,
}
