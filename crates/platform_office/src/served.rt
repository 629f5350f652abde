//! What an office answers.
use platform_requests::Outcome;

/// What became of a request, at which shard, and how many frames the shard had.
#[derive(Debug, Drop)]
pub struct Served {
    pub outcome: Outcome,
    /// The shard's number, 0 to 15.
    pub shard: u32,
    /// The number of frames before this request's own, with a loose frame that was kept.
    pub before: u64,
    /// The number of frames afterwards.
    pub after: u64,
}
