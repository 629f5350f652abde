//! What a shard is opened from, and gives back at its end.

/// A disk and a ring of keys: what a shard is opened from, and gives back at its end.
#[derive(Debug, Drop)]
pub struct Rack<D, G> {
    pub disk: D,
    pub ring: G,
}
