//! Single shards: what they write down, and a ring that fails to sign.
mod asking;
mod signing;
mod writing;
