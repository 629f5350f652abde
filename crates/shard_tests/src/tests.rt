//! Shards in memory and on disks, and offices.
mod journaled_shards;
mod offices;
mod single_shards;
