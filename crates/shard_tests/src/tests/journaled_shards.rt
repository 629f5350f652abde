//! Shards on disks in memory that fail at listed calls, and the name of the first of their bills.
mod bills;
mod damage;
mod failures;
mod full;
mod runs;
mod scenes;
