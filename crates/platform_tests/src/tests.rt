//! Worlds on disks and with rings that fail, and what is honest.
mod failures;
mod honesty;
mod worlds;
