//! What the tests share, and the tests of each crate.
mod answers;
mod commands;
mod entries;
mod events;
mod lines;
mod making;
mod manifests;
mod replies;
mod requests;
mod uploads;
