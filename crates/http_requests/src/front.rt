//! What stands at the front of the bytes that were read.

use http_heads::{Route, Status};

/// What stands at the front of the bytes that were read.
#[derive(Clone, Copy, Debug, PartialEq, Eq)]
pub enum Front {
    /// No request: this status.
    Refused(Status),
    /// A head and its body, which stands from `start` to `end`.
    Whole {
        route: Route,
        start: usize,
        end: usize,
        keeps: bool,
    },
}
