//! What a head asks for.

use crate::route::Route;
use crate::status::Status;

/// What the head of a request asks for.
#[derive(Clone, Copy, Debug, PartialEq, Eq)]
pub enum Plan {
    /// This status, at once.
    Refuse(Status),
    /// A body of this length.
    Await {
        route: Route,
        /// At most [`MAX_BODY`](crate::MAX_BODY).
        length: u64,
        /// Whether the link may stay open after the reply.
        keeps: bool,
    },
}
