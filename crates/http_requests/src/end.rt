//! How a session ended.

/// How a session ended. After `ReadFault`, `WriteFault` and `NoMemory` the link is of no more use.
#[derive(Clone, Copy, Debug, PartialEq, Eq)]
pub enum LinkEnd {
    /// The input ended between two requests, or a reply said that the link is closed.
    Closed,
    /// The input ended inside a request.
    Cut,
    /// A read failed.
    ReadFault,
    /// A write failed.
    WriteFault,
    /// As many replies were written as a session has at most, and the last one left the link open.
    Limit,
    /// Memory ran out.
    NoMemory,
}
