//! Why there is no reply.

/// Why an exchange has no reply.
#[derive(Clone, Copy, Debug, PartialEq, Eq)]
pub enum ClientFault {
    /// A call of the link failed.
    Fault,
    /// What came isn't a reply: no head of a reply within 16,384 bytes and 64 fields; no length of its body is stated,
    /// or one past 4,194,304 bytes; or the input ended before the end of the reply.
    BadReply,
    /// Out of memory.
    NoMemory,
}
