//! Why a table stays open.
/// Why a table was not closed.
#[derive(Clone, Copy, Debug, PartialEq, Eq)]
pub enum CloseFault {
    /// Another pass is out: it was made, and not joined.
    Passes,
    /// Memory ran out.
    NoMemory,
}
