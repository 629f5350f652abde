//! A failed call of the outside.

/// A call of the outside failed: a read, a write, a signature. The object that answers it counts it among its faults.
#[derive(Clone, Copy, Debug, PartialEq, Eq)]
pub struct Failed;
