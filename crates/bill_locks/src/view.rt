//! What a pass knows, as contracts see it. No value of these types is made: they are the views of a table's seats.
use std::collections::LinkedList;

/// What a pass knows of one value, and what it did there.
pub struct Mark<F> {
    /// The turn is with this pass.
    pub held: bool,
    /// The frames that it has seen: a beginning of the value's list.
    pub front: LinkedList<F>,
    /// The shorter of the two fronts at the last join.
    pub absorbed: LinkedList<F>,
    /// The numbers of the frames that it made.
    pub numbers: LinkedList<u64>,
    /// How many of its answers were faults of the disk.
    pub failed: u64,
    /// How many of its answers were faults of the ring.
    pub unsigned: u64,
    /// While it holds the turn: whether the value was loose when the turn began.
    pub loose: bool,
    /// While it holds the turn: the disk's count of faults when the turn began.
    pub disk: u64,
    /// While it holds the turn: the ring's count of faults when the turn began.
    pub ring: u64,
}

/// A value as it was when the table was made.
pub struct Opened<X> {
    /// What never changes of it, if there is such a value.
    pub fixed: Option<X>,
    /// The number of its frames.
    pub frames: u64,
    /// The disk's count of faults.
    pub disk: u64,
    /// The ring's count of faults.
    pub ring: u64,
}

/// What a pass knows.
pub struct View<F, X> {
    /// Its mark of each value, in the order of the values; a mark that isn't there is blank.
    pub marks: LinkedList<Mark<F>>,
    /// The values as they were at the opening.
    pub opened: LinkedList<Opened<X>>,
    /// For how many passes it stands: itself and those that were joined to it.
    pub stands: u64,
    /// How many passes it knows to have been made.
    pub known: u64,
    /// Its share of the table. All passes together have the whole, which is 2^63.
    pub share: u64,
    /// No other pass is out.
    pub alone: bool,
}
