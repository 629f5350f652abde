//! Transactions.
use crate::items::Items;
use crate::kind::Kind;
use crate::moment::Moment;
use crate::party::Party;

/// One act on a bill: who did what, for whom, and when.
#[derive(Clone, Copy, Debug, PartialEq, Eq)]
pub struct Transaction {
    pub kind: Kind,
    /// The party that acts.
    pub actor: Party,
    /// The party for whom it is done, where the kind has one.
    pub recipient: Option<Party>,
    pub time: Moment,
}

/// Transactions in the order in which they were made.
pub type TransactionList = Items<Transaction>;
