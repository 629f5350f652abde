//! The transactions of bills.
use ebl_base::{Kind, Moment, Party, Transaction};

/// A transaction by the texts of its parties. None comes where one is no party's text, or the time is none.
pub(crate) fn transaction(
    kind: Kind,
    actor: &str,
    recipient: Option<&str>,
    time: u64,
) -> Option<Transaction> {
    let recipient = match recipient {
        Some(text) => Some(Party::from_text(text.as_bytes())?),
        None => None,
    };
    Some(Transaction {
        kind,
        actor: Party::from_text(actor.as_bytes())?,
        recipient,
        time: Moment::try_new(time)?,
    })
}
