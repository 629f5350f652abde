//! Entries and transactions as they are read. Each member is looked up once.
ghost use Rattle.std.specs.Prelude.{◌≡◌, Ok, IfOk, IfErr, codes};
ghost use Rattle.canonical_json.specs.View.{view, items_view};
ghost use Rattle.json_forms.specs.Reading.{all_of, required_number};
ghost use Rattle.chain_entry.specs.Reading.{required_kind, required_time, transaction_of, transactions_of, entry_of, IsTransactionFault, IsFault};

use crate::fault::{EntryFault, EntryField};
use canonical_json::{Json, text_of};
use ebl_base::{
    Entry, Kind, MAX_ENTRY_TRANSACTIONS, Moment, NoMemory, Transaction, TransactionList,
};
use json_forms::{
    optional_checksum, optional_party, required_checksum, required_items, required_number,
    required_party, required_platform,
};
use std::alloc::Global;

/// The entry that a value is: an object with `platform`, `bill`, `previous`, `attempt` and `transactions`, each of
/// the form that [`EntryField`] says. Further members are ignored.
///
/// [`EntryFault::EntryForm`] names the first member that isn't so; `transactions` where one of the transactions
/// is malformed.
pub fn decode(alloc: Global, json: &Json) -> Result<Entry, EntryFault>
    ensures ok { IfOk result (λ entry. entry_of (view json.now) ≡ Ok entry) }
    ensures err { IfErr result (IsFault (entry_of (view json.now))) }
{
    let Some(platform) = required_platform(json, "platform") else {
        return Err(EntryFault::EntryForm(EntryField::Platform));
    };
    let Some(bill) = required_checksum(json, "bill") else {
        return Err(EntryFault::EntryForm(EntryField::Bill));
    };
    let Ok(previous) = optional_checksum(json, "previous") else {
        return Err(EntryFault::EntryForm(EntryField::Previous));
    };
    let Some(attempt) = required_attempt(json) else {
        return Err(EntryFault::EntryForm(EntryField::Attempt));
    };
    let Some(transactions) = transactions_of(alloc, json)? else {
        return Err(EntryFault::EntryForm(EntryField::Transactions));
    };
    Ok(Entry {
        platform,
        bill,
        previous,
        attempt,
        transactions,
    })
}

/// The transaction that a value is: an object with `kind`, the text of a kind; `actor`, a party; `recipient`, a
/// party or no such member; `time`, a whole number of at most 2^53 - 1. Further members are ignored. Allocates nothing.
///
/// [`EntryFault::EntryForm`] with `transactions` exactly when the value isn't so.
pub fn decode_transaction(json: &Json) -> Result<Transaction, EntryFault>
    ensures ok { IfOk result (λ t. transaction_of (view json.now) ≡ Some t) }
    ensures err { IfErr result (IsTransactionFault (transaction_of (view json.now))) }
{
    match transaction_of(json) {
        Some(transaction) => Ok(transaction),
        None => Err(EntryFault::EntryForm(EntryField::Transactions)),
    }
}

fn required_attempt(json: &Json) -> Option<u32>
    ensures { result ≡ required_number (codes "attempt") 1 4294967295 (view json.now) }
{
    match required_number(json, "attempt", 1, 4_294_967_295) {
        Some(number) => Some(number as u32),
        None => None,
    }
}

// The transactions of an entry, where there are 1 to 32 and all are well-formed.
fn transactions_of(alloc: Global, json: &Json) -> Result<Option<TransactionList>, NoMemory>
    ensures { IfOk result (λ found. found ≡ transactions_of (view json.now)) }
{
    match required_items(json, "transactions", 1, MAX_ENTRY_TRANSACTIONS) {
        Some(items) => transactions_in(alloc, items),
        None => Ok(None),
    }
}

// The transactions that the values are, where all of them are well-formed.
fn transactions_in(alloc: Global, items: &[Json]) -> Result<Option<TransactionList>, NoMemory>
    ensures { IfOk result (λ found. found ≡ all_of transaction_of (items_view items.now)) }
{
    let mut transactions = Vec::with_capacity(alloc, items.len())?;
    for item in items {
        let Some(transaction) = transaction_of(item) else {
            return Ok(None);
        };
        transactions.push(transaction)?;
    }
    Ok(Some(TransactionList::from_vec(transactions)))
}

fn transaction_of(json: &Json) -> Option<Transaction>
    ensures { result ≡ transaction_of (view json.now) }
{
    let kind = required_kind(json)?;
    let actor = required_party(json, "actor")?;
    let Ok(recipient) = optional_party(json, "recipient") else {
        return None;
    };
    let time = required_time(json)?;
    Some(Transaction {
        kind,
        actor,
        recipient,
        time,
    })
}

fn required_kind(json: &Json) -> Option<Kind>
    ensures { result ≡ required_kind (view json.now) }
{
    Kind::from_text(text_of(json, "kind")?.as_str().as_bytes())
}

fn required_time(json: &Json) -> Option<Moment>
    ensures { result ≡ required_time (view json.now) }
{
    Moment::try_new(required_number(json, "time", 0, Moment::LAST)?)
}
