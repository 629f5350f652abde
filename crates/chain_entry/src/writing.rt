//! Entries and transactions as they are written: without further members, the names in order.
ghost use Rattle.std.specs.Prelude.{◌≡◌, [], IfOk, OnOk, codes};
ghost use Rattle.canonical_json.specs.Lawful.{IsLawful};
ghost use Rattle.canonical_json.specs.Value.{list, object};
ghost use Rattle.canonical_json.specs.View.{view, member_view, members_view};
ghost use Rattle.json_forms.specs.Writing.{each_written};
ghost use Rattle.chain_entry.specs.Writing.{transaction_value, entry_value};

use canonical_json::{Json, Member};
use ebl_base::{Entry, NoMemory, Transaction};
use json_forms::{
    checksum_member, list_json, member, number_member, object_json, party_member, platform_member,
    text_member,
};
use std::alloc::Global;

/// The written form of an entry: an object with `attempt`, `bill`, `platform`, `previous` where there is one, and
/// `transactions`. [`decode`](crate::decode) takes it when the entry is well-formed.
pub fn encode(alloc: Global, entry: &Entry) -> Result<Json, NoMemory>
    ensures value { IfOk result (λ json. view json ≡ entry_value entry.now) }
    ensures lawful { IfOk result (λ json. IsLawful (view json)) }
{
    let mut members = Vec::with_capacity(alloc, 5)?;
    put_entry(alloc, &mut members, entry)?;
    Ok(object_json(members))
}

// Puts the members of an entry into a list that has none.
fn put_entry(alloc: Global, members: &mut Vec<Member>, entry: &Entry) -> Result<(), NoMemory>
    requires empty { members.old.items ≡ [] }
    ensures { OnOk result (object (members_view members.new.items) ≡ entry_value entry.now) }
{
    members.push(number_member(alloc, "attempt", u64::from(entry.attempt))?)?;
    members.push(checksum_member(alloc, "bill", entry.bill)?)?;
    members.push(platform_member(alloc, "platform", entry.platform)?)?;
    if let Some(previous) = entry.previous {
        members.push(checksum_member(alloc, "previous", previous)?)?;
    }
    members.push(transactions_member(alloc, entry.transactions.as_slice())?)?;
    Ok(())
}

/// The written form of a transaction: an object with `actor`, `kind`, `recipient` where there is one, and `time`.
/// [`decode_transaction`](crate::decode_transaction) takes it when the transaction is well-formed.
pub fn encode_transaction(alloc: Global, transaction: &Transaction) -> Result<Json, NoMemory>
    ensures value { IfOk result (λ json. view json ≡ transaction_value transaction.now) }
    ensures lawful { IfOk result (λ json. IsLawful (view json)) }
{
    let mut members = Vec::with_capacity(alloc, 4)?;
    put_transaction(alloc, &mut members, transaction)?;
    Ok(object_json(members))
}

// Puts the members of a transaction into a list that has none.
fn put_transaction(
    alloc: Global,
    members: &mut Vec<Member>,
    transaction: &Transaction,
) -> Result<(), NoMemory>
    requires empty { members.old.items ≡ [] }
    ensures { OnOk result (object (members_view members.new.items) ≡ transaction_value transaction.now) }
{
    members.push(party_member(alloc, "actor", transaction.actor)?)?;
    members.push(text_member(alloc, "kind", transaction.kind.as_str())?)?;
    if let Some(recipient) = transaction.recipient {
        members.push(party_member(alloc, "recipient", recipient)?)?;
    }
    members.push(number_member(alloc, "time", transaction.time.number())?)?;
    Ok(())
}

fn transactions_member(alloc: Global, transactions: &[Transaction]) -> Result<Member, NoMemory>
    ensures { IfOk result (λ m. member_view m
        ≡ (codes "transactions", list (each_written transaction_value transactions.now))) }
{
    let mut items = Vec::with_capacity(alloc, transactions.len())?;
    for transaction in transactions {
        items.push(encode_transaction(alloc, transaction)?)?;
    }
    member(alloc, "transactions", list_json(items))
}
