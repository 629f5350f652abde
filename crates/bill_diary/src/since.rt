//! The transactions that were made on a bill since its chain came.
ghost use Rattle.std.specs.Prelude.{◌≡◌, IfOk};
ghost use Rattle.bill_diary.specs.Place.{since};

use crate::record::Record;
use crate::record_ref::RecordRef;
use crate::walk::History;
use ebl_base::{Items, NoMemory, TransactionList};
use std::alloc::Global;

/// The transactions of Signed and Acted that stand after the last Taken, in the order in which they were made.
pub(crate) fn since(alloc: Global, mut h: History) -> Result<TransactionList, NoMemory>
    ensures { IfOk result (λ list. list ≡ since h.entry) }
{
    let mut newest_first = Vec::new(alloc);
    while let Some(record) = h.next() {
        match record {
            RecordRef::Kept(kept) => match kept {
                Record::Signed { transaction, .. } | Record::Acted { transaction, .. } =>
                    newest_first.push(*transaction)?,
                Record::Taken { .. } => break,
                _ => {}
            },
            RecordRef::Taken { .. } => break,
        }
    }
    newest_first.reverse();
    Ok(Items::from_vec(newest_first))
}
