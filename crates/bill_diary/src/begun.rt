//! The chain that came with a Begun.
ghost use Rattle.std.specs.Prelude.{◌≡◌, option_copied};
ghost use Rattle.bill_diary.specs.Known.{taken_chain};

use crate::record::Record;
use crate::record_ref::RecordRef;
use crate::walk::History;
use bill_chain::ends_in;
use ebl_base::{Chain, Checksum};

/// The chain of a Taken of this entry, with the records before it: that of the last Begun that ends in the entry.
pub fn taken_chain(mut before: History<'_>, entry: Checksum) -> Option<&Chain>
    ensures { option_copied result ≡ taken_chain entry before.entry }
{
    while let Some(record) = before.next() {
        if let RecordRef::Kept(Record::Begun { chain, .. }) = record {
            if ends_in(chain.as_slice(), entry) {
                return Some(chain);
            }
        }
    }
    None
}
