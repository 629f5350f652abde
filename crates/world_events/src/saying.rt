//! The line of an event, and what it sends and signs.
ghost use Rattle.std.specs.Prelude.{◌≡◌, ◌++◌, ◌<◌, ◌≤◌, ◌^◌, IfOk, IfSome, OnErr, OnOk};
ghost use Rattle.std.specs.Option.{option_to_list};
ghost use Rattle.answer_lines.specs.Lines.{IsWritable, answer_line};
ghost use Rattle.document_checksum.specs.Digest.{IsChecksum};
ghost use Rattle.world_events.specs.Numbers.{number_shown, numbers_sent};

use crate::numbers::{number_shown, numbers_sent};
use crate::signed_bills::SignedBills;
use answer_lines::{Answer, Parcel, answer_line};
use ebl_base::{ByteList, Checksum, NoMemory};
use std::alloc::Global;

/// The line that answers the event of this number, where so many parcels were sent before it and so many after it, and
/// these bills were signed.
pub fn line_of(
    alloc: Global,
    n: u64,
    before: usize,
    after: usize,
    signed: &SignedBills,
    answer: &Answer,
) -> Result<ByteList, NoMemory>
    requires writable { IsWritable answer.now }
    requires sent { before ≤ after }
    requires few { after < 2 ^ 63 }
    ensures { IfOk result (λ line. line
        ≡ answer_line n (numbers_sent before after) (number_shown signed.now answer.now) answer.now) }
{
    let numbers = numbers_sent(alloc, before, after)?;
    let number = number_shown(signed, answer);
    answer_line(alloc, n, numbers.as_slice(), number, answer)
}

/// Puts parcels behind those that were sent. Out of memory, nothing changes.
pub fn send(sent: &mut Vec<Parcel>, parcels: Vec<Parcel>) -> Result<(), NoMemory>
    ensures ok { OnOk result (sent.new.items ≡ sent.old.items ++ parcels.items) }
    ensures err { OnErr result (sent.new.items ≡ sent.old.items) }
{
    let mut more = parcels;
    sent.append(&mut more)?;
    Ok(())
}

/// Puts a bill behind those that were signed, if there is one. Out of memory, nothing changes.
pub fn sign(signed: &mut SignedBills, bill: Option<Checksum>) -> Result<(), NoMemory>
    ensures ok { OnOk result (signed.new ≡ signed.old ++ option_to_list bill) }
    ensures err { OnErr result (signed.new ≡ signed.old) }
    ensures form { IfSome bill IsChecksum }
{
    match bill {
        Some(bill) => {
            is_checksum(bill);
            signed.push(bill)?;
            Ok(())
        }
        None => Ok(()),
    }
}

// Every checksum has 32 bytes.
fn is_checksum(checksum: Checksum)
    ensures { IsChecksum checksum }
{
    let _ = checksum.0.as_slice();
}
