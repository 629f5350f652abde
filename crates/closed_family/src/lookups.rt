//! Which records stand in the diaries of a family.
ghost use Rattle.std.specs.Prelude.{◌≡◌, find, option_copied};
ghost use Rattle.std.specs.List.{list_any};
ghost use Rattle.ebl_base.specs.PlatformCode.{code_eq};
ghost use Rattle.bill_diary.specs.History.{record_at};
ghost use Rattle.closed_family.specs.Family.{histories_of, history_in, shard_of};
ghost use Rattle.closed_family.specs.Lacking.{says};

use crate::index::MemberIndex;
use crate::verdict::Lack;
use bill_diary::{History, Record, RecordRef};
use ebl_base::{Checksum, PlatformCode};

/// Whether a platform's diary of the bill has the record that says this of an entry.
#[tactic(auto, using(crate::proofs::Searches::searches))]
pub(crate) fn stands(
    family: &[MemberIndex],
    platform: PlatformCode,
    bill: Checksum,
    what: Lack,
    entry: Checksum,
) -> bool
    ensures { result ≡ list_any (says what entry) (histories_of bill family.now platform) }
{
    match member_of(family, platform) {
        Some(member) => stands_in(member, bill, what, entry),
        None => false,
    }
}

// The member of a platform.
fn member_of<'a, 'b>(
    family: &'b [MemberIndex<'a>],
    platform: PlatformCode,
) -> Option<&'b MemberIndex<'a>>
    ensures { option_copied result ≡ find (λ m. code_eq m.platform platform) family.now }
{
    family.iter().find(|m| m.platform() == platform)
}

// The same in the diary of the bill's shard.
fn stands_in(member: &MemberIndex, bill: Checksum, what: Lack, entry: Checksum) -> bool
    ensures { result ≡ list_any (says what entry) (history_in bill member.now) }
{
    match member.diaries().get(shard_of(bill)) {
        Some(diary) => is_said(diary.history(bill), what, entry),
        None => false,
    }
}

/// The shard of a bill.
fn shard_of(bill: Checksum) -> usize
    ensures { result ≡ shard_of bill }
{
    (bill.0[0] % 16) as usize
}

// Whether a record of a history says this of the entry.
fn is_said(mut h: History, what: Lack, entry: Checksum) -> bool
    ensures { result ≡ list_any (says what entry) h.entry }
{
    while let Some(record) = h.next() {
        if says(record, what, entry) {
            return true;
        }
    }
    false
}

// Whether a record says this of an entry.
fn says(candidate: RecordRef, what: Lack, entry: Checksum) -> bool
    ensures { result ≡ says what entry (record_at candidate.entry) }
{
    match candidate {
        RecordRef::Kept(kept) => is_saying(kept, what, entry),
        RecordRef::Taken { entry: other, .. } => match what {
            Lack::Taken => other == entry,
            Lack::Parted | Lack::Declined => false,
        },
    }
}

fn is_saying(candidate: &Record, what: Lack, entry: Checksum) -> bool
    ensures { result ≡ says what entry candidate.now }
{
    match (what, candidate) {
        (Lack::Parted, Record::Parted { link, .. }) => link.name == entry,
        (Lack::Taken, Record::Taken { entry: other, .. }) => *other == entry,
        (Lack::Declined, Record::Declined { entry: other, .. }) => *other == entry,
        _ => false,
    }
}
