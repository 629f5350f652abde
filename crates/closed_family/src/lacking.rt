//! Which record a family lacks: one that another record needs.
ghost use Rattle.std.specs.Prelude.{◌≡◌, Some, IfOk};
ghost use Rattle.std.specs.List.{flat_map, list_any};
ghost use Rattle.bill_diary.specs.History.{bill_of, newest_first, record_at};
ghost use Rattle.bill_diary.specs.Known.{settled_chain, taken_chain};
ghost use Rattle.closed_family.specs.Family.{histories_of};
ghost use Rattle.closed_family.specs.Lacking.{says, first_of, unparted, unparted_of, unanswered_of, lacking_of, lacking_in, lacking, newest_lacks};

use crate::family::Family;
use crate::index::{MemberIndex, indexed};
use crate::lookups::stands;
use crate::verdict::Lack;
use bill_chain::{destination, last_link};
use bill_diary::{DiaryIndex, History, Record, RecordRef, settled_chain, taken_chain};
use ebl_base::{ChainLink, Checksum, Copied, NoMemory, PlatformCode, SignedText};
use std::alloc::Global;

/// A record that a platform's diary lacks.
#[derive(Debug, Drop)]
pub(crate) struct Lacking {
    pub(crate) platform: PlatformCode,
    /// What it would say.
    pub(crate) what: Lack,
    /// The text of the entry of which it would say so.
    pub(crate) text: SignedText,
}

// A platform lacks the record that says this of an entry.
fn of_entry(
    alloc: Global,
    platform: PlatformCode,
    what: Lack,
    link: &ChainLink,
) -> Result<Option<Lacking>, NoMemory>
    ensures { IfOk result (λ found. found ≡ Some (record { platform = platform; what = what; text = link.now.text })) }
{
    let text = link.text.copy(alloc)?;
    Ok(Some(Lacking {
        platform,
        what,
        text,
    }))
}

// The first Parted that a taken chain lacks.
fn first_unparted(
    alloc: Global,
    family: &[MemberIndex],
    bill: Checksum,
    chain: &[ChainLink],
) -> Result<Option<Lacking>, NoMemory>
    ensures { IfOk result (λ found. found ≡ first_of (unparted (histories_of bill family.now) chain.now)) }
{
    for link in chain {
        if !stands(family, link.entry.platform, bill, Lack::Parted, link.name) {
            return of_entry(alloc, link.entry.platform, Lack::Parted, link);
        }
    }
    Ok(None)
}

// What a chain that was answered lacks at its destination: that its last entry was taken, or declined.
fn unanswered(
    alloc: Global,
    family: &[MemberIndex],
    bill: Checksum,
    entry: Checksum,
    what: Lack,
    chain: &[ChainLink],
) -> Result<Option<Lacking>, NoMemory>
    ensures { IfOk result (λ found. found ≡ first_of (unanswered_of
        (λ p. list_any (says what entry) (histories_of bill family.now p)) what (Some chain.now))) }
{
    let Some(platform) = destination(chain) else {
        return Ok(None);
    };
    let Some(link) = last_link(chain) else {
        return Ok(None);
    };
    if stands(family, platform, bill, what, entry) {
        return Ok(None);
    }
    of_entry(alloc, platform, what, link)
}

// The same of the chain that the last Parted of an entry sent, with the records of the bill before the answer.
fn first_unanswered(
    alloc: Global,
    family: &[MemberIndex],
    before: History,
    bill: Checksum,
    entry: Checksum,
    what: Lack,
) -> Result<Option<Lacking>, NoMemory>
    ensures { IfOk result (λ found. found ≡ first_of (unanswered_of
        (λ p. list_any (says what entry) (histories_of bill family.now p)) what (settled_chain entry before.entry))) }
{
    match settled_chain(alloc, before, entry)? {
        Some(chain) => unanswered(alloc, family, bill, entry, what, chain.as_slice()),
        None => Ok(None),
    }
}

// The same of the chain of a Taken, with the records of the bill before it.
fn first_unparted_of(
    alloc: Global,
    family: &[MemberIndex],
    before: History,
    bill: Checksum,
    entry: Checksum,
) -> Result<Option<Lacking>, NoMemory>
    ensures { IfOk result (λ found. found ≡ first_of
        (unparted_of (histories_of bill family.now) (taken_chain entry before.entry))) }
{
    match taken_chain(before, entry) {
        Some(chain) => first_unparted(alloc, family, bill, chain.as_slice()),
        None => Ok(None),
    }
}

// The first that a record lacks, with the records of its bill before it.
fn first_needed(
    alloc: Global,
    family: &[MemberIndex],
    before: History,
    needy: RecordRef,
) -> Result<Option<Lacking>, NoMemory>
    ensures { IfOk result (λ found. found ≡ first_of
        (lacking_of (histories_of (bill_of (record_at needy.entry)) family.now) before.entry (record_at needy.entry))) }
{
    match needy {
        RecordRef::Kept(kept) => first_needed_by(alloc, family, before, kept),
        RecordRef::Taken { bill, entry } => first_unparted_of(alloc, family, before, bill, entry),
    }
}

fn first_needed_by(
    alloc: Global,
    family: &[MemberIndex],
    before: History,
    needy: &Record,
) -> Result<Option<Lacking>, NoMemory>
    ensures { IfOk result (λ found. found ≡ first_of
        (lacking_of (histories_of (bill_of needy.now) family.now) before.entry needy.now)) }
{
    match needy {
        Record::Taken { bill, entry } => first_unparted_of(alloc, family, before, *bill, *entry),
        Record::Settled { bill, entry } => first_unanswered(
            alloc,
            family,
            before,
            *bill,
            *entry,
            Lack::Taken,
        ),
        Record::Regained { bill, entry } => first_unanswered(
            alloc,
            family,
            before,
            *bill,
            *entry,
            Lack::Declined,
        ),
        _ => Ok(None),
    }
}

// The first that the newest record of a history lacks.
fn first_needed_last(
    alloc: Global,
    family: &[MemberIndex],
    mut until: History,
) -> Result<Option<Lacking>, NoMemory>
    ensures { IfOk result (λ found. found ≡ first_of (newest_lacks family.now until.entry)) }
{
    match until.next() {
        Some(newest) => first_needed(alloc, family, until, newest),
        None => Ok(None),
    }
}

// The first that a diary lacks. Of the two records of a frame the first is a Begun, which lacks nothing.
fn first_in_diary(
    alloc: Global,
    family: &[MemberIndex],
    diary: &DiaryIndex,
) -> Result<Option<Lacking>, NoMemory>
    ensures { IfOk result (λ found. found ≡ first_of (lacking_in family.now (newest_first diary.now))) }
{
    let frames = diary.frames();
    for (i, frame) in frames.iter().enumerate() {
        let until = diary.history_in_front(i + 1, frame.bill());
        if let Some(found) = first_needed_last(alloc, family, until)? {
            return Ok(Some(found));
        }
    }
    Ok(None)
}

// The first that the diaries of a member lack.
fn first_in_diaries(
    alloc: Global,
    family: &[MemberIndex],
    diaries: &[DiaryIndex],
) -> Result<Option<Lacking>, NoMemory>
    ensures { IfOk result (λ found. found ≡ first_of
        (flat_map (λ d. lacking_in family.now (newest_first d)) diaries.now)) }
{
    for diary in diaries {
        if let Some(found) = first_in_diary(alloc, family, diary)? {
            return Ok(Some(found));
        }
    }
    Ok(None)
}

// The first that some members lack, in a family.
fn first_in_members(alloc: Global, family: &[MemberIndex]) -> Result<Option<Lacking>, NoMemory>
    ensures { IfOk result (λ found. found ≡ first_of (lacking family.now)) }
{
    for member in family {
        if let Some(found) = first_in_diaries(alloc, family, member.diaries())? {
            return Ok(Some(found));
        }
    }
    Ok(None)
}

/// The first record that a family lacks, in the order of the family: by platform, shard, frame and record, and for a
/// chain from its first entry on.
///
/// For each Taken, Settled and Regained it goes over the records of its bill alone, those before it and those on the
/// platforms that it names: about n log n for n records, where no bill has many.
pub(crate) fn first_lacking(alloc: Global, family: &Family) -> Result<Option<Lacking>, NoMemory>
    ensures { IfOk result (λ found. found ≡ first_of (lacking family.now)) }
{
    let members = indexed(alloc, family)?;
    first_in_members(alloc, &members)
}
