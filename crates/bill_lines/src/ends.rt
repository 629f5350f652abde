//! Where a bill's longest accepted chain ends, what was recorded there since, and who may act.
ghost use Rattle.std.specs.Prelude.{◌≡◌, ◌++◌, [], None, find, option_copied, unwrap_or, IfOk};
ghost use Rattle.std.specs.Option.{option_map_or, option_or};
ghost use Rattle.std.specs.Result.{result_ok};
ghost use Rattle.title_fold.specs.Fold.{fold};
ghost use Rattle.bill_chain.specs.Chain.{destination, transactions_of};
ghost use Rattle.bill_diary.specs.Place.{place_of};
ghost use Rattle.closed_family.specs.Histories.{is_signed, signs};
ghost use Rattle.bill_diary.specs.History.{record_at};
ghost use Rattle.closed_family.specs.Safe.{front_of};
ghost use Rattle.bill_lines.specs.Bills.{acting, further_at, signed_on};
ghost use Rattle.bill_lines.specs.Diaries.{histories_in, platforms_in};

use crate::diaries::{PlatformDiary, history_on};
use crate::forks::is_same;
use bill_chain::{destination, fold_after_chain};
use bill_diary::{BillPlace, History, Record, RecordRef, may_act_by, place_of};
use ebl_base::{ChainLink, Checksum, Items, NoMemory, PlatformCode, Transaction, TransactionList};
use std::alloc::Global;
use title_fold::Title;

/// The platform where a chain ends; while it is empty, the one that signed the bill.
pub(crate) fn end_of(
    line: &[ChainLink],
    bill: Checksum,
    diaries: &[PlatformDiary],
) -> Option<PlatformCode>
    ensures { result ≡ option_or (destination line.now)
        (signed_on (histories_in bill diaries.now) (platforms_in diaries.now)) }
{
    match destination(line) {
        Some(p) => Some(p),
        None => signed_on(bill, diaries),
    }
}

// The first platform that signed the bill.
#[tactic(auto, using(crate::proofs::DiaryLists::signed_ones))]
fn signed_on(bill: Checksum, diaries: &[PlatformDiary]) -> Option<PlatformCode>
    ensures { result ≡ signed_on (histories_in bill diaries.now) (platforms_in diaries.now) }
{
    match first_signed(bill, diaries) {
        Some(d) => Some(d.platform),
        None => None,
    }
}

fn first_signed<'a, 'b>(
    bill: Checksum,
    diaries: &'b [PlatformDiary<'a>],
) -> Option<&'b PlatformDiary<'a>>
    ensures { option_copied result
        ≡ find (λ d. is_signed (histories_in bill diaries.now d.platform)) diaries.now }
{
    diaries
        .iter()
        .find(|d| is_signed(history_on(diaries, bill, d.platform)))
}

// Whether a Signed is left.
fn is_signed(mut h: History) -> bool
    ensures { result ≡ is_signed h.entry }
{
    while let Some(record) = h.next() {
        if signs(record) {
            return true;
        }
    }
    false
}

fn signs(candidate: RecordRef) -> bool
    ensures { result ≡ signs (record_at candidate.entry) }
{
    match candidate {
        RecordRef::Kept(kept) => match kept {
            Record::Signed { .. } => true,
            _ => false,
        },
        RecordRef::Taken { .. } => false,
    }
}

/// What was recorded on a platform since a chain: where the bill is held with that chain, the transactions since; where
/// it is parting with it, those of the parting entry but its last; else none.
pub(crate) fn further(
    alloc: Global,
    line: &[ChainLink],
    bill: Checksum,
    diaries: &[PlatformDiary],
    end: Option<PlatformCode>,
) -> Result<TransactionList, NoMemory>
    ensures { IfOk result (λ list. list ≡ further_at line.now
        (place_of (option_map_or (histories_in bill diaries.now) end []))) }
{
    match place_on(alloc, bill, diaries, end)? {
        BillPlace::Held { known, since } => if is_same(known.as_slice(), line) {
            Ok(since)
        } else {
            Ok(Items::new(alloc))
        },
        BillPlace::Parting { known, entry } => if is_same(known.as_slice(), line) {
            all_but_last(alloc, entry.entry.transactions.as_slice())
        } else {
            Ok(Items::new(alloc))
        },
        BillPlace::Absent => Ok(Items::new(alloc)),
        BillPlace::Gone { .. } => Ok(Items::new(alloc)),
    }
}

// The place of a bill on a platform, if there is one.
fn place_on(
    alloc: Global,
    bill: Checksum,
    diaries: &[PlatformDiary],
    p: Option<PlatformCode>,
) -> Result<BillPlace, NoMemory>
    ensures { IfOk result (λ place. place ≡ place_of (option_map_or (histories_in bill diaries.now) p [])) }
{
    match p {
        Some(p) => place_of(alloc, history_on(diaries, bill, p)),
        None => Ok(BillPlace::Absent),
    }
}

#[tactic(auto, using(crate::proofs::DiaryLists::diary_lists))]
fn all_but_last(alloc: Global, list: &[Transaction]) -> Result<TransactionList, NoMemory>
    ensures { IfOk result (λ front. front ≡ front_of list.now) }
{
    match list.split_last() {
        Some((_, front)) => Items::from_slice(alloc, front),
        None => Ok(Items::new(alloc)),
    }
}

/// The title after a chain and further transactions, if they fold to one.
pub(crate) fn title_after(line: &[ChainLink], further: &[Transaction]) -> Option<Title>
    ensures { result ≡ unwrap_or (result_ok (fold (transactions_of line.now ++ further.now))) None }
{
    match fold_after_chain(line, further) {
        Ok(title) => title,
        Err(_) => None,
    }
}

/// Those of the platforms on which somebody may act on the bill.
#[tactic(auto, using(crate::proofs::DiaryLists::diary_lists))]
pub(crate) fn acting(
    alloc: Global,
    bill: Checksum,
    diaries: &[PlatformDiary],
    platforms: &[PlatformCode],
) -> Result<Vec<PlatformCode>, NoMemory>
    ensures { IfOk result (λ list. list.items ≡ acting (histories_in bill diaries.now) platforms.now) }
{
    let mut list = Vec::new(alloc);
    for p in platforms {
        if may_act_by(alloc, history_on(diaries, bill, *p))? {
            list.push(*p)?;
        }
    }
    Ok(list)
}
