//! The line that sums a rehearsal up.
ghost use Rattle.std.specs.Prelude.{◌≡◌, [], ◌∷◌, ◌++◌, codes, map, sum_by, IfOk, OnOk};
ghost use Rattle.std.specs.List.{flat_map, list_any};
ghost use Rattle.canonical_json.specs.Value.{flag, object};
ghost use Rattle.canonical_json.specs.View.{member_view, members_of, view};
ghost use Rattle.json_forms.specs.Writing.{capped_value};
ghost use Rattle.answer_lines.specs.Lines.{members_line};
ghost use Rattle.answer_lines.specs.Row.{row_entries};
ghost use Rattle.platform_world.specs.Standing.{standing_in};
ghost use Rattle.platform_world.specs.State.{world_of};
ghost use Rattle.rehearsal.specs.Summary.{counted, replies_of, summary_members, times, totals_members};

use answer_lines::Row;
use bill_lines::Standing;
use canonical_json::{Json, Member};
use ebl_base::{ByteList, Checksum, NoMemory};
use json_forms::{number_member, object_json};
use platform_world::{Machine, World};
use std::alloc::Global;

// The words of all answers, in the order of names (RFC 8785, section 3.2.3).
const WORDS: [&str; 30] = [
    "BENV",
    "BSIG",
    "DAMAGED",
    "DISE",
    "DISK",
    "DOCUMENT",
    "DONE",
    "DUPE",
    "FULL",
    "IGNORED",
    "INCD",
    "KNOWN_BILL",
    "LIMIT",
    "MDOC",
    "NOT_ALLOWED",
    "NOT_CARRIER",
    "NOT_HERE",
    "NOT_OURS",
    "NOT_PARTING",
    "NO_BILL",
    "NO_MEMORY",
    "NO_MESSAGE",
    "NO_PARTY",
    "OPENED",
    "RECE",
    "SHOWN",
    "SIGN",
    "STARTED",
    "STORED",
    "UNKNOWN_REFERENCE",
];

/// The line of a rehearsal of so many bills that ended in this world, with the words of its answers.
///
/// It goes over the whole diaries of each bill's shards, and over the answers once for each word.
pub(crate) fn summary_line<M: Machine>(
    alloc: Global,
    bills: u64,
    world: &World<M>,
    answers: &[&'static str],
) -> Result<ByteList, NoMemory>
    ensures { IfOk result (λ line. line
        ≡ members_line (summary_members bills (world_of M.seen world.now) (map (λ a. a.now) answers.now))) }
{
    let standings = standings_of(alloc, world)?;
    let replies = replies_json(alloc, answers)?;
    let mut row = Row::new(alloc);
    put_totals(
        alloc,
        &mut row,
        bills,
        entries(standings.as_slice()),
        answers.len(),
    )?;
    put_fork(alloc, &mut row, forks(standings.as_slice()))?;
    row.put(alloc, "replies", replies)?;
    row.into_line(alloc)
}

fn put_totals(
    alloc: Global,
    row: &mut Row,
    bills: u64,
    entries: u64,
    events: usize,
) -> Result<(), NoMemory>
    ensures { OnOk result (row_entries row.new ≡ row_entries row.old ++ totals_members bills entries events) }
{
    row.put_number(alloc, "bills", bills)?;
    row.put_number(alloc, "entries", entries)?;
    row.put_number(alloc, "events", events as u64)
}

fn put_fork(alloc: Global, row: &mut Row, forked: bool) -> Result<(), NoMemory>
    ensures { OnOk result (row_entries row.new ≡ row_entries row.old ++ (codes "forked", flag forked) ∷ []) }
{
    row.put(alloc, "forked", Json::Flag(forked))
}

// How each bill that was signed stands.
fn standings_of<M: Machine>(alloc: Global, world: &World<M>) -> Result<Vec<Standing>, NoMemory>
    ensures { IfOk result (λ list. list.items
        ≡ map (standing_in (world_of M.seen world.now)) world.now.signed) }
{
    stand(alloc, world, world.signed())
}

fn stand<M: Machine>(
    alloc: Global,
    world: &World<M>,
    bills: &[Checksum],
) -> Result<Vec<Standing>, NoMemory>
    ensures { IfOk result (λ list. list.items ≡ map (standing_in (world_of M.seen world.now)) bills.now) }
{
    let mut list = Vec::with_capacity(alloc, bills.len())?;
    for bill in bills {
        list.push(world.standing(alloc, *bill)?)?;
    }
    Ok(list)
}

// The sum of the entries; one past 2^64 - 1 is that.
fn entries(standings: &[Standing]) -> u64
    ensures { capped_value result ≡ capped_value (sum_by (λ s. s.entries) standings.now) }
{
    let mut sum: u64 = 0;
    for standing in standings {
        sum = sum.saturating_add(standing.entries as u64);
    }
    sum
}

// Whether one is forked.
fn forks(standings: &[Standing]) -> bool
    ensures { result ≡ list_any (λ s. s.forked) standings.now }
{
    standings.iter().any(|standing| standing.forked)
}

// Each word that came, with how often.
fn replies_json(alloc: Global, answers: &[&'static str]) -> Result<Json, NoMemory>
    ensures { IfOk result (λ json. view json ≡ object (members_of (replies_of (map (λ a. a.now) answers.now)))) }
{
    Ok(object_json(counts(alloc, &WORDS, answers)?))
}

// Those of some words that came.
fn counts(
    alloc: Global,
    words: &[&'static str],
    answers: &[&'static str],
) -> Result<Vec<Member>, NoMemory>
    ensures { IfOk result (λ members. map member_view members.items
        ≡ flat_map (λ word. counted word (times (map (λ a. a.now) answers.now) word)) (map (λ w. w.now) words.now)) }
{
    let mut members = Vec::new(alloc);
    for word in words {
        put_count(alloc, &mut members, word, times(answers, word))?;
    }
    Ok(members)
}

// A word that came, with how often.
fn put_count(
    alloc: Global,
    members: &mut Vec<Member>,
    word: &str,
    count: usize,
) -> Result<(), NoMemory>
    ensures { OnOk result (map member_view members.new.items
        ≡ map member_view members.old.items ++ counted word.now count) }
{
    if count > 0 {
        members.push(number_member(alloc, word, count as u64)?)?;
    }
    Ok(())
}

// How often a word came.
fn times(answers: &[&'static str], word: &str) -> usize
    ensures { result ≡ times (map (λ a. a.now) answers.now) word.now }
{
    answers.iter().filter(|answer| **answer == word).count()
}
