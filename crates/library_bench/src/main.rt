//! Single libraries in memory: checks of a chain, a register of many bills, surveys of families, and single calls again
//! and again: what bench/chains.py, bench/register.py, bench/surveys.py, bench/hot.py and bench/frames.py measure.
#![tactic(auto)]

mod acts;
mod bills;
mod calls;
mod chains;
mod families;
mod surveys;

use bills::register_bills;
use calls::{call_of, call_over};
use chains::check_chain;
use ebl_edge::words;
use std::alloc::Global;
use std::process::ExitCode;
use surveys::survey_family;

const USAGE: &str = "usage:
  library_bench chain ENTRIES TRANSACTIONS ROUNDS
    makes a good chain of ENTRIES entries of TRANSACTIONS transactions each, but at least three in the first, and checks
    it ROUNDS times
  library_bench register BILLS ROWS EVENTS ASKED ENTRIES
    BILLS bills are signed and issued; then, of each of ROWS bills among them, the first EVENTS of five frames are
    added: an endorsement, an entry that parts, its settling, a chain of ENTRIES entries by which the bill comes back,
    and an endorsement; and then ROWS times the look-up of number ASKED is asked, 0 for none
  library_bench survey BILLS SURVEYS
    BILLS bills, at most 65535, are signed, parted and settled at one platform and taken at another, all in diaries of
    one shard; then the family of the two is surveyed SURVEYS times
  library_bench call CALL FILE ROUNDS
    makes the call ROUNDS times over what FILE holds; CALL is one of checksum, read, write (JSON), entry_decode,
    entry_encode, manifest_decode, body_read, body_write, verify, seal, unseal, frame_read, frame_write";

fn main(rt: HostRuntime) -> ExitCode {
    let Ok(words) = words(&rt) else {
        return ExitCode::FAILURE;
    };
    match run(&rt, words.as_slice()) {
        Some(true) => ExitCode::SUCCESS,
        Some(false) => {
            let _ = eprintln!(rt; "{USAGE}");
            ExitCode::from(2)
        }
        None => ExitCode::FAILURE,
    }
}

// Whether the words were right; none where what they ask for could not be done.
fn run(rt: &HostRuntime, words: &[String]) -> Option<bool> {
    let [measurement, rest @ ..] = words else {
        return Some(false);
    };
    match measurement.as_str() {
        "chain" => chain(rt.alloc(), rest),
        "register" => register(rt.alloc(), rest),
        "survey" => survey(rt.alloc(), rest),
        "call" => call(rt, rest),
        _ => Some(false),
    }
}

fn number(word: &String) -> Option<u32> {
    word.as_str().parse().ok()
}

// Whether a call was done. What it gave is dropped.
fn done<T: Drop, E: Drop>(answer: Result<T, E>) -> bool {
    answer.is_ok()
}

fn chain(alloc: Global, words: &[String]) -> Option<bool> {
    let [entries, transactions, rounds] = words else {
        return Some(false);
    };
    let (Some(entries), Some(transactions), Some(rounds)) = (
        number(entries),
        number(transactions),
        number(rounds),
    ) else {
        return Some(false);
    };
    check_chain(alloc, entries, transactions as usize, rounds)?;
    Some(true)
}

fn register(alloc: Global, words: &[String]) -> Option<bool> {
    let [bills, rows, events, asked, entries] = words else {
        return Some(false);
    };
    let (Some(bills), Some(rows), Some(events), Some(asked), Ok(entries)) = (
        number(bills),
        number(rows),
        number(events),
        number(asked),
        entries.as_str().parse::<u8>(),
    ) else {
        return Some(false);
    };
    register_bills(alloc, bills, rows, events, asked, entries)?;
    Some(true)
}

fn survey(alloc: Global, words: &[String]) -> Option<bool> {
    let [bills, surveys] = words else {
        return Some(false);
    };
    let (Ok(bills), Some(surveys)) = (bills.as_str().parse::<u16>(), number(surveys)) else {
        return Some(false);
    };
    survey_family(alloc, bills, surveys)?;
    Some(true)
}

fn call(rt: &HostRuntime, words: &[String]) -> Option<bool> {
    let [word, file, rounds] = words else {
        return Some(false);
    };
    let (Some(call), Some(rounds)) = (call_of(word.as_str()), number(rounds)) else {
        return Some(false);
    };
    call_over(rt, call, file.as_str(), rounds)?;
    Some(true)
}
