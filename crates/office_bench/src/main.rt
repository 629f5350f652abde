//! Two platforms' offices that threads share: bills are signed, issued and handed over, each thread settles another's,
//! and the diaries are surveyed at the end. bench/offices.py measures it, and tools/check_offices.py runs it over disks
//! that fail and that wait for one another.
#![tactic(auto)]

mod closing;
mod disks;
mod gated;
mod offices;
mod runs;
mod serving;
mod threads;

use closing::Found;
use disks::file_racks;
use ebl_edge::words;
use gated::Trouble;
use runs::{Size, in_memory, on_files};
use serving::Replies;
use std::process::ExitCode;

const USAGE: &str = "usage: office_bench LEVELS BILLS [FOLDER]
       office_bench failing LEVELS BILLS
       office_bench gated
  2^LEVELS threads, at most 16, share the offices of two platforms, on files in the folder or in memory. Each signs and
  issues BILLS bills, at most 65536, and hands them over to the other platform, and then settles those of another. What
  is written: how many requests were done, were refused, and met a fault of a disk, how many frames there are, and what
  the survey finds.
  failing: of one disk in memory twenty calls fail. gated: two threads with a bill each, of two shards; a write of the
  one waits until the other was served";

fn main(rt: HostRuntime) -> ExitCode {
    let Ok(words) = words(&rt) else {
        return ExitCode::FAILURE;
    };
    match read_words(words.as_slice()) {
        Some(Asked::InMemory(size, trouble)) => {
            tell(&rt, in_memory(&rt, rt.alloc(), size, trouble))
        }
        Some(Asked::OnFiles(size, folder)) => {
            let racks = file_racks(&rt, folder);
            tell(&rt, on_files(&rt, rt.alloc(), size, racks))
        }
        None => {
            let _ = eprintln!(rt; "{USAGE}");
            ExitCode::from(2)
        }
    }
}

fn tell(rt: &HostRuntime, told: Option<(Replies, Found)>) -> ExitCode {
    let Some((replies, found)) = told else {
        return ExitCode::FAILURE;
    };
    let Replies { done, disk, others } = replies;
    let Found { frames, verdict } = found;
    match println!(rt; "{done} done, {others} refused, {disk} failed; {frames} frames; {verdict}") {
        Ok(()) => ExitCode::SUCCESS,
        Err(_) => ExitCode::FAILURE,
    }
}

// What the words ask for.
#[derive(Clone, Copy)]
enum Asked<'a> {
    InMemory(Size, Trouble),
    OnFiles(Size, &'a str),
}

// Two threads with a bill each, which are of the shards 15 and 4.
const TWO: Size = Size {
    levels: 1,
    bills: 1,
};

fn read_words(words: &[String]) -> Option<Asked<'_>> {
    match words {
        [word] if word.as_str() == "gated" => Some(Asked::InMemory(TWO, Trouble::Gated)),
        [levels, bills] => in_memory_of(levels, bills, Trouble::Nothing),
        [word, levels, bills] if word.as_str() == "failing" => {
            in_memory_of(levels, bills, Trouble::Failing)
        }
        [levels, bills, folder] => on_files_of(levels, bills, folder),
        _ => None,
    }
}

fn in_memory_of<'a>(levels: &String, bills: &String, trouble: Trouble) -> Option<Asked<'a>> {
    Some(Asked::InMemory(size(levels, bills)?, trouble))
}

fn on_files_of<'a>(levels: &String, bills: &String, folder: &'a String) -> Option<Asked<'a>> {
    Some(Asked::OnFiles(size(levels, bills)?, folder.as_str()))
}

// The numbers that two words are, if they are as the usage says.
fn size(levels: &String, bills: &String) -> Option<Size> {
    let levels = levels.as_str().parse::<u32>().ok()?;
    let bills = bills.as_str().parse::<u32>().ok()?;
    if levels > 4 || bills > 65_536 {
        return None;
    }
    Some(Size { levels, bills })
}
