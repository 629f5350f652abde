//! Shards of a platform. One serves from a file and tells each answer as it is given: what tools/kill_shard.py kills
//! and bench/takes.py measures. One in memory has a disk that fails, for tools/refused_memory.py. And bills go from one
//! to another in memory: what bench/shards.py measures.
#![tactic(auto)]

mod asking;
mod failing;
mod outcomes;
mod pair;
mod serving;
mod texts;

use ebl_edge::words;
use failing::fail_at;
use pair::request_often;
use serving::on_file;
use std::alloc::Global;
use std::process::ExitCode;

const USAGE: &str = "usage:
  shard_trial serve FOLDER FILE COUNT    takes COUNT requests, and writes after each how many frames there are, and the
                                         reply: bills are signed, issued and sent to another platform, in turn
  shard_trial fill FOLDER FILE           attaches documents of 2 MB until the journal is full
  shard_trial fail CALL                  a start comes three times to a shard on a disk in memory of which this call
                                         fails: writes the replies
  shard_trial requests BILLS ROWS REQUESTS
                                         BILLS bills are signed at each of two platforms; then each of ROWS bills more
                                         is signed, issued, endorsed and transferred at the first, received at the
                                         second, and settled at the first: the first REQUESTS of these six
The first two open the journal first, and write how many frames it has.";

fn main(rt: HostRuntime) -> ExitCode {
    let Ok(words) = words(&rt) else {
        return ExitCode::FAILURE;
    };
    match run(&rt, words.as_slice()) {
        Some(true) => ExitCode::SUCCESS,
        Some(false) => {
            let _ = eprintln!(rt; "{USAGE}");
            ExitCode::from(2)
        }
        None => ExitCode::FAILURE,
    }
}

// Whether the words were right; none where the work failed.
fn run(rt: &HostRuntime, words: &[String]) -> Option<bool> {
    let [trial, rest @ ..] = words else {
        return Some(false);
    };
    match trial.as_str() {
        "serve" => serve(rt, rest),
        "fill" => fill(rt, rest),
        "fail" => fail(rt, rest),
        "requests" => requests(rt.alloc(), rest),
        _ => Some(false),
    }
}

fn number(word: &String) -> Option<u32> {
    word.as_str().parse().ok()
}

fn serve(rt: &HostRuntime, words: &[String]) -> Option<bool> {
    let [folder, file, count] = words else {
        return Some(false);
    };
    let Some(count) = number(count) else {
        return Some(false);
    };
    on_file(rt, folder.as_str(), file.as_str(), Some(count))?;
    Some(true)
}

fn fill(rt: &HostRuntime, words: &[String]) -> Option<bool> {
    let [folder, file] = words else {
        return Some(false);
    };
    on_file(rt, folder.as_str(), file.as_str(), None)?;
    Some(true)
}

fn fail(rt: &HostRuntime, words: &[String]) -> Option<bool> {
    let [call] = words else {
        return Some(false);
    };
    let Some(call) = number(call) else {
        return Some(false);
    };
    fail_at(rt, u64::from(call))?;
    Some(true)
}

fn requests(alloc: Global, words: &[String]) -> Option<bool> {
    let [bills, rows, requests] = words else {
        return Some(false);
    };
    let (Some(bills), Some(rows), Some(requests)) = (number(bills), number(rows), number(requests))
    else {
        return Some(false);
    };
    request_often(alloc, bills, rows, requests)?;
    Some(true)
}
