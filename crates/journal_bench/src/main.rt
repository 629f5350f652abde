//! Appends to a journal on a file, and opens one: what bench/journal.py measures.
#![tactic(auto)]

ghost use Rattle.std.specs.Prelude.{◌≡◌, length, IfOk};

use bill_journal::{Framed, Journal};
use disk_model::FileDisk;
use ebl_base::{ByteList, NoMemory};
use ebl_edge::words;
use std::alloc::Global;
use std::process::ExitCode;

/// The most bytes of a content.
const MOST: usize = 16_777_216;

const USAGE: &str = "usage:
  journal_bench append FOLDER FILE SIZE COUNT    appends COUNT contents of SIZE bytes
  journal_bench open FOLDER FILE                 reads the journal, and writes how many frames it has";

fn main(rt: HostRuntime) -> ExitCode {
    match run(&rt) {
        Some(true) => ExitCode::SUCCESS,
        Some(false) => {
            let _ = eprintln!(rt; "{USAGE}");
            ExitCode::from(2)
        }
        None => ExitCode::FAILURE,
    }
}

// Whether the words were right; none where the work failed.
fn run(rt: &HostRuntime) -> Option<bool> {
    let words = words(rt).ok()?;
    match words.as_slice() {
        [word, folder, file, size, count] if word.as_str() == "append" => {
            let size = size.as_str().parse::<usize>().ok()?;
            let count = count.as_str().parse::<u32>().ok()?;
            append(rt, folder.as_str(), file.as_str(), size, count)?;
            Some(true)
        }
        [word, folder, file] if word.as_str() == "open" => {
            open(rt, folder.as_str(), file.as_str())?;
            Some(true)
        }
        _ => Some(false),
    }
}

fn append(rt: &HostRuntime, folder: &str, file: &str, size: usize, count: u32) -> Option<()> {
    if size > MOST {
        return None;
    }
    let content = zeros(rt.alloc(), size).ok()?;
    let frame = Framed::new(rt.alloc(), content.as_slice()).ok()?;
    let disk = FileDisk::open(rt, folder, file).ok()?;
    let (mut journal, _) = Journal::open(rt.alloc(), disk).ok()?;
    for _ in 0..count {
        journal.append(&frame, false).ok()?;
    }
    Some(())
}

fn zeros(alloc: Global, size: usize) -> Result<ByteList, NoMemory>
    ensures { IfOk result (λ bytes. length bytes ≡ size) }
{
    let mut bytes = Vec::new(alloc);
    bytes.resize(size, 0)?;
    Ok(ByteList::from_vec(bytes))
}

fn open(rt: &HostRuntime, folder: &str, file: &str) -> Option<()> {
    let disk = FileDisk::open(rt, folder, file).ok()?;
    let (_, frames) = Journal::open(rt.alloc(), disk).ok()?;
    println!(rt; "{}", frames.len()).ok()
}
