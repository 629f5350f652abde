//! HTTP with other programs: links served over sockets from a desk in memory, which interop/http_peers.py talks to; a
//! message to an address, for interop/http_exchange.py; and one link over standard input and output, which
//! bench/sessions.py measures.
#![tactic(auto)]

mod asking;
mod duplex;
mod outcomes;
mod same_desk;
mod serving;
mod session;

use asking::ask;
use ebl_edge::words;
use serving::serve;
use session::serve_input;
use std::io;
use std::process::ExitCode;

const USAGE: &str = "usage:
  http_trial serve ADDRESS LINKS [OUTCOME..]
    serves so many links, one after another, and writes how each ended. The desk gives these outcomes, one a request, as
    STARTED or UNKNOWN_REFERENCE, and UNKNOWN_REFERENCE behind the last. It knows the party BETA/IMPORT.
  http_trial ask ADDRESS start|put|finish SIZE
    sends a message with so many bytes, and writes the status of the reply and the length of its body
  http_trial session
    serves one link over standard input and output, from a desk that shows the same bill whatever it is asked";

fn main(rt: HostRuntime) -> ExitCode {
    let Ok(words) = words(&rt) else {
        return ExitCode::FAILURE;
    };
    match run(&rt, words.as_slice()) {
        Ok(true) => ExitCode::SUCCESS,
        Ok(false) => {
            let _ = eprintln!(rt; "{USAGE}");
            ExitCode::from(2)
        }
        Err(error) => {
            let _ = eprintln!(rt; "http_trial: {error}");
            ExitCode::FAILURE
        }
    }
}

// Whether the words were right.
fn run(rt: &HostRuntime, words: &[String]) -> io::Result<bool> {
    let [trial, rest @ ..] = words else {
        return Ok(false);
    };
    match trial.as_str() {
        "serve" => serve(rt, rest),
        "ask" => ask(rt, rest),
        "session" => serve_input(rt, rest),
        _ => Ok(false),
    }
}
