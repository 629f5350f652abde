//! Electronic bills of lading on title platforms: the program.
#![tactic(auto)]

mod program;

use std::process::ExitCode;

fn main(rt: HostRuntime) -> ExitCode {
    program::run_program(&rt)
}
