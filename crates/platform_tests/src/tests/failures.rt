//! Disks and rings that fail at chosen calls of BETA's shard, and what the same start is answered then and later.
//!
//! The disk's calls 0, 1 and 2 open it; an append writes the frame, syncs, writes the gate, and syncs: calls 3 to 6.
use super::worlds::{Failing, answers};
use std::alloc::Global;
use std::process::Abort;
use std::test::Fail;

// The bill's line once BETA has taken it.
const AT_BETA: &str =
    r#"{"acts":["BETA"],"bill":1,"end":"BETA","entries":1,"forked":false,"holder":"BETA/IMPORT","possessor":"BETA/IMPORT","state":"LIVE"}
"#;

// The place of BETA's shard of the bill among the racks.
const BETA: usize = 20;

// What a start is answered at the events 5 and 6.
const DISK_5: &str = "{\"event\":5,\"reply\":\"DISK\",\"sent\":[]}\n";

const DISK_6: &str = "{\"event\":6,\"reply\":\"DISK\",\"sent\":[]}\n";

const RECEIVED_6: &str = "{\"event\":6,\"reply\":\"RECE\",\"sent\":[2],\"standing\":false}\n";

const DUPLICATE_6: &str = "{\"event\":6,\"reply\":\"DUPE\",\"sent\":[2],\"standing\":false}\n";

const RECEIVED_7: &str = "{\"event\":7,\"reply\":\"RECE\",\"sent\":[2],\"standing\":false}\n";

const SIGN_5: &str = "{\"event\":5,\"reply\":\"SIGN\",\"sent\":[]}\n";

// The call of the append that fails, whether its bytes go in, and the answer to the same start again.
const APPENDS: [(&[u64], &[u64], &str); 6] = [
    (&[3], &[], RECEIVED_6),
    (&[3], &[3], RECEIVED_6),
    (&[4], &[], RECEIVED_6),
    (&[5], &[5], DUPLICATE_6),
    (&[5], &[], RECEIVED_6),
    (&[6], &[], DUPLICATE_6),
];

fn append_row(
    rt: &(impl Abort + Alloc<A = Global>),
    calls: &'static [u64],
    written: &'static [u64],
    again: &str,
) -> Result<(), Fail> {
    let failing = Failing {
        place: BETA,
        calls,
        written,
        signs: &[],
    };
    let events = [("{\"deliver\":1}", DISK_5), ("{\"deliver\":1}", again)];
    answers(rt, failing, &events, AT_BETA)
}

#[test]
fn each_call_of_a_taken_append_fails(rt: HostRuntime) -> Result<(), Fail> {
    for (calls, written, again) in &APPENDS {
        append_row(&rt, calls, written, again)?;
    }
    Ok(())
}

#[test]
fn reading_fails_behind_an_append(rt: HostRuntime) -> Result<(), Fail> {
    let failing = Failing {
        place: BETA,
        calls: &[3, 4],
        written: &[],
        signs: &[],
    };
    let events = [
        ("{\"deliver\":1}", DISK_5),
        ("{\"deliver\":1}", DISK_6),
        ("{\"deliver\":1}", RECEIVED_7),
    ];
    answers(&rt, failing, &events, AT_BETA)
}

#[test]
fn a_ring_fails_once(rt: HostRuntime) -> Result<(), Fail> {
    let failing = Failing {
        place: BETA,
        calls: &[],
        written: &[],
        signs: &[0],
    };
    let events = [("{\"deliver\":1}", SIGN_5), ("{\"deliver\":1}", RECEIVED_6)];
    answers(&rt, failing, &events, AT_BETA)
}

// BETA has the bill, and its disk fails at a command, and again when its shard is read.
const LOOSE: [(&str, &str); 3] = [
    (
        r#"{"deliver":1}"#,
        r#"{"event":5,"reply":"RECE","sent":[2],"standing":false}
"#,
    ),
    (
        r#"{"at":"BETA","bill":1,"do":"SURRENDER_FOR_DELIVERY","party":"BETA/IMPORT"}"#,
        DISK_6,
    ),
    (
        r#"{"at":"BETA","bill":1,"ask":true}"#,
        r#"{"event":7,"reply":"DISK","sent":[]}
"#,
    ),
];

// Nobody may act as long as the shard is loose.
const NOBODY: &str =
    r#"{"acts":[],"bill":1,"end":"BETA","entries":1,"forked":false,"holder":"BETA/IMPORT","possessor":"BETA/IMPORT","state":"LIVE"}
"#;

#[test]
fn nobody_acts_on_a_loose_shard(rt: HostRuntime) -> Result<(), Fail> {
    let failing = Failing {
        place: BETA,
        calls: &[7, 8],
        written: &[],
        signs: &[],
    };
    answers(&rt, failing, &LOOSE, NOBODY)
}

// A platform starts again while its disk fails, and once more.
const STARTED: [(&str, &str); 4] = [
    (r#"{"deliver":1}"#, DISK_5),
    (r#"{"restart":"BETA"}"#, DISK_6),
    (
        r#"{"restart":"BETA"}"#,
        r#"{"event":7,"reply":"OPENED","sent":[]}
"#,
    ),
    (
        r#"{"deliver":1}"#,
        r#"{"event":8,"reply":"DUPE","sent":[2],"standing":false}
"#,
    ),
];

#[test]
fn a_start_fails_and_keeps_the_loose_frame(rt: HostRuntime) -> Result<(), Fail> {
    let failing = Failing {
        place: BETA,
        calls: &[5, 6],
        written: &[5],
        signs: &[],
    };
    answers(&rt, failing, &STARTED, AT_BETA)
}
