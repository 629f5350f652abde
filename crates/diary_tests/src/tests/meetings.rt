//! Where chains end, and how they meet.
use super::entries::{Sample, sample_of, samples};
use super::making::{THE_BILL, assert_text, columns};
use ebl_base::Chain;
use std::alloc::{AllocError, Global};
use std::process::Abort;
use transfer_chain::{dest, meet};

// Two chains, how they meet, and where the first one ends.
const MEETINGS: &str = "\
-|-|Equal, nowhere
-|u|FirstIsPrefix, nowhere
u|u.u|FirstIsPrefix, BETA
u.u|u.u.u|FirstIsPrefix, ALPH
u.u.u|u.u.u|Equal, BETA
u.u.u|u|SecondIsPrefix, BETA
u.u.u|o.u.u|Parts(0), BETA
u.u.u|u.o.u|Parts(1), BETA
u.u.u|u.u.o|Parts(2), BETA";

fn met(alloc: Global, first: &Chain, second: &Chain) -> Result<String, AllocError> {
    let meeting = meet(first, second);
    match dest(first) {
        Some(platform) => {
            let end = platform.as_str();
            format!(in alloc; "{meeting:?}, {end}")
        }
        None => format!(in alloc; "{meeting:?}, nowhere"),
    }
}

fn assert_row<R: Abort>(rt: &R, alloc: Global, samples: &[Sample], row: &str) {
    let [first, second, want, ..] = columns(row);
    let first = sample_of(rt, samples, THE_BILL, first);
    let second = sample_of(rt, samples, THE_BILL, second);
    let seen = met(alloc, &first.chain, &second.chain).expect(rt, "no error");
    assert_text(rt, seen.as_str(), want, row);
}

#[test]
fn how_chains_meet_and_where_they_end(rt: HostRuntime) {
    let samples = samples(&rt, rt.alloc());
    for row in MEETINGS.lines() {
        assert_row(&rt, rt.alloc(), &samples, row);
    }
}
