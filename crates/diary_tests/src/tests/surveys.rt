//! What a survey finds: nothing, a record that is lacking, or the first of two. The tables are cases, as `families`
//! says. Where a line doesn't say `unfit`, each of its steps may follow where the bill stands.
use super::families::assert_cases;
use super::making::{assert_text, bill_name, columns};
use std::alloc::Global;
use std::process::Abort;

// Of the last five, the first bill began at ALPH, the second was sent to BETA, the third came there; the fourth came
// back; the fifth was declined by BETA, regained and sent again.
const CONSISTENT: &str = "\
survey |consistent

survey ALPH BETA|consistent

ALPH 4|1|sign, issue|held - 2, Live ALPH/EXPORT, acts, signed
survey ALPH|consistent

ALPH 4|1|sign, issue|held - 2, Live ALPH/EXPORT, acts, signed
survey ALPH BETA|consistent

ALPH 4|1|sign, issue, parted u|parting - u, Live BETA/IMPORT, signed
survey ALPH BETA|consistent

ALPH 4|1|sign, issue, parted u, settled u|gone u, Live BETA/IMPORT, signed
BETA 4|1|begun-taken u|held u 0, Live BETA/IMPORT, acts, took u 1
survey ALPH BETA|consistent

ALPH 4|1|sign, issue, parted u, settled u, begun-taken u.u|held u.u 0, Live ALPH/EXPORT, acts, signed, took u.u 1
BETA 4|1|begun-taken u, parted u.u, settled u.u|gone u.u, Live ALPH/EXPORT, took u 1
survey ALPH BETA|consistent

ALPH 4|1|sign, issue, parted u, regained u, parted o, settled o|gone o, Live BETA/IMPORT, signed
BETA 4|1|declined u, begun-taken o|held o 0, Live BETA/IMPORT, acts, declined u BENV PARTY, took o 1
survey ALPH BETA|consistent";

#[test]
fn nothing_is_lacking(rt: HostRuntime) {
    assert_cases(&rt, rt.alloc(), CONSISTENT)
}

// A Taken; a Parted, twice; a Declined. A survey takes diaries that aren't sound, too: in the last case ALPH settled an
// entry after the bill had come back, which BETA never took, though it parted with the bill.
const LACKING: &str = "\
ALPH 4|1|sign, issue, parted u, settled u|gone u, Live BETA/IMPORT, signed
survey ALPH BETA|BETA lacks TAKEN of 1 u

BETA 4|1|begun-taken u|held u 0, Live BETA/IMPORT, acts, took u 1
survey ALPH BETA|ALPH lacks PARTED of 1 u

ALPH 4|1|sign, issue|held - 2, Live ALPH/EXPORT, acts, signed
BETA 4|1|begun-taken u|held u 0, Live BETA/IMPORT, acts, took u 1
survey ALPH BETA|ALPH lacks PARTED of 1 u

ALPH 4|1|sign, issue, parted u, regained u, parted o, settled o|gone o, Live BETA/IMPORT, signed
BETA 4|1|begun-taken o|held o 0, Live BETA/IMPORT, acts, took o 1
survey ALPH BETA|BETA lacks DECLINED of 1 u

ALPH 4|1|sign, issue, parted u, begun-taken u.u|held u.u 0, Live ALPH/EXPORT, acts, signed, took u.u 1
ALPH 4|1|settled u|unfit, held u.u 0, Live ALPH/EXPORT, acts, signed, took u.u 1
BETA 4|1|parted u.u|unfit, absent
survey ALPH BETA|BETA lacks TAKEN of 1 u";

#[test]
fn a_record_is_lacking(rt: HostRuntime) {
    assert_cases(&rt, rt.alloc(), LACKING)
}

// The first of two. ALPH lacks a record that BETA's diary needs, and BETA one that ALPH's needs: ALPH stands before
// BETA, and its diary is looked at first, though it is that of a later shard; then BETA stands before ALPH.
const PLATFORMS: &str = "\
BETA 2|5|begun-taken u|held u 0, Live BETA/IMPORT, acts, took u 1
ALPH 4|1|sign, issue, parted u, settled u|gone u, Live BETA/IMPORT, signed
survey ALPH BETA|BETA lacks TAKEN of 1 u

BETA 2|5|begun-taken u|held u 0, Live BETA/IMPORT, acts, took u 1
ALPH 4|1|sign, issue, parted u, settled u|gone u, Live BETA/IMPORT, signed
survey BETA ALPH|ALPH lacks PARTED of 5 u";

#[test]
fn the_earlier_platform_first(rt: HostRuntime) {
    assert_cases(&rt, rt.alloc(), PLATFORMS)
}

// Of two bills of which the same is lacking, that of the earlier shard, and in one diary that of the earlier frame; of
// one bill that of the earlier frame, too.
const BILLS: &str = "\
ALPH 2|5|sign, issue, parted u, settled u|gone u, Live BETA/IMPORT, signed
ALPH 4|1|sign, issue, parted u, settled u|gone u, Live BETA/IMPORT, signed
survey ALPH BETA|BETA lacks TAKEN of 5 u

ALPH 4|1|sign, issue, parted u, settled u|gone u, Live BETA/IMPORT, signed
ALPH 2|5|sign, issue, parted u, settled u|gone u, Live BETA/IMPORT, signed
survey ALPH BETA|BETA lacks TAKEN of 5 u

ALPH 2|5|sign, issue, parted u, settled u|gone u, Live BETA/IMPORT, signed
ALPH 2|8|sign, issue, parted u, settled u|gone u, Live BETA/IMPORT, signed
survey ALPH BETA|BETA lacks TAKEN of 5 u

ALPH 2|8|sign, issue, parted u, settled u|gone u, Live BETA/IMPORT, signed
ALPH 2|5|sign, issue, parted u, settled u|gone u, Live BETA/IMPORT, signed
survey ALPH BETA|BETA lacks TAKEN of 8 u

ALPH 4|1|sign, issue, parted u, regained u, parted o, settled o|gone o, Live BETA/IMPORT, signed
survey ALPH BETA|BETA lacks DECLINED of 1 u";

#[test]
fn the_earlier_shard_and_frame_first(rt: HostRuntime) {
    assert_cases(&rt, rt.alloc(), BILLS)
}

// Of a chain from its first entry on: ALPH took the chain back, and neither platform says that it parted.
const ENTRIES: &str = "\
ALPH 4|1|begun-taken u.u|held u.u 0, Live ALPH/EXPORT, acts, took u.u 1
survey ALPH BETA|ALPH lacks PARTED of 1 u

ALPH 4|1|sign, issue, parted u, settled u, begun-taken u.u|held u.u 0, Live ALPH/EXPORT, acts, signed, took u.u 1
BETA 4|1|begun-taken u|held u 0, Live BETA/IMPORT, acts, took u 1
survey ALPH BETA|BETA lacks PARTED of 1 u.u";

#[test]
fn the_earlier_entry_first(rt: HostRuntime) {
    assert_cases(&rt, rt.alloc(), ENTRIES)
}

// ---- shards

// The bills of the tests, and their shards by Python's hashlib.
const SHARDS: &str = "\
1|4
2|14
3|0
5|2
8|2";

fn assert_shard<R: Abort>(rt: &R, alloc: Global, row: &str) {
    let [bill, want, ..] = columns(row);
    let shard = bill_name(rt, alloc, bill).0[0] % 16;
    let seen = format!(in alloc; "{shard}").expect(rt, "no error");
    assert_text(rt, seen.as_str(), want, row);
}

#[test]
fn shards_of_bills(rt: HostRuntime) {
    for row in SHARDS.lines() {
        assert_shard(&rt, rt.alloc(), row);
    }
}

// Bills of the first shard and of later ones are looked at. Last, BETA took the bill, but wrote it down in the diary of
// another shard, where nobody looks for it.
const EACH_SHARD: &str = "\
ALPH 0|3|sign, issue, parted u, settled u|gone u, Live BETA/IMPORT, signed
BETA 0|3|begun-taken u|held u 0, Live BETA/IMPORT, acts, took u 1
survey ALPH BETA|consistent

ALPH 0|3|sign, issue, parted u, settled u|gone u, Live BETA/IMPORT, signed
survey ALPH BETA|BETA lacks TAKEN of 3 u

ALPH 2|5|sign, issue, parted u, settled u|gone u, Live BETA/IMPORT, signed
BETA 2|5|begun-taken u|held u 0, Live BETA/IMPORT, acts, took u 1
survey ALPH BETA|consistent

ALPH 2|5|sign, issue, parted u, settled u|gone u, Live BETA/IMPORT, signed
survey ALPH BETA|BETA lacks TAKEN of 5 u

ALPH 4|1|sign, issue, parted u, settled u|gone u, Live BETA/IMPORT, signed
BETA 4|1|begun-taken u|held u 0, Live BETA/IMPORT, acts, took u 1
survey ALPH BETA|consistent

ALPH 4|1|sign, issue, parted u, settled u|gone u, Live BETA/IMPORT, signed
survey ALPH BETA|BETA lacks TAKEN of 1 u

ALPH 14|2|sign, issue, parted u, settled u|gone u, Live BETA/IMPORT, signed
BETA 14|2|begun-taken u|held u 0, Live BETA/IMPORT, acts, took u 1
survey ALPH BETA|consistent

ALPH 14|2|sign, issue, parted u, settled u|gone u, Live BETA/IMPORT, signed
survey ALPH BETA|BETA lacks TAKEN of 2 u

ALPH 4|1|sign, issue, parted u, settled u|gone u, Live BETA/IMPORT, signed
BETA 5|1|begun-taken u|held u 0, Live BETA/IMPORT, acts, took u 1
survey ALPH BETA|BETA lacks TAKEN of 1 u";

#[test]
fn each_shard_is_looked_at(rt: HostRuntime) {
    assert_cases(&rt, rt.alloc(), EACH_SHARD)
}
