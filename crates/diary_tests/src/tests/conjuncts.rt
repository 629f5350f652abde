//! For each promise of a safe family one that breaks it, and why no law reaches it: its survey finds a record that is
//! lacking, or a diary isn't sound, or a document was signed on two platforms. A line and its end are there for each
//! bill that was signed: they can't be broken. The tables are cases, as `families` says.
use super::entries::samples;
use super::families::assert_cases;
use super::making::{THE_BILL, bill_name};
use super::steps::register;
use std::alloc::Global;
use std::process::Abort;
use title_fold::{Title, moves};

// Nobody acts elsewhere, and the bill is held nowhere else. BETA took an entry with which ALPH never parted; then one
// that ALPH regained. Last, one document was signed on two platforms: each diary is sound, and nothing is lacking.
const TWO_ACT: &str = "\
ALPH 4|1|sign, issue|held - 2, Live ALPH/EXPORT, acts, signed
BETA 4|1|begun-taken u|held u 0, Live BETA/IMPORT, acts, took u 1
GAMM 4|1||absent
survey ALPH BETA GAMM|ALPH lacks PARTED of 1 u

ALPH 4|1|sign, issue, parted u, regained u|held - 2, Live ALPH/EXPORT, acts, signed
BETA 4|1|begun-taken u|held u 0, Live BETA/IMPORT, acts, took u 1
GAMM 4|1||absent
survey ALPH BETA GAMM|BETA lacks DECLINED of 1 u

ALPH 4|1|sign, issue|held - 2, Live ALPH/EXPORT, acts, signed
BETA 4|1|sign-at-beta|held - 1, Signed BETA/CARRIER, acts, signed
GAMM 4|1||absent
survey ALPH BETA GAMM|consistent";

#[test]
fn two_may_act(rt: HostRuntime) {
    assert_cases(&rt, rt.alloc(), TWO_ACT)
}

// Of two accepted chains one is a prefix of the other. BETA and GAMM hold the bill by chains that part at their first
// entries: ALPH parted with the bill again while it was parting; then after it had regained an entry that BETA didn't
// decline, but took.
const FORKS: &str = "\
ALPH 4|1|sign, issue, parted u|parting - u, Live BETA/IMPORT, signed
ALPH 4|1|parted agent|unfit, parting - agent, Live GAMM/AGENT, signed
BETA 4|1|begun-taken u|held u 0, Live BETA/IMPORT, acts, took u 1
GAMM 4|1|begun-taken agent|held agent 0, Live GAMM/AGENT, acts, took agent 1
survey ALPH BETA GAMM|consistent

ALPH 4|1|sign, issue, parted u, regained u|held - 2, Live ALPH/EXPORT, acts, signed
ALPH 4|1|parted agent|parting - agent, Live GAMM/AGENT, signed
BETA 4|1|begun-taken u|held u 0, Live BETA/IMPORT, acts, took u 1
GAMM 4|1|begun-taken agent|held agent 0, Live GAMM/AGENT, acts, took agent 1
survey ALPH BETA GAMM|BETA lacks DECLINED of 1 u";

#[test]
fn chains_fork(rt: HostRuntime) {
    assert_cases(&rt, rt.alloc(), FORKS)
}

// At the end of the line the bill is held or parting. ALPH let the bill go, and BETA didn't take it: nobody has it.
const NOBODY_HOLDS: &str = "\
ALPH 4|1|sign, issue, parted u, settled u|gone u, Live BETA/IMPORT, signed
BETA 4|1||absent
GAMM 4|1||absent
survey ALPH BETA GAMM|BETA lacks TAKEN of 1 u";

#[test]
fn nobody_holds_where_nobody_took(rt: HostRuntime) {
    assert_cases(&rt, rt.alloc(), NOBODY_HOLDS)
}

// The title there. A transaction that isn't taken, and a second Signed where the bill is held: there is no title. A
// transaction that moves, written down as one that stays: ALPH holds the bill, and its possessor is on BETA.
//
// A transaction that was made while the bill was parting breaks no promise, but no chain has it: by ALPH's
// transactions the bank has possession, as the last case shows, and by the chain that BETA took the importer.
const TITLES: &str = "\
ALPH 4|1|sign|held - 1, Signed ALPH/CARRIER, acts, signed
ALPH 4|1|issue-by-exporter|held - 2, untitled, acts, signed
survey ALPH BETA GAMM|consistent

ALPH 4|1|sign, issue|held - 2, Live ALPH/EXPORT, acts, signed
ALPH 4|1|sign|unfit, held - 3, untitled, acts, signed
survey ALPH BETA GAMM|consistent

ALPH 4|1|sign, issue|held - 2, Live ALPH/EXPORT, acts, signed
ALPH 4|1|to-importer|held - 3, Live BETA/IMPORT, acts, signed
survey ALPH BETA GAMM|consistent

ALPH 4|1|sign, issue, parted u|parting - u, Live BETA/IMPORT, signed
ALPH 4|1|to-bank|unfit, parting - u, Live BETA/IMPORT, signed
BETA 4|1|begun-taken u|held u 0, Live BETA/IMPORT, acts, took u 1
survey ALPH BETA GAMM|consistent

ALPH 4|1|sign, issue, to-bank|held - 3, Live ALPH/BANK, acts, signed
survey ALPH BETA GAMM|consistent";

#[test]
fn titles_at_the_end(rt: HostRuntime) {
    assert_cases(&rt, rt.alloc(), TITLES)
}

fn title_after<R: Abort>(rt: &R, alloc: Global, steps: &str) -> Option<Title> {
    let samples = samples(rt, alloc);
    let register = register(rt, alloc, &samples, THE_BILL, steps);
    let title = register.title(bill_name(rt, alloc, THE_BILL)).ok();
    drop(register);
    title.expect(rt, "folds")
}

// The transaction that is written down as one that stays moves the bill.
#[test]
fn the_transaction_moves(rt: HostRuntime) {
    let before = title_after(&rt, rt.alloc(), "sign, issue");
    let after = title_after(&rt, rt.alloc(), "sign, issue, to-importer").expect(&rt, "a title");
    assert!(rt; before.is_some() && moves(before, after));
}

// Each entry is taken once, and none is both taken and declined. GAMM took the entry that moves the bill to BETA. BETA
// took an entry that it had taken; declined one that it had taken; took one that it had declined.
const ANSWERS: &str = "\
ALPH 4|1|sign, issue, parted u, settled u|gone u, Live BETA/IMPORT, signed
BETA 4|1|begun-taken u|held u 0, Live BETA/IMPORT, acts, took u 1
GAMM 4|1|begun-taken u|held u 0, Live BETA/IMPORT, acts, took u 1
survey ALPH BETA GAMM|consistent

ALPH 4|1|sign, issue, parted u, settled u|gone u, Live BETA/IMPORT, signed
BETA 4|1|begun-taken u|held u 0, Live BETA/IMPORT, acts, took u 1
BETA 4|1|taken u|unfit, held u 0, Live BETA/IMPORT, acts, took u 2
survey ALPH BETA GAMM|consistent

ALPH 4|1|sign, issue, parted u, settled u|gone u, Live BETA/IMPORT, signed
BETA 4|1|begun-taken u|held u 0, Live BETA/IMPORT, acts, took u 1
BETA 4|1|declined u|unfit, held u 0, Live BETA/IMPORT, acts, took u 1, declined u BENV PARTY
survey ALPH BETA GAMM|consistent

ALPH 4|1|sign, issue, parted u, settled u|gone u, Live BETA/IMPORT, signed
BETA 4|1|declined u|absent, declined u BENV PARTY
BETA 4|1|begun-taken u|held u 0, Live BETA/IMPORT, acts, took u 1, declined u BENV PARTY
survey ALPH BETA GAMM|consistent";

#[test]
fn more_than_one_answer(rt: HostRuntime) {
    assert_cases(&rt, rt.alloc(), ANSWERS)
}
