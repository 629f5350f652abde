//! Commands after more transactions since the last entry than any plan lets come.
use super::making::{THE_BILL, assert_text, bill_name, code, columns, moment, roster, transaction};
use super::steps::{register, write_down};
use ebl_base::Party;
use holder_commands::Command;
use std::alloc::Global;
use std::process::Abort;
use title_register::Register;
use transfer_judge::{has_attempts, plan};

// At ALPH, after SIGN and ISSUE: so many transfers to the bank and back, the acts after them, an act that is asked for,
// and why it is refused, or `planned`.
//
// 32 transactions stand, then 31 with the surrender that is asked for, then 32. What accepts it is the last of all and
// may be the 32nd; what refuses it leaves room for a transfer.
const ROWS: &str = "\
15||to-importer|Limit(Transactions)
14|for-delivery|refuse|Limit(Transactions)
14|for-delivery|accept|planned
13|to-bank, bank-to-carrier, from-carrier, for-delivery|accept|Limit(Transactions)";

fn put_transfers<R: Abort>(rt: &R, alloc: Global, register: &mut Register, transfers: u8) {
    for _ in 0..transfers {
        write_down(rt, alloc, &[], THE_BILL, register, "to-bank, from-bank");
    }
}

// The register of SIGN, ISSUE, so many transfers to the bank and back, and these acts.
fn held<R: Abort>(rt: &R, alloc: Global, transfers: &str, acts: &str) -> Register {
    let mut register = register(rt, alloc, &[], THE_BILL, "sign, issue");
    put_transfers(
        rt,
        alloc,
        &mut register,
        transfers.parse::<u8>().expect(rt, "no error"),
    );
    write_down(rt, alloc, &[], THE_BILL, &mut register, acts);
    register
}

// What the plan of a command of a party is.
fn planned<R: Abort>(
    rt: &R,
    alloc: Global,
    register: &Register,
    by: Party,
    command: &Command,
) -> String {
    if !has_attempts(register, command) {
        panic!(rt; "too many attempts");
    }
    let (me, now) = (code(rt, "ALPH"), moment(rt));
    let roster = roster(rt, alloc);
    let plan = plan(alloc, register, &roster, me, by, command, now);
    drop(roster);
    match plan {
        Ok(planned) => {
            drop(planned);
            String::from_str(alloc, "planned").expect(rt, "no error")
        }
        Err(refusal) => format!(in alloc; "{refusal:?}").expect(rt, "no error"),
    }
}

// The same of an act that its actor asks for.
fn asked<R: Abort>(rt: &R, alloc: Global, register: &Register, act: &str) -> String {
    let transaction = transaction(rt, act);
    let command = Command::Act {
        bill: bill_name(rt, alloc, THE_BILL),
        kind: transaction.kind,
        recipient: transaction.recipient,
    };
    let planned = planned(rt, alloc, register, transaction.actor, &command);
    drop(command);
    planned
}

fn assert_row<R: Abort>(rt: &R, alloc: Global, row: &str) {
    let [transfers, acts, act, want, _] = columns(row);
    let register = held(rt, alloc, transfers, acts);
    let seen = asked(rt, alloc, &register, act);
    drop(register);
    assert_text(rt, seen.as_str(), want, row);
}

#[test]
fn more_transactions_than_a_plan_lets_come(rt: HostRuntime) {
    for row in ROWS.lines() {
        assert_row(&rt, rt.alloc(), row);
    }
}
