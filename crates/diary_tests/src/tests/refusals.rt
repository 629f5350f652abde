//! What the check says of chains, and the first refusal that applies.
use super::entries::{checked, made, texts};
use super::making::{THE_BILL, assert_text, columns};
use ebl_base::Chain;
use std::alloc::{AllocError, Global};
use std::process::Abort;
use transfer_chain::{ChainRefusal, meet};

// A chain, as `entries` says; how many usual entries more it has; and what the check of its texts says: how the chain
// that is made meets the one that is found, with its length, or the refusal. Of 65 texts no signature is looked at.
const LENGTHS: &str = "\
-|0|Empty
u|0|Equal 1
u|63|Equal 64
u|64|TooLong
not-compact|64|TooLong";

// The samples that are good, those whose last transaction is refused, and one without its middle.
const SAMPLES: &str = "\
u.u|0|Equal 2
u.u.u|0|Equal 3
u.u.u.u|0|Equal 4
o|0|Equal 1
o.u|0|Equal 2
o.u.u|0|Equal 3
o.u.u.u|0|Equal 4
u.o|0|Equal 2
u.o.u|0|Equal 3
u.u.o|0|Equal 3
agent|0|Equal 1
ghost|0|Fold(0, 2, F7)
u.ghost|0|Fold(1, 0, F7)
u.u+lost.u|0|BrokenLink(1)";

// Each refusal, at the first entry and later.
const REFUSALS: &str = "\
not-compact.u.u|0|BadSignature(0, NotCompact)
u.u.wrong-key|0|BadSignature(2, Wrong)
no-entry.u.u|0|EntryForm(0, Platform)
u.no-entry.u|0|EntryForm(1, Platform)
other-signer.u.u|0|WrongSigner(0)
u.u.other-signer|0|WrongSigner(2)
link.u.u|0|BrokenLink(0)
u.u.link|0|BrokenLink(2)
bill.u.u|0|WrongBill(0)
u.bill.u|0|WrongBill(1)
carrier.u.u|0|Carrier
platform.u.u|0|WrongPlatform(0)
u.platform.u|0|WrongPlatform(1)
fold.u.u|0|Fold(0, 1, F6)
u.fold.u|0|Fold(1, 0, F7)
inside.u.u|0|Move(0)
u.u.inside|0|Move(2)
stays.u.u|0|Move(0)
u.stays.u|0|Move(1)";

// The first of two: texts before entries, earlier entries before later ones, and of one entry the first cause.
const PAIRS: &str = "\
fold.u.not-compact|0|BadSignature(2, NotCompact)
link.no-entry.u|0|EntryForm(1, Platform)
u.other-signer.not-compact|0|WrongSigner(1)
stays.link.u|0|Move(0)
u.link+bill.u|0|BrokenLink(1)
bill+carrier.u.u|0|WrongBill(0)
carrier+platform.u.u|0|Carrier
u.platform+fold.u|0|WrongPlatform(1)
u.fold+stays.u|0|Fold(1, 0, F7)";

fn put_more(entries: &mut String, more: u8) -> Result<(), AllocError> {
    for _ in 0..more {
        entries.push_str(".u")?;
    }
    Ok(())
}

fn longer<R: Abort>(rt: &R, alloc: Global, entries: &str, more: &str) -> String {
    let mut text = String::from_str(alloc, entries).expect(rt, "no error");
    put_more(&mut text, more.parse::<u8>().expect(rt, "no error")).expect(rt, "no error");
    text
}

fn equal(alloc: Global, made: &Chain, found: &Chain) -> Result<String, AllocError> {
    let meeting = meet(made, found);
    let length = found.len();
    format!(in alloc; "{meeting:?} {length}")
}

fn shown(
    alloc: Global,
    made: &Chain,
    seen: Result<Chain, ChainRefusal>,
) -> Result<String, AllocError> {
    match seen {
        Ok(found) => {
            let shown = equal(alloc, made, &found);
            drop(found);
            shown
        }
        Err(refusal) => format!(in alloc; "{refusal:?}"),
    }
}

// What is said of a chain.
fn said<R: Abort>(rt: &R, alloc: Global, entries: &str) -> String {
    let made = made(rt, alloc, THE_BILL, entries);
    let texts = texts(rt, alloc, made.as_slice(), entries);
    let said = shown(alloc, &made, checked(rt, alloc, &texts));
    drop(made);
    said.expect(rt, "no error")
}

fn assert_row<R: Abort>(rt: &R, alloc: Global, row: &str) {
    let [entries, more, want, ..] = columns(row);
    let entries = longer(rt, alloc, entries, more);
    let seen = said(rt, alloc, entries.as_str());
    assert_text(rt, seen.as_str(), want, row);
}

#[test]
fn what_the_check_says(rt: HostRuntime) {
    for table in [LENGTHS, SAMPLES, REFUSALS, PAIRS] {
        for row in table.lines() {
            assert_row(&rt, rt.alloc(), row);
        }
    }
}
