//! What is written down of what is answered: a chain that is received, one that is declined for good, and a document,
//! each once; and a start that comes to a shard by its desk.
use super::asking::{
    ENDORSE, ISSUE, comes_to, keyed, puts, sent_after, sent_with_document, starts, starts_at,
};
use ebl_base::Reference;
use platform_requests::{Outcome, Reply};
use std::alloc::Global;
use std::process::Abort;
use std::test::Fail;
use test_signer::KeyedRing;
use transfer_core::{Shard, ShardDesk};

// Each of these bodies comes twice, with these replies; so many frames stand in the diary after each.
fn tell_starts<R: Abort>(
    rt: &R,
    alloc: Global,
    shard: &mut Shard<KeyedRing>,
    rows: &[(&[u8], [&str; 2], usize)],
) -> Result<(), Fail> {
    for (body, [first, then], frames) in rows {
        tell_start(rt, alloc, shard, (body, first, *frames))?;
        tell_start(rt, alloc, shard, (body, then, *frames))?;
    }
    Ok(())
}

fn tell_start<R: Abort>(
    rt: &R,
    alloc: Global,
    shard: &mut Shard<KeyedRing>,
    (body, reply, frames): (&[u8], &str, usize),
) -> Result<(), Fail> {
    let outcome = starts(alloc, shard, body)?;
    comes_to(rt, shard, outcome, (reply, 0, frames));
    Ok(())
}

// The other chain isn't endorsed.
#[test]
fn frames_of_starts(rt: HostRuntime) -> Result<(), Fail> {
    let one = sent_after(rt.alloc(), &[ISSUE, ENDORSE])?;
    let other = sent_after(rt.alloc(), &[ISSUE])?;
    let rows = [
        (b"{}".as_slice(), ["BENV", "BENV"], 0),
        (one.as_slice(), ["RECE", "DUPE"], 1),
        (other.as_slice(), ["DISE", "DISE"], 2),
    ];
    tell_rows(&rt, rt.alloc(), &rows)
}

fn tell_rows<R: Abort>(
    rt: &R,
    alloc: Global,
    rows: &[(&[u8], [&str; 2], usize)],
) -> Result<(), Fail> {
    let mut shard = keyed(alloc, "BETA")?;
    let told = tell_starts(rt, alloc, &mut shard, rows);
    drop(shard);
    told
}

fn reference_of(outcome: &Outcome) -> Result<Reference, Fail> {
    match &outcome.reply {
        Reply::Started { reference, .. } => Ok(*reference),
        _ => Err("a transfer that is started".into()),
    }
}

// The start comes, and its document twice.
fn tell_document<R: Abort>(
    rt: &R,
    alloc: Global,
    shard: &mut Shard<KeyedRing>,
    body: &[u8],
) -> Result<(), Fail> {
    let started = starts(alloc, shard, body)?;
    let reference = reference_of(&started);
    comes_to(rt, shard, started, ("STARTED", 0, 1));
    tell_puts(rt, alloc, shard, reference?)
}

fn tell_puts<R: Abort>(
    rt: &R,
    alloc: Global,
    shard: &mut Shard<KeyedRing>,
    reference: Reference,
) -> Result<(), Fail> {
    for _ in 0..2 {
        let outcome = puts(alloc, shard, reference, b"abc")?;
        comes_to(rt, shard, outcome, ("STORED", 0, 2));
    }
    Ok(())
}

#[test]
fn frames_of_a_document(rt: HostRuntime) -> Result<(), Fail> {
    let body = sent_with_document(rt.alloc())?;
    let mut shard = keyed(rt.alloc(), "BETA")?;
    let told = tell_document(&rt, rt.alloc(), &mut shard, body.as_slice());
    drop(shard);
    told
}

fn tell_desk<R: Abort>(
    rt: &R,
    alloc: Global,
    desk: &mut ShardDesk<KeyedRing>,
    body: &[u8],
) -> Result<(), Fail> {
    let outcome = starts_at(alloc, desk, body)?;
    comes_to(rt, &desk.shard, outcome, ("RECE", 0, 1));
    Ok(())
}

#[test]
fn start_at_a_desk(rt: HostRuntime) -> Result<(), Fail> {
    let body = sent_after(rt.alloc(), &[ISSUE])?;
    let shard = keyed(rt.alloc(), "BETA")?;
    let mut desk = ShardDesk { shard };
    let told = tell_desk(&rt, rt.alloc(), &mut desk, body.as_slice());
    drop(desk);
    told
}
