//! A ring that fails to sign: nothing is written or sent, and the same request is taken later.
use super::asking::{ISSUE, SEND, acts, comes_to, platform, roster, sent_after, sign, starts};
use ebl_base::CallList;
use std::alloc::Global;
use std::process::Abort;
use std::test::Fail;
use test_signer::FailingRing;
use transfer_core::Shard;

// A shard of a platform whose ring fails at this call.
fn failing_at(alloc: Global, code: &str, call: u64) -> Result<Shard<FailingRing>, Fail> {
    let me = platform(code)?;
    let ring = FailingRing::derived(CallList::from_slice(alloc, &[call])?);
    Ok(Shard::new(alloc, me, roster(alloc)?, ring))
}

// The reply, how many messages are sent, and how many frames stand then.
const STARTS: [(&str, usize, usize); 3] = [("SIGN", 0, 0), ("RECE", 0, 1), ("DUPE", 0, 1)];

// The answer isn't signed.
fn tell_start<R: Abort>(
    rt: &R,
    alloc: Global,
    shard: &mut Shard<FailingRing>,
    body: &[u8],
) -> Result<(), Fail> {
    for row in &STARTS {
        let outcome = starts(alloc, shard, body)?;
        comes_to(rt, shard, outcome, *row);
    }
    Ok(())
}

#[test]
fn start(rt: HostRuntime) -> Result<(), Fail> {
    let body = sent_after(rt.alloc(), &[ISSUE])?;
    let mut shard = failing_at(rt.alloc(), "BETA", 0)?;
    let told = tell_start(&rt, rt.alloc(), &mut shard, body.as_slice());
    drop(shard);
    told
}

const TRANSFERS: [(&str, usize, usize); 2] = [("SIGN", 0, 2), ("DONE", 1, 3)];

// The bill is signed and issued. Then the entry is signed, and the manifest isn't.
fn tell_transfer<R: Abort>(
    rt: &R,
    alloc: Global,
    shard: &mut Shard<FailingRing>,
) -> Result<(), Fail> {
    sign(alloc, shard)?;
    drop(acts(alloc, shard, ISSUE)?);
    for row in &TRANSFERS {
        let outcome = acts(alloc, shard, SEND)?;
        comes_to(rt, shard, outcome, *row);
    }
    Ok(())
}

#[test]
fn transfer(rt: HostRuntime) -> Result<(), Fail> {
    let mut shard = failing_at(rt.alloc(), "ALPH", 1)?;
    let told = tell_transfer(&rt, rt.alloc(), &mut shard);
    drop(shard);
    told
}
