//! A shard on a disk in memory of which a call fails.
use crate::asking::act;
use crate::outcomes::{body_in, done, word_of};
use disk_model::{Failures, MemoryDisk};
use ebl_base::{ByteList, CallList, Moment, PlatformCode};
use journaled_shard::JournaledShard;
use platform_requests::Request;
use sample_bills::roster;
use std::alloc::Global;
use test_signer::KeyedRing;

type Shard = JournaledShard<MemoryDisk, KeyedRing>;

/// A start that ALPH sends comes three times to BETA's shard, on a disk of which the call of this number fails. Each
/// reply is written.
pub(crate) fn fail_at(rt: &HostRuntime, call: u64) -> Option<()> {
    let body = body(rt.alloc())?;
    let told = start_at(rt, call, &body);
    drop(body);
    told
}

fn start_at(rt: &HostRuntime, call: u64, body: &ByteList) -> Option<()> {
    let mut beta = open(rt.alloc(), b"BETA", &[call])?;
    let told = start_thrice(rt, &mut beta, body);
    drop(beta);
    told
}

fn start_thrice(rt: &HostRuntime, beta: &mut Shard, body: &ByteList) -> Option<()> {
    for _ in 0..3 {
        let word = start(rt.alloc(), beta, body)?;
        println!(rt; "{word}").ok()?;
    }
    Some(())
}

fn start(alloc: Global, beta: &mut Shard, body: &ByteList) -> Option<&'static str> {
    let now = Moment::try_new(1000)?;
    let body = ByteList::from_slice(alloc, body.as_slice()).ok()?;
    Some(word_of(beta.take(alloc, now, Request::Start { body })))
}

// The body of the start with which ALPH hands a bill over to BETA.
fn body(alloc: Global) -> Option<ByteList> {
    let mut alph = open(alloc, b"ALPH", &[])?;
    let sent = send(alloc, &mut alph);
    drop(alph);
    sent
}

fn send(alloc: Global, alph: &mut Shard) -> Option<ByteList> {
    drop(act(alloc, alph, 1, 0)?);
    drop(act(alloc, alph, 1, 1)?);
    let (_, sent) = done(act(alloc, alph, 1, 2)?)?;
    body_in(sent)
}

// A platform's shard on a blank disk of which the listed calls fail, and the writes among them leave their bytes.
fn open(alloc: Global, code: &[u8], calls: &[u64]) -> Option<Shard> {
    let me = PlatformCode::try_new(code)?;
    let roster = roster(alloc)?;
    let Some(disk) = disk(alloc, calls) else {
        drop(roster);
        return None;
    };
    JournaledShard::open(alloc, me, roster, disk, KeyedRing::derived()).ok()
}

fn disk(alloc: Global, calls: &[u64]) -> Option<MemoryDisk> {
    let failures = failures(alloc, calls)?;
    MemoryDisk::new(alloc, ByteList::new(alloc), failures).ok()
}

fn failures(alloc: Global, calls: &[u64]) -> Option<Failures> {
    Some(Failures {
        calls: CallList::from_slice(alloc, calls).ok()?,
        written: CallList::from_slice(alloc, calls).ok()?,
    })
}
