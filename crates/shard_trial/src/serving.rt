//! A shard on a file, and what it is asked by how many frames it has.
use crate::asking::{act, ask};
use crate::outcomes::word_of;
use disk_model::FileDisk;
use ebl_base::{ByteList, MAX_DOCUMENT_SIZE, PlatformCode};
use journaled_shard::JournaledShard;
use sample_bills::{attaching, bill, roster};
use std::alloc::Global;
use test_signer::KeyedRing;

type Shard = JournaledShard<FileDisk, KeyedRing>;

/// Opens ALPH's shard on the file, and writes how many frames it has. Then it takes so many requests, or attaches
/// documents where no number is given.
pub(crate) fn on_file(
    rt: &HostRuntime,
    folder: &str,
    file: &str,
    count: Option<u32>,
) -> Option<()> {
    let disk = FileDisk::open(rt, folder, file).ok()?;
    let mut shard = start(rt.alloc(), disk)?;
    let worked = work(rt, &mut shard, count);
    drop(shard);
    worked
}

fn work(rt: &HostRuntime, shard: &mut Shard, count: Option<u32>) -> Option<()> {
    println!(rt; "opened {}", shard.diary().as_slice().len()).ok()?;
    match count {
        Some(count) => serve(rt, shard, count),
        None => fill(rt.alloc(), shard),
    }
}

// The shard of ALPH whose diary is on a disk.
fn start(alloc: Global, disk: FileDisk) -> Option<Shard> {
    let me = PlatformCode::try_new(b"ALPH")?;
    let roster = roster(alloc)?;
    JournaledShard::open(alloc, me, roster, disk, KeyedRing::derived()).ok()
}

// Takes so many requests, each the one that follows the frames that are there; after each it writes how many frames
// there are now, and the reply.
fn serve(rt: &HostRuntime, shard: &mut Shard, count: u32) -> Option<()> {
    for _ in 0..count {
        let word = next(rt.alloc(), shard)?;
        println!(rt; "{} {word}", shard.diary().as_slice().len()).ok()?;
    }
    Some(())
}

// Each bill is signed, issued and sent to BETA.
fn next(alloc: Global, shard: &mut Shard) -> Option<&'static str> {
    let frames = u32::try_from(shard.diary().as_slice().len()).ok()?;
    Some(word_of(act(alloc, shard, frames / 3, frames % 3)?))
}

// Attaches documents of the greatest size, two to a bill, until the journal is full.
fn fill(alloc: Global, shard: &mut Shard) -> Option<()> {
    for number in 0..8 {
        drop(act(alloc, shard, number, 0)?);
        for first in 0..2 {
            match attach(alloc, shard, number, first)? {
                "DONE" => {}
                "FULL" => return Some(()),
                _ => return None,
            }
        }
    }
    Some(())
}

// The reply to a document of the greatest size that begins with this byte.
fn attach(alloc: Global, shard: &mut Shard, number: u32, first: u8) -> Option<&'static str> {
    let bill = bill(alloc, number)?;
    let bytes = document(alloc, first)?;
    let command = attaching(alloc, bill, bytes.as_slice());
    Some(word_of(ask(alloc, shard, "ALPH/CARRIER", command)?))
}

fn document(alloc: Global, first: u8) -> Option<ByteList> {
    let mut bytes = Vec::new(alloc);
    bytes.push(first).ok()?;
    bytes.resize(MAX_DOCUMENT_SIZE as usize, 0).ok()?;
    Some(ByteList::from_vec(bytes))
}
