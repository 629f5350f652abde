//! Reads the frames of a journal from its bytes, from the front.
ghost use Rattle.std.specs.Prelude.{◌≡◌, ◌⊎◌, ◌+◌, ◌<◌, ◌≤◌, ◌^◌, ◌++◌, [], ◌∷◌, length, take, drop, IfOk, OnOk, IsErrOf, ℕ};
ghost use Rattle.bill_journal.specs.Frames.{length_bytes, RunsPast, IsDamagedAt, IsShut, IsFrame};
ghost use Rattle.bill_journal.specs.Places.{ReadsAs};

use crate::fault::OpenFault;
use crate::frame_at::{FrameAt, FrameBytes};
use ebl_base::{ByteList, Items, NoMemory};
use std::alloc::Global;

// What stands at a place where a gate should be.
#[derive(Clone, Copy, Debug, PartialEq, Eq)]
enum Ahead {
    // A gate that isn't 1: no frame more.
    End,
    // An open gate, and a frame whose content has so many bytes.
    Frame(usize),
    // Nothing, or an open gate and less than a frame.
    Broken,
}

// The frames of a journal, and the place of the gate that ends them.
pub(crate) fn read_frames(alloc: Global, bytes: &[u8]) -> Result<(FrameBytes, usize), OpenFault>
    ensures read { IfOk result (λ r. ReadsAs bytes.now r.0 r.1) }
    ensures within { IfOk result (λ r. r.1 < length bytes.now) }
    ensures damaged { (place : ℕ) → IsErrOf result (OpenFault.Damaged place) → IsDamagedAt bytes.now place }
    ensures no_disk { IsErrOf result OpenFault.Disk → ⊥ }
{
    if !matches!(bytes, [1, ..]) {
        return Err(OpenFault::Damaged(0));
    }
    let mut frames = Items::new(alloc);
    let mut place = 1;
    loop {
        match look_ahead(&bytes[place..]) {
            Ahead::End => return Ok((frames, place)),
            Ahead::Broken => return Err(OpenFault::Damaged(place as u64)),
            Ahead::Frame(len) => {
                push_frame(
                    alloc,
                    &mut frames,
                    place,
                    &bytes[place + 5..place + 5 + len],
                )?;
                place += 5 + len;
            }
        }
    }
}

fn push_frame(
    alloc: Global,
    frames: &mut FrameBytes,
    place: usize,
    content: &[u8],
) -> Result<(), NoMemory>
    ensures { OnOk result (frames.new ≡ frames.old ++ record { place = place; content = content.now } ∷ []) }
{
    let content = ByteList::from_slice(alloc, content)?;
    frames.push(FrameAt {
        place: place as u64,
        content,
    })
}

fn look_ahead(tail: &[u8]) -> Ahead
    ensures end { result ≡ Ahead.End → IsShut tail.now }
    ensures broken { result ≡ Ahead.Broken → (tail.now ≡ []) ⊎ RunsPast tail.now }
    ensures frame { (n : ℕ) → result ≡ Ahead.Frame n → IsFrame n tail.now }
    ensures fits { (n : ℕ) → result ≡ Ahead.Frame n → 5 + n ≤ length tail.now }
{
    match tail {
        [1, a, b, c, d, rest @ ..] => {
            let len = length_of(&[*a, *b, *c, *d]);
            if len <= rest.len() {
                Ahead::Frame(len)
            } else {
                Ahead::Broken
            }
        }
        [1, ..] | [] => Ahead::Broken,
        _ => Ahead::End,
    }
}

fn length_of(four: &[u8; 4]) -> usize
    ensures bytes { length_bytes result ≡ four.now }
    ensures short { result < 2 ^ 32 }
{
    u32::from_be_bytes(*four) as usize
}
