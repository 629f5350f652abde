//! One shard of an office, as a value of turns.
ghost use Rattle.std.specs.Prelude.{◌≡◌, ◌⊎◌, ◌+◌, ◌<◌, ◌≤◌, ◌++◌, ◌∷◌, IfErr, IfOk, IfSome, List, None, Some, ℕ, All, is_some, length, take, true};
ghost use mathlib.Core.List.{IsPrefix};
ghost use Rattle.ebl_base.specs.Faults.{Rose};
ghost use Rattle.party_roster.specs.RosterForm.{IsRoster};
ghost use Rattle.platform_requests.specs.Request.{request_view};
ghost use Rattle.platform_requests.specs.Shard.{shard_of};
ghost use Rattle.bill_journal.specs.Frames.{front_of};
ghost use Rattle.journaled_diary.specs.Contents.{contents_in};
ghost use Rattle.platform_office.specs.Opening.{IsBack, IsDamagedShard, IsOpened, IsStray, rack_of};
ghost use Rattle.platform_office.specs.Post.{IsAtPost, IsInOrder, IsOfShard, post_of};
ghost use Rattle.platform_office.specs.Served.{IsServedBy, MayBeServed, is_disk, is_sign};

use crate::asking::{FRAMES, ask};
use crate::post::Post;
use crate::served::Served;
use bill_diary::{Diary, Frame};
use bill_journal::OpenFault;
use bill_locks::Grows;
use disk_model::Disk;
use ebl_base::{Items, Moment, NoMemory, PlatformCode};
use journaled_shard::{JournaledShard, Rack};
use party_roster::Roster;
use platform_requests::{Outcome, Reply, Request, shard_of_bill};
use record_bytes::frame_write;
use signed_envelope::KeyRing;
use std::alloc::Global;
use std::marker::Model;
use std::snapshot::Snapshot;

/// One shard of an office: a shard on its journal, at its post.
#[derive(Drop)]
pub struct OfficeShard<D: Disk, G: KeyRing> {
    shard: JournaledShard<D, G>,
    number: u32,
    // The rack from which it was opened, as it was then.
    rack: Snapshot<Rack<D, G>>,
}

impl<D: Disk, G: KeyRing> Model for OfficeShard<D, G> {
    ghost use Rattle.platform_office.specs.Post.{IsAtPost, OfficeShardRecord};

    ghost Value = { OfficeShardRecord D G };

    ghost view = { λ s. record { shard = s.shard; number = s.number; rack = s.rack.value } };

    ghost invariant = { λ s. IsAtPost D.tells G.keys D.seen D.may_leave
        (record { shard = s.shard; number = s.number; rack = s.rack.value }) };
}

impl<D: Disk, G: KeyRing> Grows for OfficeShard<D, G> {
    ghost use Rattle.std.specs.Prelude.{is_some};
    ghost use Rattle.platform_office.specs.Post.{post_of};

    type Frame = Frame;

    type Fixed = Post<D, G>;

    ghost fixed = { post_of };

    ghost list = { λ s. s.shard.written.diary };

    ghost loose = { λ s. is_some s.shard.written.loose };

    ghost disk = { λ s. D.faults s.shard.written.journal.disk };

    ghost ring = { λ s. G.faults s.shard.ring };

    fn frames(&self) -> u64 {
        self.shard.diary().len() as u64
    }
}

impl<D: Disk, G: KeyRing> OfficeShard<D, G> {
    /// The shard of this number whose diary the rack's disk stands for. Where it is refused, the rack comes back.
    pub(crate) fn open(
        alloc: Global,
        me: PlatformCode,
        roster: Roster,
        number: u32,
        rack: Rack<D, G>,
    ) -> Result<Self, (Rack<D, G>, OpenFault)>
        requires roster { IsRoster roster }
        ensures opened { IfOk result (IsOpened D.tells D.seen D.faults me roster number rack) }
        ensures back { IfErr result (λ r. IsBack D.tells D.seen D.faults rack r.0) }
        ensures failed { IfErr result (λ r. r.1 ≡ OpenFault.Disk → Rose (D.faults rack.disk) (D.faults r.0.disk)) }
        ensures damaged { (place : ℕ) → IfErr result (λ r. r.1 ≡ OpenFault.Damaged place → D.tells rack.disk ≡ true
            → IsDamagedShard roster (G.keys rack.ring) me number (D.seen rack.disk) place) }
    {
        let opened = Snapshot::of(&rack);
        let Rack { disk, ring } = rack;
        match JournaledShard::open(alloc, me, roster, disk, ring) {
            Ok(shard) => match stray(alloc, number, shard.diary().as_slice()) {
                None => Ok(at_post(shard, number, opened)),
                Some(fault) => Err((rack_of(shard), fault)),
            },
            Err((disk, ring, fault)) => Err((Rack { disk, ring }, fault)),
        }
    }

    /// Takes a request that goes to the shard of this number. At another shard it is refused as if memory ran out, and
    /// nothing changes.
    pub(crate) fn serve(
        &mut self,
        alloc: Global,
        number: u32,
        now: Moment,
        request: Request,
    ) -> Served
        requires may { MayBeServed now (request_view request) }
        requires goes { shard_of (request_view request) ≡ number }
        ensures fixed { post_of self.new ≡ post_of self.old }
        ensures served { IsServedBy D.tells G.keys (post_of self.old) now (request_view request)
            (take result.before self.new.shard.written.diary) self.new.shard.written.diary result.outcome }
        ensures shard { result.shard ≡ number }
        ensures grows { IsPrefix self.old.shard.written.diary self.new.shard.written.diary }
        ensures before { (result.before ≡ length self.old.shard.written.diary)
            ⊎ ((result.before ≡ length self.old.shard.written.diary + 1)
            × (is_some self.old.shard.written.loose ≡ true)) }
        ensures after { result.after ≡ length self.new.shard.written.diary }
        ensures one { (result.after ≡ result.before) ⊎ (result.after ≡ result.before + 1) }
        ensures loose { is_some self.new.shard.written.loose ≡ true → (is_disk result.outcome.reply ≡ true)
            ⊎ ((is_some self.old.shard.written.loose ≡ true)
            × (result.before ≡ length self.old.shard.written.diary)) }
        ensures later { G.faults self.old.shard.ring ≤ G.faults self.new.shard.ring }
        ensures later_disk { D.faults self.old.shard.written.journal.disk
            ≤ D.faults self.new.shard.written.journal.disk }
        ensures failed { is_disk result.outcome.reply ≡ true
            → Rose (D.faults self.old.shard.written.journal.disk) (D.faults self.new.shard.written.journal.disk) }
        ensures unsigned { is_sign result.outcome.reply ≡ true
            → Rose (G.faults self.old.shard.ring) (G.faults self.new.shard.ring) }
    {
        if number != self.number {
            let count = self.shard.diary().len() as u64;
            return Served {
                outcome: Outcome {
                    reply: Reply::NoMemory,
                    messages: Items::new(alloc),
                },
                shard: number,
                before: count,
                after: count,
            };
        }
        ask(alloc, number, &mut self.shard, now, request)
    }

    /// The disk and the ring.
    pub(crate) fn into_rack(self) -> Rack<D, G>
        ensures { result ≡ rack_of self }
    {
        rack_of(self.shard)
    }

    /// The disk and the ring, and the diary.
    pub(crate) fn close(self) -> (Rack<D, G>, Diary)
        ensures rack { result.0 ≡ rack_of self }
        ensures diary { result.1 ≡ self.shard.written.diary }
        ensures post { IsAtPost D.tells G.keys D.seen D.may_leave self }
    {
        let (disk, ring, diary) = self.shard.close_whole();
        (Rack { disk, ring }, diary)
    }
}

// A shard that is in order, at its post.
fn at_post<D: Disk, G: KeyRing>(
    shard: JournaledShard<D, G>,
    number: u32,
    rack: Snapshot<Rack<D, G>>,
) -> OfficeShard<D, G>
    requires order { IsInOrder D.tells G.keys D.seen D.may_leave number shard }
    requires keys { G.keys shard.ring ≡ G.keys rack.value.ring }
    requires told { D.tells shard.written.journal.disk ≡ D.tells rack.value.disk }
    ensures { result ≡ record { shard = shard; number = number; rack = rack.value } }
{
    OfficeShard {
        shard,
        number,
        rack,
    }
}

fn rack_of<D: Disk, G: KeyRing>(shard: JournaledShard<D, G>) -> Rack<D, G>
    ensures disk { result.disk ≡ shard.written.journal.disk }
    ensures ring { result.ring ≡ shard.ring }
{
    let (disk, ring) = shard.close();
    Rack { disk, ring }
}

// Why a diary isn't one of the shard of this number: a frame's bill is another shard's, or there are too many frames.
fn stray(alloc: Global, number: u32, diary: &[Frame]) -> Option<OpenFault>
    ensures own { result ≡ None → All (IsOfShard number) diary.now }
    ensures few { result ≡ None → length diary.now ≤ 4294967293 }
    ensures stray { (place : ℕ) → result ≡ Some (OpenFault.Damaged place) → IsStray number diary.now place }
    ensures no_disk { result ≡ Some OpenFault.Disk → ⊥ }
{
    if diary.len() > FRAMES {
        return Some(OpenFault::NoMemory);
    }
    let Some(count) = first_stray(number, diary) else {
        return None;
    };
    match place_behind(alloc, &diary[..count]) {
        Ok(place) => Some(OpenFault::Damaged(place)),
        Err(NoMemory) => Some(OpenFault::NoMemory),
    }
}

// How many frames stand before the first one whose bill is another shard's, if there is one.
fn first_stray(number: u32, diary: &[Frame]) -> Option<usize>
    ensures none { result ≡ None → All (IsOfShard number) diary.now }
    ensures stray { IfSome result (λ count. (frame : Frame) × (rest : List Frame)
        × (diary.now ≡ take count diary.now ++ frame ∷ rest) × All (IsOfShard number) (take count diary.now)
        × ¬ IsOfShard number frame) }
    ensures within { IfSome result (λ count. count ≤ length diary.now) }
{
    let mut count = 0;
    for frame in diary {
        if shard_of_bill(frame.bill()) != number {
            return Some(count);
        }
        count += 1;
    }
    None
}

// The place in the journal of the gate behind these frames.
fn place_behind(alloc: Global, frames: &[Frame]) -> Result<u64, NoMemory>
    ensures { IfOk result (λ place. place ≡ length (front_of (contents_in frames.now))) }
{
    let mut place = 1u64;
    for frame in frames {
        let content = frame_write(alloc, frame)?;
        place = behind_content(place, content.len())?;
    }
    Ok(place)
}

// The place behind a content of so many bytes, whose gate is at this place.
fn behind_content(gate: u64, length: usize) -> Result<u64, NoMemory>
    ensures { IfOk result (λ behind. behind ≡ gate + 5 + length) }
{
    let Some(content) = gate.checked_add(5) else {
        return Err(NoMemory);
    };
    match content.checked_add(length as u64) {
        Some(behind) => Ok(behind),
        None => Err(NoMemory),
    }
}
