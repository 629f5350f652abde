//! The register: a diary, what is kept of each of its bills, and the numbers of its frames.
#![tactic(auto, using(crate::proofs::RegisterLemmas::places, crate::proofs::StateLemmas::titles))]

ghost use Rattle.std.specs.Prelude.{◌≡◌, ◌<◌, ◌∷◌, [], ◌++◌, None, IfErr, IfOk, OnErr, OnOk, Some, IsSome, MatchOption, count_by, is_some, option_and_then, option_copied, if◌then◌else◌};
ghost use Rattle.std.specs.BTreeMap.{get};
ghost use Rattle.std.specs.Vec.{vec_len, vec_capacity};
ghost use Rattle.ebl_base.specs.Checksum.{checksum_cmp, checksum_eq};
ghost use Rattle.ebl_base.specs.declared.checksum.Checksum.{Checksum};
ghost use Rattle.bill_diary.specs.History.{history, newest_first};
ghost use Rattle.bill_diary.specs.Known.{known, last_begun};
ghost use Rattle.bill_diary.specs.Pieces.{is_there, pieces_of};
ghost use Rattle.bill_diary.specs.Place.{may_act_by, parting, place_of, tag_of, title_at};
ghost use Rattle.bill_diary.specs.Receiving.{declines, is_taken, last_declined};
ghost use Rattle.bill_diary.specs.Searches.{bytes_in, first_bytes, last_body, last_parted_record, signed_text};
ghost use Rattle.bill_diary.specs.Sound.{has_reference, is_parted, last_with_reference};
ghost use Rattle.bill_diary.specs.Titles.{unplaced};
ghost use Rattle.title_register.specs.declared.frame_key.FrameKey.{FrameKey};
ghost use Rattle.title_register.specs.BillState.{state_with};
ghost use Rattle.title_register.specs.Frames.{body_begun, brings_to, declination, document_signed, first_number, for_bill, has, is_begun, is_signed, last_number, number_in, record_numbered};
ghost use Rattle.title_register.specs.PlaceRef.{place_view};
ghost use Rattle.title_register.specs.Register.{HasRoom, IsReadyFor, state_in};
ghost use Rattle.title_register.specs.Standing.{since_at};

use crate::bill_state::{BillState, StateChange};
use crate::documents::kept_in;
use crate::frame_key::FrameKey;
use crate::frame_numbers::FrameNumbers;
use crate::past::{Received, last_received};
use crate::place_ref::PlaceRef;
use crate::room::{Reserved, Room, room_for};
use bill_diary::{Diary, Frame, Record};
use ebl_base::{Chain, ChainLink, Checksum, Items, NoMemory, PlaceTag, Reference, Transaction};
use envelope_manifest::Piece;
use std::alloc::Global;
use std::collections::BTreeMap;
use std::marker::Model;
use std::mem;
use title_fold::{FoldRefusal, Title};

/// A diary, what is kept of each of its bills, and the numbers of its frames. Contracts see the diary, and the room
/// that was taken for one frame more.
///
/// A look-up costs one search of an ordered map. It allocates nothing, folds nothing, and goes over no record.
#[derive(Drop)]
pub struct Register {
    // Empty while room is taken: its frames are there then.
    diary: Diary,
    bills: BTreeMap<Checksum, BillState>,
    numbers: FrameNumbers,
    reserved: Option<Reserved>,
}

impl Model for Register {
    ghost use Rattle.title_register.specs.Register.{Registered, IsRegister, frames_in, room_in};

    ghost Value = { Registered };

    ghost view = { λ s. record { diary = frames_in s.diary s.reserved; room = room_in s.reserved } };

    ghost invariant = { λ s. IsRegister s.diary s.bills s.numbers s.reserved };
}

impl Register {
    /// The register of the empty diary.
    pub fn new(alloc: Global) -> Self
        ensures diary { result.diary ≡ [] }
        ensures room { result.room ≡ None }
    {
        Register {
            diary: Items::new(alloc),
            bills: BTreeMap::new(alloc),
            numbers: FrameNumbers::new(alloc),
            reserved: None,
        }
    }

    /// The diary, while no room is taken.
    pub fn diary(&self) -> &Diary
        requires { self.now.room ≡ None }
        ensures { result.now ≡ self.now.diary }
    {
        &self.diary
    }

    /// The diary alone, while no room is taken: what is kept beside it is dropped.
    pub fn into_diary(self) -> Diary
        requires { self.room ≡ None }
        ensures { result ≡ self.diary }
    {
        let Register { diary, .. } = self;
        diary
    }

    /// The frames of the diary, in the order in which they were written. A frame's number is its place among them,
    /// counted from 0.
    pub fn frames(&self) -> &[Frame]
        ensures { result.now ≡ self.now.diary }
    {
        match &self.reserved {
            Some(reserved) => reserved.frames.as_slice(),
            None => self.diary.as_slice(),
        }
    }

    /// Where a bill stands.
    pub fn place(&self, bill: Checksum) -> PlaceRef<'_>
        ensures { place_view result ≡ place_of (history bill self.now.diary) }
    {
        match self.bills.get(&bill) {
            Some(state) => state.standing.place(),
            None => PlaceRef::Absent,
        }
    }

    /// Which of the four places a bill is at.
    pub fn tag(&self, bill: Checksum) -> PlaceTag
        ensures { result ≡ tag_of (place_of (history bill self.now.diary)) }
    {
        match self.bills.get(&bill) {
            Some(state) => state.standing.tag(),
            None => PlaceTag::Absent,
        }
    }

    /// Whether the possessor of a bill may act: the bill is held, and its title isn't ended.
    pub fn may_act(&self, bill: Checksum) -> bool
        ensures { result ≡ may_act_by (history bill self.now.diary) }
    {
        match self.bills.get(&bill) {
            Some(state) => state.may_act(),
            None => false,
        }
    }

    /// The title at the place of a bill. `None` where the bill is absent or nothing was made. Else the rule that
    /// refuses the first transaction that is refused, which no sound diary has.
    pub fn title(&self, bill: Checksum) -> Result<Option<Title>, FoldRefusal>
        ensures { result ≡ unplaced (title_at (place_of (history bill self.now.diary))) }
    {
        match self.bills.get(&bill) {
            Some(state) => state.title,
            None => Ok(None),
        }
    }

    /// The chain of a bill that is known. `None` if and only if the bill is absent.
    pub fn known(&self, bill: Checksum) -> Option<&Chain>
        ensures { option_copied result ≡ known (history bill self.now.diary) }
    {
        match self.bills.get(&bill) {
            Some(state) => state.standing.known(),
            None => None,
        }
    }

    /// The entry of a bill that was sent to another platform which hasn't answered for good, if there is one.
    pub fn parting(&self, bill: Checksum) -> Option<&ChainLink>
        ensures { option_copied result ≡ parting (history bill self.now.diary) }
    {
        match self.bills.get(&bill) {
            Some(state) => state.standing.parting.as_ref(),
            None => None,
        }
    }

    /// The transactions that were made on a bill since its chain came, in the order in which they were made. None where
    /// the bill isn't held.
    pub fn since(&self, bill: Checksum) -> &[Transaction]
        ensures { result.now ≡ since_at (place_of (history bill self.now.diary)) }
    {
        match self.bills.get(&bill) {
            Some(state) => state.standing.since(),
            None => &[],
        }
    }

    /// The additional documents of a bill: those of the manifest of its last Taken, followed by those attached since,
    /// in the order in which they were.
    pub fn pieces(&self, bill: Checksum) -> &[Piece]
        ensures { result.now ≡ pieces_of (history bill self.now.diary) }
    {
        match self.bills.get(&bill) {
            Some(state) => state.pieces.as_slice(),
            None => &[],
        }
    }

    /// How many Parted of a bill there are.
    pub fn partings(&self, bill: Checksum) -> usize
        ensures { result ≡ count_by is_parted (history bill self.now.diary) }
    {
        match self.bills.get(&bill) {
            Some(state) => state.partings,
            None => 0,
        }
    }

    /// The record that the frame of a number keeps. `None` where there are no more frames.
    pub fn record_at(&self, number: usize) -> Option<&Record>
        ensures { option_copied result ≡ record_numbered self.now.diary (Some number) }
    {
        Some(kept_in(self.frames().get(number)?))
    }

    /// The number of the last frame in which a bill was signed, which has the text of its document.
    #[tactic(auto, using(crate::proofs::LookUpLemmas::look_ups))]
    pub fn signed(&self, bill: Checksum) -> Option<usize>
        ensures number { result ≡ last_number (has (for_bill bill is_signed)) self.now.diary }
        ensures text { option_and_then document_signed (record_numbered self.now.diary result)
            ≡ signed_text (history bill self.now.diary) }
    {
        self.numbers.number(FrameKey::Signed(bill))
    }

    /// The number of the last frame with a Parted of a bill.
    #[tactic(auto, using(crate::proofs::LookUpLemmas::look_ups))]
    pub fn parted(&self, bill: Checksum) -> Option<usize>
        ensures number { result ≡ last_number (has (for_bill bill is_parted)) self.now.diary }
        ensures record { record_numbered self.now.diary result
            ≡ last_parted_record (history bill self.now.diary) }
    {
        self.numbers.number(FrameKey::Parted(bill))
    }

    /// The number of the last frame with a Begun of a bill, which has the body that came last.
    #[tactic(auto, using(crate::proofs::LookUpLemmas::look_ups))]
    pub fn came(&self, bill: Checksum) -> Option<usize>
        ensures number { result ≡ last_number (has (for_bill bill is_begun)) self.now.diary }
        ensures body { option_and_then body_begun (record_numbered self.now.diary result)
            ≡ last_body (history bill self.now.diary) }
    {
        self.numbers.number(FrameKey::Came(bill))
    }

    /// What came with the last Begun of a bill whose chain ends in an entry.
    ///
    /// It is found by the reference of both. Only where the last Begun with that reference is another one, or none is
    /// there, are the records of the bill gone over.
    pub fn received(&self, bill: Checksum, entry: Checksum) -> Option<Received<'_>>
        ensures { MatchOption result (last_begun entry (history bill self.now.diary) ≡ None)
            (λ came. last_begun entry (history bill self.now.diary)
            ≡ Some (record { chain = came.chain.now; manifest = came.manifest.now })) }
    {
        last_received(self.frames(), &self.numbers, bill, entry)
    }

    /// The number of the last frame with a Begun, of any bill, whose envelope has this reference.
    #[tactic(auto, using(crate::proofs::LookUpLemmas::look_ups))]
    pub fn begun(&self, reference: Reference) -> Option<usize>
        ensures number { result ≡ last_number (has (has_reference reference)) self.now.diary }
        ensures record { record_numbered self.now.diary result
            ≡ last_with_reference reference (newest_first self.now.diary) }
    {
        self.numbers.number(FrameKey::Begun(reference))
    }

    /// Whether the chain that ends in an entry was taken, on any bill.
    #[tactic(auto, using(crate::proofs::LookUpLemmas::look_ups))]
    pub fn taken(&self, entry: Checksum) -> bool
        ensures { result ≡ is_taken entry (newest_first self.now.diary) }
    {
        self.numbers.number(FrameKey::Taken(entry)).is_some()
    }

    /// The number of the last frame in which an entry was declined, on any bill.
    #[tactic(auto, using(crate::proofs::LookUpLemmas::look_ups))]
    pub fn declined(&self, entry: Checksum) -> Option<usize>
        ensures number { result ≡ last_number (has (declines entry)) self.now.diary }
        ensures record { option_and_then declination (record_numbered self.now.diary result)
            ≡ last_declined entry (newest_first self.now.diary) }
    {
        self.numbers.number(FrameKey::Declined(entry))
    }

    /// The number of the first frame that brought the bytes of a document to a bill: attached, or stored. Where two
    /// lists of bytes have one checksum, a later frame may have brought the other.
    #[tactic(auto, using(crate::proofs::LookUpLemmas::look_ups))]
    pub fn kept(&self, bill: Checksum, checksum: Checksum) -> Option<usize>
        ensures number { result ≡ first_number (has (brings_to bill checksum)) self.now.diary }
        ensures bytes { option_and_then (bytes_in checksum) (record_numbered self.now.diary result)
            ≡ first_bytes checksum (history bill self.now.diary) }
        ensures there { is_some result ≡ is_there (history bill self.now.diary) checksum }
    {
        self.numbers.number(FrameKey::Document(bill, checksum))
    }

    /// Takes all memory that adding a frame needs. Room that was taken before is let go. Out of memory, the diary stays
    /// as it is, and no room is taken.
    ///
    /// A chain is folded once, when it comes, and shared with its frame. Every other frame costs a fold of the
    /// transactions that follow the known chain, at most one entry's; for a Settled a longer list of links is made,
    /// which shares their texts. It goes over the records of the bill only where no sound diary comes to: a Settled
    /// whose entry isn't parting, entries with one reference.
    pub fn reserve(&mut self, alloc: Global, frame: &Frame) -> Result<(), NoMemory>
        ensures diary { self.new.diary ≡ self.old.diary }
        ensures ok { OnOk result (IsReadyFor frame.now self.new) }
        ensures err { OnErr result (self.new.room ≡ None) }
    {
        self.release();
        let room = room_for(
            alloc,
            self.diary.as_slice(),
            &self.bills,
            &self.numbers,
            frame,
        )?;
        if let Err(no_memory) = ensure_keys(alloc, &mut self.bills, &mut self.numbers, &room) {
            // by a call, since a value that one arm moves is dropped field by field in the other
            drop(room);
            return Err(no_memory);
        }
        let diary = mem::replace(&mut self.diary, Items::new(alloc));
        match with_place(diary, room) {
            Ok(reserved) => {
                self.reserved = Some(reserved);
                Ok(())
            }
            Err(diary) => {
                self.diary = diary;
                Err(NoMemory)
            }
        }
    }

    /// Lets go of the room that was taken, if any was.
    pub fn release(&mut self)
        ensures diary { self.new.diary ≡ self.old.diary }
        ensures room { self.new.room ≡ None }
    {
        if let Some(reserved) = self.reserved.take() {
            self.diary = Items::from_vec(reserved.frames);
        }
    }

    /// Adds a frame for which room was taken. It can't be refused, and allocates nothing.
    pub fn add(&mut self, frame: Frame)
        requires { IsReadyFor frame self.old }
        ensures diary { self.new.diary ≡ self.old.diary ++ frame ∷ [] }
        ensures room { self.new.room ≡ None }
    {
        let Some(reserved) = self.reserved.take() else {
            unreachable!()
        };
        let Reserved { mut frames, room } = reserved;
        let Room {
            bill,
            change,
            kept,
            came,
            taken,
        } = room;
        let alloc = *frames.allocator();
        let number = frames.len();
        frames.push_reserved(frame);
        self.diary = Items::from_vec(frames);
        self.numbers.put(kept, number);
        self.numbers.put(came, number);
        self.numbers.put(taken, number);
        put(alloc, &mut self.bills, bill, change);
    }
}

// Puts a frame's bill and its keys among those that are kept, where they aren't there. Nothing that is kept changes,
// out of memory neither.
fn ensure_keys(
    alloc: Global,
    bills: &mut BTreeMap<Checksum, BillState>,
    numbers: &mut FrameNumbers,
    room: &Room,
) -> Result<(), NoMemory>
    ensures states { (other : Checksum) → state_in bills.new other ≡ state_in bills.old other }
    ensures numbers { (other : FrameKey)
        → number_in numbers.new.numbers other ≡ number_in numbers.old.numbers other }
    ensures bill { OnOk result (IsSome (get checksum_cmp bills.new room.now.bill)) }
    ensures kept { OnOk result (HasRoom numbers.new room.now.kept) }
    ensures came { OnOk result (HasRoom numbers.new room.now.came) }
    ensures taken { OnOk result (HasRoom numbers.new room.now.taken) }
{
    ensure_key(alloc, bills, room.bill)?;
    numbers.make_room(room.kept)?;
    numbers.make_room(room.came)?;
    numbers.make_room(room.taken)
}

// The frames of a diary with a place for one more, and the room for that one. Out of memory, the diary as it is.
fn with_place(diary: Diary, room: Room) -> Result<Reserved, Diary>
    ensures frames { IfOk result (λ r. r.frames.items ≡ diary) }
    ensures room { IfOk result (λ r. r.room ≡ room) }
    ensures place { IfOk result (λ r. vec_len r.frames < vec_capacity r.frames) }
    ensures err { IfErr result (λ same. same ≡ diary) }
{
    let mut frames = diary.into_vec();
    match frames.reserve(1) {
        Ok(()) => Ok(Reserved { frames, room }),
        Err(_) => Err(Items::from_vec(frames)),
    }
}

// Puts a bill among some, where it isn't there, with a state that says that there is no record of it.
fn ensure_key(
    alloc: Global,
    bills: &mut BTreeMap<Checksum, BillState>,
    bill: Checksum,
) -> Result<(), NoMemory>
    ensures same { (other : Checksum) → state_in bills.new other ≡ state_in bills.old other }
    ensures ok { OnOk result (IsSome (get checksum_cmp bills.new bill)) }
{
    if !bills.contains_key(&bill) {
        bills.insert(bill, BillState::unknown(alloc))?;
    }
    Ok(())
}

// Changes what is kept of a bill that is there.
fn put(
    alloc: Global,
    bills: &mut BTreeMap<Checksum, BillState>,
    bill: Checksum,
    change: StateChange,
)
    requires { IsSome (get checksum_cmp bills.old bill) }
    ensures { (other : Checksum) → state_in bills.new other ≡ (if checksum_eq bill other
        then state_with change (state_in bills.old bill) else state_in bills.old other) }
{
    let Ok(Some(state)) = bills.insert(bill, BillState::unknown(alloc)) else {
        unreachable!()
    };
    drop(bills.insert(bill, state.changed(change)));
}
