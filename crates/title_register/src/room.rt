//! The room for one frame more.
#![tactic(auto, using(crate::proofs::RoomLemmas::rooms))]

ghost use Rattle.std.specs.Prelude.{◌≡◌, ◌∷◌, [], ◌++◌, IfOk, reverse};
ghost use Rattle.bill_diary.specs.declared.frame.Frame.TheVariants.{BegunTaken};
ghost use Rattle.bill_diary.specs.History.{history, records_of};
ghost use Rattle.bill_diary.specs.Linked.{bill_in};
ghost use Rattle.ebl_base.specs.declared.checksum.Checksum.{Checksum};
ghost use Rattle.title_register.specs.declared.frame_key.FrameKey.{FrameKey};
ghost use Rattle.title_register.specs.BillState.{state_of, state_with};
ghost use Rattle.title_register.specs.Frames.{key_of, number_in, number_of, unless_numbered};
ghost use Rattle.title_register.specs.Register.{IsRoomFor, state_in};
ghost use Rattle.title_register.specs.Standing.{standing_of, standing_with};

use crate::arrived::{arrived_after, fresh_after};
use crate::bill_state::{BillState, StateChange};
use crate::change::{Change, acted, no_change, parted, regained, settled, signed, taken};
use crate::documents::{kept_in, partings_after, pieces_after};
use crate::frame_key::{FrameKey, came_key, key_of, taken_key};
use crate::frame_numbers::FrameNumbers;
use crate::past::Past;
use crate::standing::Standing;
use crate::title::title_after;
use bill_chain::last_link;
use bill_diary::{Frame, Record};
use ebl_base::{Checksum, NoMemory};
use std::alloc::Global;
use std::collections::BTreeMap;

/// What was taken for one frame more: what changes of its bill, with all memory that it needs, and the keys that get
/// its number.
#[derive(Drop)]
pub struct Room {
    pub(crate) bill: Checksum,
    pub(crate) change: StateChange,
    /// The key of the record that the frame keeps, if it gets the number.
    pub(crate) kept: Option<FrameKey>,
    /// The other key of a Begun.
    pub(crate) came: Option<FrameKey>,
    /// The key of the Taken that follows in the frame.
    pub(crate) taken: Option<FrameKey>,
}

/// The frames of a diary with a place for one more, and the room for that one.
#[derive(Drop)]
pub(crate) struct Reserved {
    pub(crate) frames: Vec<Frame>,
    pub(crate) room: Room,
}

/// Room for a frame, after some frames of which this is kept.
#[tactic(auto, using(crate::proofs::RoomLemmas::numbers))]
pub(crate) fn room_for(
    alloc: Global,
    frames: &[Frame],
    bills: &BTreeMap<Checksum, BillState>,
    numbers: &FrameNumbers,
    frame: &Frame,
) -> Result<Room, NoMemory>
    requires states { (bill : Checksum) → state_in bills.now bill ≡ state_of (history bill frames.now) }
    requires numbers_are { (key : FrameKey) → number_in numbers.now.numbers key ≡ number_of key frames.now }
    ensures { IfOk result (IsRoomFor frame.now frames.now) }
{
    let change = change_among(alloc, frames, bills, numbers, frame)?;
    let kept = kept_in(frame);
    Ok(Room {
        bill: kept.bill(),
        change,
        kept: kept_key(numbers, kept),
        came: came_key(kept),
        taken: taken_key(frame),
    })
}

// What a frame changes of its bill, after some frames of which this is kept.
#[tactic(auto, using(crate::proofs::RoomLemmas::rooms))]
fn change_among(
    alloc: Global,
    frames: &[Frame],
    bills: &BTreeMap<Checksum, BillState>,
    numbers: &FrameNumbers,
    frame: &Frame,
) -> Result<StateChange, NoMemory>
    requires states { (bill : Checksum) → state_in bills.now bill ≡ state_of (history bill frames.now) }
    requires numbers_are { (key : FrameKey) → number_in numbers.now.numbers key ≡ number_of key frames.now }
    ensures { IfOk result (λ c. state_with c (state_of (history (bill_in frame.now) frames.now))
        ≡ state_of (history (bill_in frame.now) (frames.now ++ frame.now ∷ []))) }
{
    let bill = kept_in(frame).bill();
    match bills.get(&bill) {
        Some(state) => change_by(alloc, frames, state, numbers, frame),
        None => change_by(alloc, frames, &BillState::unknown(alloc), numbers, frame),
    }
}

// The key of a record, unless it is that of a document that has a number already.
fn kept_key(numbers: &FrameNumbers, kept: &Record) -> Option<FrameKey>
    ensures { result ≡ unless_numbered (number_in numbers.now.numbers) (key_of kept.now) }
{
    let key = key_of(kept)?;
    match key {
        FrameKey::Document(..) => if numbers.number(key).is_some() {
            None
        } else {
            Some(key)
        },
        _ => Some(key),
    }
}

// The same, by what is kept of the bill.
#[tactic(auto, using(crate::proofs::RoomLemmas::rooms, crate::proofs::StateLemmas::states))]
fn change_by(
    alloc: Global,
    frames: &[Frame],
    state: &BillState,
    numbers: &FrameNumbers,
    frame: &Frame,
) -> Result<StateChange, NoMemory>
    requires state_is { state.now ≡ state_of (history (bill_in frame.now) frames.now) }
    requires numbers_are { (key : FrameKey) → number_in numbers.now.numbers key ≡ number_of key frames.now }
    ensures { IfOk result (λ c. state_with c state.now
        ≡ state_of (history (bill_in frame.now) (frames.now ++ frame.now ∷ []))) }
{
    let before = Past::of(frames, numbers, state, kept_in(frame).bill());
    let standing = standing_by(alloc, &before, &state.standing, frame)?;
    let title = title_after(&state.standing, &standing);
    let pieces = pieces_after(alloc, &before, &state.pieces, frame)?;
    let arrived = arrived_after(alloc, &before, &state.arrived, frame)?;
    Ok(StateChange {
        standing,
        title,
        pieces,
        partings: partings_after(frames, state.partings, frame),
        arrived,
        fresh: fresh_after(&before, state.fresh, frame),
    })
}

// What a frame changes of where its bill stands, with the records of the bill before it.
fn standing_by(
    alloc: Global,
    before: &Past<'_>,
    standing: &Standing,
    frame: &Frame,
) -> Result<Change, NoMemory>
    requires { standing.now ≡ standing_of before.now }
    ensures { IfOk result (λ c.
        standing_with c standing.now ≡ standing_of (reverse (records_of frame.now) ++ before.now)) }
{
    match frame {
        Frame::One(kept) => by_record(alloc, before, standing, kept),
        Frame::BegunTaken(begun) => by_begun_taken(alloc, before, standing, begun),
    }
}

// What a record changes.
fn by_record(
    alloc: Global,
    before: &Past<'_>,
    standing: &Standing,
    kept: &Record,
) -> Result<Change, NoMemory>
    requires { standing.now ≡ standing_of before.now }
    ensures { IfOk result (λ c. standing_with c standing.now ≡ standing_of (kept.now ∷ before.now)) }
{
    match kept {
        Record::Signed { transaction, .. } => signed(alloc, standing, *transaction),
        Record::Acted { transaction, .. } => acted(alloc, standing, *transaction),
        Record::Parted { link, .. } => parted(alloc, standing, before, link),
        Record::Settled { entry, .. } => settled(alloc, standing, before, *entry),
        Record::Regained { entry, .. } => Ok(regained(standing, *entry)),
        Record::Taken { entry, .. } => {
            let chain = before.taken_chain(*entry);
            taken(alloc, standing, before, chain)
        }
        _ => Ok(no_change(standing)),
    }
}

// What a Begun changes that is taken.
fn by_begun_taken(
    alloc: Global,
    before: &Past<'_>,
    standing: &Standing,
    begun: &Record,
) -> Result<Change, NoMemory>
    requires { standing.now ≡ standing_of before.now }
    ensures { IfOk result (λ c. standing_with c standing.now
        ≡ standing_of (reverse (records_of (BegunTaken begun.now)) ++ before.now)) }
{
    match begun {
        Record::Begun { chain, .. } => if last_link(chain.as_slice()).is_some() {
            taken(alloc, standing, before, Some(chain))
        } else {
            Ok(no_change(standing))
        },
        _ => by_record(alloc, before, standing, begun),
    }
}
