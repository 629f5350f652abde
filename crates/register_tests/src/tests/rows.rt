//! The places of a bill, step by step, and the numbers of frames.
use crate::tests::making::{Step, name, players};
use ebl_base::{Chain, ChainLink, Checksum, PlaceTag};
use std::alloc::Global;
use std::fmt::Debug;
use std::process::Abort;
use std::test::Fail;
use title_register::Register;
use upload_state::reference_of;

const BILL: Checksum = Checksum([9; 32]);

/// A step, where the bill is after it, how many entries are known, the number of the one that is parting, how many
/// transactions were made since, and whether the possessor may act.
type Row = (Step, PlaceTag, usize, u8, usize, bool);

fn assert_rows<R: Abort>(rt: &R, alloc: Global, rows: &[Row]) -> Result<(), Fail> {
    let mut register = Register::new(alloc);
    let asserted = go_through(rt, alloc, &mut register, rows);
    drop(register);
    asserted
}

fn go_through<R: Abort>(
    rt: &R,
    alloc: Global,
    register: &mut Register,
    rows: &[Row],
) -> Result<(), Fail> {
    assert_eq!(rt; register.tag(BILL), PlaceTag::Absent);
    for row in rows {
        write(rt, alloc, register, row.0)?;
        assert_row(rt, register, row);
    }
    Ok(())
}

fn write<R: Abort>(rt: &R, alloc: Global, register: &mut Register, step: Step) -> Result<(), Fail> {
    let frame = players()?.frame(alloc, BILL, step)?;
    register.reserve(alloc, &frame).expect(rt, "no error");
    register.add(frame);
    Ok(())
}

fn assert_row<R: Abort>(rt: &R, register: &Register, row: &Row) {
    let (_, tag, known, parting, since, acts) = *row;
    let frames = register.frames().len();
    let is_right = look_ups(register) == (tag, known, parting, since, acts);
    assert!(rt; is_right, "after {frames} frames");
}

fn entries(chain: Option<&Chain>) -> usize {
    match chain {
        Some(chain) => chain.len(),
        None => 0,
    }
}

fn number_of(link: Option<&ChainLink>) -> u8 {
    match link {
        Some(link) => link.name.0[0],
        None => 0,
    }
}

// What a register says of the bill, as a row has it.
fn look_ups(register: &Register) -> (PlaceTag, usize, u8, usize, bool) {
    (
        register.tag(BILL),
        entries(register.known(BILL)),
        number_of(register.parting(BILL)),
        register.since(BILL).len(),
        register.may_act(BILL),
    )
}

// Into and out of each place, where the bill began: away and back through a refusal, away for good, back by a chain
// that goes on, and back through the entry that is parting.
const ROUND_TRIP: [Row; 10] = [
    (Step::Signed, PlaceTag::Held, 0, 0, 1, true),
    (Step::Issued, PlaceTag::Held, 0, 0, 2, true),
    (Step::Parted(1), PlaceTag::Parting, 0, 1, 0, false),
    (Step::Regained(1), PlaceTag::Held, 0, 0, 2, true),
    (Step::Parted(2), PlaceTag::Parting, 0, 2, 0, false),
    (Step::Settled(2), PlaceTag::Gone, 1, 0, 0, false),
    (Step::Begun(2, 3), PlaceTag::Gone, 1, 0, 0, false),
    (Step::Taken(3), PlaceTag::Held, 2, 0, 0, true),
    (Step::Parted(4), PlaceTag::Parting, 2, 4, 0, false),
    (Step::BegunTaken(2, 5), PlaceTag::Held, 4, 0, 0, true),
];

#[test]
fn each_way_into_and_out_of_each_place(rt: HostRuntime) -> Result<(), Fail> {
    assert_rows(&rt, rt.alloc(), &ROUND_TRIP)
}

// What no sound diary has, but the definition says: the longest chain counts and not the newest, of equally long ones
// the last; an entry that is over before it is parted isn't parting.
const ANY_RECORDS: [Row; 9] = [
    (Step::Begun(1, 2), PlaceTag::Absent, 0, 0, 0, false),
    (Step::Begun(3, 3), PlaceTag::Absent, 0, 0, 0, false),
    (Step::Taken(2), PlaceTag::Held, 2, 0, 0, true),
    (Step::Taken(3), PlaceTag::Held, 2, 0, 0, true),
    (Step::Begun(4, 5), PlaceTag::Held, 2, 0, 0, true),
    (Step::Taken(5), PlaceTag::Held, 2, 0, 0, true),
    (Step::Settled(5), PlaceTag::Gone, 2, 0, 0, false),
    (Step::Parted(5), PlaceTag::Gone, 2, 0, 0, false),
    (Step::Parted(6), PlaceTag::Parting, 2, 6, 0, false),
];

#[test]
fn the_first_place_that_fits_any_records(rt: HostRuntime) -> Result<(), Fail> {
    assert_rows(&rt, rt.alloc(), &ANY_RECORDS)
}

// A title that is ended lets nobody act, though the bill is held.
const SURRENDER: [Row; 4] = [
    (Step::Signed, PlaceTag::Held, 0, 0, 1, true),
    (Step::Issued, PlaceTag::Held, 0, 0, 2, true),
    (Step::SurrenderAsked, PlaceTag::Held, 0, 0, 3, true),
    (Step::SurrenderAccepted, PlaceTag::Held, 0, 0, 4, false),
];

#[test]
fn nobody_acts_on_an_ended_title(rt: HostRuntime) -> Result<(), Fail> {
    assert_rows(&rt, rt.alloc(), &SURRENDER)
}

const FRAMES: [Step; 7] = [
    Step::Begun(1, 2),
    Step::Stored(2),
    Step::Declined(2),
    Step::Begun(2, 2),
    Step::Stored(2),
    Step::Declined(2),
    Step::BegunTaken(1, 3),
];

/// An entry, the numbers of the frames that began and declined it and kept its document, and whether it was taken.
type EntryRow = (u8, Option<usize>, Option<usize>, Option<usize>, bool);

const ENTRIES: [EntryRow; 3] = [
    (1, None, None, None, false),
    (2, Some(3), Some(5), Some(1), false),
    (3, Some(6), None, None, true),
];

// A frame is found by its number: of a reference and an entry the last, of a document the first.
#[test]
fn numbers_of_frames(rt: HostRuntime) -> Result<(), Fail> {
    let mut register = Register::new(rt.alloc());
    let asserted = assert_numbers(&rt, rt.alloc(), &mut register);
    drop(register);
    asserted
}

fn assert_numbers<R: Abort>(rt: &R, alloc: Global, register: &mut Register) -> Result<(), Fail> {
    for step in &FRAMES {
        write(rt, alloc, register, *step)?;
    }
    for row in &ENTRIES {
        assert_entry(rt, register, row);
    }
    assert_eq!(rt; register.kept(name(8), name(2)), None);
    Ok(())
}

fn assert_entry<R: Abort>(rt: &R, register: &Register, row: &EntryRow) {
    let (n, begun, declined, kept, taken) = *row;
    same(rt, n, register.begun(reference_of(BILL, name(n))), begun);
    same(rt, n, register.declined(name(n)), declined);
    same(rt, n, register.kept(BILL, name(n)), kept);
    same(rt, n, register.taken(name(n)), taken);
}

fn same<R: Abort, T: Copy + Debug + PartialEq>(rt: &R, n: u8, seen: T, expected: T) {
    assert_eq!(rt; seen, expected, "{n}");
}
