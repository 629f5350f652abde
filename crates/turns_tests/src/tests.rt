//! Turns on rows of numbers: several threads, faults, loose frames, passes that are out.
ghost use Rattle.std.specs.Prelude.{◌≡◌, ◌<◌, IfOk};

mod row;
mod spread;
mod within;

use self::row::{Append, Ending, Row};
use self::spread::{ROUNDS, ROWS, spread};
use self::within::{Found, Within};
use bill_locks::{CloseFault, Grows, Pass, Told, Turns};
use ebl_base::NoMemory;
use std::alloc::Global;
use std::process::Abort;
use std::sync::Arc;
use std::test::Fail;
use std::thread::Threads;

// Threads, each with a pass of its own, add frames to all rows: each frame is where its number says, none is missing,
// and each row's front is all of it.
fn threads_share_rows<R: Abort + Threads + Sync>(
    rt: &R,
    alloc: Global,
    levels: u32,
    frames: u64,
) -> Result<(), Fail> {
    let (turns, pass) = Turns::new(alloc, Row::many(alloc, ROWS)?)?;
    let (mut pass, made) = spread(rt, alloc, &turns, pass, 0, levels).ok_or("a thread gave up")?;
    assert!(rt; made.len() as u64 == frames);
    let mut seen = 0u64;
    for at in 0..ROWS {
        seen = seen.wrapping_add(turns.seen(&mut pass, at));
    }
    assert!(rt; seen == frames);
    let rows = turns.close(pass).ok().ok_or("another pass was out")?;
    let mut kept = 0u64;
    for row in &rows {
        kept = kept.wrapping_add(row.frames());
    }
    assert!(rt; kept == frames);
    for frame in &made {
        let row = rows.get(frame.at).ok_or("no such row")?;
        assert!(rt; row.frames.get(frame.number as usize).copied() == Some(frame.frame));
    }
    Ok(())
}

#[test]
fn two_threads_share_rows(rt: HostRuntime) -> Result<(), Fail> {
    threads_share_rows(&rt, rt.alloc(), 1, 2 * ROUNDS)
}

#[test]
fn four_threads_share_rows(rt: HostRuntime) -> Result<(), Fail> {
    threads_share_rows(&rt, rt.alloc(), 2, 4 * ROUNDS)
}

#[test]
fn sixteen_threads_share_rows(rt: HostRuntime) -> Result<(), Fail> {
    threads_share_rows(&rt, rt.alloc(), 4, 16 * ROUNDS)
}

// A table of so many empty rows, and its first pass. Steps of a test are calls of their own, since a caller carries on
// what a contract says.
fn table_of(alloc: Global, count: usize) -> Result<(Turns<Row>, Pass<Row>), NoMemory>
    ensures count { IfOk result (λ r. r.0.slots ≡ count) }
    ensures of { IfOk result (λ r. r.1.table ≡ r.0) }
{
    let rows = Row::many(alloc, count)?;
    Turns::new(alloc, rows)
}

// Whether the turn at a place is free, which then adds a frame.
fn is_free(turns: &Turns<Row>, pass: &mut Pass<Row>, at: usize, frame: u64) -> bool
    requires of { pass.old.table ≡ turns.now }
    requires place { at < turns.now.slots }
    ensures { pass.new.table ≡ pass.old.table }
{
    turns.try_turn(pass, at, Append::of(frame)).is_ok()
}

// How many frames are seen at a place.
fn seen(turns: &Turns<Row>, pass: &mut Pass<Row>, at: usize) -> u64
    requires of { pass.old.table ≡ turns.now }
    requires place { at < turns.now.slots }
    ensures { pass.new.table ≡ pass.old.table }
{
    turns.seen(pass, at)
}

// A job at the first row tells this.
fn assert_told(
    rt: &impl Abort,
    turns: &Turns<Row>,
    pass: &mut Pass<Row>,
    job: Append,
    want: Told,
) -> Result<(), Fail>
    requires of { pass.old.table ≡ turns.now }
    requires place { 0 < turns.now.slots }
    ensures { pass.new.table ≡ pass.old.table }
{
    let told = turns.try_turn(pass, 0, job).ok().ok_or("busy")?;
    assert!(rt; told == want);
    Ok(())
}

// The rows of a table that is closed.
fn rows_of(turns: Turns<Row>, pass: Pass<Row>) -> Result<Vec<Row>, Fail>
    requires { pass.table ≡ turns }
{
    Ok(turns.close(pass).ok().ok_or("another pass was out")?)
}

// Another pass keeps a table open.
fn kept_open(
    rt: &impl Abort,
    turns: Turns<Row>,
    pass: Pass<Row>,
    why: &str,
) -> (Turns<Row>, Pass<Row>)
    requires { pass.table ≡ turns }
    ensures turns { result.0 ≡ turns }
    ensures of { result.1.table ≡ turns }
{
    let Err((turns, pass, fault)) = turns.close(pass) else {
        panic!(rt; "{why}")
    };
    assert_eq!(rt; fault, CloseFault::Passes);
    (turns, pass)
}

// Two passes make three frames on one row. After the join `seen` is 3, and the row that is closed has three frames.
#[test]
fn two_passes_make_three_frames(rt: HostRuntime) -> Result<(), Fail> {
    let (turns, mut pass) = table_of(rt.alloc(), 5)?;
    let mut other = turns.split(&mut pass)?;
    assert!(rt; is_free(&turns, &mut pass, 4, 10));
    assert!(rt; is_free(&turns, &mut other, 4, 11));
    assert!(rt; is_free(&turns, &mut pass, 4, 12));
    turns.join(&mut pass, other);
    assert!(rt; seen(&turns, &mut pass, 4) == 3);
    let rows = rows_of(turns, pass)?;
    assert!(rt; rows.get(4).ok_or("no row")?.frames.as_slice() == [10, 11, 12].as_slice());
    Ok(())
}

// A second pass that is out keeps the table open, and the table serves on. So does one that was dropped.
#[test]
fn a_pass_that_is_out_keeps_the_table_open(rt: HostRuntime) -> Result<(), Fail> {
    let (turns, mut pass) = table_of(rt.alloc(), 2)?;
    let other = turns.split(&mut pass)?;
    let (turns, mut pass) = kept_open(&rt, turns, pass, "a pass was out");
    assert!(rt; is_free(&turns, &mut pass, 0, 3));
    drop(other);
    let (turns, mut pass) = kept_open(&rt, turns, pass, "a pass was never joined");
    assert!(rt; seen(&turns, &mut pass, 0) == 1);
    Ok(())
}

fn loose_row(rt: &impl Abort, alloc: Global, finds: bool) -> Result<(), Fail> {
    let (turns, mut pass) = table_of(alloc, 1)?;
    let failing = Append {
        frame: 5,
        ending: Ending::LosesDisk,
        finds: false,
    };
    let want = Told {
        before: 0,
        after: 0,
        failed: true,
        unsigned: false,
    };
    assert_told(rt, &turns, &mut pass, failing, want)?;
    assert!(rt; seen(&turns, &mut pass, 0) == 0);
    assert_settled(rt, &turns, &mut pass, finds)?;
    let rows = rows_of(turns, pass)?;
    let row = rows.get(0).ok_or("no row")?;
    let frames: &[u64] = if finds { &[5, 6] } else { &[6] };
    assert!(rt; row.frames.as_slice() == frames && row.disk == 1 && row.loose.is_none());
    Ok(())
}

fn assert_settled(
    rt: &impl Abort,
    turns: &Turns<Row>,
    pass: &mut Pass<Row>,
    finds: bool,
) -> Result<(), Fail>
    requires of { pass.old.table ≡ turns.now }
    requires place { 0 < turns.now.slots }
    ensures { pass.new.table ≡ pass.old.table }
{
    let next = Append {
        frame: 6,
        ending: Ending::Adds,
        finds,
    };
    let before = if finds { 1 } else { 0 };
    let want = Told {
        before,
        after: before + 1,
        failed: false,
        unsigned: false,
    };
    assert_told(rt, turns, pass, next, want)
}

// A job that fails leaves its frame loose and the list as it was. The next job on the row settles it: the frame is
// there, or not.
#[test]
fn a_loose_frame_is_settled_by_the_next_job(rt: HostRuntime) -> Result<(), Fail> {
    for finds in [true, false] {
        loose_row(&rt, rt.alloc(), finds)?;
    }
    Ok(())
}

// A job that the ring of keys fails adds nothing, and leaves nothing loose.
#[test]
fn a_fault_of_the_ring_adds_nothing(rt: HostRuntime) -> Result<(), Fail> {
    let (turns, mut pass) = table_of(rt.alloc(), 1)?;
    let failing = Append {
        frame: 5,
        ending: Ending::LosesRing,
        finds: false,
    };
    let want = Told {
        before: 0,
        after: 0,
        failed: false,
        unsigned: true,
    };
    assert_told(&rt, &turns, &mut pass, failing, want)?;
    let rows = rows_of(turns, pass)?;
    let row = rows.get(0).ok_or("no row")?;
    assert!(rt; row.frames.is_empty() && row.ring == 1 && row.disk == 0);
    Ok(())
}

// While a pass has the turn of row 0, another is refused there and served at row 1.
#[test]
fn a_turn_that_is_out_is_busy(rt: HostRuntime) -> Result<(), Fail> {
    let (turns, mut pass) = table_of(rt.alloc(), 2)?;
    let turns = Arc::new(rt.alloc(), turns)?;
    let other = turns.split(&mut pass)?;
    let job = Within::new(Arc::try_clone(&turns)?, other);
    let Found {
        told: _,
        pass: other,
        free,
    } = turns.try_turn(&mut pass, 0, job).ok().ok_or("busy")?;
    assert!(rt; !free[0] && free[1]);
    turns.join(&mut pass, other);
    assert!(rt; turns.seen(&mut pass, 0) == 0 && turns.seen(&mut pass, 1) == 1);
    Ok(())
}
