//! Passes split among threads and joined again: each thread adds frames to every row.
ghost use Rattle.std.specs.Prelude.{◌≡◌, ◌≤◌, ◌<◌, ◌^◌, IfSome, IfOk};
ghost use Rattle.std.specs.Thread.{IsSync};

use super::row::{Append, Row};
use bill_locks::{Pass, Told, Turns};
use std::alloc::Global;
use std::thread::{Threads, join, yield_now};

/// The rows of a table.
pub const ROWS: usize = 16;

/// The frames that one thread adds.
pub const ROUNDS: u64 = 96;

/// A frame that was added, and the number that its answer told.
#[derive(Clone, Copy, Drop)]
pub struct Made {
    pub at: usize,
    pub number: u64,
    pub frame: u64,
}

// Tries a turn until it has it.
fn take_turn(turns: &Turns<Row>, pass: &mut Pass<Row>, at: usize, frame: u64) -> Option<Told>
    requires of { pass.old.table ≡ turns.now }
    requires place { at < turns.now.slots }
    ensures { pass.new.table ≡ pass.old.table }
{
    let mut job = Append::of(frame);
    for _ in 0..u64::MAX {
        match turns.try_turn(pass, at, job) {
            Ok(told) => return Some(told),
            Err(busy) => job = busy.job,
        }
        yield_now();
    }
    None
}

// One thread's frames, one row after the other.
fn work(alloc: Global, turns: &Turns<Row>, pass: &mut Pass<Row>, thread: u32) -> Option<Vec<Made>>
    requires of { pass.old.table ≡ turns.now }
    requires rows { 16 ≤ turns.now.slots }
    ensures { pass.new.table ≡ pass.old.table }
{
    let mut made = Vec::new(alloc);
    for round in 0..ROUNDS {
        let at = (round % 16) as usize;
        let frame = u64::from(thread) << 32 | round;
        let told = take_turn(turns, pass, at, frame)?;
        let number = told.before;
        made.push(Made { at, number, frame }).ok()?;
    }
    Some(made)
}

/// Splits the pass so often as `levels` says, works in a thread for each part, and joins the parts.
pub fn spread<R: Threads + Sync>(
    rt: &R,
    alloc: Global,
    turns: &Turns<Row>,
    mut pass: Pass<Row>,
    thread: u32,
    levels: u32,
) -> Option<(Pass<Row>, Vec<Made>)>
    requires of { pass.table ≡ turns.now }
    requires rows { 16 ≤ turns.now.slots }
    ensures { IfSome result (λ r. r.0.table ≡ turns.now) }
{
    if levels == 0 {
        let made = work(alloc, turns, &mut pass, thread)?;
        return Some((pass, made));
    }
    let below = levels - 1;
    let other = turns.split(&mut pass).ok()?;
    let (mine, theirs) = join(
        rt,
        move || -> Option<(Pass<Row>, Vec<Made>)>
            requires { IsSync R.row × (pass.table ≡ turns.now) × (16 ≤ turns.now.slots) }
            ensures { IfSome result (λ r. r.0.table ≡ turns.entry.now) }
        { spread(rt, alloc, turns, pass, thread, below) },
        move || -> Option<(Pass<Row>, Vec<Made>)>
            requires { IsSync R.row × (other.table ≡ turns.now) × (16 ≤ turns.now.slots) }
            ensures { IfSome result (λ r. r.0.table ≡ turns.entry.now) }
        {
            spread(
                rt,
                alloc,
                turns,
                other,
                thread.wrapping_add(1 << below % 32),
                below,
            )
        },
    );
    let (mut pass, mut made) = mine?;
    let (other, mut more) = theirs?;
    turns.join(&mut pass, other);
    made.append(&mut more).ok()?;
    Some((pass, made))
}
