//! Turns at values by several threads: what bench/turns.py measures.
#![tactic(auto)]

ghost use Rattle.std.specs.Prelude.{◌≡◌, ◌<◌, ◌≤◌, IfSome};
ghost use Rattle.std.specs.Thread.{IsSync};

mod tally;

use bill_locks::{Grows, Pass, Turns};
use ebl_edge::words;
use std::alloc::Global;
use std::process::ExitCode;
use std::thread::{Threads, join, yield_now};
use tally::{Add, Tally};

const USAGE: &str = "usage:
  turns_bench LEVELS VALUES TURNS    2^LEVELS threads take TURNS turns each; the turns taken are written";

fn main(rt: HostRuntime) -> ExitCode {
    let Some((levels, values, turns)) = numbers(&rt) else {
        let _ = eprintln!(rt; "{USAGE}");
        return ExitCode::from(2);
    };
    let Some(taken) = measure(&rt, rt.alloc(), levels, values, turns) else {
        return ExitCode::FAILURE;
    };
    match println!(rt; "{taken}") {
        Ok(()) => ExitCode::SUCCESS,
        Err(_) => ExitCode::FAILURE,
    }
}

// The numbers that the three words are, of at least one value and sixteen levels at most.
fn numbers(rt: &HostRuntime) -> Option<(u32, u32, u32)>
    ensures { IfSome result (λ r. (r.0 ≤ 16) × (0 < r.1)) }
{
    let words = words(rt).ok()?;
    let [levels, values, turns] = words.as_slice() else {
        return None;
    };
    let levels = levels.as_str().parse::<u32>().ok()?;
    let values = values.as_str().parse::<u32>().ok()?;
    let turns = turns.as_str().parse::<u32>().ok()?;
    if levels > 16 || values == 0 {
        return None;
    }
    Some((levels, values, turns))
}

// Takes the turns, and counts those that were taken.
fn measure<R: Threads + Sync>(
    rt: &R,
    alloc: Global,
    levels: u32,
    values: u32,
    turns: u32,
) -> Option<u64>
    requires { 0 < values }
{
    let (table, pass) = Turns::new(alloc, Tally::many(alloc, values).ok()?).ok()?;
    let work = Work { values, turns };
    let pass = spread(rt, &table, pass, work, 0, levels)?;
    let mut taken = 0u64;
    for tally in &table.close(pass).ok()? {
        taken = taken.wrapping_add(tally.frames());
    }
    Some(taken)
}

// How many values there are, and how many turns a thread takes.
#[derive(Clone, Copy)]
struct Work {
    values: u32,
    turns: u32,
    ghost some_values: { 0 < values },
}

// Splits the pass so often as `levels` says, works in a thread for each part, and joins the parts.
fn spread<R: Threads + Sync>(
    rt: &R,
    table: &Turns<Tally>,
    mut pass: Pass<Tally>,
    work: Work,
    first: u32,
    levels: u32,
) -> Option<Pass<Tally>>
    requires of { pass.table ≡ table.now }
    requires places { work.values ≤ table.now.slots }
    ensures { IfSome result (λ p. p.table ≡ table.now) }
{
    if levels == 0 {
        take_turns(table, &mut pass, work, first);
        return Some(pass);
    }
    let below = levels - 1;
    let other = table.split(&mut pass).ok()?;
    let (mine, theirs) = join(
        rt,
        move || -> Option<Pass<Tally>>
            requires { IsSync R.row × (pass.table ≡ table.now) × (work.values ≤ table.now.slots) }
            ensures { IfSome result (λ p. p.table ≡ table.entry.now) }
        { spread(rt, table, pass, work, first, below) },
        move || -> Option<Pass<Tally>>
            requires { IsSync R.row × (other.table ≡ table.now) × (work.values ≤ table.now.slots) }
            ensures { IfSome result (λ p. p.table ≡ table.entry.now) }
        {
            spread(
                rt,
                table,
                other,
                work,
                first.wrapping_add(1 << below % 32),
                below,
            )
        },
    );
    let mut pass = mine?;
    table.join(&mut pass, theirs?);
    Some(pass)
}

// One thread's turns, at one value after the other.
fn take_turns(table: &Turns<Tally>, pass: &mut Pass<Tally>, work: Work, first: u32)
    requires of { pass.old.table ≡ table.now }
    requires places { work.values ≤ table.now.slots }
    ensures { pass.new.table ≡ pass.old.table }
{
    for turn in 0..work.turns {
        let turn = first.wrapping_add(turn);
        let at = (turn % work.values) as usize;
        take_turn(table, pass, at, u64::from(turn));
    }
}

// Tries a turn until it is taken.
fn take_turn(table: &Turns<Tally>, pass: &mut Pass<Tally>, at: usize, amount: u64)
    requires of { pass.old.table ≡ table.now }
    requires place { at < table.now.slots }
    ensures { pass.new.table ≡ pass.old.table }
{
    for _ in 0..u64::MAX {
        if table.try_turn(pass, at, Add { amount }).is_ok() {
            return;
        }
        yield_now();
    }
}
