//! Each device call of an append fails, with its bytes written and without; and the one after it, in the reading.
use super::runs::{Ask, Place, Run, Seen, run_at};
use super::scenes::{Scene, Written, scene_of};
use std::alloc::Global;
use std::process::Abort;
use std::test::Fail;

// Which call of an append fails, behind the three of the opening; whether its bytes are written; and whether the frame
// is then on the disk. The calls are the frame's bytes, a sync, its gate, a sync.
const CALLS: [(u64, bool, bool); 6] = [
    (3, false, false),
    (3, true, false),
    (4, false, false),
    (5, false, false),
    (5, true, true),
    (6, false, true),
];

// What a request writes, the answer to it, and the answer to the same request once its frame stands.
const REQUESTS: [(Written, &str, &str); 5] = [
    (Written::Signed, "DONE", "KNOWN_BILL"),
    (Written::Parted, "DONE", "NOT_HERE"),
    (Written::Taken, "RECE", "DUPE"),
    (Written::Declined, "BENV", "BENV"),
    (Written::Settled, "DONE", "IGNORED"),
];

// The request is answered DISK and sends nothing; nobody may act on the bill, and the journal is to be read again.
fn is_stopped(seen: Seen) -> bool {
    seen.word == "DISK" && seen.sent == 0 && seen.unread && !seen.may_act
}

// The run on the scene's disk, of which these calls fail.
fn run_with(
    alloc: Global,
    scene: &Scene,
    fails: &[u64],
    leaves: bool,
    asks: &[Ask<'_>],
) -> Option<Run> {
    let written: &[u64] = if leaves { fails } else { &[] };
    let place = Place {
        code: scene.at,
        bytes: scene.before.as_slice(),
        fails,
        written,
    };
    run_at(alloc, place, asks)
}

// How many frames a shard has that is opened on these bytes.
fn frames_on(alloc: Global, at: &'static str, bytes: &[u8]) -> Option<usize> {
    Some(run_at(alloc, Place::sound(at, bytes), &[])?.opened)
}

// The answer to what comes next, and how many frames there are then, as many as are found on the disk.
fn answer(
    alloc: Global,
    scene: &Scene,
    call: u64,
    leaves: bool,
    next: Ask<'_>,
) -> Option<(&'static str, usize)> {
    let run = run_with(alloc, scene, &[call], leaves, &[scene.ask(), next])?;
    answer_in(alloc, scene, &run)
}

fn answer_in(alloc: Global, scene: &Scene, run: &Run) -> Option<(&'static str, usize)> {
    let found = frames_on(alloc, scene.at, run.bytes.as_slice())?;
    Some((second_word(run.seen.as_slice(), found)?, found))
}

// The second answer, where the first request is stopped and so many frames are there then.
fn second_word(seen: &[Seen], found: usize) -> Option<&'static str> {
    match seen {
        &[first, then] if is_stopped(first) && !then.unread && then.frames == found => {
            Some(then.word)
        }
        _ => None,
    }
}

// Three things that come next, each to a shard of its own: the same request, a question, and a restart.
fn tell_call<R: Abort>(
    rt: &R,
    alloc: Global,
    scene: &Scene,
    (call, leaves, stands): (u64, bool, bool),
    (before, same): (usize, &str),
) {
    let after = before.saturating_add(1);
    let found = if stands { after } else { before };
    let call = (call, leaves);
    tell_next(rt, alloc, scene, call, (scene.ask(), same, after));
    tell_next(rt, alloc, scene, call, (Ask::How, "DONE", found));
    tell_next(rt, alloc, scene, call, (Ask::Reopen, "OPENED", found));
}

fn tell_next<R: Abort>(
    rt: &R,
    alloc: Global,
    scene: &Scene,
    (call, leaves): (u64, bool),
    (next, word, count): (Ask<'_>, &str, usize),
) {
    let told = answer(alloc, scene, call, leaves, next);
    let right = matches!(told, Some((told, many)) if told == word && many == count);
    assert!(rt; right, "call {call}, {word}");
}

fn tell_calls<R: Abort>(rt: &R, alloc: Global, scene: &Scene, first: &str, again: &str) {
    let Some(before) = frames_on(alloc, scene.at, scene.before.as_slice()) else {
        panic!(rt; "no scene");
    };
    for &(call, leaves, stands) in &CALLS {
        let same = if stands { again } else { first };
        tell_call(rt, alloc, scene, (call, leaves, stands), (before, same));
    }
}

#[test]
fn each_call_of_an_append_fails(rt: HostRuntime) -> Result<(), Fail> {
    for &(written, first, again) in &REQUESTS {
        let scene = scene_of(rt.alloc(), written).ok_or("a scene")?;
        tell_calls(&rt, rt.alloc(), &scene, first, again);
    }
    Ok(())
}

// The answer to the request at its third time, where two calls fail: it is answered DISK before.
fn third(alloc: Global, scene: &Scene, fails: &[u64], leaves: bool) -> Option<&'static str> {
    let ask = scene.ask();
    let run = run_with(alloc, scene, fails, leaves, &[ask, ask, ask])?;
    third_word(run.seen.as_slice())
}

fn third_word(seen: &[Seen]) -> Option<&'static str> {
    match seen {
        &[first, second, third] if is_stopped(first) && is_stopped(second) => Some(third.word),
        _ => None,
    }
}

// The reading is the length, a sync, and a read: each fails behind the call of an append.
fn tell_readings<R: Abort>(rt: &R, alloc: Global, scene: &Scene, first: &str, again: &str) {
    for &(call, leaves, stands) in &CALLS {
        let wanted = if stands { again } else { first };
        for reading in 1..4 {
            tell_reading(rt, alloc, scene, (call, leaves, reading), wanted);
        }
    }
}

fn tell_reading<R: Abort>(
    rt: &R,
    alloc: Global,
    scene: &Scene,
    (call, leaves, reading): (u64, bool, u64),
    wanted: &str,
) {
    let told = third(alloc, scene, &[call, call.saturating_add(reading)], leaves);
    let right = matches!(told, Some(told) if told == wanted);
    assert!(rt; right, "call {call} and {reading} more");
}

#[test]
fn two_calls_fail_one_after_the_other(rt: HostRuntime) -> Result<(), Fail> {
    for &(written, first, again) in &REQUESTS {
        let scene = scene_of(rt.alloc(), written).ok_or("a scene")?;
        tell_readings(&rt, rt.alloc(), &scene, first, again);
    }
    Ok(())
}
