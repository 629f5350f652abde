//! An office: passes that share a shard, a pass that is out, a disk that fails.
ghost use Rattle.std.specs.Prelude.{◌≡◌, IfOk};
ghost use Rattle.platform_office.specs.Office.{IsPassOf};

mod asking;

use self::asking::{Closing, SHARD, TestClosed, TestOffice, TestPass, ask, office};
use bill_locks::CloseFault;
use disk_model::Disk;
use std::alloc::Global;
use std::process::Abort;
use std::test::Fail;

// Of two passes the first asks, then the other, then the first again.
fn ask_in_turn(
    rt: &impl Abort,
    alloc: Global,
    office: &TestOffice,
    pass: &mut TestPass,
    other: &mut TestPass,
)
    requires pass { IsPassOf office.now pass.old }
    requires other { IsPassOf office.now other.old }
    ensures pass { IsPassOf office.now pass.new }
    ensures other { IsPassOf office.now other.new }
{
    assert!(rt; ask(office, alloc, pass, 0, true) == Some((0, 1)));
    assert!(rt; ask(office, alloc, other, 1, true) == Some((1, 2)));
    assert!(rt; ask(office, alloc, pass, 2, true) == Some((2, 3)));
}

// The office, its pass and another one.
fn with_another(
    office: TestOffice,
    pass: TestPass,
) -> Result<(TestOffice, TestPass, TestPass), Fail>
    requires { IsPassOf office pass }
    ensures pass { IfOk result (λ r. IsPassOf r.0 r.1) }
    ensures other { IfOk result (λ r. IsPassOf r.0 r.2) }
{
    let mut pass = pass;
    match office.split(&mut pass) {
        Ok(other) => Ok((office, pass, other)),
        Err(fault) => {
            drop(pass);
            drop(office);
            Err(fault.into())
        }
    }
}

// An office of which no disk fails, and two passes of it.
fn two_passes(alloc: Global) -> Result<(TestOffice, TestPass, TestPass), Fail>
    ensures pass { IfOk result (λ r. IsPassOf r.0 r.1) }
    ensures other { IfOk result (λ r. IsPassOf r.0 r.2) }
{
    let (office, pass) = office(alloc, &[])?;
    with_another(office, pass)
}

// How many frames the diary of the bill's shard has, how many racks there are, and how often that shard's disk failed,
// once the office is closed; none where another pass is out or memory runs out.
fn closed(office: TestOffice, pass: TestPass) -> Option<(usize, usize, u64)>
    requires { IsPassOf office pass }
{
    let closing = office.close(pass);
    let found = found(&closing);
    drop(closing);
    found
}

fn found(closing: &Closing) -> Option<(usize, usize, u64)> {
    match closing {
        Ok(closed) => found_in(closed),
        Err(_) => None,
    }
}

fn found_in(closed: &TestClosed) -> Option<(usize, usize, u64)> {
    Some((frames(closed)?, closed.racks.len(), faults(closed)?))
}

fn frames(closed: &TestClosed) -> Option<usize> {
    Some(closed.diaries.as_slice().get(SHARD)?.len())
}

fn faults(closed: &TestClosed) -> Option<u64> {
    Some(closed.racks.get(SHARD)?.disk.faults())
}

// Two passes make three frames on one shard. After the join `seen` is 3, and the diary that is closed has three frames.
#[test]
fn two_passes_make_three_frames(rt: HostRuntime) -> Result<(), Fail> {
    let (office, mut pass, mut other) = two_passes(rt.alloc())?;
    ask_in_turn(&rt, rt.alloc(), &office, &mut pass, &mut other);
    office.join(&mut pass, other);
    assert!(rt; office.seen(&mut pass, SHARD) == 3);
    assert!(rt; closed(office, pass) == Some((3, 16, 0)));
    Ok(())
}

// An office of which another pass is out stays open.
fn kept_open(rt: &impl Abort, office: TestOffice, pass: TestPass) -> (TestOffice, TestPass)
    requires { IsPassOf office pass }
    ensures office { result.0 ≡ office }
    ensures pass { IsPassOf office result.1 }
{
    match office.close(pass) {
        Ok(_) => panic!(rt; "a pass was out"),
        Err((office, pass, fault)) => {
            assert_eq!(rt; fault, CloseFault::Passes);
            (office, pass)
        }
    }
}

// It serves that pass, which is joined then.
fn serve_on(
    rt: &impl Abort,
    alloc: Global,
    office: &TestOffice,
    pass: &mut TestPass,
    other: TestPass,
)
    requires pass { IsPassOf office.now pass.old }
    requires other { IsPassOf office.now other }
    ensures { IsPassOf office.now pass.new }
{
    let mut other = other;
    assert!(rt; ask(office, alloc, &mut other, 0, true) == Some((0, 1)));
    office.join(pass, other);
}

// A second pass that is out keeps the office open, and it serves on.
#[test]
fn a_pass_that_is_out_keeps_the_office_open(rt: HostRuntime) -> Result<(), Fail> {
    let (office, pass, other) = two_passes(rt.alloc())?;
    let (office, mut pass) = kept_open(&rt, office, pass);
    serve_on(&rt, rt.alloc(), &office, &mut pass, other);
    assert!(rt; closed(office, pass) == Some((1, 16, 0)));
    Ok(())
}

// The first request meets a disk that fails, and the second one finds the frame.
fn ask_twice(rt: &impl Abort, alloc: Global, office: &TestOffice, pass: &mut TestPass)
    requires { IsPassOf office.now pass.old }
    ensures { IsPassOf office.now pass.new }
{
    assert!(rt; ask(office, alloc, pass, 0, false) == Some((0, 0)));
    assert!(rt; ask(office, alloc, pass, 1, true) == Some((1, 2)));
}

// The gate of a frame is written, and the call fails: the next request finds the frame, and counts it before its own.
#[test]
fn a_frame_that_was_kept_is_counted_before(rt: HostRuntime) -> Result<(), Fail> {
    let (office, mut pass) = office(rt.alloc(), &[5])?;
    ask_twice(&rt, rt.alloc(), &office, &mut pass);
    assert!(rt; closed(office, pass) == Some((2, 16, 1)));
    Ok(())
}
