//! Offices on disks in memory, and commands on one bill, which is of shard 4.
ghost use Rattle.std.specs.Prelude.{◌≡◌, IfOk, IfSome, vec_len};
ghost use Rattle.ebl_base.specs.Moment.{IsMoment};
ghost use Rattle.ebl_base.specs.Party.{IsParty};
ghost use Rattle.holder_commands.specs.Command.{command_view};
ghost use Rattle.holder_commands.specs.Form.{IsCommand};
ghost use Rattle.platform_requests.specs.Request.{request_view};
ghost use Rattle.transfer_judge.specs.PlannedTexts.{Nests};
ghost use Rattle.platform_office.specs.Office.{IsPassOf};
ghost use Rattle.platform_office.specs.Served.{MayBeServed};

use bill_locks::CloseFault;
use disk_model::{Failures, MemoryDisk};
use ebl_base::{Items, Kind, Moment, NoMemory, Party, PlatformCode};
use holder_commands::Command;
use journaled_shard::Rack;
use platform_office::{Closed, Office, Pass, Served};
use platform_requests::{Reply, Request};
use sample_bills::{acting, bill, roster, signing};
use std::alloc::Global;
use std::test::Fail;
use test_signer::KeyedRing;

/// The bill's shard.
pub(crate) const SHARD: usize = 4;

// What a shard of these tests runs on.
type TestRack = Rack<MemoryDisk, KeyedRing>;

/// The office of these tests, and its passes.
pub(crate) type TestOffice = Office<MemoryDisk, KeyedRing>;

pub(crate) type TestPass = Pass<MemoryDisk, KeyedRing>;

/// What is left of it once it is closed.
pub(crate) type TestClosed = Closed<MemoryDisk, KeyedRing>;

/// What closing it gives.
pub(crate) type Closing = Result<TestClosed, (TestOffice, TestPass, CloseFault)>;

// The listed calls fail, once their bytes are written.
fn failures(alloc: Global, fails: &[u64]) -> Result<Failures, NoMemory> {
    Ok(Failures {
        calls: Items::from_slice(alloc, fails)?,
        written: Items::from_slice(alloc, fails)?,
    })
}

// A blank disk of which the listed calls fail so.
fn disk(alloc: Global, fails: &[u64]) -> Result<MemoryDisk, NoMemory> {
    let failures = failures(alloc, fails)?;
    MemoryDisk::new(alloc, Items::new(alloc), failures)
}

// That disk, and the derived ring.
fn rack(alloc: Global, fails: &[u64]) -> Option<TestRack> {
    match disk(alloc, fails) {
        Ok(disk) => Some(Rack {
            disk,
            ring: KeyedRing::derived(),
        }),
        Err(_) => None,
    }
}

// Sixteen blank disks; at the bill's shard the listed calls fail.
fn racks(alloc: Global, fails: &[u64]) -> Option<Vec<TestRack>>
    ensures { IfSome result (λ racks. vec_len racks ≡ 16) }
{
    let mut racks = Vec::new(alloc);
    for number in 0..16 {
        let listed = if number == SHARD { fails } else { &[] };
        racks.push(rack(alloc, listed)?).ok()?;
    }
    Some(racks)
}

// The office of ALPH on these.
fn opened(alloc: Global, me: PlatformCode, racks: Vec<TestRack>) -> Option<(TestOffice, TestPass)>
    requires { vec_len racks ≡ 16 }
    ensures { IfSome result (λ r. IsPassOf r.0 r.1) }
{
    match roster(alloc) {
        Some(roster) => Office::open(alloc, me, roster, racks).ok(),
        None => {
            drop(racks);
            None
        }
    }
}

fn try_office(alloc: Global, fails: &[u64]) -> Option<(TestOffice, TestPass)>
    ensures { IfSome result (λ r. IsPassOf r.0 r.1) }
{
    let me = PlatformCode::try_new(b"ALPH")?;
    let racks = racks(alloc, fails)?;
    opened(alloc, me, racks)
}

/// The office of ALPH on blank disks; at the bill's shard the listed calls fail.
pub(crate) fn office(alloc: Global, fails: &[u64]) -> Result<(TestOffice, TestPass), Fail>
    ensures { IfOk result (λ r. IsPassOf r.0 r.1) }
{
    match try_office(alloc, fails) {
        Some(office) => Ok(office),
        None => Err("an office".into()),
    }
}

// Who asks at this step.
fn by(step: usize) -> Option<Party>
    ensures { IfSome result (λ party. IsParty party) }
{
    let text = match step {
        0 | 1 => "ALPH/CARRIER",
        _ => "ALPH/EXPORT",
    };
    Party::from_text(text.as_bytes())
}

// What is asked of the bill at this step: it is signed, issued, endorsed, and handed over.
fn command(alloc: Global, step: usize) -> Option<Command>
    ensures form { IfSome result (λ command. IsCommand (command_view command)) }
    ensures nests { IfSome result (λ command. Nests (command_view command)) }
{
    match step {
        0 => signing(alloc, 1),
        1 => acting(bill(alloc, 1)?, Kind::Issue, "ALPH/EXPORT"),
        2 => acting(bill(alloc, 1)?, Kind::Endorse, "ALPH/BANK"),
        _ => acting(bill(alloc, 1)?, Kind::Transfer, "ALPH/BANK"),
    }
}

fn moment() -> Option<Moment>
    ensures { IfSome result (λ now. IsMoment now) }
{
    Moment::try_new(1000)
}

// A moment, and a request at it: this step of the bill.
fn step(alloc: Global, number: usize) -> Option<(Moment, Request)>
    ensures { IfSome result (λ r. MayBeServed r.0 (request_view r.1)) }
{
    let now = moment()?;
    let party = by(number)?;
    let command = command(alloc, number)?;
    Some((now, Request::Command { party, command }))
}

// The numbers of frames before and afterwards, if the reply is Done where `done` says so, and else a fault of the disk.
fn frames(served: &Served, done: bool) -> Option<(u64, u64)> {
    let as_said = match &served.outcome.reply {
        Reply::Done(_) => done,
        Reply::Disk => !done,
        _ => false,
    };
    if as_said && served.shard as usize == SHARD {
        Some((served.before, served.after))
    } else {
        None
    }
}

/// Asks a step of the bill, and gives the numbers of frames before and afterwards, if it wasn't busy and the reply is
/// Done where `done` says so, and else a fault of the disk.
pub(crate) fn ask(
    office: &TestOffice,
    alloc: Global,
    pass: &mut TestPass,
    number: usize,
    done: bool,
) -> Option<(u64, u64)>
    requires { IsPassOf office.now pass.old }
    ensures { IsPassOf office.now pass.new }
{
    let (now, request) = step(alloc, number)?;
    match office.try_take(alloc, pass, now, request) {
        Ok(served) => {
            let frames = frames(&served, done);
            drop(served);
            frames
        }
        Err(fault) => {
            drop(fault);
            None
        }
    }
}
