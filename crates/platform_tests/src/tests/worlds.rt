//! Worlds on memory disks of which listed calls fail, and scripts with the answers that they are to have.
ghost use Rattle.std.specs.Prelude.{◌≡◌, ◌+◌, ◌*◌, ◌<◌, ◌≤◌, [], length, IfOk, OnOk};
ghost use Rattle.party_roster.specs.RosterForm.{IsRoster};
ghost use Rattle.platform_world.specs.Opening.{AreBlank};

use disk_model::{Disk, Failures, MemoryDisk};
use ebl_base::{ByteList, CallList, NoMemory};
use journaled_shard::{JournaledShard, Rack};
use party_roster::Roster;
use platform_world::{Machine, World};
use std::alloc::Global;
use std::process::Abort;
use std::test::Fail;
use test_signer::FailingRing;
use world_events::{event_in, roster_in};

// The roster line of two platforms.
const ROSTER: &[u8] = br#"{"roster":{
    "carriers":[{"code":"OCNL","party":"ALPH/CARRIER","provider":"NMFTA"}],
    "parties":["ALPH/CARRIER","ALPH/EXPORT","BETA/IMPORT"],
    "platforms":["ALPH","BETA"]
}}"#;

// The carrier signs and issues a bill, and its possessor hands it to BETA: message 1 is the start.
const HANDED_OVER: [(&str, &str); 4] = [
    (
        r#"{"at":"ALPH","do":"SIGN","document":{"carrierCode":"OCNL","carrierCodeListProvider":"NMFTA","isToOrder":true,
        "transportDocumentReference":"OCNL0000001","transportDocumentTypeCode":"BOL"},"party":"ALPH/CARRIER"}"#,
        r#"{"event":1,"reply":"DONE","sent":[],"view":{"bill":1,"entries":0,"holder":"ALPH/CARRIER","place":"HELD","possessor":"ALPH/CARRIER","state":"SIGNED"}}
"#,
    ),
    (
        r#"{"at":"ALPH","bill":1,"do":"ISSUE","party":"ALPH/CARRIER","recipient":"ALPH/EXPORT"}"#,
        r#"{"event":2,"reply":"DONE","sent":[],"view":{"bill":1,"entries":0,"holder":"ALPH/EXPORT","place":"HELD","possessor":"ALPH/EXPORT","state":"LIVE"}}
"#,
    ),
    (
        r#"{"at":"ALPH","bill":1,"do":"ENDORSE","party":"ALPH/EXPORT","recipient":"BETA/IMPORT"}"#,
        r#"{"event":3,"reply":"DONE","sent":[],"view":{"bill":1,"entries":0,"holder":"BETA/IMPORT","place":"HELD","possessor":"ALPH/EXPORT","state":"LIVE"}}
"#,
    ),
    (
        r#"{"at":"ALPH","bill":1,"do":"TRANSFER","party":"ALPH/EXPORT","recipient":"BETA/IMPORT"}"#,
        r#"{"event":4,"reply":"DONE","sent":[1],"view":{"bill":1,"entries":0,"holder":"BETA/IMPORT","place":"PARTING","possessor":"BETA/IMPORT","state":"LIVE"}}
"#,
    ),
];

// What a shard runs on.
type TestRack = Rack<MemoryDisk, FailingRing>;

// A world of these.
type TestWorld = World<JournaledShard<MemoryDisk, FailingRing>>;

/// The calls that are to fail on one rack: of its disk, those of them whose bytes go in all the same, and of its ring.
/// The disk's first three calls are those of the opening.
#[derive(Clone, Copy)]
pub(crate) struct Failing {
    pub(crate) place: usize,
    pub(crate) calls: &'static [u64],
    pub(crate) written: &'static [u64],
    pub(crate) signs: &'static [u64],
}

// No call fails.
const NONE: Failing = Failing {
    place: 0,
    calls: &[],
    written: &[],
    signs: &[],
};

fn failures(alloc: Global, failing: Failing) -> Result<Failures, NoMemory> {
    Ok(Failures {
        calls: CallList::from_slice(alloc, failing.calls)?,
        written: CallList::from_slice(alloc, failing.written)?,
    })
}

// A blank disk of which these calls fail.
fn disk(alloc: Global, failing: Failing) -> Result<MemoryDisk, NoMemory>
    ensures { IfOk result (λ disk. ⟦<MemoryDisk as Disk>⟧.seen disk ≡ []) }
{
    let failures = failures(alloc, failing)?;
    MemoryDisk::new(alloc, ByteList::new(alloc), failures)
}

/// A rack with a blank disk.
fn rack(alloc: Global, failing: Failing) -> Result<TestRack, NoMemory>
    ensures { IfOk result (λ rack. ⟦<MemoryDisk as Disk>⟧.seen rack.disk ≡ []) }
{
    let disk = disk(alloc, failing)?;
    match CallList::from_slice(alloc, failing.signs) {
        Ok(signs) => Ok(Rack {
            disk,
            ring: FailingRing::derived(signs),
        }),
        Err(NoMemory) => {
            drop(disk);
            Err(NoMemory)
        }
    }
}

// What fails at a place.
fn failing_at(place: usize, failing: Failing) -> Failing {
    if place == failing.place {
        failing
    } else {
        NONE
    }
}

// So many racks with blank disks.
fn racks(alloc: Global, count: usize, failing: Failing) -> Result<Vec<TestRack>, NoMemory>
    ensures count { IfOk result (λ racks. length racks.items ≡ count) }
    ensures blank { IfOk result (λ racks. AreBlank ⟦<MemoryDisk as Disk>⟧.tells ⟦<MemoryDisk as Disk>⟧.seen
        racks.items) }
{
    let mut racks = Vec::with_capacity(alloc, count)?;
    for place in 0..count {
        racks.push(rack(alloc, failing_at(place, failing))?)?;
    }
    Ok(racks)
}

fn roster(alloc: Global) -> Result<Roster, Fail>
    ensures { IfOk result (λ roster. IsRoster roster) }
{
    match roster_in(alloc, ROSTER)? {
        Some(roster) => Ok(roster),
        None => Err("a roster".into()),
    }
}

// The roster's platforms, which have written nothing.
fn world(alloc: Global, failing: Failing) -> Result<TestWorld, Fail>
    ensures { IfOk result (λ world. world.fates ≡ []) }
{
    let roster = roster(alloc)?;
    match racks(alloc, 16 * roster.platforms().len(), failing) {
        Ok(racks) => opened(alloc, roster, racks),
        Err(fault) => {
            drop(roster);
            Err(fault.into())
        }
    }
}

fn opened(alloc: Global, roster: Roster, racks: Vec<TestRack>) -> Result<TestWorld, Fail>
    requires form { IsRoster roster }
    requires count { length racks.items ≡ 16 * length roster.platforms }
    requires blank { AreBlank ⟦<MemoryDisk as Disk>⟧.tells ⟦<MemoryDisk as Disk>⟧.seen racks.items }
    ensures { IfOk result (λ world. world.fates ≡ []) }
{
    match TestWorld::open(alloc, roster, racks) {
        Ok(world) => Ok(world),
        Err(refused) => {
            drop(refused);
            Err("a world".into())
        }
    }
}

/// What a line is answered.
fn answer<M: Machine>(alloc: Global, world: &mut World<M>, line: &str) -> Result<ByteList, Fail>
    requires { length world.old.fates < 100 }
    ensures { OnOk result (length world.new.fates ≡ length world.old.fates + 1) }
{
    match event_in(alloc, world.roster(), line.as_bytes())? {
        Some(event) => Ok(world.step(alloc, event)?),
        None => Err("an event".into()),
    }
}

// A line's answer is as wanted.
fn tell_answer<M: Machine>(
    rt: &(impl Abort + Alloc<A = Global>),
    world: &mut World<M>,
    line: &str,
    wanted: &str,
) -> Result<(), Fail>
    requires { length world.old.fates < 100 }
    ensures { OnOk result (length world.new.fates ≡ length world.old.fates + 1) }
{
    let answer = answer(rt.alloc(), world, line)?;
    tell_bytes(rt, answer.as_slice(), wanted);
    drop(answer);
    Ok(())
}

fn tell_bytes(rt: &impl Abort, bytes: &[u8], wanted: &str) {
    assert_eq!(rt; bytes, wanted.as_bytes());
}

/// Takes lines, and compares each with its answer.
fn take<M: Machine>(
    rt: &(impl Abort + Alloc<A = Global>),
    world: &mut World<M>,
    events: &[(&str, &str)],
) -> Result<(), Fail>
    requires { length world.old.fates + length events.now < 100 }
    ensures { OnOk result (length world.new.fates ≡ length world.old.fates + length events.now) }
{
    for (line, wanted) in events {
        tell_answer(rt, world, line, wanted)?;
    }
    Ok(())
}

/// A bill is handed over in a fresh world, and then these lines are taken: each is compared with its answer, and so are
/// the bill lines.
pub(crate) fn answers(
    rt: &(impl Abort + Alloc<A = Global>),
    failing: Failing,
    events: &[(&str, &str)],
    bills: &str,
) -> Result<(), Fail>
    requires { length events.now < 90 }
{
    let mut world = world(rt.alloc(), failing)?;
    let told = tell(rt, &mut world, events, bills);
    drop(world);
    told
}

fn tell(
    rt: &(impl Abort + Alloc<A = Global>),
    world: &mut TestWorld,
    events: &[(&str, &str)],
    bills: &str,
) -> Result<(), Fail>
    requires fresh { world.old.fates ≡ [] }
    requires few { length events.now < 90 }
{
    take(rt, world, &HANDED_OVER)?;
    take(rt, world, events)?;
    tell_bills(rt, world, bills)
}

fn tell_bills(
    rt: &(impl Abort + Alloc<A = Global>),
    world: &TestWorld,
    bills: &str,
) -> Result<(), Fail> {
    let lines = world.bill_lines(rt.alloc())?;
    tell_bytes(rt, lines.as_slice(), bills);
    drop(lines);
    Ok(())
}
