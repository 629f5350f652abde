//! Disks in memory, of which calls of one shard's fail, or a write of the one waits until requests of another were
//! answered.
ghost use Rattle.std.specs.Prelude.{◌≡◌, ◌+◌, ◌≤◌, [], All, IfOk, IfSome, OnOk, drop, length, take, true, vec_len};
ghost use Rattle.ebl_base.specs.Faults.{HasCause};
ghost use Rattle.disk_model.specs.Disk.{Elapses, Follows, NoneNew, Only, Torn, written};

use crate::disks::Racks;
use disk_model::{Disk, Failures, MemoryDisk};
use ebl_base::{Failed, Items};
use journaled_shard::Rack;
use std::alloc::Global;
use std::marker::Model;
use std::sync::Arc;
use std::sync::atomic::{AtomicU64, Ordering};
use std::thread::yield_now;
use test_signer::KeyedRing;

// What a gate holds: nobody waited so far; a write waits; it was let go; nobody let it go.
const SHUT: u64 = 0;

const WAITING: u64 = 1;

const OPEN: u64 = 2;

const STUCK: u64 = 3;

// How often somebody looks at a gate before giving up.
const LOOKS: u64 = 10_000_000;

/// A gate at which one write waits.
#[derive(Drop)]
pub(crate) struct Gate {
    state: AtomicU64,
}

impl Gate {
    pub(crate) fn new() -> Self {
        Gate {
            state: AtomicU64::new(SHUT),
        }
    }

    /// Whether a write waited, and was let go.
    pub(crate) fn was_opened(&self) -> bool {
        self.state.load(Ordering::SeqCst) == OPEN
    }

    // Waits until the gate is opened.
    fn wait(&self) {
        self.state.store(WAITING, Ordering::SeqCst);
        for _ in 0..LOOKS {
            if self.state.load(Ordering::SeqCst) == OPEN {
                return;
            }
            yield_now();
        }
        self.state.store(STUCK, Ordering::SeqCst);
    }

    // Opens the gate for a write that waits there, or will come soon.
    fn open(&self) {
        for _ in 0..LOOKS {
            let opened = self
                .state
                .compare_exchange(WAITING, OPEN, Ordering::SeqCst, Ordering::SeqCst);
            if opened.is_ok() {
                return;
            }
            yield_now();
        }
    }
}

/// What a disk does with the gate at one of its writes.
#[derive(Clone, Copy)]
enum Deed {
    Nothing,
    Waits,
    Opens,
}

/// A disk that comes by a gate. Contracts see the disk alone.
#[derive(Drop)]
pub(crate) struct GatedDisk<D> {
    disk: D,
    gate: Arc<Gate, Global>,
    deed: Deed,
    writes: u64,
}

impl<D> Model for GatedDisk<D> {
    ghost Value = { D };

    ghost view = { λ s. s.disk };
}

impl<D: Disk> Disk for GatedDisk<D> {
    ghost tells = { D.tells };

    ghost seen = { D.seen };

    ghost may_leave = { D.may_leave };

    ghost moment = { D.moment };

    ghost left_since = { D.left_since };

    ghost faults = { D.faults };

    fn len(&mut self) -> Result<u64, Failed> {
        self.disk.len()
    }

    fn read(&mut self, place: u64, into: &mut [u8]) -> Result<(), Failed> {
        self.disk.read(place, into)
    }

    fn write_at(&mut self, place: u64, bytes: &[u8]) -> Result<(), Failed> {
        self.comes_by();
        self.disk.write_at(place, bytes)
    }

    fn sync(&mut self) -> Result<(), Failed> {
        self.disk.sync()
    }

    ghost counts_now = { λ s t c told le left. D.counts_now s t c told le left };

    ghost only_now = { λ s c told left. D.only_now s c told left };
}

impl<D> GatedDisk<D> {
    // The first write is the opening's, and a frame has two. So the second one waits, before the first frame, and the
    // fourth opens, once the first frame was answered.
    fn comes_by(&mut self)
        ensures { self.new ≡ self.old }
    {
        self.writes = self.writes.wrapping_add(1);
        match (self.deed, self.writes) {
            (Deed::Waits, 2) => self.gate.wait(),
            (Deed::Opens, 4) => self.gate.open(),
            _ => {}
        }
    }
}

/// What is wrong with the disks of a platform.
#[derive(Clone, Copy)]
pub(crate) enum Trouble {
    Nothing,
    /// Twenty calls of shard 4's fail.
    Failing,
    /// A write of shard 15's waits until one of shard 4's, which comes after it, was answered.
    Gated,
}

// The calls that fail.
const CALLS: &[u64] = &[
    37, 74, 111, 148, 185, 222, 259, 296, 333, 370, 407, 444, 481, 518, 555, 592, 629, 666, 703,
    740,
];

const NO_CALLS: &[u64] = &[];

// What the disk of a shard does at its writes.
fn deed_of(trouble: Trouble, number: u32) -> Deed {
    match (trouble, number) {
        (Trouble::Gated, 15) => Deed::Waits,
        (Trouble::Gated, 4) => Deed::Opens,
        _ => Deed::Nothing,
    }
}

// The calls of a shard's disk that fail.
fn calls_of(trouble: Trouble, number: u32) -> &'static [u64] {
    match (trouble, number) {
        (Trouble::Failing, 4) => CALLS,
        _ => NO_CALLS,
    }
}

fn rack(
    alloc: Global,
    gate: &Arc<Gate, Global>,
    trouble: Trouble,
    number: u32,
) -> Option<Rack<GatedDisk<MemoryDisk>, KeyedRing>>
    ensures { IfSome result (λ rack. rack.disk.seen ≡ []) }
{
    let disk = memory_disk(alloc, trouble, number)?;
    let Ok(gate) = Arc::try_clone(gate) else {
        drop(disk);
        return None;
    };
    let disk = GatedDisk {
        disk,
        gate,
        deed: deed_of(trouble, number),
        writes: 0,
    };
    let ring = KeyedRing::derived();
    Some(Rack { disk, ring })
}

// A blank disk of which the calls of this trouble fail.
fn memory_disk(alloc: Global, trouble: Trouble, number: u32) -> Option<MemoryDisk>
    ensures { IfSome result (λ disk. disk.seen ≡ []) }
{
    let failures = Failures {
        calls: Items::from_slice(alloc, calls_of(trouble, number)).ok()?,
        written: Items::new(alloc),
    };
    MemoryDisk::new(alloc, Items::new(alloc), failures).ok()
}

/// Sixteen racks with blank disks and this trouble. A disk whose write waits does so at the gate.
pub(crate) fn racks(
    alloc: Global,
    gate: &Arc<Gate, Global>,
    trouble: Trouble,
) -> Option<Racks<GatedDisk<MemoryDisk>>>
    ensures count { IfSome result (λ racks. vec_len racks ≡ 16) }
    ensures blank { IfSome result (λ racks. All (λ rack. rack.disk.seen ≡ []) racks.items) }
{
    let mut racks = Vec::new(alloc);
    for number in 0..16 {
        racks.push(rack(alloc, gate, trouble, number)?).ok()?;
    }
    Some(racks)
}
