//! Runs of threads over the offices, on racks of each kind.
ghost use Rattle.std.specs.Prelude.{◌≡◌, IfSome, vec_len};

use crate::closing::{Found, close};
use crate::disks::Racks;
use crate::gated::{Gate, Trouble, racks};
use crate::offices::open;
use crate::serving::Replies;
use crate::threads::run;
use disk_model::{Disk, FileDisk};
use std::alloc::Global;
use std::marker::Send;
use std::sync::{Arc, Wait};
use std::thread::Threads;

/// 2^`levels` threads with so many bills each.
#[derive(Clone, Copy)]
pub(crate) struct Size {
    pub(crate) levels: u32,
    pub(crate) bills: u32,
}

/// What becomes of the requests and of the diaries, on these racks of the two platforms.
pub(crate) fn measure<D: Disk + Drop + Send, R: Threads + Wait + Sync>(
    rt: &R,
    alloc: Global,
    size: Size,
    alph: Racks<D>,
    beta: Racks<D>,
) -> Option<(Replies, Found)>
    requires counts { (vec_len alph ≡ 16) × (vec_len beta ≡ 16) }
{
    let (offices, passes) = open(alloc, alph, beta)?;
    match run(rt, alloc, &offices, passes, size.levels, size.bills) {
        Some((passes, replies)) => Some((replies, close(alloc, offices, passes)?)),
        None => {
            drop(offices);
            None
        }
    }
}

/// The same on racks with files, if there are any.
pub(crate) fn on_files<R: Threads + Wait + Sync>(
    rt: &R,
    alloc: Global,
    size: Size,
    racks: Option<(Racks<FileDisk>, Racks<FileDisk>)>,
) -> Option<(Replies, Found)>
    requires { IfSome racks (λ r. (vec_len r.0 ≡ 16) × (vec_len r.1 ≡ 16)) }
{
    let (alph, beta) = racks?;
    measure(rt, alloc, size, alph, beta)
}

/// The same on disks in memory, with this trouble at ALPH. A call that fails is one reply at most. A write that waits
/// does so until the other was answered; none comes if it wasn't.
pub(crate) fn in_memory<R: Threads + Wait + Sync>(
    rt: &R,
    alloc: Global,
    size: Size,
    trouble: Trouble,
) -> Option<(Replies, Found)> {
    let gate = Arc::new(alloc, Gate::new()).ok()?;
    let told = by_gate(rt, alloc, size, trouble, &gate);
    match (trouble, gate.was_opened()) {
        (Trouble::Gated, false) => None,
        _ => told,
    }
}

fn by_gate<R: Threads + Wait + Sync>(
    rt: &R,
    alloc: Global,
    size: Size,
    trouble: Trouble,
    gate: &Arc<Gate, Global>,
) -> Option<(Replies, Found)> {
    let alph = racks(alloc, gate, trouble)?;
    match racks(alloc, gate, Trouble::Nothing) {
        Some(beta) => measure(rt, alloc, size, alph, beta),
        None => {
            drop(alph);
            None
        }
    }
}
