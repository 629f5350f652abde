//! Threads that share the offices.
ghost use Rattle.std.specs.Prelude.{IfSome};
ghost use Rattle.std.specs.Thread.{IsSend, IsSync};
ghost use Rattle.platform_office.specs.Office.{IsPassOf};

use crate::offices::{Offices, Passes};
use crate::serving::{Bills, Phase, Replies, serve};
use disk_model::Disk;
use ebl_base::NoMemory;
use std::alloc::Global;
use std::marker::Send;
use std::sync::Wait;
use std::thread::{Threads, join};

// What is done with bills, and the bills of the first thread; the others' follow.
#[derive(Clone, Copy)]
pub(crate) struct Work {
    phase: Phase,
    bills: Bills,
}

// The work of both halves of the threads, so many to each. To settle, each half takes the bills of the other.
fn halves(work: Work, below: u32) -> (Work, Work) {
    let Work { phase, bills } = work;
    let second = Bills {
        first: bills.first.wrapping_add(bills.count.wrapping_shl(below)),
        count: bills.count,
    };
    let (near, far) = (
        work,
        Work {
            phase,
            bills: second,
        },
    );
    match phase {
        Phase::HandOver => (near, far),
        Phase::Settle => (far, near),
    }
}

// Splits the passes so often as `levels` says, works in a thread for each part, and joins the parts.
fn spread<D: Disk + Drop + Send, R: Threads + Wait + Sync>(
    rt: &R,
    alloc: Global,
    offices: &Offices<D>,
    passes: Passes<D>,
    work: Work,
    levels: u32,
) -> Option<(Passes<D>, Replies)>
    requires crosses { IsSync R.row × IsSend D.row }
    requires alph { IsPassOf offices.now.alph passes.alph }
    requires beta { IsPassOf offices.now.beta passes.beta }
    ensures alph { IfSome result (λ r. IsPassOf offices.now.alph r.0.alph) }
    ensures beta { IfSome result (λ r. IsPassOf offices.now.beta r.0.beta) }
{
    if levels == 0 {
        return alone(rt, alloc, offices, passes, work);
    }
    let below = levels - 1;
    let (near, far) = halves(work, below);
    let (passes, others) = split(offices, passes)?;
    let (mine, theirs) = join(
        rt,
        move || -> Option<(Passes<D>, Replies)>
            requires { IsSync R.row × IsSend D.row × IsPassOf offices.now.alph passes.alph
                × IsPassOf offices.now.beta passes.beta }
            ensures { IfSome result (λ r. IsPassOf offices.entry.now.alph r.0.alph
                × IsPassOf offices.entry.now.beta r.0.beta) }
        { spread(rt, alloc, offices, passes, near, below) },
        move || -> Option<(Passes<D>, Replies)>
            requires { IsSync R.row × IsSend D.row × IsPassOf offices.now.alph others.alph
                × IsPassOf offices.now.beta others.beta }
            ensures { IfSome result (λ r. IsPassOf offices.entry.now.alph r.0.alph
                × IsPassOf offices.entry.now.beta r.0.beta) }
        { spread(rt, alloc, offices, others, far, below) },
    );
    joined(offices, mine, theirs)
}

// The work of one thread.
fn alone<D: Disk + Drop, R: Wait>(
    rt: &R,
    alloc: Global,
    offices: &Offices<D>,
    mut passes: Passes<D>,
    work: Work,
) -> Option<(Passes<D>, Replies)>
    requires alph { IsPassOf offices.now.alph passes.alph }
    requires beta { IsPassOf offices.now.beta passes.beta }
    ensures alph { IfSome result (λ r. IsPassOf offices.now.alph r.0.alph) }
    ensures beta { IfSome result (λ r. IsPassOf offices.now.beta r.0.beta) }
{
    match serve(rt, alloc, offices, &mut passes, work.bills, work.phase) {
        Some(replies) => Some((passes, replies)),
        None => {
            drop(passes);
            None
        }
    }
}

// Passes for another thread too.
fn split<D: Disk + Drop>(
    offices: &Offices<D>,
    mut passes: Passes<D>,
) -> Option<(Passes<D>, Passes<D>)>
    requires alph { IsPassOf offices.now.alph passes.alph }
    requires beta { IsPassOf offices.now.beta passes.beta }
    ensures alph { IfSome result (λ r. IsPassOf offices.now.alph r.0.alph × IsPassOf offices.now.alph r.1.alph) }
    ensures beta { IfSome result (λ r. IsPassOf offices.now.beta r.0.beta × IsPassOf offices.now.beta r.1.beta) }
{
    let Ok(alph) = offices.alph.split(&mut passes.alph) else {
        drop(passes);
        return None;
    };
    match offices.beta.split(&mut passes.beta) {
        Ok(beta) => Some((passes, Passes { alph, beta })),
        Err(NoMemory) => {
            drop(alph);
            drop(passes);
            None
        }
    }
}

// The passes and the replies of two threads together, if both have them.
fn joined<D: Disk + Drop>(
    offices: &Offices<D>,
    mine: Option<(Passes<D>, Replies)>,
    theirs: Option<(Passes<D>, Replies)>,
) -> Option<(Passes<D>, Replies)>
    requires mine { IfSome mine (λ r. IsPassOf offices.now.alph r.0.alph × IsPassOf offices.now.beta r.0.beta) }
    requires theirs { IfSome theirs (λ r. IsPassOf offices.now.alph r.0.alph × IsPassOf offices.now.beta r.0.beta) }
    ensures alph { IfSome result (λ r. IsPassOf offices.now.alph r.0.alph) }
    ensures beta { IfSome result (λ r. IsPassOf offices.now.beta r.0.beta) }
{
    let Some((mut passes, mine)) = mine else {
        drop(theirs);
        return None;
    };
    match theirs {
        Some((others, theirs)) => {
            offices.alph.join(&mut passes.alph, others.alph);
            offices.beta.join(&mut passes.beta, others.beta);
            Some((passes, mine.plus(theirs)))
        }
        None => {
            drop(passes);
            None
        }
    }
}

/// 2^`levels` threads hand over so many bills each, and then each settles those of another, if there is one.
pub(crate) fn run<D: Disk + Drop + Send, R: Threads + Wait + Sync>(
    rt: &R,
    alloc: Global,
    offices: &Offices<D>,
    passes: Passes<D>,
    levels: u32,
    count: u32,
) -> Option<(Passes<D>, Replies)>
    requires alph { IsPassOf offices.now.alph passes.alph }
    requires beta { IsPassOf offices.now.beta passes.beta }
    ensures alph { IfSome result (λ r. IsPassOf offices.now.alph r.0.alph) }
    ensures beta { IfSome result (λ r. IsPassOf offices.now.beta r.0.beta) }
{
    let bills = Bills { first: 0, count };
    let (passes, made) = spread(
        rt,
        alloc,
        offices,
        passes,
        Work {
            phase: Phase::HandOver,
            bills,
        },
        levels,
    )?;
    let (passes, settled) = spread(
        rt,
        alloc,
        offices,
        passes,
        Work {
            phase: Phase::Settle,
            bills,
        },
        levels,
    )?;
    Some((passes, made.plus(settled)))
}
