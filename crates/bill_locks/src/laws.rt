//! What follows from the clauses.
ghost use Rattle.std.specs.Prelude.{◌+◌, ◌-◌, ◌≤◌, length};
ghost use Rattle.bill_locks.specs.declared.view.Mark.{Mark};
ghost use Rattle.bill_locks.specs.declared.view.Opened.{Opened};
ghost use Rattle.bill_locks.specs.View.{one_if};
ghost use Rattle.bill_locks.specs.Turn.{HandedOut, unnumbered};

use crate::grows::Grows;

/// Each frame of a value that was handed out, since the opening, has a number of the last pass, except at most as many
/// as its disk faults, one of which goes to a loose frame.
pub fn frames_without_a_number_cost_disk_faults<T: Grows>()
    ensures { (o : Opened T.Fixed) (m : Mark T.Frame) (x : T) → HandedOut T.fixed T.list T.loose T.disk T.ring o m x
        → unnumbered o.frames (length (T.list x) - o.frames) m.numbers + one_if (T.loose x) ≤ m.failed }
{}
