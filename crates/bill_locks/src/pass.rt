//! Passes, as callers hold and see them.
use crate::grows::Grows;
use crate::steps::Seat;
use std::marker::Model;

/// The right to take turns at one table, and what its holder has seen and done there.
///
/// A pass is out from its making until it is joined to another, also where it was dropped.
#[derive(Drop)]
pub struct Pass<T: Grows> {
    pub(crate) seat: Seat<T>,
    // For how many passes it stands: itself and those that were joined to it.
    pub(crate) stands: u64,
}

impl<T: Grows> Model for Pass<T> {
    ghost use Rattle.std.specs.Prelude.{◌≡◌, []};
    ghost use Rattle.bill_locks.specs.Pass.{PassRecord, IsIdle};

    ghost Value = { PassRecord T.Frame T.Fixed };

    ghost view = { λ p. record { table = p.seat.table_id; knows = p.seat.me.0 } };

    ghost invariant = { λ p. (p.seat.me.1 ≡ []) × (p.seat.me.0.stands ≡ p.stands) × IsIdle p.seat.me.0 };
}
