//! The rule of the table, and the names of its steps.
use crate::grows::Grows;
use crate::job::Told;
use crate::view::View;
use atomic_table::{Join, Play, Split, TableRule};
use std::marker::{Brand, PhantomData};
use std::snapshot::Snapshot;

/// The rule.
pub struct Order;

impl<T: Grows> TableRule<Option<T>, View<T::Frame, T::Fixed>, Snapshot<Vec<T>>> for Order {
    ghost use Rattle.bill_locks.specs.View.{first_view};
    ghost use Rattle.bill_locks.specs.Rule.{Turning, openings};

    ghost holds = { λ key. Turning T.fixed T.list T.loose T.disk T.ring
        (openings T.fixed T.list T.loose T.disk T.ring key.value.items) };

    ghost first = { λ key. first_view (openings T.fixed T.list T.loose T.disk T.ring key.value.items) };
}

/// The fetch_or of a value's word, which tries its turn.
pub struct Try;

impl<T: Grows> Play<Option<T>, View<T::Frame, T::Fixed>> for Try {
    ghost use Rattle.bill_locks.specs.Steps.{Tried};

    ghost then = { Tried T.fixed T.list T.loose T.disk T.ring };
}

/// What the answer of a turn reported. Each call picks it.
pub trait Deed {
    ghost use Rattle.bill_locks.specs.declared.job.Told.{Told};

    ghost told: { Told };
}

impl Deed for Brand {
    ghost use Rattle.std.specs.Prelude.{false};

    ghost told = { record { before = 0; after = 0; failed = false; unsigned = false } };
}

/// The swap of a value's word, which gives the turn back.
pub struct Give<D: Deed> {
    deed: PhantomData<D>,
}

impl<T: Grows, D: Deed> Play<Option<T>, View<T::Frame, T::Fixed>> for Give<D> {
    ghost use Rattle.bill_locks.specs.Steps.{Gave};

    ghost then = { Gave T.fixed T.list T.loose T.disk T.ring D.told };
}

/// The load of a value's word.
pub struct Look;

impl<S, F, X> Play<S, View<F, X>> for Look {
    ghost use Rattle.bill_locks.specs.Steps.{Looked};

    ghost then = { Looked };
}

/// The exchange of the last word, which counts a pass.
pub struct Count;

impl<S, F, X> Play<S, View<F, X>> for Count {
    ghost use Rattle.bill_locks.specs.Steps.{Counted};

    ghost then = { Counted };
}

/// The load of the last word after a join.
pub struct Fit;

impl<S, F, X> Play<S, View<F, X>> for Fit {
    ghost use Rattle.bill_locks.specs.Steps.{Fitted};

    ghost then = { Fitted };
}

/// The load of the last word at the closing.
pub struct Settle;

impl<S, F, X> Play<S, View<F, X>> for Settle {
    ghost use Rattle.bill_locks.specs.Steps.{Settled};

    ghost then = { Settled };
}

/// A pass is cut off.
pub struct Halves;

impl<F, X> Split<View<F, X>> for Halves {
    ghost use Rattle.bill_locks.specs.View.{left_of, right_of};

    ghost left = { left_of };

    ghost right = { right_of };
}

/// A pass is joined to another.
pub struct Both;

impl<F, X> Join<View<F, X>> for Both {
    ghost use Rattle.bill_locks.specs.View.{both_views, spent};

    ghost both = { both_views };

    ghost spent = { spent };
}
