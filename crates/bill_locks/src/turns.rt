//! The table of values under turns, and its calls.
ghost use Rattle.std.specs.Prelude.{◌≡◌, ◌<◌, ◌≤◌, ◌^◌, ◌+◌, [], ℕ, true, false, All, List, length, map, take, max, Ok, Err, IfOk, IfErr, OnOk, OnErr, IsErrOf, vec_len, slice_get, Some};
ghost use mathlib.Core.List.{IsPrefix};
ghost use Rattle.bill_locks.specs.View.{mark_at, opened_at, with_mark, counted, first_view, knows_of_another, left_of, right_of, whole};
ghost use Rattle.bill_locks.specs.Rule.{openings};
ghost use Rattle.bill_locks.specs.Steps.{with_front};
ghost use Rattle.bill_locks.specs.Turn.{Turned, JoinsMarks, HandedOut};

use crate::busy::Busy;
use crate::closing::{put_in_slots, take_from_slots, words_of};
use crate::fault::CloseFault;
use crate::grows::Grows;
use crate::job::Job;
use crate::pass::Pass;
use crate::rule::Order;
use crate::steps::{count, cut, is_alone, look, merge, turn};
use crate::view::View;
use atomic_table::Table;
use ebl_base::NoMemory;
use std::alloc::Global;
use std::marker::Model;
use std::snapshot::Snapshot;

/// Values that threads take one at a time.
///
/// Contracts see which table it is, with `slots`, the number of values.
#[derive(Drop)]
pub struct Turns<T: Grows> {
    table: Table<Option<T>, View<T::Frame, T::Fixed>, Snapshot<Vec<T>>, Order, Global>,
    alloc: Global,
}

impl<T: Grows> Model for Turns<T> {
    ghost use Rattle.std.specs.Prelude.{◌≡◌, ◌+◌};
    ghost use Rattle.atomic_table.specs.Seated.{TableId};

    ghost Value = { TableId };

    ghost view = { λ t. t.table.shared.table_id };

    ghost invariant = { λ t. t.table.shared.table_id.words ≡ t.table.shared.table_id.slots + 1 };
}

impl<T: Grows + Drop> Turns<T> {
    /// Puts the values under turns, each free, and makes the first pass, which has seen nothing.
    ///
    /// None of the values may be loose. Out of memory, the values are dropped.
    pub fn new(alloc: Global, values: Vec<T>) -> Result<(Turns<T>, Pass<T>), NoMemory>
        requires firm { All (λ x. T.loose x ≡ false) values.items }
        ensures count { IfOk result (λ r. r.0.slots ≡ vec_len values) }
        ensures of { IfOk result (λ r. r.1.table ≡ r.0) }
        ensures first { IfOk result (λ r.
            r.1.knows ≡ first_view (openings T.fixed T.list T.loose T.disk T.ring values.items)) }
    {
        let words = words_of(alloc, &values)?;
        let opened = Snapshot::of(&values);
        let slots = put_in_slots(alloc, values)?;
        let Ok((table, seat)) = Table::new(alloc, words.as_slice(), slots, &opened) else {
            return Err(NoMemory);
        };
        Ok((Turns { table, alloc }, Pass { seat, stands: 1 }))
    }

    /// Tries the turn of the value at `at` once, and does the job in it.
    ///
    /// `Busy` comes only if the turn was out with another pass at that moment, and hands the job back. From then on
    /// this pass knows of more passes than it stands for. It waits for nobody.
    pub fn try_turn<J: Job<T>>(
        &self,
        pass: &mut Pass<T>,
        at: usize,
        job: J,
    ) -> Result<J::Answer, Busy<J>>
        requires of { pass.old.table ≡ self.now }
        requires place { at < self.now.slots }
        ensures of { pass.new.table ≡ pass.old.table }
        ensures turned { IfOk result (λ a. Turned at (J.tells a) pass.old.knows pass.new.knows) }
        ensures seen { IfOk result (λ _.
            IsPrefix (mark_at at pass.old.knows).front (mark_at at pass.new.knows).front) }
        ensures does { IfOk result (λ a. (fixed : T.Fixed) × ((opened_at at pass.old.knows).fixed ≡ Some fixed)
            × J.does job fixed (take (J.tells a).before (mark_at at pass.new.knows).front)
            (mark_at at pass.new.knows).front a) }

        // The pass learned from the word that another pass is out, and nothing else changed.
        ensures busy { IfErr result (λ b. (b.job ≡ job) × (pass.new.knows ≡ knows_of_another pass.old.knows)) }
        ensures another { IfErr result (λ _. pass.new.knows.stands < pass.new.knows.known) }
    {
        match turn(&self.table.shared, &mut pass.seat, at, job) {
            Ok(answer) => Ok(answer),
            Err(job) => Err(Busy { job }),
        }
    }

    /// How many frames the value at `at` stands for, after one load, which the pass has then seen. While the turn is
    /// out, it is as many as there were when the turn began.
    pub fn seen(&self, pass: &mut Pass<T>, at: usize) -> u64
        requires of { pass.old.table ≡ self.now }
        requires place { at < self.now.slots }
        ensures of { pass.new.table ≡ pass.old.table }
        ensures count { result ≡ length (mark_at at pass.new.knows).front }
        ensures seen { IsPrefix (mark_at at pass.old.knows).front (mark_at at pass.new.knows).front }
        ensures changes { pass.new.knows ≡ with_mark at
            (with_front (mark_at at pass.new.knows).front (mark_at at pass.old.knows)) pass.old.knows }
    {
        look(&self.table.shared, &mut pass.seat, at)
    }

    /// Makes another pass, which has seen what this one has, and made nothing. Each then has half of the share that
    /// this one had, and knows of more passes than it stands for.
    ///
    /// `NoMemory` comes where 2^64 - 1 passes were made, or where other threads made one at each of as many tries.
    pub fn split(&self, pass: &mut Pass<T>) -> Result<Pass<T>, NoMemory>
        requires of { pass.old.table ≡ self.now }
        ensures of { pass.new.table ≡ pass.old.table }
        ensures other { IfOk result (λ p. p.table ≡ pass.old.table) }
        ensures parts { IfOk result (λ _. pass.new.knows ≡ left_of (counted pass.old.knows)) }
        ensures made { IfOk result (λ p. p.knows ≡ right_of (counted pass.old.knows)) }
        ensures another { IfOk result (λ p. (pass.new.knows.stands < pass.new.knows.known)
            × (p.knows.stands < p.knows.known)) }
        ensures no_memory { OnErr result (pass.new ≡ pass.old) }
    {
        let last = self.table.slot_count();
        count(&self.table.shared, &mut pass.seat, last)?;
        let seat = cut(&self.table.shared, &mut pass.seat);
        Ok(Pass { seat, stands: 1 })
    }

    /// Joins a pass to another, which then stands for the passes of both.
    pub fn join(&self, into: &mut Pass<T>, from: Pass<T>)
        requires of { into.old.table ≡ self.now }
        requires other { from.table ≡ self.now }
        ensures of { into.new.table ≡ into.old.table }
        ensures marks { (k : ℕ) → k < self.now.slots
            → JoinsMarks (mark_at k into.old.knows) (mark_at k from.knows) (mark_at k into.new.knows) }
        ensures stands { into.new.knows.stands ≡ into.old.knows.stands + from.knows.stands }
        ensures known { into.new.knows.known ≡ max into.old.knows.known from.knows.known }
        ensures share { into.new.knows.share ≡ into.old.knows.share + from.knows.share }
        ensures opened { into.new.knows.opened ≡ into.old.knows.opened }
    {
        let Pass { seat, stands } = from;
        let last = self.table.slot_count();
        merge(&self.table.shared, &mut into.seat, seat, last);
        into.stands += stands;
    }

    /// Takes the values out, in their order, if `last` stands for all passes that were made: then it has the whole
    /// table, and no other pass a share of it.
    ///
    /// `Passes` comes only if another pass is out. After either fault everything is as before, except that the pass
    /// then knows that another is out.
    pub fn close(self, last: Pass<T>) -> Result<Vec<T>, (Turns<T>, Pass<T>, CloseFault)>
        requires of { last.table ≡ self }
        ensures count { IfOk result (λ xs. vec_len xs ≡ self.slots) }
        ensures values { IfOk result (λ xs. (k : ℕ) → k < self.slots → (x : T) × (slice_get xs.items k ≡ Some x)
            × HandedOut T.fixed T.list T.loose T.disk T.ring
            (opened_at k last.knows) (mark_at k last.knows) x) }
        ensures alone { IfOk result (λ _. last.knows.known ≤ last.knows.stands) }
        ensures whole { IfOk result (λ _. last.knows.share ≡ whole) }
        ensures turns { IfErr result (λ r. r.0 ≡ self) }
        ensures of { IfErr result (λ r. r.1.table ≡ last.table) }
        ensures passes { IfErr result (λ r. r.2 ≡ CloseFault.Passes → r.1.knows ≡ knows_of_another last.knows) }
        ensures no_memory { IfErr result (λ r. r.2 ≡ CloseFault.NoMemory → r.1.knows ≡ last.knows) }
    {
        let count = self.table.slot_count();
        let Ok(room) = Vec::with_capacity(self.alloc, count) else {
            return Err((self, last, CloseFault::NoMemory));
        };
        let Pass { mut seat, stands } = last;
        if !is_alone(&self.table.shared, &mut seat, count, stands) {
            return Err((self, Pass { seat, stands }, CloseFault::Passes));
        }
        let Turns { table, alloc: _ } = self;
        Ok(take_from_slots(table.close_with(seat), room))
    }
}
