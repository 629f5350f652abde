//! The steps of a seat at the table: each changes one word, or nothing, and what the seat knows.
ghost use Rattle.std.specs.Prelude.{◌≡◌, ◌≢◌, ◌+◌, ◌*◌, ◌<◌, ◌≤◌, ◌^◌, [], ◌∷◌, true, false, ℕ, length, take, Some, None, MatchOption, IfOk, IfErr, OnOk, OnErr};
ghost use mathlib.Core.List.{IsPrefix};
ghost use Rattle.bill_locks.specs.View.{mark_at, opened_at, with_mark, knows_of_another, counted, left_of, right_of, both_views, whole};
ghost use Rattle.bill_locks.specs.Pass.{Rests};
ghost use Rattle.bill_locks.specs.Steps.{held_mark, after_turn, with_front, Grown, IsJoined};
ghost use Rattle.bill_locks.specs.Turn.{Turned};

use crate::grows::Grows;
use crate::job::{Job, Told};
use crate::rule::{Both, Count, Deed, Fit, Give, Halves, Look, Order, Settle, Try};
use crate::view::View;
use ebl_base::NoMemory;
use std::marker::Brand;
use std::snapshot::Snapshot;

/// A seat at a table of values.
pub type Seat<T> = atomic_table::Seat<Option<T>, View<<T as Grows>::Frame, <T as Grows>::Fixed>>;

/// A table of values, as all threads share it.
pub type Shared<T> = atomic_table::Shared<
    Option<T>,
    View<<T as Grows>::Frame, <T as Grows>::Fixed>,
    Snapshot<Vec<T>>,
    Order,
>;

/// One turn: tries it once, does the job and gives the turn back. Where the turn is out, the job comes back.
pub fn turn<T: Grows, J: Job<T>>(
    table: &Shared<T>,
    seat: &mut Seat<T>,
    at: usize,
    job: J,
) -> Result<J::Answer, J>
    requires of { seat.old.table_id ≡ table.now.table_id }
    requires place { at < table.now.table_id.slots }
    requires sized { table.now.table_id.words ≡ table.now.table_id.slots + 1 }
    requires rests { Rests seat.old.me }
    ensures of { seat.new.table_id ≡ seat.old.table_id }
    ensures rests { Rests seat.new.me }
    ensures turned { IfOk result (λ a. Turned at (J.tells a) seat.old.me.0 seat.new.me.0) }
    ensures seen { IfOk result (λ _.
        IsPrefix (mark_at at seat.old.me.0).front (mark_at at seat.new.me.0).front) }
    ensures does { IfOk result (λ a. (fixed : T.Fixed) × ((opened_at at seat.old.me.0).fixed ≡ Some fixed)
        × J.does job fixed (take (J.tells a).before (mark_at at seat.new.me.0).front) (mark_at at seat.new.me.0).front
        a) }
    ensures busy { IfErr result (λ j. (j ≡ job) × (seat.new.me.0 ≡ knows_of_another seat.old.me.0)) }
{
    let Some(mut value) = begin(table, seat, at) else {
        return Err(job);
    };
    let answer = job.run(&mut value);
    let told = J::told(&answer);
    give::<T, Brand>(table, seat, at, value, told);
    Ok(answer)
}

// Tries a turn with one fetch_or: the value, or none where the turn was out with another pass.
fn begin<T: Grows>(table: &Shared<T>, seat: &mut Seat<T>, at: usize) -> Option<T>
    requires of { seat.old.table_id ≡ table.now.table_id }
    requires place { at < table.now.table_id.slots }
    requires sized { table.now.table_id.words ≡ table.now.table_id.slots + 1 }
    requires rests { Rests seat.old.me }
    ensures of { seat.new.table_id ≡ seat.old.table_id }
    ensures turn { MatchOption result (seat.new.me ≡ (knows_of_another seat.old.me.0, []))
        (λ x. (seat.new.me ≡ (
          with_mark at (held_mark T.fixed T.list T.loose T.disk T.ring (mark_at at seat.old.me.0) x)
              seat.old.me.0,
          (at, None) ∷ [],
        ))
        × IsPrefix (mark_at at seat.old.me.0).front (T.list x)
        × ((opened_at at seat.old.me.0).fixed ≡ Some (T.fixed x))) }
{
    let found = table.fetch_or::<Try>(seat, at, 1);
    if found % 2 != 0 {
        return None;
    }
    let Some(value) = table.exchange(seat, at, None) else {
        unreachable!()
    };
    Some(value)
}

// Puts the value back, and gives the turn back with one swap, which shows how many frames there are.
fn give<T: Grows, D: Deed>(table: &Shared<T>, seat: &mut Seat<T>, at: usize, value: T, told: Told)
    requires of { seat.old.table_id ≡ table.now.table_id }
    requires place { at < table.now.table_id.slots }
    requires sized { table.now.table_id.words ≡ table.now.table_id.slots + 1 }
    requires hand { seat.old.me.1 ≡ (at, None) ∷ [] }
    requires held { (mark_at at seat.old.me.0).held ≡ true }
    requires not_alone { seat.old.me.0.alone ≡ false }
    requires told { D.told ≡ told }
    requires fixed { (opened_at at seat.old.me.0).fixed ≡ Some (T.fixed value) }
    requires grown { Grown T.list T.loose T.disk T.ring (mark_at at seat.old.me.0) told value }
    ensures of { seat.new.table_id ≡ seat.old.table_id }
    ensures given { seat.new.me ≡ (
      with_mark at (after_turn (mark_at at seat.old.me.0) (T.list value) told)
          seat.old.me.0,
      [],
    ) }
{
    let word = 2 * value.frames();
    let emptied = table.exchange(seat, at, Some(value));
    let None = emptied else { unreachable!() };
    table.swap::<Give<D>>(seat, at, word);
}

/// How many frames a value stands for, after one load. While its turn is out, it is as many as there were before.
pub fn look<T: Grows>(table: &Shared<T>, seat: &mut Seat<T>, at: usize) -> u64
    requires of { seat.old.table_id ≡ table.now.table_id }
    requires place { at < table.now.table_id.slots }
    requires sized { table.now.table_id.words ≡ table.now.table_id.slots + 1 }
    requires rests { Rests seat.old.me }
    ensures of { seat.new.table_id ≡ seat.old.table_id }
    ensures rests { Rests seat.new.me }
    ensures changes { seat.new.me.0 ≡ with_mark at
        (with_front (mark_at at seat.new.me.0).front (mark_at at seat.old.me.0)) seat.old.me.0 }
    ensures seen { IsPrefix (mark_at at seat.old.me.0).front (mark_at at seat.new.me.0).front }
    ensures count { result ≡ length (mark_at at seat.new.me.0).front }
{
    table.load::<Look>(seat, at) / 2
}

/// Counts one pass more at the last word, for which the seat stands from then on.
///
/// `NoMemory` comes where 2^64 - 1 passes are counted, or other threads counted at each of as many tries.
pub fn count<T: Grows>(table: &Shared<T>, seat: &mut Seat<T>, last: usize) -> Result<(), NoMemory>
    requires of { seat.old.table_id ≡ table.now.table_id }
    requires place { last ≡ table.now.table_id.slots }
    requires sized { table.now.table_id.words ≡ table.now.table_id.slots + 1 }
    requires rests { Rests seat.old.me }
    ensures of { seat.new.table_id ≡ seat.old.table_id }
    ensures ok { OnOk result (seat.new.me ≡ (counted seat.old.me.0, [])) }
    ensures err { OnErr result (seat.new.me ≡ seat.old.me) }
{
    let mut expected = table.peek(last);
    for _ in 0..u64::MAX {
        if expected == u64::MAX {
            return Err(NoMemory);
        }
        let found = table.compare_exchange::<Count>(seat, last, expected, expected + 1);
        if found == expected {
            return Ok(());
        }
        expected = found;
    }
    Err(NoMemory)
}

/// Cuts off a seat that stands for one pass, with the fronts of the old one.
pub fn cut<T: Grows>(table: &Shared<T>, seat: &mut Seat<T>) -> Seat<T>
    requires of { seat.old.table_id ≡ table.now.table_id }
    requires sized { table.now.table_id.words ≡ table.now.table_id.slots + 1 }
    requires rests { Rests seat.old.me }
    requires two { 1 < seat.old.me.0.stands }
    ensures of { (seat.new.table_id ≡ seat.old.table_id) × (result.table_id ≡ seat.old.table_id) }
    ensures left { seat.new.me ≡ (left_of seat.old.me.0, []) }
    ensures right { result.me ≡ (right_of seat.old.me.0, []) }
{
    table.split_seat::<Halves>(seat)
}

/// Joins a seat to another.
pub fn merge<T: Grows>(table: &Shared<T>, seat: &mut Seat<T>, other: Seat<T>, last: usize)
    requires of { (seat.old.table_id ≡ table.now.table_id) × (other.table_id ≡ table.now.table_id) }
    requires place { last ≡ table.now.table_id.slots }
    requires sized { table.now.table_id.words ≡ table.now.table_id.slots + 1 }
    requires rests { Rests seat.old.me }
    requires other { Rests other.me }
    ensures of { seat.new.table_id ≡ seat.old.table_id }
    ensures both { seat.new.me ≡ (both_views seat.old.me.0 other.me.0, []) }
    ensures fits { seat.old.me.0.stands + other.me.0.stands < 2 ^ 64 }
    ensures marks { (k : ℕ) → k < table.now.table_id.slots → IsJoined (mark_at k seat.new.me.0) }
{
    table.join_seat::<Both>(seat, other);
    table.load::<Fit>(seat, last);
}

/// Whether the seat stands for all passes that were made, after one load of the last word.
pub fn is_alone<T: Grows>(table: &Shared<T>, seat: &mut Seat<T>, last: usize, stands: u64) -> bool
    requires of { seat.old.table_id ≡ table.now.table_id }
    requires place { last ≡ table.now.table_id.slots }
    requires sized { table.now.table_id.words ≡ table.now.table_id.slots + 1 }
    requires rests { Rests seat.old.me }
    requires stands { seat.old.me.0.stands ≡ stands }
    ensures of { seat.new.table_id ≡ seat.old.table_id }
    ensures alone { result ≡ true → seat.new.me ≡ (record seat.old.me.0 { alone = true }, []) }
    ensures known { result ≡ true → seat.old.me.0.known ≤ seat.old.me.0.stands }
    ensures whole { result ≡ true → seat.old.me.0.share ≡ whole }
    ensures others { result ≡ false → seat.new.me ≡ (knows_of_another seat.old.me.0, []) }
{
    table.load::<Settle>(seat, last) == stands
}
