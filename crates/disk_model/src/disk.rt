//! Disks: what a read gives, and what a crash may leave.
ghost use Rattle.std.specs.Prelude.{◌≡◌, ◌+◌, ◌≤◌, true, Bool, List, ℕ, length, take, drop, IfOk, OnOk};
ghost use Rattle.ebl_base.specs.Faults.{HasCause};
ghost use Rattle.disk_model.specs.Disk.{written, Torn, Follows, NoneNew, Only, Elapses};

use ebl_base::Failed;

/// Bytes that outlive the program: what a read gives, and what a crash may leave.
///
/// Between two syncs each written range, and all that lies past the old end, may hold any bytes after a crash. Other
/// bytes stay. After a sync that answered `Ok` a crash leaves what a read gives. A failed write may be done, undone
/// or done in part.
pub trait Disk {
    /// Whether the disk's bytes are known. If they aren't, only the clause on causes says anything.
    ghost tells: { Self → Bool };

    /// The bytes that a read gives.
    ghost seen: { Self → List ℕ };

    /// What a crash at this moment may leave.
    ghost may_leave: { Self → List ℕ → Type 0 };

    /// The moment, as a number that doesn't fall.
    ghost moment: { Self → ℕ };

    /// What a crash at some moment from that one on might have left, during a call or between two.
    ghost left_since: { Self → ℕ → List ℕ → Type 0 };

    /// How often a call has failed. The count never falls.
    ghost faults: { Self → ℕ };

    /// The number of bytes. `Failed` comes only if the count of faults rose.
    fn len(&mut self) -> Result<u64, Failed>
        ensures told { tells self.new ≡ tells self.old }
        ensures length { tells self.old ≡ true → IfOk result (λ n. n ≡ length (seen self.old)) }
        ensures seen { tells self.old ≡ true → seen self.new ≡ seen self.old }
        ensures crash { tells self.old ≡ true → NoneNew (may_leave self.old) (may_leave self.new) }
        ensures time { tells self.old ≡ true → Elapses (moment self.old) (moment self.new) (left_since self.old)
            (left_since self.new) (may_leave self.new) }
        ensures cause { HasCause (faults self.old) (faults self.new) result };

    /// Fills `into` with the bytes from a place on. `Failed` comes only if the count of faults rose.
    fn read(&mut self, place: u64, into: &mut [u8]) -> Result<(), Failed>
        requires inside { tells self.old ≡ true → place + length into.old ≤ length (seen self.old) }
        ensures told { tells self.new ≡ tells self.old }
        ensures bytes { tells self.old ≡ true
            → OnOk result (into.new ≡ take (length into.old) (drop place (seen self.old))) }
        ensures seen { tells self.old ≡ true → seen self.new ≡ seen self.old }
        ensures crash { tells self.old ≡ true → NoneNew (may_leave self.old) (may_leave self.new) }
        ensures time { tells self.old ≡ true → Elapses (moment self.old) (moment self.new) (left_since self.old)
            (left_since self.new) (may_leave self.new) }
        ensures cause { HasCause (faults self.old) (faults self.new) result };

    /// Writes over what is there, and past the end. `Failed` comes only if the count of faults rose; the bytes are then
    /// written, or not, or in part.
    fn write_at(&mut self, place: u64, bytes: &[u8]) -> Result<(), Failed>
        requires inside { tells self.old ≡ true → place ≤ length (seen self.old) }
        ensures told { tells self.new ≡ tells self.old }
        ensures bytes { tells self.old ≡ true → OnOk result (seen self.new ≡ written (seen self.old) place bytes.now) }
        ensures seen { tells self.old ≡ true → Torn place (length bytes.now) (seen self.old) (seen self.new) }
        ensures crash { tells self.old ≡ true → Follows (Torn place (length bytes.now)) (may_leave self.old)
            (may_leave self.new) }
        ensures time { tells self.old ≡ true → Elapses (moment self.old) (moment self.new) (left_since self.old)
            (left_since self.new) (may_leave self.new) }
        ensures cause { HasCause (faults self.old) (faults self.new) result };

    /// Puts all that was written on the disk: after `Ok` a crash leaves what a read gives. `Failed` comes only if
    /// the count of faults rose.
    fn sync(&mut self) -> Result<(), Failed>
        ensures told { tells self.new ≡ tells self.old }
        ensures durable { tells self.old ≡ true → OnOk result (Only (seen self.old) (may_leave self.new)) }
        ensures seen { tells self.old ≡ true → seen self.new ≡ seen self.old }
        ensures crash { tells self.old ≡ true → NoneNew (may_leave self.old) (may_leave self.new) }
        ensures time { tells self.old ≡ true → Elapses (moment self.old) (moment self.new) (left_since self.old)
            (left_since self.new) (may_leave self.new) }
        ensures cause { HasCause (faults self.old) (faults self.new) result };

    /// This moment is one of those since an earlier one.
    ghost counts_now: { (disk : Self) (t : ℕ) (c : List ℕ) → tells disk ≡ true → t ≤ moment disk → may_leave disk c
        → left_since disk t c };

    /// Since this moment there is no other.
    ghost only_now: { (disk : Self) (c : List ℕ) → tells disk ≡ true → left_since disk (moment disk) c
        → may_leave disk c };
}
