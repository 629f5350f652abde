//! The device calls of a journal.
ghost use Rattle.std.specs.Prelude.{◌≡◌, ◌+◌, ◌<◌, ◌≤◌, ◌^◌, ◌++◌, [], ◌∷◌, true, List, ℕ, length, IfOk, OnOk, IsErrOf, take, drop};
ghost use Rattle.ebl_base.specs.Faults.{HasCause, Rose};
ghost use Rattle.disk_model.specs.Disk.{written, Torn, Follows, Only, LeavesOnly, Looked};
ghost use Rattle.bill_journal.specs.Frames.{IsShort, framed, StandsFor, IsDamagedAt};
ghost use Rattle.bill_journal.specs.Places.{contents_of, IsRead};
ghost use Rattle.bill_journal.specs.Journal.{IsSettled, MayHave, WithOrWithout, TornFrom};

use crate::fault::OpenFault;
use crate::frame_at::FrameBytes;
use crate::reading::read_frames;
use disk_model::Disk;
use ebl_base::Failed;
use std::alloc::Global;

// Writes bytes from a place on, and puts them on the disk.
pub(crate) fn put<D: Disk>(disk: &mut D, place: u64, bytes: &[u8]) -> Result<(), Failed>
    requires inside { D.tells disk.old ≡ true → place ≤ length (D.seen disk.old) }
    ensures told { D.tells disk.new ≡ D.tells disk.old }
    ensures done { D.tells disk.old ≡ true → OnOk result (D.seen disk.new ≡ written (D.seen disk.old) place bytes.now) }
    ensures durable { D.tells disk.old ≡ true → OnOk result (Only (D.seen disk.new) (D.may_leave disk.new)) }
    ensures seen { D.tells disk.old ≡ true → Torn place (length bytes.now) (D.seen disk.old) (D.seen disk.new) }
    ensures crash { D.tells disk.old ≡ true → Follows (Torn place (length bytes.now)) (D.may_leave disk.old)
        (D.may_leave disk.new) }
    ensures time { D.tells disk.old ≡ true → LeavesOnly D.moment D.left_since disk.old disk.new
        (TornFrom place (length bytes.now) (D.may_leave disk.old)) }
    ensures cause { HasCause (D.faults disk.old) (D.faults disk.new) result }
{
    disk.write_at(place, bytes)?;
    disk.sync()
}

// Appends a frame behind the gate that ends the journal, and opens that gate.
pub(crate) fn write_frame<D: Disk>(disk: &mut D, end: u64, bytes: &[u8]) -> Result<(), Failed>
    requires inside { D.tells disk.old ≡ true → end < length (D.seen disk.old) }
    requires far { end < 2 ^ 63 }
    ensures told { D.tells disk.new ≡ D.tells disk.old }
    ensures seen { D.tells disk.old ≡ true → length (D.seen disk.old) ≤ length (D.seen disk.new) }
    ensures done { D.tells disk.old ≡ true → OnOk result (end + length bytes.now < length (D.seen disk.new)) }
    ensures appended { (h : List (List ℕ)) (x : List ℕ) → D.tells disk.old ≡ true
        → IsSettled (D.seen disk.old) (D.may_leave disk.old) end h → IsShort x → bytes.now ≡ framed x
        → OnOk result (IsSettled (D.seen disk.new) (D.may_leave disk.new) (end + length bytes.now) (h ++ x ∷ [])) }
    ensures loose { (h : List (List ℕ)) (x : List ℕ) → D.tells disk.old ≡ true
        → IsSettled (D.seen disk.old) (D.may_leave disk.old) end h → IsShort x → bytes.now ≡ framed x
        → MayHave (D.seen disk.new) (D.may_leave disk.new) h x }
    ensures any_moment { (h : List (List ℕ)) (x : List ℕ) → D.tells disk.old ≡ true
        → IsSettled (D.seen disk.old) (D.may_leave disk.old) end h → IsShort x → bytes.now ≡ framed x
        → LeavesOnly D.moment D.left_since disk.old disk.new (WithOrWithout h x) }
    ensures cause { HasCause (D.faults disk.old) (D.faults disk.new) result }
{
    // The frame has to be on the disk first: behind a gate that is open, what was there would count.
    put(disk, end + 1, bytes)?;
    put(disk, end, &[1])
}

// Fills `into` with the bytes from a place on.
pub(crate) fn read_from<D: Disk>(disk: &mut D, place: u64, into: &mut [u8]) -> Result<(), Failed>
    requires inside { D.tells disk.old ≡ true → place + length into.old ≤ length (D.seen disk.old) }
    ensures told { D.tells disk.new ≡ D.tells disk.old }
    ensures bytes { D.tells disk.old ≡ true
        → OnOk result (into.new ≡ take (length into.old) (drop place (D.seen disk.old))) }
    ensures looked { D.tells disk.old ≡ true → Looked D.seen D.may_leave D.moment D.left_since disk.old disk.new }
    ensures cause { HasCause (D.faults disk.old) (D.faults disk.new) result }
{
    disk.read(place, into)
}

// The bytes of a disk of this length.
fn read_all<D: Disk>(alloc: Global, disk: &mut D, len: u64) -> Result<Vec<u8>, OpenFault>
    requires len { D.tells disk.old ≡ true → len ≡ length (D.seen disk.old) }
    ensures told { D.tells disk.new ≡ D.tells disk.old }
    ensures bytes { D.tells disk.old ≡ true → IfOk result (λ bytes. bytes.items ≡ D.seen disk.old) }
    ensures looked { D.tells disk.old ≡ true → Looked D.seen D.may_leave D.moment D.left_since disk.old disk.new }
    ensures undamaged { (place : ℕ) → IsErrOf result (OpenFault.Damaged place) → ⊥ }
    ensures later { D.faults disk.old ≤ D.faults disk.new }
    ensures failed { IsErrOf result OpenFault.Disk → Rose (D.faults disk.old) (D.faults disk.new) }
{
    let mut bytes = vec![in alloc; 0; len as usize]?;
    disk.read(0, &mut bytes)?;
    Ok(bytes)
}

// The frames of a disk of this length, and the place of the gate that ends them, after all that was written is on the
// disk.
fn sync_and_read<D: Disk>(
    alloc: Global,
    disk: &mut D,
    len: u64,
) -> Result<(FrameBytes, u64), OpenFault>
    requires len { D.tells disk.old ≡ true → len ≡ length (D.seen disk.old) }
    ensures told { D.tells disk.new ≡ D.tells disk.old }
    ensures read { IfOk result (λ r. IsRead r.0 r.1) }
    ensures far { IfOk result (λ r. r.1 < 2 ^ 63) }
    ensures within { D.tells disk.old ≡ true → IfOk result (λ r. r.1 < length (D.seen disk.old)) }
    ensures durable { D.tells disk.old ≡ true → OnOk result (Only (D.seen disk.new) (D.may_leave disk.new)) }
    ensures stands { D.tells disk.old ≡ true → IfOk result (λ r. StandsFor (D.seen disk.old) (contents_of r.0)) }
    ensures damaged { (place : ℕ) → D.tells disk.old ≡ true → IsErrOf result (OpenFault.Damaged place)
        → IsDamagedAt (D.seen disk.old) place }
    ensures looked { D.tells disk.old ≡ true → Looked D.seen D.may_leave D.moment D.left_since disk.old disk.new }
    ensures later { D.faults disk.old ≤ D.faults disk.new }
    ensures failed { IsErrOf result OpenFault.Disk → Rose (D.faults disk.old) (D.faults disk.new) }
{
    // What a read gives has to be what a crash leaves, before anything rests on it.
    disk.sync()?;
    let bytes = read_all(alloc, disk, len)?;
    let (frames, end) = read_frames(alloc, &bytes)?;
    Ok((frames, end as u64))
}

// The frames of a disk, synced first; a blank disk is made a journal.
pub(crate) fn read_or_make<D: Disk>(
    alloc: Global,
    disk: &mut D,
) -> Result<(FrameBytes, u64), OpenFault>
    ensures told { D.tells disk.new ≡ D.tells disk.old }
    ensures read { IfOk result (λ r. IsRead r.0 r.1) }
    ensures far { IfOk result (λ r. r.1 < 2 ^ 63) }
    ensures within { D.tells disk.old ≡ true → IfOk result (λ r. r.1 < length (D.seen disk.new)) }
    ensures made { D.tells disk.old ≡ true → D.seen disk.old ≡ [] → IfOk result (λ r. r.0 ≡ []) }
    ensures blank { D.tells disk.old ≡ true → D.seen disk.old ≡ [] → OnOk result (D.seen disk.new ≡ 1 ∷ 0 ∷ []) }
    ensures durable { D.tells disk.old ≡ true → OnOk result (Only (D.seen disk.new) (D.may_leave disk.new)) }
    ensures stands { D.tells disk.old ≡ true → 0 < length (D.seen disk.old)
        → IfOk result (λ r. StandsFor (D.seen disk.old) (contents_of r.0)) }
    ensures damaged { (place : ℕ) → D.tells disk.old ≡ true → IsErrOf result (OpenFault.Damaged place)
        → (0 < length (D.seen disk.old)) × IsDamagedAt (D.seen disk.old) place }
    ensures looked { D.tells disk.old ≡ true → 0 < length (D.seen disk.old)
        → Looked D.seen D.may_leave D.moment D.left_since disk.old disk.new }
    ensures later { D.faults disk.old ≤ D.faults disk.new }
    ensures failed { IsErrOf result OpenFault.Disk → Rose (D.faults disk.old) (D.faults disk.new) }
{
    let len = disk.len()?;
    if len == 0 {
        put(disk, 0, &[1, 0])?;
        return Ok((FrameBytes::new(alloc), 1));
    }
    sync_and_read(alloc, disk, len)
}

// The frames of a disk, synced first. A blank one, too, is damaged.
pub(crate) fn read_again<D: Disk>(
    alloc: Global,
    disk: &mut D,
) -> Result<(FrameBytes, u64), OpenFault>
    ensures told { D.tells disk.new ≡ D.tells disk.old }
    ensures read { IfOk result (λ r. IsRead r.0 r.1) }
    ensures far { IfOk result (λ r. r.1 < 2 ^ 63) }
    ensures within { D.tells disk.old ≡ true → IfOk result (λ r. r.1 < length (D.seen disk.new)) }
    ensures durable { D.tells disk.old ≡ true → OnOk result (Only (D.seen disk.new) (D.may_leave disk.new)) }
    ensures stands { D.tells disk.old ≡ true → IfOk result (λ r. StandsFor (D.seen disk.old) (contents_of r.0)) }
    ensures damaged { (place : ℕ) → D.tells disk.old ≡ true → IsErrOf result (OpenFault.Damaged place)
        → IsDamagedAt (D.seen disk.old) place }
    ensures looked { D.tells disk.old ≡ true → Looked D.seen D.may_leave D.moment D.left_since disk.old disk.new }
    ensures later { D.faults disk.old ≤ D.faults disk.new }
    ensures failed { IsErrOf result OpenFault.Disk → Rose (D.faults disk.old) (D.faults disk.new) }
{
    let len = disk.len()?;
    sync_and_read(alloc, disk, len)
}
