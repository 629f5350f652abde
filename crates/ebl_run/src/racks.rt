//! Whether racks serve a roster.
ghost use Rattle.std.specs.Prelude.{◌≡◌, ◌≤◌, ◌<◌, ℕ, drop, length, IfErr, IfSome, OnOk, vec_len};
ghost use Rattle.ebl_run.specs.Racks.{AllTell, AreMeasured, IsUnfit, lengths_of, written_among};

use disk_model::Disk;
use journaled_shard::Rack;

/// Why racks don't serve a roster.
#[derive(Clone, Copy, Debug, PartialEq, Eq)]
pub(crate) enum Unfit {
    /// So many came, and so many are needed.
    TooFew { given: usize, needed: usize },
    /// The disk at this place has a byte already.
    NotBlank(usize),
    /// The disk at this place couldn't be measured.
    Faulty(usize),
}

/// Whether so many racks came, and their disks are blank. Each of these is measured, up to the first that isn't;
/// further ones stay untouched, and so do all where too few came.
pub(crate) fn measure<D: Disk, G>(needed: usize, racks: &mut Vec<Rack<D, G>>) -> Result<(), Unfit>
    requires told { AllTell D.tells racks.old.items }
    ensures enough { OnOk result (needed ≤ length racks.old.items) }
    ensures blank { OnOk result (written_among needed (lengths_of D.seen racks.old.items) ≡ None) }
    ensures unfit { IfErr result (IsUnfit D.seen D.faults needed racks.old.items racks.new.items) }
    ensures measured { AreMeasured D.tells D.seen D.faults racks.old.items racks.new.items }
    ensures further { drop needed racks.new.items ≡ drop needed racks.old.items }
{
    let given = racks.len();
    if given < needed {
        return Err(Unfit::TooFew { given, needed });
    }
    for place in 0..needed {
        match racks[place].disk.len() {
            Ok(0) => {}
            Ok(_) => return Err(Unfit::NotBlank(place)),
            Err(_) => return Err(Unfit::Faulty(place)),
        }
    }
    Ok(())
}
