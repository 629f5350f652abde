//! The world of a roster on racks, and how it gives them back.
ghost use Rattle.std.specs.Prelude.{◌≡◌, ◌++◌, map, reverse};
ghost use Rattle.platform_world.specs.Platforms.{AllHold};
ghost use Rattle.ebl_run.specs.Racks.{status_by, status_of};

use crate::ended::Ended;
use crate::racks::Unfit;
use crate::status::Status;
use disk_model::Disk;
use ebl_base::Items;
use journaled_shard::JournaledShard;
use platform_world::{Machine, World, WorldFault};
use signed_envelope::KeyRing;

/// The end where racks don't serve.
pub(crate) fn status_of(unfit: Unfit) -> Status
    ensures { result ≡ status_of unfit }
{
    match unfit {
        Unfit::TooFew { given, needed } => Status::WrongRacks {
            given: given as u64,
            needed: needed as u64,
        },
        Unfit::NotBlank(place) => Status::NotBlank(place),
        Unfit::Faulty(place) => Status::OpenFault(place),
    }
}

/// The end where a world wasn't opened.
pub(crate) fn status_by(fault: WorldFault) -> Status
    ensures { result ≡ status_by fault }
{
    match fault {
        WorldFault::OpenFault(place) => Status::OpenFault(place),
        WorldFault::NoMemory => Status::NoMemory,
    }
}

/// The end of what ran in a world: its racks come back, and the fates of its events.
pub(crate) fn close<D: Disk + Drop, G: KeyRing + Drop>(
    status: Status,
    world: World<JournaledShard<D, G>>,
) -> Ended<D, G>
    ensures status { result.status ≡ status }
    ensures fates { result.fates ≡ world.fates }
    ensures racks { result.racks ≡ map ⟦<JournaledShard<D, G> as Machine>⟧.rack world.platforms.shards
        ++ reverse world.platforms.spare }
    ensures hold { AllHold ⟦<JournaledShard<D, G> as Machine>⟧.holds ⟦<JournaledShard<D, G> as Machine>⟧.rack
        ⟦<JournaledShard<D, G> as Machine>⟧.seen world.platforms.shards }
{
    let (racks, fates) = world.close();
    Ended {
        status,
        racks: Items::from_vec(racks),
        fates,
    }
}
