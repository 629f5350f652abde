//! What a run of the program gives back.
ghost use Rattle.std.specs.Prelude.{◌≡◌, []};

use crate::status::Status;
use ebl_base::Items;
use journaled_shard::Rack;
use platform_world::FateList;
use std::alloc::Global;

/// What a run of the program gives back.
#[derive(Drop)]
pub struct Ended<D, G> {
    /// How it ended.
    pub status: Status,
    /// All racks, in the order in which they came.
    pub racks: Items<Rack<D, G>>,
    /// What became of each event that was run, in their order.
    pub fates: FateList,
}

impl<D, G> Ended<D, G> {
    /// The end where no event was run.
    pub(crate) fn at_once(alloc: Global, status: Status, racks: Vec<Rack<D, G>>) -> Ended<D, G>
        ensures status { result.status ≡ status }
        ensures racks { result.racks ≡ racks.items }
        ensures fates { result.fates ≡ [] }
    {
        Ended {
            status,
            racks: Items::from_vec(racks),
            fates: FateList::new(alloc),
        }
    }
}
