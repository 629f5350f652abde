//! What an office leaves when it is closed.
ghost use Rattle.std.specs.Prelude.{◌≡◌, ◌≤◌, [], All, length, map, vec_capacity, vec_len};
ghost use Rattle.platform_office.specs.Opening.{rack_of};
ghost use Rattle.platform_office.specs.Post.{IsAtPost};

use crate::shard::OfficeShard;
use bill_diary::Diary;
use closed_family::DiaryList;
use disk_model::Disk;
use ebl_base::Items;
use journaled_shard::Rack;
use signed_envelope::KeyRing;

/// The racks of an office that was closed, and its diaries: sixteen each, in the order of the shards.
#[derive(Drop)]
pub struct Closed<D, G> {
    pub racks: Vec<Rack<D, G>>,
    pub diaries: DiaryList,
}

/// Takes the shards apart, into vectors that have room for the parts.
pub(crate) fn close_all<D: Disk + Drop, G: KeyRing + Drop>(
    shards: Vec<OfficeShard<D, G>>,
    racks: Vec<Rack<D, G>>,
    diaries: Vec<Diary>,
) -> Closed<D, G>
    requires empty { (racks.items ≡ []) × (diaries.items ≡ []) }
    requires room { (vec_len shards ≤ vec_capacity racks) × (vec_len shards ≤ vec_capacity diaries) }
    ensures racks { result.racks.items ≡ map rack_of shards.items }
    ensures diaries { result.diaries ≡ map (λ s. s.shard.written.diary) shards.items }
    ensures counts { (vec_len result.racks ≡ vec_len shards) × (length result.diaries ≡ vec_len shards) }
    ensures posts { All (IsAtPost D.tells G.keys D.seen D.may_leave) shards.items }
{
    let mut shards = shards;
    let mut racks = racks;
    let mut diaries = diaries;
    shards.reverse();
    while let Some(shard) = shards.pop() {
        let (rack, diary) = shard.close();
        racks.push_reserved(rack);
        diaries.push_reserved(diary);
    }
    Closed {
        racks,
        diaries: Items::from_vec(diaries),
    }
}
