//! What holds of every world. The functions do nothing: their contracts are the laws.
ghost use Rattle.std.specs.Prelude.{◌≡◌, ◌<◌, ◌*◌, ℕ, List, length, slice_get, slice_set};
ghost use Rattle.ebl_base.specs.declared.platform_code.PlatformCode.{PlatformCode};
ghost use Rattle.platform_world.specs.Platforms.{grouped, index_of, position_of};
ghost use Rattle.platform_world.specs.World.{ShardState, shard_at, shards_in, with_shard};

/// Among the shards of all platforms in one list, sixteen for each, a platform's shard is at sixteen times the
/// platform's position and its own number: there it is found, and there it is replaced.
pub fn shards_are_at_their_positions()
    ensures found { (p : PlatformCode) (i : ℕ) (ps : List PlatformCode) (shards : List ShardState)
        → i < 16 → position_of p ps < length ps
        → shard_at p i (grouped ps shards) ≡ slice_get shards (index_of p i ps) }
    ensures replaced { (p : PlatformCode) (i : ℕ) (shard : ShardState) (ps : List PlatformCode)
        (shards : List ShardState) → i < 16 → position_of p ps < length ps
        → with_shard p i shard (grouped ps shards) ≡ grouped ps (slice_set shards (index_of p i ps) shard) }
{}

/// The shards of all platforms in one list, grouped by sixteen, are these shards again.
pub fn grouped_shards_are_the_same()
    ensures { (ps : List PlatformCode) (shards : List ShardState) → length shards ≡ 16 * length ps
        → shards_in (grouped ps shards) ≡ shards }
{}
