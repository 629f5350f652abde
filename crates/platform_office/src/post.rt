//! What no turn changes of a shard, as contracts see it.
use ebl_base::PlatformCode;
use journaled_shard::Rack;
use party_roster::Roster;

/// A shard's post: its platform, the roster, its number, and the rack from which it was opened, whose keys are those of
/// its ring for ever. No value of this type is made.
pub struct Post<D, G> {
    pub me: PlatformCode,
    pub roster: Roster,
    /// 0 to 15.
    pub number: u32,
    pub rack: Rack<D, G>,
}
