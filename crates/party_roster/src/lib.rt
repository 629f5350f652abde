//! Rosters: which platforms, parties and carriers take part.
#![tactic(auto)]

mod carrier;
mod carriers;
mod fault;
mod laws;
mod parties;
mod platforms;
mod roster;

pub use carrier::Carrier;
pub use fault::{RosterFault, RosterPlace};
pub use laws::{
    carriers_are_on_listed_platforms, faults_name_the_first_wrong_place, platforms_are_apart,
    read_rosters_are_well_formed, rosters_with_one_text_are_one, written_rosters_read_back,
};
pub use roster::Roster;
