//! What a platform makes of a bill that another one sends, and of what a holder asks.
#![tactic(auto)]

mod dispute;
mod judgement;
mod judging;
mod laws;
mod plan_cases;
mod plan_laws;
mod planned;
mod planning;

pub use judgement::Judgement;
pub use judging::judge;
pub use laws::{
    begun_changes_no_judgement, each_frame_of_a_legal_diary_may_follow,
    frame_that_follows_legally_follows_soundly, frame_that_may_follow_keeps_a_diary_legal,
    front_of_legal_diary_is_legal, known_chain_of_a_legal_diary_has_its_links,
    legal_diaries_sign_no_document_on_two_platforms, legal_diary_is_sound,
    what_is_judged_can_be_sealed,
};
pub use plan_cases::{fits_beside, last_name, lists, most_with};
pub use plan_laws::{
    nothing_is_planned_only_for_listed_bytes, planned_attempt_is_the_next,
    planned_entry_has_its_form, planned_entry_may_follow, planned_platform_is_the_destination,
    planned_record_may_follow,
};
pub use planned::{PlanRefusal, Planned};
pub use planning::{has_attempts, plan};
