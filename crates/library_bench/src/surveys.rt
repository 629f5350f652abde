//! Surveys of a family with many bills.
use crate::families::fill;
use closed_family::{Family, Verdict, survey};
use ebl_base::Items;
use std::alloc::Global;

/// Makes the family of two platforms with so many bills, and surveys it so often. None comes where a survey found
/// something, or could not be done.
pub(crate) fn survey_family(alloc: Global, bills: u16, surveys: u32) -> Option<()> {
    let mut family = Items::new(alloc);
    fill(alloc, &mut family, bills)?;
    survey_often(alloc, &family, surveys)
}

// The family is lent, so that it is dropped at one place and not at each `?`.
fn survey_often(alloc: Global, family: &Family, surveys: u32) -> Option<()> {
    for _ in 0..surveys {
        if !is_consistent(alloc, family) {
            return None;
        }
    }
    Some(())
}

fn is_consistent(alloc: Global, family: &Family) -> bool {
    let found = survey(alloc, family);
    let consistent = match &found {
        Ok(Verdict::Consistent) => true,
        _ => false,
    };
    drop(found);
    consistent
}
