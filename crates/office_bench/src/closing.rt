//! The diaries of the offices, once they are closed.
ghost use Rattle.platform_office.specs.Office.{IsPassOf};

use crate::offices::{Offices, Passes};
use closed_family::{DiaryList, Family, Member, Verdict, survey};
use disk_model::Disk;
use ebl_base::{Items, PlatformCode};
use platform_office::{Closed, Office, Pass};
use std::alloc::Global;
use test_signer::KeyedRing;

/// How many frames the diaries have, and what the survey finds of them.
#[derive(Clone, Copy)]
pub(crate) struct Found {
    pub(crate) frames: u64,
    pub(crate) verdict: &'static str,
}

/// Closes both offices and surveys their diaries.
pub(crate) fn close<D: Disk + Drop>(
    alloc: Global,
    offices: Offices<D>,
    passes: Passes<D>,
) -> Option<Found>
    requires alph { IsPassOf offices.alph passes.alph }
    requires beta { IsPassOf offices.beta passes.beta }
{
    let alph = diaries_of(offices.alph, passes.alph);
    let beta = diaries_of(offices.beta, passes.beta);
    let mut family: Family = Items::new(alloc);
    let has_alph = add(&mut family, b"ALPH", alph);
    let has_beta = add(&mut family, b"BETA", beta);
    let found = surveyed(alloc, &family, has_alph && has_beta);
    drop(family);
    found
}

// The diaries of an office that is closed; none where another pass is out or memory runs out.
fn diaries_of<D: Disk + Drop>(
    office: Office<D, KeyedRing>,
    pass: Pass<D, KeyedRing>,
) -> Option<DiaryList>
    requires { IsPassOf office pass }
{
    match office.close(pass) {
        Ok(Closed { racks, diaries }) => {
            drop(racks);
            Some(diaries)
        }
        Err(refused) => {
            drop(refused);
            None
        }
    }
}

// Whether these diaries are there, and were added.
fn add(family: &mut Family, code: &[u8], diaries: Option<DiaryList>) -> bool {
    match (PlatformCode::try_new(code), diaries) {
        (Some(platform), Some(diaries)) => family.push(Member { platform, diaries }).is_ok(),
        (_, diaries) => {
            drop(diaries);
            false
        }
    }
}

fn surveyed(alloc: Global, family: &Family, whole: bool) -> Option<Found> {
    if !whole {
        return None;
    }
    let verdict = survey(alloc, family).ok()?;
    let found = Found {
        frames: frames_in(family),
        verdict: word_of(&verdict),
    };
    drop(verdict);
    Some(found)
}

fn word_of(verdict: &Verdict) -> &'static str {
    match verdict {
        Verdict::Consistent => "consistent",
        Verdict::SameName(_) => "one name of two texts",
        Verdict::Lacks { .. } => "a record is lacking",
    }
}

fn frames_in(family: &Family) -> u64 {
    let mut frames = 0u64;
    for member in family.as_slice() {
        for diary in member.diaries.as_slice() {
            frames = frames.wrapping_add(diary.len() as u64);
        }
    }
    frames
}
