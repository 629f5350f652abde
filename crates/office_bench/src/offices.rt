//! Two platforms' offices.
ghost use Rattle.std.specs.Prelude.{◌≡◌, IfSome, vec_len};
ghost use Rattle.party_roster.specs.RosterForm.{IsRoster};
ghost use Rattle.platform_office.specs.Office.{IsPassOf};

use crate::disks::Racks;
use disk_model::Disk;
use ebl_base::PlatformCode;
use party_roster::Roster;
use platform_office::{Office, Pass};
use sample_bills::roster;
use std::alloc::Global;
use test_signer::KeyedRing;

/// The offices of ALPH and BETA.
#[derive(Drop)]
pub(crate) struct Offices<D: Disk> {
    pub(crate) alph: Office<D, KeyedRing>,
    pub(crate) beta: Office<D, KeyedRing>,
}

/// A pass of each.
#[derive(Drop)]
pub(crate) struct Passes<D: Disk> {
    pub(crate) alph: Pass<D, KeyedRing>,
    pub(crate) beta: Pass<D, KeyedRing>,
}

// Which platform opens, and the roster.
fn opener(alloc: Global, code: &[u8]) -> Option<(PlatformCode, Roster)>
    ensures { IfSome result (λ r. IsRoster r.1) }
{
    let me = PlatformCode::try_new(code)?;
    Some((me, roster(alloc)?))
}

// The office of one platform.
fn open_one<D: Disk + Drop>(
    alloc: Global,
    code: &[u8],
    racks: Racks<D>,
) -> Option<(Office<D, KeyedRing>, Pass<D, KeyedRing>)>
    requires count { vec_len racks ≡ 16 }
    ensures { IfSome result (λ r. IsPassOf r.0 r.1) }
{
    let Some((me, roster)) = opener(alloc, code) else {
        drop(racks);
        return None;
    };
    Office::open(alloc, me, roster, racks).ok()
}

/// Opens both.
pub(crate) fn open<D: Disk + Drop>(
    alloc: Global,
    alph: Racks<D>,
    beta: Racks<D>,
) -> Option<(Offices<D>, Passes<D>)>
    requires counts { (vec_len alph ≡ 16) × (vec_len beta ≡ 16) }
    ensures alph { IfSome result (λ r. IsPassOf r.0.alph r.1.alph) }
    ensures beta { IfSome result (λ r. IsPassOf r.0.beta r.1.beta) }
{
    let Some((alph, alph_pass)) = open_one(alloc, b"ALPH", alph) else {
        drop(beta);
        return None;
    };
    match open_one(alloc, b"BETA", beta) {
        Some((beta, beta_pass)) => {
            let offices = Offices { alph, beta };
            let passes = Passes {
                alph: alph_pass,
                beta: beta_pass,
            };
            Some((offices, passes))
        }
        None => {
            drop(alph);
            drop(alph_pass);
            None
        }
    }
}
