//! The platforms of a roster.
ghost use Rattle.std.specs.Prelude.{◌≡◌, Ok, IfOk, IfErr};
ghost use Rattle.std.specs.Set.{is_member};
ghost use Rattle.canonical_json.specs.View.{view, items_view};
ghost use Rattle.ebl_base.specs.PlatformCode.{code_eq};
ghost use Rattle.json_forms.specs.Reading.{platform_in};
ghost use Rattle.party_roster.specs.Distinct.{fresh};
ghost use Rattle.party_roster.specs.Reading.{platforms_of, distinct_platforms, IsFault};

use crate::fault::{RosterFault, RosterPlace};
use canonical_json::Json;
use ebl_base::{Items, MAX_ROSTER_PLATFORMS, PlatformCode};
use json_forms::{platform_in, required_items};
use std::alloc::Global;

/// The platforms of the roster that a value is.
pub(crate) fn platforms_of(alloc: Global, json: &Json) -> Result<Items<PlatformCode>, RosterFault>
    ensures ok { IfOk result (λ platforms. platforms_of (view json.now) ≡ Ok platforms) }
    ensures err { IfErr result (IsFault (platforms_of (view json.now))) }
{
    match required_items(json, "platforms", 1, MAX_ROSTER_PLATFORMS) {
        Some(items) => distinct_platforms(alloc, items),
        None => Err(RosterFault::RosterForm(RosterPlace::Whole)),
    }
}

fn distinct_platforms(alloc: Global, items: &[Json]) -> Result<Items<PlatformCode>, RosterFault>
    ensures ok { IfOk result (λ platforms. distinct_platforms (items_view items.now) ≡ Ok platforms) }
    ensures err { IfErr result (IsFault (distinct_platforms (items_view items.now))) }
{
    let mut platforms = Vec::with_capacity(alloc, items.len())?;
    for item in items {
        let Some(platform) = next_platform(platforms.as_slice(), item) else {
            return Err(RosterFault::RosterForm(RosterPlace::Platform(platforms.len())));
        };
        platforms.push(platform)?;
    }
    Ok(Items::from_vec(platforms))
}

fn next_platform(earlier: &[PlatformCode], item: &Json) -> Option<PlatformCode>
    ensures { result ≡ fresh code_eq earlier.now (platform_in (view item.now)) }
{
    let platform = platform_in(item)?;
    if has_platform(earlier, platform) {
        return None;
    }
    Some(platform)
}

/// Whether a platform is among some. It looks at each: they are few.
pub(crate) fn has_platform(platforms: &[PlatformCode], platform: PlatformCode) -> bool
    ensures { result ≡ is_member code_eq platforms.now platform }
{
    platforms.contains(&platform)
}
