//! Rosters, and the first wrong place of values that are none. In these texts `'` stands for `"`.
use crate::tests::comparing::same;
use crate::tests::making::json;
use ebl_base::{CarrierCode, Copied, Party, PlatformCode, Provider};
use party_roster::{Roster, RosterFault, RosterPlace};
use std::alloc::{AllocError, Global};
use std::fmt::Debug;
use std::process::Abort;
use std::test::Fail;

const PLATFORMS: &str = "['ALPH','BETA']";

const PARTIES: &str = "['ALPH/BANK','ALPH/CARRIER','BETA/IMPORT']";

const CARRIERS: &str =
    "[{'code':'OCNL','party':'ALPH/CARRIER','provider':'NMFTA'},{'code':'OCNL','party':'BETA/IMPORT','provider':'SMDG'}]";

// The first wrong place of a roster's platforms, parties and carriers, with a second wrong thing behind
// it where there can be one.
const PLACES: [(&str, &str, &str, RosterPlace); 19] = [
    ("[]", "[]", "[]", RosterPlace::Whole),
    ("{}", PARTIES, CARRIERS, RosterPlace::Whole),
    (
        "['alph','BETA',7]",
        "[]",
        CARRIERS,
        RosterPlace::Platform(0),
    ),
    (
        "['ALPH','ALPH','ALPHA']",
        PARTIES,
        CARRIERS,
        RosterPlace::Platform(1),
    ),
    (
        "['ALPH','BETA','ALPH']",
        "[1]",
        CARRIERS,
        RosterPlace::Platform(2),
    ),
    (PLATFORMS, "[]", "[]", RosterPlace::Parties),
    (PLATFORMS, "'ALPH/BANK'", CARRIERS, RosterPlace::Parties),
    ("['ALPH']", "['BETA/X']", CARRIERS, RosterPlace::PartyAt(0)),
    (
        "['ALPH']",
        "['ALPH-BANK','BETA/X']",
        CARRIERS,
        RosterPlace::PartyAt(0),
    ),
    (
        "['ALPH']",
        "['ALPH/BANK','ALPH/BANK','ALPH/CARRIER','ALPH/EXPORT']",
        CARRIERS,
        RosterPlace::PartyAt(1),
    ),
    (
        PLATFORMS,
        "['BETA/X','GAMM/X','BETA/X']",
        "[]",
        RosterPlace::PartyAt(1),
    ),
    (
        PLATFORMS,
        "['ALPH/BANK','ALPH/CARRIER','ALPH/bank']",
        "{}",
        RosterPlace::PartyAt(2),
    ),
    (PLATFORMS, PARTIES, "[]", RosterPlace::Carriers),
    (PLATFORMS, PARTIES, "null", RosterPlace::Carriers),
    (PLATFORMS, PARTIES, "[7,8]", RosterPlace::CarrierAt(0)),
    (
        PLATFORMS,
        PARTIES,
        "[{'code':'OCNLX','party':'ALPH/BANK','provider':'SMDG'},1]",
        RosterPlace::CarrierAt(0),
    ),
    (
        PLATFORMS,
        PARTIES,
        "[{'code':'OCNL','party':'ALPH/BANK','provider':'smdg'},1]",
        RosterPlace::CarrierAt(0),
    ),
    (
        PLATFORMS,
        PARTIES,
        "[{'code':'OCNL','party':'ALPH/EXPORT','provider':'SMDG'}]",
        RosterPlace::CarrierAt(0),
    ),
    (
        PLATFORMS,
        PARTIES,
        "[{'code':'OCNL','party':'ALPH/BANK','provider':'SMDG'},{'code':'OCNL','party':'ALPH/CARRIER','provider':'SMDG'}]",
        RosterPlace::CarrierAt(1),
    ),
];

// Platforms and parties, and whether the roster has them.
const KNOWN: [(&str, bool); 7] = [
    ("ALPH", true),
    ("BETA", true),
    ("GAMM", false),
    ("ALPH/BANK", true),
    ("BETA/IMPORT", true),
    ("BETA/BANK", false),
    ("GAMM/BANK", false),
];

const CARRIERS_FOR: [(Provider, &str, &str); 3] = [
    (Provider::Nmfta, "OCNL", "ALPH/CARRIER"),
    (Provider::Smdg, "OCNL", "BETA/IMPORT"),
    (Provider::Smdg, "OCN", "none"),
];

// Whether the value that a text is reads as a roster.
fn answer(alloc: Global, text: &str) -> Option<Result<(), RosterFault>> {
    let json = json(alloc, text).ok()?;
    let roster = Roster::read(alloc, &json);
    drop(json);
    match roster {
        Ok(roster) => {
            drop(roster);
            Some(Ok(()))
        }
        Err(fault) => Some(Err(fault)),
    }
}

fn fault(place: RosterPlace) -> Option<Result<(), RosterFault>> {
    Some(Err(RosterFault::RosterForm(place)))
}

fn text_of(
    alloc: Global,
    platforms: &str,
    parties: &str,
    carriers: &str,
) -> Result<String, AllocError> {
    format!(in alloc;
        "{{'parties':{parties},'further':[],'carriers':{carriers},'platforms':{platforms}}}"
    )
}

// Members come in any order, and further members are ignored.
fn sample_roster(alloc: Global) -> Result<Roster, Fail> {
    let text = text_of(alloc, PLATFORMS, PARTIES, CARRIERS)?;
    let json = json(alloc, &text)?;
    let roster = Roster::read(alloc, &json);
    drop(json);
    match roster {
        Ok(roster) => Ok(roster),
        Err(_) => Err("a roster".into()),
    }
}

// The first platform, how many there are, the last party, and the party of the first carrier.
type Ends = (Option<PlatformCode>, usize, Option<Party>, Option<Party>);

fn ends_of(roster: &Roster) -> Ends {
    let platform = roster.platforms().first().copied();
    let party = roster.parties().last().copied();
    let carrier = roster.carriers().first().map(|carrier| carrier.party);
    (platform, roster.platforms().len(), party, carrier)
}

fn assert_lists(rt: &impl Abort, roster: &Roster) {
    let platform = PlatformCode::try_new(b"ALPH");
    let party = Party::from_text(b"BETA/IMPORT");
    let carrier = Party::from_text(b"ALPH/CARRIER");
    same(rt, &"ends", ends_of(roster), (platform, 2, party, carrier));
}

fn is_known(roster: &Roster, text: &[u8]) -> Option<bool> {
    match Party::from_text(text) {
        Some(party) => Some(roster.knows(party)),
        None => Some(roster.has_platform(PlatformCode::try_new(text)?)),
    }
}

fn carrier_row(rt: &impl Abort, roster: &Roster, provider: Provider, code: &str, want: &str) {
    let party = CarrierCode::try_new(code.as_bytes()).and_then(|code| roster.carrier(
        provider, code,
    ));
    same(rt, &code, party, Party::from_text(want.as_bytes()));
}

fn assert_look_ups(rt: &impl Abort, roster: &Roster) {
    for &(text, want) in &KNOWN {
        same(rt, &text, is_known(roster, text.as_bytes()), Some(want));
    }
    for &(provider, code, want) in &CARRIERS_FOR {
        carrier_row(rt, roster, provider, code, want);
    }
}

#[test]
fn looks_up(rt: HostRuntime) -> Result<(), Fail> {
    let roster = sample_roster(rt.alloc())?;
    assert_lists(&rt, &roster);
    assert_look_ups(&rt, &roster);
    drop(roster);
    Ok(())
}

// A list is the same as its copy, and has this length.
fn same_list<T: Debug + PartialEq>(rt: &impl Abort, copy: &[T], list: &[T], length: usize) {
    assert_eq!(rt; copy, list);
    assert_eq!(rt; copy.len(), length);
}

fn assert_same(rt: &impl Abort, copy: &Roster, roster: &Roster) {
    same_list(rt, copy.platforms(), roster.platforms(), 2);
    same_list(rt, copy.parties(), roster.parties(), 3);
    same_list(rt, copy.carriers(), roster.carriers(), 2);
}

fn assert_copy(rt: &impl Abort, alloc: Global, roster: &Roster) -> Result<(), Fail> {
    let copy = roster.copy(alloc)?;
    assert_same(rt, &copy, roster);
    assert_look_ups(rt, &copy);
    drop(copy);
    Ok(())
}

#[test]
fn copied(rt: HostRuntime) -> Result<(), Fail> {
    let roster = sample_roster(rt.alloc())?;
    let copied = assert_copy(&rt, rt.alloc(), &roster);
    drop(roster);
    copied
}

fn place_row(
    rt: &impl Abort,
    alloc: Global,
    (platforms, parties, carriers): (&str, &str, &str),
    want: RosterPlace,
) -> Result<(), AllocError> {
    let text = text_of(alloc, platforms, parties, carriers)?;
    same(rt, &text, answer(alloc, &text), fault(want));
    Ok(())
}

#[test]
fn names_the_first_wrong_place(rt: HostRuntime) -> Result<(), Fail> {
    for &(platforms, parties, carriers, want) in &PLACES {
        place_row(&rt, rt.alloc(), (platforms, parties, carriers), want)?;
    }
    same(
        &rt,
        &"[]",
        answer(rt.alloc(), "[]"),
        fault(RosterPlace::Whole),
    );
    Ok(())
}

fn add_item(
    alloc: Global,
    list: &mut String,
    i: usize,
    front: &str,
    behind: &str,
) -> Result<(), AllocError> {
    let comma = if i == 0 { "" } else { "," };
    let item = format!(in alloc; "{comma}{front}{i}{behind}")?;
    list.push_str(&item)
}

// A list of texts, each with its number behind a front.
fn numbered(alloc: Global, count: usize, front: &str, behind: &str) -> Result<String, AllocError> {
    let mut list = String::from_str(alloc, "[")?;
    for i in 0..count {
        add_item(alloc, &mut list, i, front, behind)?;
    }
    list.push_str("]")?;
    Ok(list)
}

const CARRIER: &str = "[{'code':'A','party':'PLT0/A','provider':'SMDG'}]";

const LAST_CARRIER: &str = "[{'code':'A','party':'PLT0/1023','provider':'SMDG'}]";

const NUMBERED: &str = "numbered";

/// The platforms, parties and carriers of a roster, of which one is a numbered list.
type Lists = (&'static str, &'static str, &'static str);

const OF_PLATFORMS: Lists = (NUMBERED, "['PLT0/A']", CARRIER);

const OF_PARTIES: Lists = ("['PLT0']", NUMBERED, LAST_CARRIER);

const OF_CARRIERS: Lists = ("['PLT0']", "['PLT0/A']", NUMBERED);

/// What stands in front of a number and behind it.
type Item = (&'static str, &'static str);

const PLATFORM_ITEM: Item = ("'PLT", "'");

const PARTY_ITEM: Item = ("'PLT0/", "'");

const CARRIER_ITEM: Item = ("{'party':'PLT0/A','provider':'SMDG','code':'C", "'}");

/// How many items the list has, and the first wrong place, if any.
type Limit = (Lists, Item, usize, Option<RosterPlace>);

// One more than the most of each list is too many, and the most is not.
const LIMITS: [Limit; 6] = [
    (OF_PLATFORMS, PLATFORM_ITEM, 8, None),
    (OF_PLATFORMS, PLATFORM_ITEM, 9, Some(RosterPlace::Whole)),
    (OF_PARTIES, PARTY_ITEM, 1024, None),
    (OF_PARTIES, PARTY_ITEM, 1025, Some(RosterPlace::Parties)),
    (OF_CARRIERS, CARRIER_ITEM, 64, None),
    (OF_CARRIERS, CARRIER_ITEM, 65, Some(RosterPlace::Carriers)),
];

fn list_of<'a>(list: &'a str, made: &'a str) -> &'a str {
    if list == NUMBERED { made } else { list }
}

fn wanted(place: Option<RosterPlace>) -> Option<Result<(), RosterFault>> {
    match place {
        Some(place) => fault(place),
        None => Some(Ok(())),
    }
}

fn text_with(alloc: Global, lists: Lists, made: &str) -> Result<String, AllocError> {
    let (platforms, parties, carriers) = lists;
    let platforms = list_of(platforms, made);
    let parties = list_of(parties, made);
    text_of(alloc, platforms, parties, list_of(carriers, made))
}

fn limit_row(rt: &impl Abort, alloc: Global, limit: &Limit) -> Result<(), AllocError> {
    let &(lists, (front, behind), count, place) = limit;
    let made = numbered(alloc, count, front, behind)?;
    let text = text_with(alloc, lists, &made)?;
    same(rt, &count, answer(alloc, &text), wanted(place));
    Ok(())
}

#[test]
fn lists_at_their_limits(rt: HostRuntime) -> Result<(), Fail> {
    for limit in &LIMITS {
        limit_row(&rt, rt.alloc(), limit)?;
    }
    Ok(())
}
