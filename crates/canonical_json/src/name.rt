//! The order of names: by their UTF-16 code units (RFC 8785, section 3.2.3).
ghost use Rattle.std.specs.Prelude.{◌≡◌, ◌≢◌, ◌≤◌, ◌<◌, length, take, slice_index, true, not, IfOk};
ghost use Rattle.std.specs.Ordering.{nat_cmp};
ghost use Rattle.std.specs.Cmp.Lexicographic.{slice_cmp};
ghost use Rattle.canonical_json.specs.View.{member_view, members_view};
ghost use Rattle.canonical_json.specs.Name.{name_cmp, byte_rank, names_rise, in_order};
ghost use Rattle.canonical_json.specs.Lawful.{MembersHaveTexts};
ghost use Rattle.canonical_json.specs.Reading.{repeats, names_of};

use crate::value::Member;
use ebl_base::NoMemory;
use std::cmp::Ordering;

/// Which of two names comes first. No name is copied.
pub(crate) fn name_cmp(a: &str, b: &str) -> Ordering
    ensures { result ≡ name_cmp a.now b.now }
{
    let left = a.as_bytes();
    let right = b.as_bytes();
    let same = common_len(left, right);
    if same < left.len() && same < right.len() {
        rank(left[same]).cmp(&rank(right[same]))
    } else {
        left.len().cmp(&right.len())
    }
}

// How many bytes the two have in common at their beginnings.
fn common_len(a: &[u8], b: &[u8]) -> usize
    ensures same { take result a.now ≡ take result b.now }
    ensures bounds { (result ≤ length a.now) × (result ≤ length b.now) }
    ensures apart { result < length a.now → result < length b.now
        → slice_index a.now result ≢ slice_index b.now result }
{
    let both = a.len().min(b.len());
    let mut at = 0;
    while at < both && a[at] == b[at] {
        at += 1;
    }
    at
}

// The UTF-8 of U+E000 to U+FFFF begins with 0xEE or 0xEF. These come after the characters of two
// code units, which begin with a surrogate, and whose UTF-8 begins with a greater byte.
fn rank(byte: u8) -> u16
    ensures { result ≡ byte_rank byte }
{
    if byte == 0xEE || byte == 0xEF {
        byte as u16 + 0x100
    } else {
        byte as u16
    }
}

/// Whether the names rise strictly.
pub(crate) fn names_rise(members: &[Member]) -> bool
    ensures { result ≡ names_rise (members_view members.now) }
{
    for i in 1..members.len() {
        if by_name(&members[i - 1], &members[i]) != Ordering::Less {
            return false;
        }
    }
    true
}

/// Puts the members in order, and gives whether each name comes once. Members that are in order
/// already are only looked at.
pub(crate) fn sort_by_names(members: &mut Vec<Member>) -> Result<bool, NoMemory>
    requires { MembersHaveTexts (members_view members.old.items) }
    ensures apart { IfOk result (λ apart. apart
        ≡ not (repeats (names_of (members_view members.old.items)))) }
    ensures ordered { IfOk result (λ apart. apart ≡ true → members_view members.new.items
        ≡ in_order (members_view members.old.items)) }
    ensures texts { IfOk result (λ apart. MembersHaveTexts (members_view members.new.items)) }
{
    if names_rise(members.as_slice()) {
        return Ok(true);
    }
    members.sort_by(by_bytes)?;
    if names_rise(members.as_slice()) {
        return Ok(true);
    }
    members.sort_by(by_name)?;
    Ok(names_rise(members.as_slice()))
}

// The order of bytes differs only beside characters from U+E000 on, and is found many bytes at a time.
fn by_bytes(a: &Member, b: &Member) -> Ordering
    ensures { result ≡ slice_cmp nat_cmp (member_view a.now).0 (member_view b.now).0 }
{
    a.name.as_str().cmp(b.name.as_str())
}

fn by_name(a: &Member, b: &Member) -> Ordering
    ensures { result ≡ name_cmp (member_view a.now).0 (member_view b.now).0 }
{
    name_cmp(a.name.as_str(), b.name.as_str())
}
