//! The line of a bill, and how the bill stands.
ghost use Rattle.std.specs.Prelude.{◌≡◌, [], ◌∷◌, ◌++◌, Some, codes, map, option_map, IfOk, OnOk};
ghost use Rattle.canonical_json.specs.Value.{list, text};
ghost use Rattle.canonical_json.specs.View.{view};
ghost use Rattle.json_forms.specs.Writing.{each_written, party_value, platform_value};
ghost use Rattle.title_fold.specs.Title.{possessor, title_holder};
ghost use Rattle.reply_forms.specs.Words.{state_text};
ghost use Rattle.answer_lines.specs.Row.{row_entries};
ghost use Rattle.closed_family.specs.Longest.{accepted_chains, longest_accepted};
ghost use Rattle.bill_lines.specs.Bills.{end_of, is_forked, title_of};
ghost use Rattle.bill_lines.specs.Diaries.{histories_in, platforms_in};
ghost use Rattle.bill_lines.specs.Lines.{bill_line, front_members, title_members};
ghost use Rattle.bill_lines.specs.Standing.{standing_by};

use crate::accepted::{accepted_chains, longest};
use crate::diaries::PlatformDiary;
use crate::ends::{acting, end_of, further, title_after};
use crate::forks::is_forked;
use crate::standing::Standing;
use answer_lines::Row;
use canonical_json::Json;
use ebl_base::{ByteList, ChainLink, Checksum, NoMemory, Party, PlatformCode};
use json_forms::{list_json, text_json};
use reply_forms::state_text;
use std::alloc::Global;
use title_fold::{Title, possessor, title_holder};

/// The line of a bill of this number, by the diaries of its shard on the platforms. `settled` are those of them whose
/// shard isn't loose.
///
/// It goes over each diary a few times, and copies of it what the bill's end has recorded since.
pub fn bill_line(
    alloc: Global,
    number: u64,
    bill: Checksum,
    diaries: &[PlatformDiary],
    settled: &[PlatformCode],
) -> Result<ByteList, NoMemory>
    ensures { IfOk result (λ line. line
        ≡ bill_line number (histories_in bill diaries.now) (platforms_in diaries.now) settled.now) }
{
    let outline = outline_of(alloc, bill, diaries)?;
    let acts = acting(alloc, bill, diaries, settled)?;
    let mut row = Row::new(alloc);
    put_front(
        alloc,
        &mut row,
        acts.as_slice(),
        number,
        outline.end,
        outline.line.len(),
        outline.forked,
    )?;
    put_title(alloc, &mut row, outline.title)?;
    row.into_line(alloc)
}

/// How a bill stands, as its line says it, by the diaries of its shard on the platforms. No line is written.
///
/// It goes over each diary a few times, and copies of it what the bill's end has recorded since.
pub fn bill_standing(
    alloc: Global,
    bill: Checksum,
    diaries: &[PlatformDiary],
) -> Result<Standing, NoMemory>
    ensures { IfOk result (λ standing. standing
        ≡ standing_by (histories_in bill diaries.now) (platforms_in diaries.now)) }
{
    let outline = outline_of(alloc, bill, diaries)?;
    Ok(Standing {
        entries: outline.line.len(),
        forked: outline.forked,
        possessor: possessor_of(outline.title),
    })
}

// Who has possession, if there is a title.
fn possessor_of(title: Option<Title>) -> Option<Party>
    ensures { result ≡ option_map possessor title }
{
    match title {
        Some(title) => Some(possessor(title)),
        None => None,
    }
}

// What the diaries say of a bill.
#[derive(Clone, Copy)]
struct Outline<'a> {
    // The longest accepted chain.
    line: &'a [ChainLink],
    // Where it ends.
    end: Option<PlatformCode>,
    // Whether accepted chains part ways.
    forked: bool,
    title: Option<Title>,
}

fn outline_of<'a>(
    alloc: Global,
    bill: Checksum,
    diaries: &[PlatformDiary<'a>],
) -> Result<Outline<'a>, NoMemory>
    ensures line { IfOk result (λ s. s.line.now
        ≡ longest_accepted (histories_in bill diaries.now) (platforms_in diaries.now)) }
    ensures end { IfOk result (λ s. s.end ≡ end_of (histories_in bill diaries.now) (platforms_in diaries.now)) }
    ensures forked { IfOk result (λ s. s.forked
        ≡ is_forked (histories_in bill diaries.now) (platforms_in diaries.now)) }
    ensures title { IfOk result (λ s. s.title ≡ title_of (histories_in bill diaries.now) (platforms_in diaries.now)) }
{
    let chains = accepted_chains(alloc, bill, diaries)?;
    let forked = forks(bill, diaries, chains.as_slice());
    let line = longest(chains);
    let end = end_of(line, bill, diaries);
    let further = further(alloc, line, bill, diaries, end)?;
    let title = title_after(line, further.as_slice());
    Ok(Outline {
        line,
        end,
        forked,
        title,
    })
}

// Whether the accepted chains, which these are, part ways.
fn forks(bill: Checksum, diaries: &[PlatformDiary], chains: &[&[ChainLink]]) -> bool
    requires { map (λ c. c.now) chains.now
        ≡ accepted_chains (histories_in bill diaries.now) (platforms_in diaries.now) }
    ensures { result ≡ is_forked (histories_in bill diaries.now) (platforms_in diaries.now) }
{
    is_forked(chains)
}

fn put_front(
    alloc: Global,
    row: &mut Row,
    acts: &[PlatformCode],
    number: u64,
    end: Option<PlatformCode>,
    entries: usize,
    forked: bool,
) -> Result<(), NoMemory>
    ensures { OnOk result (row_entries row.new
        ≡ row_entries row.old ++ front_members acts.now number end entries forked) }
{
    row.put(alloc, "acts", platforms_json(alloc, acts)?)?;
    row.put_number(alloc, "bill", number)?;
    row.put_optional_platform(alloc, "end", end)?;
    row.put_number(alloc, "entries", entries as u64)?;
    row.put(alloc, "forked", Json::Flag(forked))
}

fn platforms_json(alloc: Global, platforms: &[PlatformCode]) -> Result<Json, NoMemory>
    ensures { IfOk result (λ json. view json ≡ list (each_written platform_value platforms.now)) }
{
    let mut items = Vec::with_capacity(alloc, platforms.len())?;
    for platform in platforms {
        items.push(text_json(alloc, platform.as_str())?)?;
    }
    Ok(list_json(items))
}

fn put_title(alloc: Global, row: &mut Row, title: Option<Title>) -> Result<(), NoMemory>
    ensures { OnOk result (row_entries row.new ≡ row_entries row.old ++ title_members title) }
{
    match title {
        Some(title) => put_possession(alloc, row, title),
        None => Ok(()),
    }
}

fn put_possession(alloc: Global, row: &mut Row, title: Title) -> Result<(), NoMemory>
    ensures { OnOk result (row_entries row.new ≡ row_entries row.old ++ title_members (Some title)) }
{
    put_holder(alloc, row, title)?;
    put_possessor(alloc, row, title)?;
    put_state(alloc, row, title)
}

fn put_holder(alloc: Global, row: &mut Row, title: Title) -> Result<(), NoMemory>
    ensures { OnOk result (row_entries row.new
        ≡ row_entries row.old ++ (codes "holder", party_value (title_holder title)) ∷ []) }
{
    row.put_party(alloc, "holder", title_holder(title))
}

fn put_possessor(alloc: Global, row: &mut Row, title: Title) -> Result<(), NoMemory>
    ensures { OnOk result (row_entries row.new
        ≡ row_entries row.old ++ (codes "possessor", party_value (possessor title)) ∷ []) }
{
    row.put_party(alloc, "possessor", possessor(title))
}

fn put_state(alloc: Global, row: &mut Row, title: Title) -> Result<(), NoMemory>
    ensures { OnOk result (row_entries row.new
        ≡ row_entries row.old ++ (codes "state", text (state_text title)) ∷ []) }
{
    row.put_text(alloc, "state", state_text(title))
}
