//! A link read until a whole request stands in the buffer.
ghost use Rattle.std.specs.Prelude.{◌≡◌, ◌≢◌, ◌++◌, ◌+◌, ◌-◌, ◌<◌, ◌≤◌, ◌↔◌, ◌⊎◌, IsTrue, IsFalse, List, ℕ, Ok, Err, [], Some, None, length, drop, take, max, IfOk, OnOk, IfErr, OnErr, IsErrOf, vec_len};
ghost use Rattle.std.specs.Io.KnownBytes.{Consumes, IsAtEnd};
ghost use Rattle.http_heads.specs.declared.scan.TheConstants.{MAX_HEAD};
ghost use Rattle.ebl_base.specs.Faults.{Rose};
ghost use Rattle.http_heads.specs.Scan.{head_end, scan};
ghost use Rattle.http_heads.specs.declared.scan.Scan.TheVariants.{Blank};
ghost use Rattle.http_requests.specs.Next.{IsNext, next_at};
ghost use Rattle.http_requests.specs.Reading.{Fills, Read, IsStop, HeadFound, LacksBytes, IsWithin, most_for};

use crate::end::LinkEnd;
use crate::front::Front;
use ebl_edge::Link;
use http_heads::{MAX_HEAD, Plan, Plans, Scan, Status};

// Reads a piece behind the bytes of the buffer. `false` is the end.
fn read_piece<L: Link>(
    link: &mut L,
    buffer: &mut Vec<u8>,
    piece: &mut [u8],
) -> Result<bool, LinkEnd>
    requires room { 0 < length piece.old }
    ensures filled { OnOk result (Fills (L.left link.old) (L.left link.new) buffer.old.items buffer.new.items) }
    ensures read { IfErr result (λ e. Read e (L.left link.old) (L.left link.new) buffer.old.items buffer.new.items) }
    ensures most { length buffer.new.items ≤ length buffer.old.items + length piece.old }
    ensures more { IfOk result (λ more. IsTrue more → length buffer.old.items < length buffer.new.items) }
    ensures end { IfOk result (λ more. IsFalse more
        → (buffer.new.items ≡ buffer.old.items) × IsAtEnd (L.left link.new)) }
    ensures kept { OnErr result (buffer.new.items ≡ buffer.old.items) }
    ensures err { IfErr result (λ e. (e ≡ LinkEnd.ReadFault) ⊎ (e ≡ LinkEnd.NoMemory)) }
    ensures fault { IsErrOf result LinkEnd.ReadFault → Rose (L.faults link.old) (L.faults link.new) }
    ensures written { L.written link.new ≡ L.written link.old }
    ensures later { L.faults link.old ≤ L.faults link.new }
{
    let count = match link.read(piece) {
        Ok(count) => count,
        Err(_) => return Err(LinkEnd::ReadFault),
    };
    if count == 0 {
        return Ok(false);
    }
    match buffer.extend_from_slice(&piece[..count]) {
        Ok(()) => Ok(true),
        Err(_) => Err(LinkEnd::NoMemory),
    }
}

// Reads more bytes behind those of the buffer, until it has `full` of them at most. `false` is the end.
fn read_more<L: Link>(link: &mut L, buffer: &mut Vec<u8>, full: usize) -> Result<bool, LinkEnd>
    requires room { length buffer.old.items < full }
    ensures filled { OnOk result (Fills (L.left link.old) (L.left link.new) buffer.old.items buffer.new.items) }
    ensures read { IfErr result (λ e. Read e (L.left link.old) (L.left link.new) buffer.old.items buffer.new.items) }
    ensures most { length buffer.new.items ≤ full }
    ensures more { IfOk result (λ more. IsTrue more → length buffer.old.items < length buffer.new.items) }
    ensures end { IfOk result (λ more. IsFalse more
        → (buffer.new.items ≡ buffer.old.items) × IsAtEnd (L.left link.new)) }
    ensures kept { OnErr result (buffer.new.items ≡ buffer.old.items) }
    ensures err { IfErr result (λ e. (e ≡ LinkEnd.ReadFault) ⊎ (e ≡ LinkEnd.NoMemory)) }
    ensures fault { IsErrOf result LinkEnd.ReadFault → Rose (L.faults link.old) (L.faults link.new) }
    ensures written { L.written link.new ≡ L.written link.old }
    ensures later { L.faults link.old ≤ L.faults link.new }
{
    let mut piece = [0; 4096];
    let room = piece.len().min(full - buffer.len());
    read_piece(link, buffer, &mut piece[..room])
}

// Reads until the head of a request stands in the buffer: its length, or `None` where it is none within the most bytes
// of a head.
fn await_head<L: Link>(link: &mut L, buffer: &mut Vec<u8>) -> Result<Option<usize>, LinkEnd>
    ensures filled { OnOk result (Fills (L.left link.old) (L.left link.new) buffer.old.items buffer.new.items) }
    ensures read { IfErr result (λ e. Read e (L.left link.old) (L.left link.new) buffer.old.items buffer.new.items) }
    ensures found { IfOk result (λ head. HeadFound head buffer.new.items) }
    ensures most { length buffer.new.items ≤ max (length buffer.old.items) MAX_HEAD }
    ensures stop { IfErr result (λ e. IsStop e buffer.new.items (L.left link.new)) }
    ensures fault { IsErrOf result LinkEnd.ReadFault → Rose (L.faults link.old) (L.faults link.new) }
    ensures written { L.written link.new ≡ L.written link.old }
    ensures later { L.faults link.old ≤ L.faults link.new }
{
    let mut state = Scan::Blank;
    let mut seen = 0;
    loop {
        state = match scan_on(state, seen, buffer.as_slice()) {
            Ok(len) => return Ok(Some(len)),
            Err(at) => at,
        };
        if buffer.len() >= MAX_HEAD {
            return Ok(None);
        }
        seen = buffer.len();
        match read_more(link, buffer, MAX_HEAD) {
            Ok(true) => {}
            Ok(false) => return Err(end_before(buffer.as_slice())),
            Err(e) => return Err(e),
        }
    }
}

// The end where the input ended before a head.
fn end_before(buffer: &[u8]) -> LinkEnd
    ensures closed { result ≡ LinkEnd.Closed → buffer.now ≡ [] }
    ensures cut { result ≡ LinkEnd.Cut → buffer.now ≢ [] }
    ensures ends { (result ≡ LinkEnd.Closed) ⊎ (result ≡ LinkEnd.Cut) }
{
    if buffer.is_empty() {
        LinkEnd::Closed
    } else {
        LinkEnd::Cut
    }
}

// Goes on with a scan over what came behind the bytes that were seen.
fn scan_on(state: Scan, seen: usize, buffer: &[u8]) -> Result<usize, Scan>
    requires scanned { scan 0 Blank (take seen buffer.now) ≡ Err state }
    requires seen { seen ≤ length buffer.now }
    requires short { seen ≤ MAX_HEAD }
    ensures { result ≡ head_end buffer.now }
{
    let until = buffer.len().min(MAX_HEAD);
    state.over(seen, &buffer[seen..until])
}

// Reads until the buffer has so many bytes.
fn await_bytes<L: Link>(link: &mut L, buffer: &mut Vec<u8>, count: usize) -> Result<(), LinkEnd>
    ensures filled { OnOk result (Fills (L.left link.old) (L.left link.new) buffer.old.items buffer.new.items) }
    ensures read { IfErr result (λ e. Read e (L.left link.old) (L.left link.new) buffer.old.items buffer.new.items) }
    ensures enough { OnOk result (count ≤ length buffer.new.items) }
    ensures most { length buffer.new.items ≤ max (length buffer.old.items) count }
    ensures stop { IfErr result (λ e. LacksBytes e count buffer.new.items (L.left link.new)) }
    ensures fault { IsErrOf result LinkEnd.ReadFault → Rose (L.faults link.old) (L.faults link.new) }
    ensures written { L.written link.new ≡ L.written link.old }
    ensures later { L.faults link.old ≤ L.faults link.new }
{
    while buffer.len() < count {
        match read_more(link, buffer, count) {
            Ok(true) => {}
            Ok(false) => return Err(LinkEnd::Cut),
            Err(e) => return Err(e),
        }
    }
    Ok(())
}

/// Reads until a head and its body, or no head, stand at the front of the buffer. Each head is parsed once.
///
/// It fills the buffer up to [`MAX_HEAD`] bytes, or to the end of a body that is awaited, and no further: what follows
/// stays in the link, as does all that comes behind those bytes of a request that is refused.
pub fn await_next<L: Link>(
    link: &mut L,
    plans: &Plans,
    buffer: &mut Vec<u8>,
) -> Result<Front, LinkEnd>
    ensures filled { OnOk result (Fills (L.left link.old) (L.left link.new) buffer.old.items buffer.new.items) }
    ensures read { IfErr result (λ e. Read e (L.left link.old) (L.left link.new) buffer.old.items buffer.new.items) }
    ensures front { IfOk result (λ front. IsNext buffer.new.items (next_at buffer.new.items front)) }
    ensures within { IfOk result (λ front. IsWithin front (length buffer.new.items)) }
    ensures most { IfOk result (λ front. length buffer.new.items ≤ max (length buffer.old.items) (most_for front)) }
    ensures stop { IfErr result (λ e. IsStop e buffer.new.items (L.left link.new)) }
    ensures fault { IsErrOf result LinkEnd.ReadFault → Rose (L.faults link.old) (L.faults link.new) }
    ensures written { L.written link.new ≡ L.written link.old }
    ensures later { L.faults link.old ≤ L.faults link.new }
{
    let len = match await_head(link, buffer) {
        Ok(Some(len)) => len,
        Ok(None) => return Ok(Front::Refused(Status::BadRequest)),
        Err(e) => return Err(e),
    };
    match plans.plan_of(&buffer[..len]) {
        Plan::Refuse(status) => Ok(Front::Refused(status)),
        Plan::Await {
            route,
            length,
            keeps,
        } => {
            let end = len + length as usize;
            match await_bytes(link, buffer, end) {
                Ok(()) => {}
                Err(e) => return Err(e),
            }
            Ok(Front::Whole {
                route,
                start: len,
                end,
                keeps,
            })
        }
    }
}
