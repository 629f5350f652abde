//! The one reply, read from a link.
ghost use Rattle.std.specs.Prelude.{◌≡◌, ◌≤◌, ◌-◌, ◌++◌, length, drop, Err, IfOk, OnOk, IfErr, IsErrOf};
ghost use Rattle.std.specs.Io.KnownBytes.{Consumes};
ghost use Rattle.ebl_base.specs.Faults.{Rose};
ghost use Rattle.http_heads.specs.declared.scan.TheConstants.{MAX_HEAD};
ghost use Rattle.pint_client.specs.Exchange.{ReadsReply};
ghost use Rattle.pint_client.specs.Receiving.{HoldsBody, HoldsHead, LacksBytes};

use crate::client_fault::ClientFault;
use crate::incoming::Incoming;
use crate::reply_head::reply_head;
use ebl_base::{ByteList, NoMemory};
use ebl_edge::Link;
use http_heads::{MAX_HEAD, Scan};
use std::alloc::Global;

/// Reads one reply. Bytes behind it are read only if they come with its head.
pub fn receive<L: Link>(alloc: Global, link: &mut L) -> Result<Incoming, ClientFault>
    ensures read { ReadsReply result (L.left link.old) (L.left link.new) }
    ensures fault { IsErrOf result ClientFault.Fault → Rose (L.faults link.old) (L.faults link.new) }
    ensures later { L.faults link.old ≤ L.faults link.new }
    ensures written { L.written link.new ≡ L.written link.old }
{
    match zeros(alloc, MAX_HEAD) {
        Ok(mut front) => receive_over(alloc, link, &mut front),
        Err(_) => Err(ClientFault::NoMemory),
    }
}

// The same, with this buffer for the head.
fn receive_over<L: Link>(
    alloc: Global,
    link: &mut L,
    front: &mut [u8],
) -> Result<Incoming, ClientFault>
    requires { length front.old ≡ MAX_HEAD }
    ensures read { ReadsReply result (L.left link.old) (L.left link.new) }
    ensures fault { IsErrOf result ClientFault.Fault → Rose (L.faults link.old) (L.faults link.new) }
    ensures later { L.faults link.old ≤ L.faults link.new }
    ensures written { L.written link.new ≡ L.written link.old }
{
    let at = match await_head(link, front) {
        Ok(at) => at,
        Err(e) => return Err(e),
    };
    let head = match reply_head(&front[..at.len]) {
        Some(head) => head,
        None => return Err(ClientFault::BadReply),
    };
    match read_body(alloc, link, &front[at.len..at.count], head.body) {
        Ok(body) => Ok(Incoming {
            status: head.status,
            body,
        }),
        Err(e) => Err(e),
    }
}

// So many zeros.
fn zeros(alloc: Global, count: usize) -> Result<Vec<u8>, NoMemory>
    ensures { IfOk result (λ bytes. length bytes.items ≡ count) }
{
    Ok(vec![in alloc; 0; count]?)
}

// Where the head of a reply is in the bytes that were read: its length, and how many bytes were read.
#[derive(Clone, Copy)]
struct HeadAt {
    len: usize,
    count: usize,
}

// Reads pieces into the buffer until the head of a reply has come.
fn await_head<L: Link>(link: &mut L, buffer: &mut [u8]) -> Result<HeadAt, ClientFault>
    requires { length buffer.old ≡ MAX_HEAD }
    ensures ok { IfOk result (λ at. HoldsHead buffer.new at.len at.count (L.left link.old) (L.left link.new)) }
    ensures err { IfErr result (λ e. ReadsReply (Err e) (L.left link.old) (L.left link.new)) }
    ensures fault { IsErrOf result ClientFault.Fault → Rose (L.faults link.old) (L.faults link.new) }
    ensures later { L.faults link.old ≤ L.faults link.new }
    ensures written { L.written link.new ≡ L.written link.old }
{
    let mut scan = Scan::Blank;
    let mut count = 0;
    while count < buffer.len() {
        let more = match link.read(&mut buffer[count..]) {
            Ok(0) => return Err(ClientFault::BadReply),
            Ok(more) => more,
            Err(_) => return Err(ClientFault::Fault),
        };
        let before = count;
        count += more;
        match scan.over(before, &buffer[before..count]) {
            Ok(len) => return Ok(HeadAt { len, count }),
            Err(at) => scan = at,
        }
    }
    Err(ClientFault::BadReply)
}

// Reads the body of so many bytes, of which the first came behind the head. Each byte is copied at most once.
fn read_body<L: Link>(
    alloc: Global,
    link: &mut L,
    behind: &[u8],
    size: usize,
) -> Result<ByteList, ClientFault>
    ensures ok { IfOk result (λ body. HoldsBody body behind.now size (L.left link.old) (L.left link.new)) }
    ensures err { IfErr result (λ e. LacksBytes e (size - length behind.now) (L.left link.old) (L.left link.new)) }
    ensures fault { IsErrOf result ClientFault.Fault → Rose (L.faults link.old) (L.faults link.new) }
    ensures later { L.faults link.old ≤ L.faults link.new }
    ensures written { L.written link.new ≡ L.written link.old }
{
    let mut body = match zeros(alloc, size) {
        Ok(body) => body,
        Err(_) => return Err(ClientFault::NoMemory),
    };
    match fill_behind(link, behind, &mut body) {
        Ok(()) => Ok(ByteList::from_vec(body)),
        Err(e) => Err(e),
    }
}

// Fills the body with the bytes that came behind the head, and with what is read.
fn fill_behind<L: Link>(link: &mut L, behind: &[u8], body: &mut [u8]) -> Result<(), ClientFault>
    ensures ok { OnOk result (HoldsBody body.new behind.now (length body.old) (L.left link.old) (L.left link.new)) }
    ensures err { IfErr result (λ e. LacksBytes e (length body.old - length behind.now)
        (L.left link.old) (L.left link.new)) }
    ensures fault { IsErrOf result ClientFault.Fault → Rose (L.faults link.old) (L.faults link.new) }
    ensures later { L.faults link.old ≤ L.faults link.new }
    ensures written { L.written link.new ≡ L.written link.old }
{
    let count = behind.len().min(body.len());
    put_front(body, &behind[..count]);
    fill(link, &mut body[count..])
}

fn put_front(body: &mut [u8], front: &[u8])
    requires { length front.now ≤ length body.old }
    ensures { body.new ≡ front.now ++ drop (length front.now) body.old }
{
    body[..front.len()].copy_from_slice(front);
}

// Reads until the buffer is full.
fn fill<L: Link>(link: &mut L, buffer: &mut [u8]) -> Result<(), ClientFault>
    ensures ok { OnOk result (Consumes (L.left link.old) (L.left link.new) buffer.new) }
    ensures err { IfErr result (λ e. LacksBytes e (length buffer.old) (L.left link.old) (L.left link.new)) }
    ensures fault { IsErrOf result ClientFault.Fault → Rose (L.faults link.old) (L.faults link.new) }
    ensures later { L.faults link.old ≤ L.faults link.new }
    ensures written { L.written link.new ≡ L.written link.old }
{
    let mut count = 0;
    while count < buffer.len() {
        match link.read(&mut buffer[count..]) {
            Ok(0) => return Err(ClientFault::BadReply),
            Ok(more) => count += more,
            Err(_) => return Err(ClientFault::Fault),
        }
    }
    Ok(())
}
