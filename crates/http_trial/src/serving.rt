//! Links over sockets.
use crate::outcomes::outcome_of;
use ebl_base::{Moment, NoMemory, Party};
use ebl_edge::{StreamLink, SystemClock};
use pint_http::serve_link;
use platform_requests::{MemoryDesk, Outcome};
use std::alloc::Global;
use std::io;
use std::io::{ErrorKind, Read};
use std::net::{Shutdown, TcpListener, TcpStream};
use std::time::Duration;

/// Serves so many links from a desk, by the words: an address, a number, and names of outcomes. False where these are
/// wrong.
pub(crate) fn serve(rt: &HostRuntime, words: &[String]) -> io::Result<bool> {
    let [address, links, names @ ..] = words else {
        return Ok(false);
    };
    let Ok(links) = links.as_str().parse::<u32>() else {
        return Ok(false);
    };
    let mut outcomes = Vec::new(rt.alloc());
    let mut parties = Vec::new(rt.alloc());
    let known = fill(rt.alloc(), names, &mut outcomes, &mut parties);
    let mut desk = MemoryDesk::new(rt.alloc(), outcomes, parties);
    let served = match known {
        Ok(true) => serve_links(rt, address.as_str(), links, &mut desk),
        Ok(false) => Ok(false),
        Err(NoMemory) => Err(ErrorKind::OutOfMemory.into()),
    };
    drop(desk);
    served
}

// The outcomes of these names, the last one first, and the party that the desk knows. False where a name is none.
fn fill(
    alloc: Global,
    names: &[String],
    outcomes: &mut Vec<Outcome>,
    parties: &mut Vec<Party>,
) -> Result<bool, NoMemory> {
    for name in names.iter().rev() {
        match outcome_of(alloc, name.as_str())? {
            Some(outcome) => outcomes.push(outcome)?,
            None => return Ok(false),
        }
    }
    if let Some(party) = Party::from_text(b"BETA/IMPORT") {
        parties.push(party)?;
    }
    Ok(true)
}

// True, once so many links have ended.
fn serve_links(
    rt: &HostRuntime,
    address: &str,
    links: u32,
    desk: &mut MemoryDesk,
) -> io::Result<bool> {
    let Some(first) = Moment::try_new(0) else {
        return Ok(true);
    };
    let mut clock = SystemClock::new(rt, first);
    let listener = TcpListener::bind(rt, address)?;
    println!(rt; "serving {}", listener.local_addr()?)?;
    for _ in 0..links {
        serve_next(rt, &listener, desk, &mut clock)?;
    }
    Ok(true)
}

// Serves the next link, and writes how it ended.
fn serve_next(
    rt: &HostRuntime,
    listener: &TcpListener,
    desk: &mut MemoryDesk,
    clock: &mut SystemClock<'_, HostRuntime>,
) -> io::Result<()> {
    let (stream, _) = listener.accept()?;
    let mut link = StreamLink::new(&stream);
    let end = serve_link(rt.alloc(), &mut link, desk, clock);
    println!(rt; "{end:?}")?;
    read_out(&stream);
    Ok(())
}

// Says that nothing more is written, and reads on until the other side closes, for a second of silence or four MiB at
// most (RFC 9112, 9.6). A socket that is closed with bytes unread is reset, and then the other side can lose a reply.
fn read_out(mut stream: &TcpStream) {
    let quiet = stream
        .shutdown(Shutdown::Write)
        .and_then(|()| stream.set_read_timeout(Some(Duration::from_secs(1))));
    if quiet.is_err() {
        return;
    }
    let mut bytes = [0; 4096];
    for _ in 0..1024 {
        match stream.read(&mut bytes) {
            Ok(0) | Err(_) => return,
            Ok(_) => {}
        }
    }
}
