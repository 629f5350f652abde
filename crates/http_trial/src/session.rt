//! One link over standard input and output.
use crate::duplex::Duplex;
use crate::same_desk::SameDesk;
use ebl_base::{Moment, Party};
use ebl_edge::{MemoryClock, StreamLink};
use pint_http::{LinkEnd, serve_link};
use std::io;
use std::io::{ErrorKind, writer};

/// True, once the link was closed; an error where it ended otherwise. False where there are words.
pub(crate) fn serve_input(rt: &HostRuntime, words: &[String]) -> io::Result<bool> {
    if !words.is_empty() {
        return Ok(false);
    }
    match served(rt) {
        Some(LinkEnd::Closed) => Ok(true),
        _ => Err(ErrorKind::InvalidData.into()),
    }
}

fn served(rt: &HostRuntime) -> Option<LinkEnd> {
    let mut desk = SameDesk {
        party: Party::from_text(b"BETA/IMPORT")?,
    };
    let mut clock = MemoryClock::new(Moment::try_new(0)?);
    let mut link = StreamLink::new(Duplex {
        reader: rt.reader(),
        writer: writer(rt),
    });
    Some(serve_link(rt.alloc(), &mut link, &mut desk, &mut clock))
}
