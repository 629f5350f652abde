//! One message to an address, and the reply to it.
use ebl_base::{ByteList, Checksum, PlatformCode, Reference};
use ebl_edge::StreamLink;
use pint_client::{ClientFault, Incoming, exchange};
use platform_requests::Message;
use std::alloc::{AllocError, Global};
use std::io;
use std::net::TcpStream;

/// Sends a message, by the words: an address, a kind, and how many bytes. Writes the status and the length of the body,
/// or why there is no reply. False where the words are wrong.
pub(crate) fn ask(rt: &HostRuntime, words: &[String]) -> io::Result<bool> {
    let [address, kind, size] = words else {
        return Ok(false);
    };
    let Ok(size) = size.as_str().parse::<u32>() else {
        return Ok(false);
    };
    match message(rt.alloc(), kind.as_str(), size as usize)? {
        Some(out) => {
            let done = exchanged(rt, address.as_str(), &out);
            drop(out);
            done
        }
        None => Ok(false),
    }
}

// A message of this kind with so many bytes, each an x.
fn message(alloc: Global, kind: &str, size: usize) -> Result<Option<Message>, AllocError> {
    let Some(to) = PlatformCode::try_new(b"BETA") else {
        return Ok(None);
    };
    let bill = Checksum([0; 32]);
    let reference = Reference([10; 16]);
    let bytes = ByteList::from_vec(vec![in alloc; b'x'; size]?);
    Ok(match kind {
        "start" => Some(Message::Start {
            to,
            bill,
            body: bytes,
        }),
        "put" => Some(Message::Put {
            to,
            bill,
            reference,
            checksum: Checksum([11; 32]),
            bytes,
        }),
        "finish" => Some(Message::Finish {
            to,
            bill,
            reference,
        }),
        _ => None,
    })
}

fn exchanged(rt: &HostRuntime, address: &str, out: &Message) -> io::Result<bool> {
    let stream = TcpStream::connect(rt, address)?;
    stream.set_nodelay(true)?;
    let mut link = StreamLink::new(stream);
    let reply = exchange(rt.alloc(), &mut link, out);
    drop(link);
    tell(rt, &reply)?;
    Ok(true)
}

// Writes the status of a reply and the length of its body, or why there is none.
fn tell(rt: &HostRuntime, reply: &Result<Incoming, ClientFault>) -> io::Result<()> {
    match reply {
        Ok(incoming) => println!(rt; "{} {}", incoming.status, incoming.body.len()),
        Err(fault) => println!(rt; "{}", word_of(*fault)),
    }
}

fn word_of(fault: ClientFault) -> &'static str {
    match fault {
        ClientFault::Fault => "fault",
        ClientFault::BadReply => "bad reply",
        ClientFault::NoMemory => "no memory",
    }
}
