//! A shard at which a frame is to be written, and the request that writes it.
use super::runs::{Ask, NO_FRAMES, Place, Run, run_at};
use ebl_base::ByteList;
use std::alloc::Global;

/// Which frame the request writes.
#[derive(Clone, Copy)]
pub(crate) enum Written {
    Signed,
    Parted,
    Taken,
    Declined,
    Settled,
}

/// A platform, what is on its disk, and a text that comes to it with the request.
#[derive(Drop)]
pub(crate) struct Scene {
    written: Written,
    pub(crate) at: &'static str,
    pub(crate) before: ByteList,
    text: ByteList,
}

impl Scene {
    /// The request.
    pub(crate) fn ask(&self) -> Ask<'_> {
        match self.written {
            Written::Signed => Ask::Sign(1),
            Written::Parted => Ask::HandOver("ALPH/EXPORT", "BETA/IMPORT"),
            Written::Settled => Ask::Answer(self.text.as_slice()),
            _ => Ask::Start(self.text.as_slice()),
        }
    }

    /// The platform's disk, of which no call fails.
    pub(crate) fn place(&self) -> Place<'_> {
        Place::sound(self.at, self.before.as_slice())
    }
}

/// A run on a disk without frames, of which no call fails.
pub(crate) fn first_run(alloc: Global, code: &'static str, asks: &[Ask<'_>]) -> Option<Run> {
    run_at(alloc, Place::sound(code, NO_FRAMES), asks)
}

// At ALPH the bill is signed and issued.
fn issued(alloc: Global) -> Option<Run> {
    first_run(alloc, "ALPH", &[Ask::Sign(1), Ask::Issue])
}

// There it is handed over too.
fn parted(alloc: Global, to: &'static str) -> Option<Run> {
    first_run(
        alloc,
        "ALPH",
        &[Ask::Sign(1), Ask::Issue, Ask::HandOver("ALPH/EXPORT", to)],
    )
}

/// The body of the start with which it is handed over.
pub(crate) fn body(alloc: Global, to: &'static str) -> Option<ByteList> {
    Some(parted(alloc, to)?.into_text())
}

// BETA's answer to that start.
fn answer(alloc: Global) -> Option<ByteList> {
    let body = body(alloc, "BETA/IMPORT")?;
    Some(first_run(alloc, "BETA", &[Ask::Start(body.as_slice())])?.into_text())
}

fn before(alloc: Global, written: Written) -> Option<ByteList> {
    match written {
        Written::Parted => Some(issued(alloc)?.into_bytes()),
        Written::Settled => Some(parted(alloc, "BETA/IMPORT")?.into_bytes()),
        _ => ByteList::from_slice(alloc, NO_FRAMES).ok(),
    }
}

fn text(alloc: Global, written: Written) -> Option<ByteList> {
    match written {
        Written::Taken => body(alloc, "BETA/IMPORT"),
        Written::Declined => body(alloc, "BETA/NOBODY"),
        Written::Settled => answer(alloc),
        _ => Some(ByteList::new(alloc)),
    }
}

fn at(written: Written) -> &'static str {
    match written {
        Written::Taken | Written::Declined => "BETA",
        _ => "ALPH",
    }
}

/// The scene of a frame that is to be written.
pub(crate) fn scene_of(alloc: Global, written: Written) -> Option<Scene> {
    let before = before(alloc, written)?;
    let text = text(alloc, written)?;
    Some(Scene {
        written,
        at: at(written),
        before,
        text,
    })
}
