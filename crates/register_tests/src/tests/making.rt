//! Records of bills, told by steps. A number stands for the name of an entry and of its document; the texts are empty,
//! since no look-up reads them.
use bill_diary::{Frame, Record};
use ebl_base::{
    ByteList, Chain, ChainLink, CharList, Checksum, Code, Entry, Evidence, Items, Kind, Moment,
    NoMemory, Party, Reason, SharedBytes, SignedText, Transaction,
};
use envelope_manifest::{Manifest, Piece};
use std::alloc::Global;
use std::test::Fail;

pub(crate) fn name(n: u8) -> Checksum {
    Checksum([n; 32])
}

/// What is written down next. A chain has the entries with the numbers from the first to the last.
#[derive(Clone, Copy)]
pub(crate) enum Step {
    Signed,
    Issued,
    SurrenderAsked,
    SurrenderAccepted,
    Parted(u8),
    Settled(u8),
    Regained(u8),
    Begun(u8, u8),
    Stored(u8),
    Taken(u8),
    BegunTaken(u8, u8),
    Declined(u8),
}

/// The parties of the tests, both on one platform, and when they act.
#[derive(Clone, Copy)]
pub(crate) struct Cast {
    carrier: Party,
    exporter: Party,
    time: Moment,
}

pub(crate) fn players() -> Result<Cast, Fail> {
    Ok(Cast {
        carrier: Party::from_text(b"ALPH/CARRIER").ok_or("a party")?,
        exporter: Party::from_text(b"ALPH/EXPORT").ok_or("a party")?,
        time: Moment::try_new(0).ok_or("a moment")?,
    })
}

fn manifest(alloc: Global, bill: Checksum, n: u8) -> Result<Manifest, NoMemory> {
    let mut documents = Items::new(alloc);
    documents.push(piece(alloc, n))?;
    Ok(Manifest {
        bill,
        last: name(n),
        documents,
    })
}

fn piece(alloc: Global, n: u8) -> Piece {
    Piece {
        name: CharList::new(alloc),
        media: CharList::new(alloc),
        size: 1,
        checksum: name(n),
    }
}

fn declined(bill: Checksum, n: u8) -> Record {
    Record::Declined {
        bill,
        entry: name(n),
        code: Code::DisputedEnvelope,
        reason: Reason::Parts,
        evidence: Evidence {
            own: None,
            theirs: None,
        },
    }
}

fn stored(alloc: Global, bill: Checksum, n: u8) -> Record {
    Record::Stored {
        bill,
        entry: name(n),
        checksum: name(n),
        bytes: ByteList::new(alloc),
    }
}

impl Cast {
    fn act(self, kind: Kind, actor: Party, recipient: Option<Party>) -> Transaction {
        Transaction {
            kind,
            actor,
            recipient,
            time: self.time,
        }
    }

    fn acted(self, bill: Checksum, kind: Kind, actor: Party, recipient: Option<Party>) -> Record {
        Record::Acted {
            bill,
            transaction: self.act(kind, actor, recipient),
        }
    }

    fn link(self, alloc: Global, bill: Checksum, n: u8) -> ChainLink {
        ChainLink {
            text: SignedText(SharedBytes::new()),
            name: name(n),
            entry: Entry {
                platform: self.carrier.platform,
                bill,
                previous: None,
                attempt: 1,
                transactions: Items::new(alloc),
            },
        }
    }

    fn chain(self, alloc: Global, bill: Checksum, first: u8, last: u8) -> Result<Chain, NoMemory> {
        let mut links = Vec::new(alloc);
        for n in first..=last {
            links.push(self.link(alloc, bill, n))?;
        }
        Chain::from_vec(alloc, links)
    }

    fn begun(self, alloc: Global, bill: Checksum, first: u8, last: u8) -> Result<Record, NoMemory> {
        let manifest = manifest(alloc, bill, last)?;
        let chain = self.chain(alloc, bill, first, last)?;
        Ok(Record::Begun {
            bill,
            chain,
            manifest,
            body: ByteList::new(alloc),
        })
    }

    fn signed(self, alloc: Global, bill: Checksum) -> Record {
        Record::Signed {
            bill,
            document: ByteList::new(alloc),
            transaction: self.act(Kind::Sign, self.carrier, None),
        }
    }

    fn parted(self, alloc: Global, bill: Checksum, n: u8) -> Result<Record, NoMemory> {
        let manifest = manifest(alloc, bill, n)?;
        Ok(Record::Parted {
            bill,
            link: self.link(alloc, bill, n),
            manifest,
            manifest_text: SignedText(SharedBytes::new()),
        })
    }

    fn record(self, alloc: Global, bill: Checksum, step: Step) -> Result<Record, NoMemory> {
        match step {
            Step::Signed => Ok(self.signed(alloc, bill)),
            Step::Issued => Ok(self.acted(bill, Kind::Issue, self.carrier, Some(self.exporter))),
            Step::SurrenderAsked => Ok(self.acted(
                bill,
                Kind::SurrenderForDelivery,
                self.exporter,
                None,
            )),
            Step::SurrenderAccepted => Ok(self.acted(
                bill,
                Kind::SurrenderAccepted,
                self.carrier,
                None,
            )),
            Step::Parted(n) => self.parted(alloc, bill, n),
            Step::Settled(n) => Ok(Record::Settled {
                bill,
                entry: name(n),
            }),
            Step::Regained(n) => Ok(Record::Regained {
                bill,
                entry: name(n),
            }),
            Step::Begun(first, last) | Step::BegunTaken(first, last) => {
                self.begun(alloc, bill, first, last)
            }
            Step::Stored(n) => Ok(stored(alloc, bill, n)),
            Step::Taken(n) => Ok(Record::Taken {
                bill,
                entry: name(n),
            }),
            Step::Declined(n) => Ok(declined(bill, n)),
        }
    }

    pub(crate) fn frame(
        self,
        alloc: Global,
        bill: Checksum,
        step: Step,
    ) -> Result<Frame, NoMemory> {
        let record = self.record(alloc, bill, step)?;
        match step {
            Step::BegunTaken(..) => Ok(Frame::BegunTaken(record)),
            _ => Ok(Frame::One(record)),
        }
    }
}
