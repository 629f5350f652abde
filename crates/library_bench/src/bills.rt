//! A register whose bills are told by numbers. The texts of its records are empty.
use bill_diary::{Frame, Record};
use ebl_base::{
    Chain, ChainLink, Checksum, Entry, Items, Kind, Moment, NoMemory, Party, SharedBytes,
    SignedText, Transaction, TransactionList,
};
use envelope_manifest::Manifest;
use std::alloc::Global;
use title_register::Register;
use upload_state::reference_of;

/// Signs and issues so many bills, adds the first so many of five frames of each of the rows' bills, and asks the
/// look-up of a number once a row. None comes where memory ran out.
pub(crate) fn register_bills(
    alloc: Global,
    bills: u32,
    rows: u32,
    events: u32,
    asked: u32,
    entries: u8,
) -> Option<()> {
    let mut made = Bills::new(alloc, entries)?;
    let done = carry_out(alloc, &mut made, bills, rows, events, asked);
    drop(made);
    done
}

// The bills are lent, so that they are dropped at one place and not at each `?`.
fn carry_out(
    alloc: Global,
    made: &mut Bills,
    bills: u32,
    rows: u32,
    events: u32,
    asked: u32,
) -> Option<()> {
    for number in 0..bills {
        made.fill(alloc, number).ok()?;
    }
    for number in 0..rows {
        made.add_frames(alloc, number, events).ok()?;
    }
    let mut answers = 0u32;
    for number in 0..rows {
        answers = answers.wrapping_add(made.ask(number, asked));
    }
    // An answer that nothing reads could be left out.
    if answers == u32::MAX { None } else { Some(()) }
}

// A register, who acts in it, and when, and how many entries a chain has that comes back.
#[derive(Drop)]
struct Bills {
    register: Register,
    carrier: Party,
    exporter: Party,
    importer: Party,
    time: Moment,
    entries: u8,
}

// The name of a bill by its number, or of one of its entries: spread as a checksum is.
fn name(number: u32, entry: u8) -> Checksum {
    let mut bytes = [entry; 32];
    let [a, b, c, d] = number.wrapping_mul(2654435761).to_be_bytes();
    bytes[0] = a;
    bytes[1] = b;
    bytes[2] = c;
    bytes[3] = d;
    Checksum(bytes)
}

fn manifest(alloc: Global, bill: Checksum, last: Checksum) -> Manifest {
    Manifest {
        bill,
        last,
        documents: Items::new(alloc),
    }
}

impl Bills {
    // No bill.
    fn new(alloc: Global, entries: u8) -> Option<Bills> {
        let carrier = Party::from_text(b"ALPH/CARRIER")?;
        let exporter = Party::from_text(b"ALPH/EXPORT")?;
        let importer = Party::from_text(b"BETA/IMPORT")?;
        let time = Moment::try_new(0)?;
        Some(Bills {
            register: Register::new(alloc),
            carrier,
            exporter,
            importer,
            time,
            entries,
        })
    }

    fn write(&mut self, alloc: Global, frame: Frame) -> Result<(), NoMemory> {
        match self.register.reserve(alloc, &frame) {
            Ok(()) => {
                self.register.add(frame);
                Ok(())
            }
            Err(fault) => {
                drop(frame);
                Err(fault)
            }
        }
    }

    fn transaction(&self, kind: Kind, actor: Party, recipient: Option<Party>) -> Transaction {
        Transaction {
            kind,
            actor,
            recipient,
            time: self.time,
        }
    }

    // An entry by its number, of a bill that goes to and fro; the first one has what was done before.
    fn link(&self, alloc: Global, bill: u32, number: u8) -> Result<ChainLink, NoMemory> {
        let transactions = self.transactions(alloc, number)?;
        let from = if number % 2 == 1 {
            self.exporter
        } else {
            self.importer
        };
        Ok(ChainLink {
            text: SignedText(SharedBytes::new()),
            name: name(bill, number),
            entry: Entry {
                platform: from.platform,
                bill: name(bill, 0),
                previous: None,
                attempt: 1,
                transactions,
            },
        })
    }

    fn transactions(&self, alloc: Global, number: u8) -> Result<TransactionList, NoMemory> {
        let sign = self.transaction(Kind::Sign, self.carrier, None);
        let issue = self.transaction(Kind::Issue, self.carrier, Some(self.exporter));
        let there = self.transaction(Kind::Transfer, self.exporter, Some(self.importer));
        let back = self.transaction(Kind::Transfer, self.importer, Some(self.exporter));
        if number == 1 {
            return Items::from_slice(alloc, &[sign, issue, there]);
        }
        Items::from_slice(alloc, &[if number % 2 == 1 { there } else { back }])
    }

    // A bill more, signed and issued.
    fn fill(&mut self, alloc: Global, number: u32) -> Result<(), NoMemory> {
        let bill = name(number, 0);
        let transaction = self.transaction(Kind::Sign, self.carrier, None);
        let signed = Record::Signed {
            bill,
            document: Items::new(alloc),
            transaction,
        };
        self.write(alloc, Frame::One(signed))?;
        let transaction = self.transaction(Kind::Issue, self.carrier, Some(self.exporter));
        self.write(alloc, Frame::One(Record::Acted { bill, transaction }))
    }

    // The first so many of five frames, of the bill of this number.
    fn add_frames(&mut self, alloc: Global, number: u32, events: u32) -> Result<(), NoMemory> {
        for event in 0..5 {
            if event < events {
                self.add(alloc, number, event)?;
            }
        }
        Ok(())
    }

    fn add(&mut self, alloc: Global, number: u32, event: u32) -> Result<(), NoMemory> {
        match event {
            1 => self.part(alloc, number),
            2 => self.settle(alloc, number),
            3 => self.come_back(alloc, number),
            _ => self.endorse(alloc, number),
        }
    }

    // The bill parts by its first entry.
    fn part(&mut self, alloc: Global, number: u32) -> Result<(), NoMemory> {
        let link = self.link(alloc, number, 1)?;
        let bill = name(number, 0);
        let parted = Record::Parted {
            bill,
            link,
            manifest: manifest(alloc, bill, name(number, 1)),
            manifest_text: SignedText(SharedBytes::new()),
        };
        self.write(alloc, Frame::One(parted))
    }

    fn settle(&mut self, alloc: Global, number: u32) -> Result<(), NoMemory> {
        let (bill, entry) = (name(number, 0), name(number, 1));
        self.write(alloc, Frame::One(Record::Settled { bill, entry }))
    }

    fn come_back(&mut self, alloc: Global, number: u32) -> Result<(), NoMemory> {
        let chain = self.chain(alloc, number)?;
        let bill = name(number, 0);
        let begun = Record::Begun {
            bill,
            chain,
            manifest: manifest(alloc, bill, name(number, self.entries)),
            body: Items::new(alloc),
        };
        self.write(alloc, Frame::BegunTaken(begun))
    }

    // The exporter endorses the bill to itself.
    fn endorse(&mut self, alloc: Global, number: u32) -> Result<(), NoMemory> {
        let bill = name(number, 0);
        let transaction = self.transaction(Kind::Endorse, self.exporter, Some(self.exporter));
        self.write(alloc, Frame::One(Record::Acted { bill, transaction }))
    }

    // The chain by which the bill of this number comes back.
    fn chain(&self, alloc: Global, number: u32) -> Result<Chain, NoMemory> {
        let mut links = Vec::new(alloc);
        for before in 0..self.entries {
            links.push(self.link(alloc, number, before + 1)?)?;
        }
        Chain::from_vec(alloc, links)
    }

    // Whether a look-up of a bill finds something, as a number; 0 where no look-up has this number.
    fn ask(&self, number: u32, asked: u32) -> u32 {
        let register = &self.register;
        let bill = name(number, 0);
        let entry = name(number, self.entries);
        let found = match asked {
            1 => register.may_act(bill),
            2 => register.title(bill).is_ok(),
            3 => register.known(bill).is_some(),
            4 => register.parting(bill).is_some(),
            5 => !register.since(bill).is_empty(),
            6 => !register.pieces(bill).is_empty(),
            7 => register.partings(bill) != 0,
            8 => register.signed(bill).is_some(),
            9 => register.parted(bill).is_some(),
            10 => register.came(bill).is_some(),
            11 => register.begun(reference_of(bill, entry)).is_some(),
            12 => register.taken(entry),
            13 => register.declined(entry).is_some(),
            14 => register.kept(bill, entry).is_some(),
            _ => false,
        };
        u32::from(found)
    }
}
