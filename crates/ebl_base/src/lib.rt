//! The nouns that every crate of the workspace shares: platforms, parties, transactions, and the lists that hold them.
#![tactic(auto)]

mod calls;
mod carrier_code;
mod chain;
mod char_list;
mod checksum;
mod code;
mod entry;
mod evidence;
mod failed;
mod faults;
mod front;
mod items;
mod kind;
mod laws;
mod limit_kind;
mod limits;
mod moment;
mod name35;
mod no_memory;
mod party;
mod place_tag;
mod platform_code;
mod provider;
mod reason;
mod reference;
mod segments;
mod shared_items;
mod signature;
mod signed_text;
mod transaction;

pub use calls::{CallList, Calls};
pub use carrier_code::CarrierCode;
pub use chain::{Chain, ChainLink};
pub use char_list::CharList;
pub use checksum::{Checksum, ChecksumList};
pub use code::Code;
pub use entry::Entry;
pub use evidence::Evidence;
pub use failed::Failed;
pub use faults::count_fault;
pub use items::{ByteList, Copied, Items};
pub use kind::Kind;
pub use laws::{code_and_name_make_a_party, party_has_a_code_and_a_name};
pub use limit_kind::LimitKind;
pub use limits::{
    MAX_CHAIN_ENTRIES, MAX_DOCUMENT_MEDIA, MAX_DOCUMENT_NAME, MAX_DOCUMENT_REFERENCE,
    MAX_DOCUMENT_SIZE, MAX_DOCUMENTS, MAX_DOCUMENTS_SIZE, MAX_ENTRY_TRANSACTIONS,
    MAX_FRAME_CONTENT, MAX_JOURNAL, MAX_JOURNAL_UNSETTLED, MAX_ROSTER_CARRIERS, MAX_ROSTER_PARTIES,
    MAX_ROSTER_PLATFORMS, MAX_SEALED_RESPONSE, MAX_SIGNED_TEXT, MAX_TRANSPORT_DOCUMENT,
    MAX_WHOLE_NUMBER,
};
pub use moment::Moment;
pub use name35::Name35;
pub use no_memory::NoMemory;
pub use party::{Party, PartyText};
pub use place_tag::PlaceTag;
pub use platform_code::PlatformCode;
pub use provider::Provider;
pub use reason::Reason;
pub use reference::Reference;
pub use segments::first_segment;
pub use shared_items::{SharedBytes, SharedItems};
pub use signature::Signature;
pub use signed_text::{SignedText, TextList};
pub use transaction::{Transaction, TransactionList};
