//! Small forms that many JSON objects have as members, read and written in one way: codes, parties, checksums,
//! whole numbers in a range, lists of a stated length, and members that may be left out.
#![tactic(auto)]

mod bytes;
mod reading;
mod writing;

pub use bytes::{bytes_have_one_spelling, bytes_member, bytes_of, required_bytes};
pub use reading::{
    Malformed, checksum_in, checksums_in, optional_checksum, optional_party, optional_text,
    party_in, platform_in, required_carrier_code, required_checksum, required_items,
    required_number, required_party, required_platform, required_provider,
};
pub use writing::{
    checksum_json, checksum_member, checksums_json, list_json, member, number_json, number_member,
    object_json, party_member, platform_member, text_json, text_member,
};
