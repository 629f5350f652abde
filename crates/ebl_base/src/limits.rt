//! The limits that platforms keep, with a name each. Specs cite them from `specs.declared.limits.TheConstants`.

/// The most entries of a chain.
pub const MAX_CHAIN_ENTRIES: usize = 64;

/// The most transactions of an entry.
pub const MAX_ENTRY_TRANSACTIONS: usize = 32;

/// The most bytes of the signed text of an entry or a manifest.
pub const MAX_SIGNED_TEXT: usize = 16_384;

/// The most bytes of a sealed response.
pub const MAX_SEALED_RESPONSE: usize = 65_536;

/// The most bytes of a transport document's canonical text.
pub const MAX_TRANSPORT_DOCUMENT: usize = 262_144;

/// The most characters of a transport document's reference.
pub const MAX_DOCUMENT_REFERENCE: usize = 20;

/// The most additional documents of a bill.
pub const MAX_DOCUMENTS: usize = 16;

/// The most bytes of an additional document.
pub const MAX_DOCUMENT_SIZE: u32 = 2_097_152;

/// The most bytes of the additional documents of a bill together.
pub const MAX_DOCUMENTS_SIZE: u32 = 4_194_304;

/// The most bytes of an additional document's name, in UTF-8.
pub const MAX_DOCUMENT_NAME: usize = 128;

/// The most bytes of an additional document's media type, in UTF-8.
pub const MAX_DOCUMENT_MEDIA: usize = 64;

/// The most platforms of a roster.
pub const MAX_ROSTER_PLATFORMS: usize = 8;

/// The most parties of a roster.
pub const MAX_ROSTER_PARTIES: usize = 1024;

/// The most carriers of a roster.
pub const MAX_ROSTER_CARRIERS: usize = 64;

/// The largest whole number of canonical JSON, 2^53 - 1 (RFC 8259, section 6).
pub const MAX_WHOLE_NUMBER: u64 = 9_007_199_254_740_991;

/// The most bytes of a journal.
pub const MAX_JOURNAL: u64 = 16_777_216;

/// The most bytes of a journal after a frame that settles nothing: the rest is kept for frames that settle.
pub const MAX_JOURNAL_UNSETTLED: u64 = 14_680_064;

/// The most bytes of one frame's content.
pub const MAX_FRAME_CONTENT: usize = 16_777_216;
