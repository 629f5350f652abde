//! The documents that a manifest lists, beside what is stored.
ghost use Rattle.std.specs.Prelude.{◌≡◌, ◌&&◌, ◌↔◌, IfOk, IsTrue, filter};
ghost use Rattle.std.specs.Set.{is_member};
ghost use Rattle.ebl_base.specs.Checksum.{checksum_eq};
ghost use Rattle.ebl_base.specs.declared.checksum.Checksum.{Checksum};
ghost use Rattle.envelope_manifest.specs.Manifest.{checksums_of};
ghost use Rattle.upload_state.specs.Piece.{Fits, each_once, has, is_absent, missing_of};

use document_checksum::checksum;
use ebl_base::{Checksum, ChecksumList, NoMemory};
use envelope_manifest::{Manifest, Piece};
use std::alloc::Global;
use std::collections::BTreeSet;

/// The checksums of the documents that a manifest lists and that aren't stored: in the order of the manifest, each
/// once.
///
/// It keeps the checksums of the manifest in an ordered set, and goes over the manifest twice and once over what is
/// stored: for m documents and n stored checksums it compares some (m + n) log m times, and takes memory for m.
pub fn missing(
    alloc: Global,
    manifest: &Manifest,
    stored: &ChecksumList,
) -> Result<ChecksumList, NoMemory>
    ensures { IfOk result (λ missing. missing ≡ missing_of manifest.now stored.now) }
{
    let pieces = manifest.documents.as_slice();
    let mut wanted = checksums_of(alloc, pieces)?;
    remove_all(&mut wanted, stored.as_slice());
    in_order(alloc, wanted, pieces)
}

// The checksums of some documents.
fn checksums_of(alloc: Global, pieces: &[Piece]) -> Result<BTreeSet<Checksum>, NoMemory>
    ensures { IfOk result (λ set. (c : Checksum) → has set c ≡ is_member checksum_eq (checksums_of pieces.now) c) }
{
    let mut set = BTreeSet::new(alloc);
    for piece in pieces {
        set.insert(piece.checksum)?;
    }
    Ok(set)
}

fn remove_all(set: &mut BTreeSet<Checksum>, checksums: &[Checksum])
    ensures { (c : Checksum) → has set.new c ≡ (has set.old c && is_absent checksums.now c) }
{
    for checksum in checksums {
        set.remove(checksum);
    }
}

// The checksums of the documents that are in the set, each once.
fn in_order(
    alloc: Global,
    mut set: BTreeSet<Checksum>,
    pieces: &[Piece],
) -> Result<ChecksumList, NoMemory>
    ensures { IfOk result (λ list. list ≡ filter (has set) (each_once (checksums_of pieces.now))) }
{
    let mut list = ChecksumList::new(alloc);
    for piece in pieces {
        if set.remove(&piece.checksum) {
            list.push(piece.checksum)?;
        }
    }
    Ok(list)
}

/// Whether bytes are those of a listed document: as many as its size, with its SHA-256 checksum (FIPS 180-4). It
/// allocates nothing, and computes a checksum only when the size agrees.
pub fn fits(piece: &Piece, bytes: &[u8]) -> bool
    ensures { IsTrue result ↔ Fits piece.now bytes.now }
{
    bytes.len() == piece.size as usize && checksum(bytes) == piece.checksum
}
