//! The canonical texts of transactions and of listed documents (RFC 8785).
ghost use Rattle.std.specs.Prelude.{◌≡◌, IfOk};
ghost use Rattle.canonical_json.specs.Canon.{canon};
ghost use Rattle.chain_entry.specs.Writing.{transaction_value};
ghost use Rattle.envelope_manifest.specs.Piece.{piece_value};

use canonical_json::write;
use chain_entry::encode_transaction;
use ebl_base::{ByteList, NoMemory, Transaction};
use envelope_manifest::{Piece, encode_piece};
use std::alloc::Global;

/// The text of a transaction, without further members.
pub(crate) fn transaction_text(
    alloc: Global,
    transaction: &Transaction,
) -> Result<ByteList, NoMemory>
    ensures { IfOk result (λ text. text ≡ canon (transaction_value transaction.now)) }
{
    let json = encode_transaction(alloc, transaction)?;
    write(alloc, &json)
}

/// The text of a listed document, without further members.
pub(crate) fn piece_text(alloc: Global, piece: &Piece) -> Result<ByteList, NoMemory>
    ensures { IfOk result (λ text. text ≡ canon (piece_value piece.now)) }
{
    let json = encode_piece(alloc, piece)?;
    write(alloc, &json)
}
