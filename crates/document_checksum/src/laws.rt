//! What holds of every checksum.
ghost use Rattle.std.specs.Prelude.{◌≡◌, ℕ, List, Some, IfSome};
ghost use Rattle.ebl_base.specs.declared.checksum.Checksum.{Checksum};
ghost use Rattle.document_checksum.specs.Digest.{IsChecksum, checksum_of};
ghost use Rattle.document_checksum.specs.Text.{checksum_text, checksum_of_text};

/// Checksums and their texts stand for each other. It does nothing: its contract is the law.
pub fn texts_stand_for_checksums()
    ensures name { (text : List ℕ) → IsChecksum (checksum_of text) }
    ensures taken { (c : Checksum) → IsChecksum c → checksum_of_text (checksum_text c) ≡ Some c }
    ensures again { (text : List ℕ) → IfSome (checksum_of_text text) (λ c. checksum_text c ≡ text) }
{}
