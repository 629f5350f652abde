//! What holds of every signed text.
ghost use Rattle.std.specs.Prelude.{◌≡◌, ◌≢◌, ◌+◌, ◌*◌, ℕ, ◌≤◌, true, List, Option, length};
ghost use Rattle.ebl_base.specs.PlatformCode.{IsCode};
ghost use Rattle.ebl_base.specs.declared.platform_code.PlatformCode.{PlatformCode};
ghost use Rattle.ebl_base.specs.declared.signature.Signature.{Signature};
ghost use Rattle.canonical_json.specs.Canon.{canon};
ghost use Rattle.canonical_json.specs.Lawful.{HasTexts, IsLawful};
ghost use Rattle.canonical_json.specs.Value.{Value, depth};
ghost use Rattle.signed_envelope.specs.Compact.{IsCompact};
ghost use Rattle.signed_envelope.specs.Header.{header_text, header_value};
ghost use Rattle.signed_envelope.specs.KeyRing.{Keys};
ghost use Rattle.signed_envelope.specs.Refusal.{IsRefused, is_asked};
ghost use Rattle.signed_envelope.specs.SignedText.{IsComposed, IsSigned};
ghost use Rattle.signed_envelope.specs.declared.alg.Alg.{Alg};
ghost use Rattle.signed_envelope.specs.declared.compact.Parts.{Parts};
ghost use Rattle.signed_envelope.specs.declared.fault.BadSigned.{BadSigned};
ghost use Rattle.signed_envelope.specs.declared.fault.BadSigned.TheVariants.{NoMemory};

/// A text has one division into parts, one signer and one payload.
pub fn signed_text_has_one_reading()
    ensures parts { (most : ℕ) (text : List ℕ) (a b : Parts)
        → IsCompact most text a → IsCompact most text b → a ≡ b }
    ensures signed { (keys : Keys) (most : ℕ) (text : List ℕ) (p q : PlatformCode) (v w : Value)
        → IsSigned keys most text p v → IsSigned keys most text q w → (p ≡ q) × (v ≡ w) }
{}

/// A text that is refused, except when memory runs out, is not signed by a platform that was asked for.
pub fn refused_text_is_not_signed()
    ensures { (keys : Keys) (most : ℕ) (asked : Option PlatformCode) (text : List ℕ)
        (e : BadSigned) (who : PlatformCode) (value : Value)
        → IsRefused keys most asked text e → e ≢ NoMemory
        → IsSigned keys most text who value → is_asked asked who ≡ true → ⊥ }
{}

/// The header that is written is canonical (RFC 8785), and a composed text is signed, where the value nests at most
/// 127 deep.
pub fn composed_text_is_signed()
    ensures header { (alg : Alg) (who : PlatformCode) → header_text alg who ≡ canon (header_value alg who) }
    ensures signed { (keys : Keys) (most : ℕ) (text : List ℕ)
        (who : PlatformCode) (value : Value) (signature : Signature)
        → IsComposed keys text who value signature → length text ≤ most → IsCode who
        → IsLawful value → HasTexts value → depth value ≤ 127 → IsSigned keys most text who value }
{}

/// A composed text has four bytes for each three of its payload, and at most 127 more: so a payload of at most 9,000
/// bytes fits in 16,384.
pub fn composed_texts_are_short()
    ensures length { (keys : Keys) (text : List ℕ) (who : PlatformCode) (value : Value) (signature : Signature)
        → IsComposed keys text who value signature → IsCode who
        → 3 * length text ≤ 4 * length (canon value) + 380 }
    ensures within { (keys : Keys) (text : List ℕ) (who : PlatformCode) (value : Value) (signature : Signature)
        → IsComposed keys text who value signature → IsCode who
        → length (canon value) ≤ 9000 → length text ≤ 16384 }
{}
