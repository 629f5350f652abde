//! What holds of every manifest. Each function does nothing: its contract is the law.
ghost use Rattle.std.specs.Prelude.{◌≡◌};
ghost use Rattle.ebl_base.specs.declared.chain.ChainLink.{ChainLink};
ghost use Rattle.ebl_base.specs.declared.checksum.Checksum.{Checksum};
ghost use Rattle.ebl_base.specs.declared.reason.Reason.{Reason};
ghost use Rattle.ebl_base.specs.declared.signed_text.SignedText.{SignedText};
ghost use Rattle.envelope_manifest.specs.declared.manifest.Manifest.{Manifest};
ghost use Rattle.signed_envelope.specs.KeyRing.{Keys};
ghost use Rattle.end_manifest.specs.EndManifest.{IsManifestRefused, Manifests};

/// A text that is refused is no manifest of that entry.
pub fn refused_manifest_is_none()
    ensures { (keys : Keys) (bill : Checksum) (end : ChainLink) (text : SignedText) (manifest : Manifest)
        (reason : Reason) → IsManifestRefused keys bill end text reason → Manifests keys bill end text manifest → ⊥ }
{}

/// A text is refused for one reason at most.
pub fn refused_manifest_has_one_reason()
    ensures { (keys : Keys) (bill : Checksum) (end : ChainLink) (text : SignedText) (a b : Reason)
        → IsManifestRefused keys bill end text a → IsManifestRefused keys bill end text b → a ≡ b }
{}
