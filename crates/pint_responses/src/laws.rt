//! What holds of every response. The functions do nothing: their contracts are the laws.
ghost use Rattle.std.specs.Prelude.{◌≡◌, ◌≢◌, ◌≤◌, ℕ, List, Some, Ok, length};
ghost use Rattle.ebl_base.specs.PlatformCode.{code_of, code_text};
ghost use Rattle.ebl_base.specs.declared.limits.TheConstants.{MAX_SEALED_RESPONSE};
ghost use Rattle.ebl_base.specs.declared.platform_code.PlatformCode.{PlatformCode};
ghost use Rattle.ebl_base.specs.declared.signature.Signature.{Signature};
ghost use Rattle.canonical_json.specs.Canon.{canon};
ghost use Rattle.canonical_json.specs.Lawful.{HasTexts};
ghost use Rattle.canonical_json.specs.Value.{Value};
ghost use Rattle.signed_envelope.specs.KeyRing.{Keys};
ghost use Rattle.signed_envelope.specs.SignedText.{IsComposed};
ghost use Rattle.signed_envelope.specs.declared.fault.BadSigned.TheVariants.{WrongKey};
ghost use Rattle.pint_responses.specs.Reading.{response_of};
ghost use Rattle.pint_responses.specs.Response.{IsAllowed};
ghost use Rattle.pint_responses.specs.Sealed.{IsSealed, IsUnsealFault};
ghost use Rattle.pint_responses.specs.Writing.{response_value};
ghost use Rattle.pint_responses.specs.declared.fault.UnsealFault.{UnsealFault};
ghost use Rattle.pint_responses.specs.declared.fault.UnsealFault.TheVariants as faults;
ghost use Rattle.pint_responses.specs.declared.response.Response.{Response};

use canonical_json::equal_texts_have_equal_values;
use signed_envelope::composed_text_is_signed;

/// A well-formed response is read as it is written, what is read of a value with texts of UTF-8 is well-formed, and no
/// two such responses have one text.
pub fn written_response_is_read()
    ensures read { (r : Response) → IsAllowed r → response_of (response_value r) ≡ Ok r }
    ensures allowed { (v : Value) (r : Response) → HasTexts v → response_of v ≡ Ok r → IsAllowed r }
    ensures one { (r t : Response) → IsAllowed r → IsAllowed t
        → canon (response_value r) ≡ canon (response_value t) → r ≡ t }
{
    equal_texts_have_equal_values();
}

/// A well-formed response is unsealed as it was sealed.
pub fn sealed_response_is_unsealed()
    ensures { (keys : Keys) (text : List ℕ) (who : PlatformCode) (r : Response) (s : Signature)
        → IsComposed keys text who (response_value r) s → length text ≤ MAX_SEALED_RESPONSE
        → code_of (code_text who) ≡ Some who → IsAllowed r → IsSealed keys text who r }
{
    composed_text_is_signed();
}

/// A text is one response, of one platform.
pub fn sealed_text_is_one_response()
    ensures { (keys : Keys) (text : List ℕ) (p q : PlatformCode) (r t : Response)
        → IsSealed keys text p r → IsSealed keys text q t → (p ≡ q) × (r ≡ t) }
{}

/// A text that is refused, except when memory runs out, is no response of that platform; and a response of another
/// platform is refused for its key.
pub fn refused_text_is_no_response()
    ensures refused { (keys : Keys) (text : List ℕ) (who : PlatformCode) (r : Response) (e : UnsealFault)
        → IsUnsealFault keys text who e → e ≢ faults.NoMemory → ¬ IsSealed keys text who r }
    ensures other { (keys : Keys) (text : List ℕ) (who other : PlatformCode) (r : Response) (e : UnsealFault)
        → IsSealed keys text who r → who ≢ other → IsUnsealFault keys text other e → e ≢ faults.NoMemory
        → e ≡ faults.Signature WrongKey }
{}
