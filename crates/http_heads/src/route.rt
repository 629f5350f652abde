//! What a request is about.
ghost use Rattle.std.specs.Prelude.{◌≡◌};
ghost use Rattle.http_heads.specs.Route.{method_of, states_length};

use ebl_base::{Checksum, Reference};

/// What the path of a request is about, with what stands in it.
#[derive(Clone, Copy, Debug, PartialEq, Eq)]
pub enum Route {
    /// `POST /v3/envelopes`: another platform starts a transfer.
    Start,
    /// `PUT /v3/envelopes/{reference}/additional-documents/{checksum}`: it sends an additional document.
    Document {
        reference: Reference,
        checksum: Checksum,
    },
    /// `PUT /v3/envelopes/{reference}/finish-transfer`: it finishes the transfer.
    Finish {
        reference: Reference,
    },
    /// `POST /v3/receiver-validation`: whether a party is known here.
    Validation,
    /// `POST /v3/holder-commands`: a party's command.
    Command,
    /// `GET /v3/bills/{bill}`: how a bill is here.
    Bill {
        bill: Checksum,
    },
}

impl Route {
    /// The method of the route, as `POST`.
    pub fn method(self) -> &'static [u8]
        ensures { result.now ≡ method_of self }
    {
        match self {
            Route::Start | Route::Validation | Route::Command => b"POST",
            Route::Document { .. } | Route::Finish { .. } => b"PUT",
            Route::Bill { .. } => b"GET",
        }
    }

    /// Whether a request of the route must state the length of its body.
    pub fn states_length(self) -> bool
        ensures { result ≡ states_length self }
    {
        !matches!(self, Route::Finish { .. } | Route::Bill { .. })
    }
}
