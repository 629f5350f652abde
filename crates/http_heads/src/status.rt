//! The statuses of a platform's replies.
ghost use Rattle.std.specs.Prelude.{◌≡◌, ◌≤◌, ◌<◌};
ghost use Rattle.http_heads.specs.Status.{phrase_of, status_number};

use http::StatusCode;

/// The status of a reply (RFC 9110, section 15).
#[derive(Clone, Copy, Debug, PartialEq, Eq)]
pub enum Status {
    /// 200
    Ok,
    /// 201
    Created,
    /// 204
    NoContent,
    /// 400
    BadRequest,
    /// 404
    NotFound,
    /// 405
    MethodNotAllowed,
    /// 409
    Conflict,
    /// 411
    LengthRequired,
    /// 413
    PayloadTooLarge,
    /// 422
    UnprocessableEntity,
    /// 500
    InternalServerError,
    /// 501
    NotImplemented,
    /// 502
    BadGateway,
    /// 503
    ServiceUnavailable,
    /// 507
    InsufficientStorage,
}

impl Status {
    /// The number of the status.
    pub fn number(self) -> u16
        ensures number { result ≡ status_number self }
        ensures least { 100 ≤ result }
        ensures most { result < 1000 }
    {
        match self {
            Status::Ok => 200,
            Status::Created => 201,
            Status::NoContent => 204,
            Status::BadRequest => 400,
            Status::NotFound => 404,
            Status::MethodNotAllowed => 405,
            Status::Conflict => 409,
            Status::LengthRequired => 411,
            Status::PayloadTooLarge => 413,
            Status::UnprocessableEntity => 422,
            Status::InternalServerError => 500,
            Status::NotImplemented => 501,
            Status::BadGateway => 502,
            Status::ServiceUnavailable => 503,
            Status::InsufficientStorage => 507,
        }
    }

    /// The phrase that goes with the number, as `Not Found`: that of the crate `http`.
    pub fn phrase(self) -> &'static str
        ensures { result.now ≡ phrase_of self }
    {
        match StatusCode::from_u16(self.number()) {
            Ok(code) => code.canonical_reason().unwrap_or(""),
            Err(_) => "",
        }
    }
}
